// A pen writes on a lent page from a place on: words, numbers, codes, lines.
ghost use Rattle.std.specs.Prelude.{◌≡◌, true, ◌++◌};
ghost use Rattle.texts.specs.Bytes.{bytes};
ghost use Rattle.texts.specs.Leaf.{digits};
ghost use Rattle.texts.specs.Layout.{key};
ghost use Rattle.texts.specs.Code.{code, is_code};
ghost use Rattle.texts.specs.Inside.{RoomFor, Writes};

use crate::code::Code;

// The lent page, and the place where the next byte is put.
#[derive(Drop)]
pub(crate) struct Pen<'a> {
    pub(crate) page: &'a mut [u8],
    pub(crate) at: usize,
}

impl Pen<'_> {
    // The bytes w, one by one, which for short words costs less than `copy_from_slice`.
    pub(crate) fn put_word(&mut self, w: &[u8])
        requires { RoomFor self.old w.now }
        ensures { Writes self.old self.new w.now }
    {
        for (i, &byte) in w.iter().enumerate() {
            self.page[self.at + i] = byte;
        }
        self.at += w.len();
    }

    // A number at a width, with leading zeros. By hand: `write!` would need a writer over the page, which is no plainer.
    fn put_number(&mut self, value: u32, width: usize)
        requires { RoomFor self.old (digits width value) }
        ensures { Writes self.old self.new (digits width value) }
    {
        let mut left = value;
        for i in (0..width).rev() {
            self.page[self.at + i] = b'0' + (left % 10) as u8;
            left /= 10;
        }
        self.at += width;
    }

    // A key, a code and the byte that closes it.
    pub(crate) fn put_code_line(&mut self, name: &[u8], c: Code, closing: u8)
        requires { (is_code c ≡ true) × RoomFor self.old ((key name.now (code closing)).text c) }
        ensures { Writes self.old self.new ((key name.now (code closing)).text c) }
    {
        self.put_word(name);
        self.put_word(&c.digits[..c.len]);
        self.put_word(&[closing]);
    }

    // A number and the end of its line.
    pub(crate) fn put_closed_number(&mut self, value: u32, width: usize)
        requires { RoomFor self.old (digits width value ++ bytes "\n") }
        ensures { Writes self.old self.new (digits width value ++ bytes "\n") }
    {
        self.put_number(value, width);
        self.put_word(b"\n");
    }

    // A key, a number and the end of the line.
    pub(crate) fn put_number_line(&mut self, name: &[u8], value: u32, width: usize)
        requires { RoomFor self.old (name.now ++ (digits width value ++ bytes "\n")) }
        ensures { Writes self.old self.new (name.now ++ (digits width value ++ bytes "\n")) }
    {
        self.put_word(name);
        self.put_closed_number(value, width);
    }
}
