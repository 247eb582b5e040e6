// An entry: a code with a number, as the lines `shop=CODE:OPENING` and `dep=CODE:NUMBER` carry it.
ghost use Rattle.std.specs.Prelude.{◌≡◌, true, ◌&&◌, ◌≤◌, length, take, drop};
ghost use Rattle.texts.specs.Bytes.{all_of};
ghost use Rattle.texts.specs.Code.{is_code};
ghost use Rattle.texts.specs.Entries.{no_entry, is_entry, zero_entry, entry_line};
ghost use Rattle.texts.specs.Layout.{joined};
ghost use Rattle.texts.specs.Inside.{RoomFor, Writes};

use crate::bounds::{MOST, NUMBER_WIDTH};
use crate::code::Code;
use crate::pen::Pen;

// A shop with its opening credit, or with the number of its slips that another slip depends on.
#[derive(Clone, Copy, Debug, PartialEq, Eq)]
pub struct Entry {
    pub code: Code,
    pub number: u32,
}

impl Entry {
    // The entry of zeros.
    pub(crate) fn none() -> Self
        ensures { result ≡ no_entry }
    {
        Entry {
            code: Code::none(),
            number: 0,
        }
    }

    // Could a line carry it.
    fn fits(self) -> bool
        ensures { result ≡ is_entry self }
    {
        self.code.fits() && self.number <= MOST
    }

    // Is it the entry of zeros.
    fn is_none(self) -> bool
        ensures { result ≡ zero_entry self }
    {
        self == Entry::none()
    }
}

// Could a text carry these entries: a line can carry each of the first n, and the other places are zero.
pub(crate) fn entries_fit(entries: &[Entry], n: usize) -> bool
    requires { n ≤ length entries.now }
    ensures { result ≡ all_of is_entry (take n entries.now) && all_of zero_entry (drop n entries.now) }
{
    let (used, unused) = entries.split_at(n);
    used.iter().all(|entry| entry.fits()) && unused.iter().all(|entry| entry.is_none())
}

// ---- writing

// A key, a code, a colon and six digits.
fn put_entry(pen: &mut Pen, name: &[u8], entry: Entry)
    requires { (is_code entry.code ≡ true) × RoomFor pen.old ((entry_line name.now).text entry) }
    ensures { Writes pen.old pen.new ((entry_line name.now).text entry) }
{
    pen.put_code_line(name, entry.code, b':');
    pen.put_closed_number(entry.number, NUMBER_WIDTH);
}

// The lines of these entries under a key.
pub(crate) fn put_entries(pen: &mut Pen, name: &[u8], entries: &[Entry])
    requires { (all_of is_entry entries.now ≡ true) × RoomFor pen.old (joined (entry_line name.now) entries.now) }
    ensures { Writes pen.old pen.new (joined (entry_line name.now) entries.now) }
{
    for entry in entries {
        put_entry(pen, name, *entry);
    }
}
