// Lines on a lent page, from a place on, for the layers above. What has no room on the page is not put there.
// No pen in these calls: their promises, `place_after` and `put_at`, are of a page and a place.
ghost use Rattle.std.specs.Prelude.{◌≡◌, ◌++◌};
ghost use Rattle.texts.specs.Bytes.{bytes};
ghost use Rattle.texts.specs.Leaf.{digits};
ghost use Rattle.texts.specs.Page.{put_at, place_after};

use crate::pen::Pen;

// The bytes of a word; answers the place after them.
pub fn put_word(page: &mut [u8], at: usize, word: &[u8]) -> usize
    ensures place { result ≡ place_after page.old at word.now }
    ensures bytes { page.new ≡ put_at page.old at word.now }
{
    let size = page.len();
    if size < at || size - at < word.len() {
        return at;
    }
    let mut pen = Pen { page, at };
    pen.put_word(word);
    pen.at
}

// A line: a key, a number of a width with leading zeros, and a byte 10; answers the place after it.
pub fn put_number_line(page: &mut [u8], at: usize, key: &[u8], value: u32, width: usize) -> usize
    ensures place { result ≡ place_after page.old at (key.now ++ (digits width value ++ bytes "\n")) }
    ensures bytes { page.new ≡ put_at page.old at (key.now ++ (digits width value ++ bytes "\n")) }
{
    let size = page.len();
    if size < at || size - at < key.len() || size - at - key.len() <= width {
        return at;
    }
    let mut pen = Pen { page, at };
    pen.put_number_line(key, value, width);
    pen.at
}
