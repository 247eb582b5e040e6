// What a call lends: a buffer whose bytes are all the same before, so that it shows what was written.
ghost use Rattle.std.specs.Prelude.{◌≤◌};
ghost use Rattle.trials.specs.declared.lent.TheConstants.{BUFFER};

use crate::page::Page;
use std::fmt;
use std::fmt::Write;

// The bytes of the buffer, and the byte that fills it before.
const BUFFER: usize = 512;

const FILL: u8 = b'#';

// The first `room` bytes of the buffer are lent; an array, as there is no heap. Callers cut the part out: a method that lends a part of a
// value with a ghost field gets no proof yet.
#[derive(Drop)]
pub(crate) struct Lent {
    pub(crate) bytes: [u8; BUFFER],
    pub(crate) room: usize,
    ghost fits: { room ≤ BUFFER },
}

// Says whether the bytes are as they were filled.
fn put_rest(page: &mut Page, rest: &[u8]) -> fmt::Result {
    if rest.iter().all(|&byte| byte == FILL) {
        page.put(b"rest=kept\n")
    } else {
        page.put(b"rest=lost\n")
    }
}

impl Lent {
    // A buffer that lends so many bytes, where it has them.
    pub(crate) fn new(room: usize) -> Option<Self> {
        if BUFFER < room {
            return None;
        }
        Some(Lent {
            bytes: [FILL; BUFFER],
            room,
        })
    }

    // Prints the first `count` bytes as a text, at most the whole buffer, and whether the rest was kept.
    pub(crate) fn put_text(&self, page: &mut Page, count: usize) -> fmt::Result {
        let (text, rest) = self.bytes.split_at(count.min(BUFFER));
        page.put(text)?;
        put_rest(page, rest)
    }

    // Prints the first `count` bytes as a list of positions, at most the whole buffer, and whether the rest was kept.
    pub(crate) fn put_list(&self, page: &mut Page, count: usize) -> fmt::Result {
        let (list, rest) = self.bytes.split_at(count.min(BUFFER));
        page.put(b"list=")?;
        for position in list {
            write!(page, "{position:02}")?;
        }
        page.put(b"\n")?;
        put_rest(page, rest)
    }
}
