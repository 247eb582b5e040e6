// The page: bytes that wait to be printed, in a room of a fixed size. What has no room is cut off at its end.
ghost use Rattle.std.specs.Prelude.{◌≤◌};
ghost use Rattle.trials.specs.declared.page.TheConstants.{PAGE_ROOM};

use std::io::Write;
use std::{fmt, io};

// The bytes that a page has room for.
const PAGE_ROOM: usize = 49152;
// With so many bytes a page is printed: what a single call prints still has room after them. The longest is a record with a slip
// in each of its places, some 35000 bytes.
const PAGE_FULL: usize = 8192;

// Its first `at` bytes wait to be printed; an array, as there is no heap.
#[derive(Drop)]
pub(crate) struct Page {
    bytes: [u8; PAGE_ROOM],
    at: usize,
    ghost within: { at ≤ PAGE_ROOM },
}

impl Page {
    // A page with nothing on it.
    pub(crate) fn new() -> Self {
        Page {
            bytes: [0; PAGE_ROOM],
            at: 0,
        }
    }

    // Puts the bytes after those that wait; an error where they do not all have room.
    pub(crate) fn put(&mut self, bytes: &[u8]) -> fmt::Result {
        let at = self.at;
        let count = bytes.len().min(PAGE_ROOM - at);
        self.bytes[at..at + count].copy_from_slice(&bytes[..count]);
        self.at = at + count;
        if count < bytes.len() {
            return Err(fmt::Error);
        }
        Ok(())
    }

    // Is it time to print it.
    pub(crate) fn is_full(&self) -> bool {
        PAGE_FULL < self.at
    }

    // Prints what waits; then nothing does.
    pub(crate) fn print(&mut self, rt: &impl Print) -> io::Result<()> {
        io::writer(rt).write_all(&self.bytes[..self.at])?;
        self.at = 0;
        Ok(())
    }
}

impl fmt::Write for Page {
    fn write_str(&mut self, text: &str) -> fmt::Result {
        self.put(text.as_bytes())
    }
}
