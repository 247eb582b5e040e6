// The reader: it holds its text and a place in it, and each step reads a line and moves past it.
ghost use Rattle.std.specs.Prelude.{◌≡◌, ◌≤◌, List, ℕ, eqb, length, drop, IfSome};
ghost use Rattle.texts.specs.Bounds.{most_shops, number_width};
ghost use Rattle.texts.specs.Layout.{key};
ghost use Rattle.texts.specs.Code.{code};
ghost use Rattle.texts.specs.Lines.{closed, number_line};
ghost use Rattle.texts.specs.Entries.{entry_line, entry_lines};
ghost use Rattle.texts.specs.Inside.{Reads};

use crate::bounds::{MOST, NUMBER_WIDTH, SHOPS};
use crate::code::Code;
use crate::cursor::Cursor;
use crate::entry::Entry;
use std::marker::Model;

// The text, and the place where its next line begins.
#[derive(Drop)]
pub(crate) struct Reader<'a> {
    text: &'a [u8],
    at: Cursor,
}

// Contracts see what is left to read.
impl<'a> Model for Reader<'a> {
    ghost Value = { List ℕ };

    ghost view = { λ r. drop r.at.at r.text.now };

    ghost invariant = { λ r. r.at.at ≤ length r.text.now };
}

impl<'a> Reader<'a> {
    // At the start of a text.
    pub(crate) fn new(text: &'a [u8]) -> Self
        ensures { result ≡ text.entry.now }
    {
        let at = Cursor::start();
        Reader { text, at }
    }

    // Has the whole text been read.
    pub(crate) fn ends(&self) -> bool
        ensures { result ≡ eqb (length self.now) 0 }
    {
        self.at.at == self.text.len()
    }

    // A line of a code.
    pub(crate) fn code(&mut self, name: &[u8], closing: u8) -> Option<Code>
        ensures { Reads (key name.now (code closing)) self.old result self.new }
    {
        let named = self.at.word(self.text, name)?;
        let (code, next) = named.code(self.text, closing)?;
        self.at = next;
        Some(code)
    }

    // A number and the end of its line.
    fn closed_number(&mut self, width: usize, least: u32, upper: u32) -> Option<u32>
        requires { width ≤ number_width }
        ensures upto { IfSome result (λ n. n ≤ upper) }
        ensures reads { Reads (closed width least upper) self.old result self.new }
    {
        let (value, end) = self.at.number(self.text, width, least, upper)?;
        self.at = end.word(self.text, b"\n")?;
        Some(value)
    }

    // A line of a number.
    pub(crate) fn number(
        &mut self,
        name: &[u8],
        width: usize,
        least: u32,
        upper: u32,
    ) -> Option<u32>
        requires { width ≤ number_width }
        ensures upto { IfSome result (λ n. n ≤ upper) }
        ensures reads { Reads (number_line name.now width least upper) self.old result self.new }
    {
        self.at = self.at.word(self.text, name)?;
        self.closed_number(width, least, upper)
    }

    // A line of an entry: a code, a colon and six digits.
    fn entry(&mut self, name: &[u8]) -> Option<Entry>
        ensures { Reads (entry_line name.now) self.old result self.new }
    {
        let code = self.code(name, b':')?;
        let number = self.closed_number(NUMBER_WIDTH, 0, MOST)?;
        Some(Entry { code, number })
    }

    // The lines of n entries.
    pub(crate) fn entries(&mut self, name: &[u8], n: usize) -> Option<[Entry; SHOPS]>
        requires { n ≤ most_shops }
        ensures { Reads (entry_lines name.now n) self.old result self.new }
    {
        let mut entries = [Entry::none(); SHOPS];
        for entry in &mut entries[..n] {
            *entry = self.entry(name)?;
        }
        Some(entries)
    }
}
