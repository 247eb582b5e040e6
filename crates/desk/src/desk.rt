// The desk: the input's bytes come in, in windows of any length, and the lines to print go out.
ghost use Rattle.std.specs.Prelude.{◌≡◌, ◌+◌, ◌≤◌, ◌<◌, length, take, false};
ghost use Rattle.texts.specs.Written.{over};
ghost use Rattle.desk.specs.Bounds.{most_said};
ghost use Rattle.desk.specs.Inside.{Prints};
ghost use Rattle.replica.specs.Open.{opened};
ghost use Rattle.replica.specs.Take.{taken};
ghost use Rattle.desk.specs.Printed.{register_line, slip_lines, lent};
ghost use Rattle.desk.specs.Chunks.{empty_line};
ghost use Rattle.desk.specs.Desk.{kept, new_desk, stopped, opens, takes, ends, end_said, keeps, fed, said, unended, last, last_said, closing};

use crate::bounds::{KEPT, PAGE, SLIPS, WINDOW};
use crate::report::Printer;
use replica::Replica;
use replica::bounds::LIST_ROOM;
use texts::number_of;

// The replica; the chunk that is being read, its first bytes alone; whether a line begins here, whether the register was read, whether
// it was refused; how many slip chunks there were. Flags, and a length beside the bytes, since `new_desk`, `opens`, `takes` and `keeps` name
// them, whatever a desk holds.
#[derive(Clone, Copy)]
pub struct Desk {
    pub replica: Replica,
    pub bytes: [u8; KEPT],
    pub len: usize,
    pub begins: bool,
    pub opened: bool,
    pub refused: bool,
    pub slips: u32,
}

impl Desk {
    // A desk at which nothing has come in.
    pub fn new() -> Self
        ensures { result ≡ new_desk }
    {
        Desk {
            replica: Replica::none(),
            bytes: [0u8; KEPT],
            len: 0,
            begins: true,
            opened: false,
            refused: false,
            slips: 0,
        }
    }

    // Is nothing more looked at: the register was refused, or 999,999 slip chunks were there.
    pub fn stops(&self) -> bool
        ensures { result ≡ stopped self.now }
    {
        self.refused || SLIPS <= self.slips
    }

    // The bytes that are kept of the chunk.
    fn chunk(&self) -> &[u8]
        ensures { result.now ≡ kept self.now }
    {
        &self.bytes[..self.len.min(KEPT)]
    }

    // The first chunk ends: it is the register. The room for what a chunk's end says stands in each clause: a printer may have any room.
    fn open(&mut self, printer: &mut Printer)
        requires { printer.old.at + most_said ≤ length printer.old.page.now }
        ensures desk { self.new ≡ opens self.old }
        ensures page { Prints printer.old printer.new (register_line (opened (kept self.old)).answer) }
    {
        let answer = Replica::open(self.chunk());
        self.replica = answer.unwrap_or(Replica::none());
        self.opened = true;
        self.refused = answer.is_err();
        self.len = 0;
        printer.put_register(number_of(answer));
    }

    // A later chunk ends: it is a slip.
    fn take(&mut self, printer: &mut Printer)
        requires { (stopped self.old ≡ false) × (printer.old.at + most_said ≤ length printer.old.page.now) }
        ensures desk { self.new ≡ takes self.old }
        ensures page { Prints printer.old printer.new (slip_lines (self.old.slips + 1) (taken self.old.replica (kept self.old) lent).answer (taken self.old.replica (kept self.old) lent).count) }
    {
        let mut list = [0u8; LIST_ROOM];
        let reply = self.replica.take(self.chunk(), &mut list);
        self.replica = reply.replica;
        self.slips += 1;
        self.len = 0;
        let applied = reply.answer.unwrap_or(0) as u32;
        printer.put_slip(self.slips, number_of(reply.answer), applied);
    }

    // A chunk ends.
    fn close_chunk(&mut self, printer: &mut Printer)
        requires { (stopped self.old ≡ false) × (printer.old.at + most_said ≤ length printer.old.page.now) }
        ensures desk { self.new ≡ ends self.old }
        ensures page { Prints printer.old printer.new (end_said self.old) }
    {
        if self.opened {
            self.take(printer);
        } else {
            self.open(printer);
        }
    }

    // A byte of a chunk: it is kept if there is room.
    fn keep(&mut self, b: u8)
        ensures { self.new ≡ keeps self.old b }
    {
        if self.len < KEPT {
            self.bytes[self.len] = b;
            self.len += 1;
        }
        self.begins = b == b'\n';
    }

    // Is the next byte an empty line: a byte 10 where a line begins.
    fn is_empty_line(&self, b: u8) -> bool
        ensures { result ≡ empty_line self.now.begins b }
    {
        self.begins && b == b'\n'
    }

    // The next bytes of the input: the first n of a window. Answers how many bytes of the page are to be printed.
    pub fn feed(&mut self, window: &[u8; WINDOW], n: usize, page: &mut [u8; PAGE]) -> usize
        ensures desk { self.new ≡ fed self.old (take n window.now) }
        ensures count { result ≡ length (said self.old (take n window.now)) }
        ensures page { page.new ≡ over (said self.old (take n window.now)) page.old }
    {
        let mut printer = Printer { page, at: 0 };
        for &b in &window[..n.min(WINDOW)] {
            if self.stops() {
                break;
            }
            if self.is_empty_line(b) {
                self.close_chunk(&mut printer);
            } else {
                self.keep(b);
            }
        }
        printer.at
    }

    // Is there a chunk that no empty line ended: the register, or one with a byte in it.
    fn is_unended(&self) -> bool
        ensures { result ≡ unended self.now }
    {
        !self.stops() && (!self.opened || self.len != 0)
    }

    // The last chunk, where there is one that no empty line ended.
    fn close_last(&mut self, printer: &mut Printer)
        requires { printer.old.at + most_said ≤ length printer.old.page.now }
        ensures desk { self.new ≡ last self.old }
        ensures page { Prints printer.old printer.new (last_said self.old) }
    {
        if self.is_unended() {
            self.close_chunk(printer);
        }
    }

    // The end of the input: the last chunk, then the shops. Answers how many bytes of the page are to be printed.
    pub fn close(mut self, page: &mut [u8; PAGE]) -> usize
        ensures count { result ≡ length (closing self) }
        ensures page { page.new ≡ over (closing self) page.old }
    {
        let mut printer = Printer { page, at: 0 };
        self.close_last(&mut printer);
        if self.replica.lawful() {
            printer.put_shops(&self.replica);
        }
        printer.at
    }
}
