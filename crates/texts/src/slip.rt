// The slip: who pays whom how much, and which slips of other shops it depends on.
ghost use Rattle.std.specs.Prelude.{◌≡◌, true, MatchOption};
ghost use Rattle.std.proofs.Math.Option.{none, some};
ghost use Rattle.texts.specs.Slip.{no_slip, slip_layout, slip_in, slip_read, slip_written, slip_buffer, slip_said};
ghost use Rattle.texts.specs.Inside.{Room, Wrote};
ghost use Rattle.texts.specs.Written.{written};

use crate::answers::Refusal;
use crate::bounds::{COUNT_WIDTH, MOST, MOST_DEPS, NUMBER_WIDTH, SHOPS, SLIP_ROOM};
use crate::code::Code;
use crate::entry::{Entry, entries_fit, put_entries};
use crate::pen::Pen;
use crate::reader::Reader;

// `count` dependencies, each the first `number` slips of a shop, zeros in the places that are not used.
// The last place is never used: shops and dependencies have one type of list.
// A count beside the places, and no fact in the type: `slip_layout` speaks of slips whatever stands in each place.
#[derive(Clone, Copy)]
pub struct Slip {
    pub payer: Code,
    pub number: u32,
    pub payee: Code,
    pub amount: u32,
    pub count: usize,
    pub deps: [Entry; SHOPS],
}

impl Slip {
    // The slip of zeros.
    pub fn none() -> Self
        ensures { result ≡ no_slip }
    {
        Slip {
            payer: Code::none(),
            number: 0,
            payee: Code::none(),
            amount: 0,
            count: 0,
            deps: [Entry::none(); SHOPS],
        }
    }

    // Could a text carry it.
    pub fn fits(self) -> bool
        ensures { result ≡ slip_layout.legal self }
    {
        self.number <= MOST
            && self.amount <= MOST
            && self.count <= MOST_DEPS
            && self.payer.fits()
            && self.payee.fits()
            && entries_fit(&self.deps, self.count)
    }
}

// ---- reading

// A slip, line by line, and nothing after it.
#[tactic(auto, unfolding(crate::specs::Layout::whole, crate::specs::Slip::slip_layout, crate::specs::Slip::slip_in))]
fn parse_slip(text: &[u8]) -> Option<Slip>
    ensures { MatchOption result (slip_in text.now ≡ none) (λ v. slip_in text.now ≡ some v) }
{
    let mut reader = Reader::new(text);
    let payer = reader.code(b"payer=", b'\n')?;
    let number = reader.number(b"number=", NUMBER_WIDTH, 0, MOST)?;
    let payee = reader.code(b"payee=", b'\n')?;
    let amount = reader.number(b"amount=", NUMBER_WIDTH, 0, MOST)?;
    let count = reader.number(b"deps=", COUNT_WIDTH, 0, MOST_DEPS as u32)? as usize;
    let deps = reader.entries(b"dep=", count)?;
    reader.ends().then_some(Slip {
        payer,
        number,
        payee,
        amount,
        count,
        deps,
    })
}

// The slip that a text carries.
pub fn read_slip(text: &[u8]) -> Result<Slip, Refusal>
    ensures { slip_said result ≡ slip_read text.now }
{
    parse_slip(text).ok_or(Refusal::Form)
}

// ---- writing

// A slip, line by line.
fn put_slip(buf: &mut [u8], s: Slip) -> usize
    requires { (slip_layout.legal s ≡ true) × Room buf.old 0 (slip_layout.text s) }
    ensures { Wrote buf.old 0 (slip_layout.text s) buf.new result }
{
    let mut pen = Pen { page: buf, at: 0 };
    pen.put_code_line(b"payer=", s.payer, b'\n');
    pen.put_number_line(b"number=", s.number, NUMBER_WIDTH);
    pen.put_code_line(b"payee=", s.payee, b'\n');
    pen.put_number_line(b"amount=", s.amount, NUMBER_WIDTH);
    pen.put_number_line(b"deps=", s.count as u32, COUNT_WIDTH);
    put_entries(&mut pen, b"dep=", &s.deps[..s.count]);
    pen.at
}

// Writes a slip's text at the front of a lent buffer; answers its length.
// Not one generic function with `write_register`: a trait that says what refuses and how much room is needed is longer than the two.
pub fn write_slip(slip: Slip, buffer: &mut [u8]) -> Result<usize, Refusal>
    ensures answer { written result ≡ slip_written slip buffer.old }
    ensures bytes { buffer.new ≡ slip_buffer slip buffer.old }
{
    if buffer.len() < SLIP_ROOM {
        return Err(Refusal::Room);
    }
    if !slip.fits() {
        return Err(Refusal::Form);
    }
    Ok(put_slip(buffer, slip))
}
