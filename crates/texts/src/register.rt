// The register: the shops in their order with their opening credit, and which of them is the own shop.
ghost use Rattle.std.specs.Prelude.{◌≡◌, true, MatchOption};
ghost use Rattle.std.proofs.Math.Option.{none, some};
ghost use Rattle.texts.specs.Register.{no_register, register_layout, register_in, twins, shops_of, position, listed, shops_rows, register_answer, register_read, register_written, register_buffer, among, register_said};
ghost use Rattle.texts.specs.Answers.{answer_of, answer_number};
ghost use Rattle.texts.specs.Inside.{Room, Wrote};
ghost use Rattle.texts.specs.Written.{written};

use crate::answers::Refusal;
use crate::bounds::{COUNT_WIDTH, REGISTER_ROOM, SHOPS};
use crate::code::Code;
use crate::entry::{Entry, entries_fit, put_entries};
use crate::pen::Pen;
use crate::reader::Reader;

// `count` shops; the number of each is its opening credit; zeros in the places that are not used.
// A count beside the places, and no fact in the type: `register_layout` and `register_answer` speak of registers whatever stands in each place.
#[derive(Clone, Copy)]
pub struct Register {
    pub count: usize,
    pub shops: [Entry; SHOPS],
    pub own: Code,
}

// ---- the shops

// Is the code one of these shops'.
fn among(shops: &[Entry], code: Code) -> bool
    ensures { result ≡ among shops.now code }
{
    shops.iter().any(|shop| shop.code == code)
}

// Are there two equal codes among these shops.
fn has_twins(shops: &[Entry]) -> bool
    ensures { result ≡ twins shops.now }
{
    for (i, shop) in shops.iter().enumerate() {
        if among(&shops[i + 1..], shop.code) {
            return true;
        }
    }
    false
}

impl Register {
    // The register of zeros.
    pub fn none() -> Self
        ensures { result ≡ no_register }
    {
        Register {
            count: 0,
            shops: [Entry::none(); SHOPS],
            own: Code::none(),
        }
    }

    // The shops in use.
    fn in_use(&self) -> &[Entry]
        ensures { result.now ≡ shops_of self.now }
    {
        &self.shops[..self.count.min(SHOPS)]
    }

    // The position of a code; the number of shops where it is not listed.
    // No `Option`: it could not fail before, and `own` and `payer_of` of the replica's specs take the number of shops as not listed.
    pub fn position(self, code: Code) -> usize
        ensures { result ≡ position self code }
    {
        let shops = self.in_use();
        shops
            .iter()
            .position(|shop| shop.code == code)
            .unwrap_or(shops.len())
    }

    // Is the code listed.
    pub fn lists(self, code: Code) -> bool
        ensures { result ≡ listed self code }
    {
        among(self.in_use(), code)
    }

    // Could a text carry it.
    pub fn fits(self) -> bool
        ensures { result ≡ register_layout.legal self }
    {
        (1..=SHOPS).contains(&self.count) && self.own.fits() && entries_fit(&self.shops, self.count)
    }

    // Refused for two equal codes, or for an own code that is not listed.
    fn shops_answer(self) -> Result<(), Refusal>
        ensures { answer_number result ≡ answer_of (shops_rows self) }
    {
        if has_twins(self.in_use()) {
            return Err(Refusal::Twin);
        }
        if !self.lists(self.own) {
            return Err(Refusal::Shop);
        }
        Ok(())
    }

    // Is it a legal register: refused with 1, 12 or 2, else done.
    pub fn answer(self) -> Result<(), Refusal>
        ensures { answer_number result ≡ register_answer self }
    {
        if !self.fits() {
            return Err(Refusal::Form);
        }
        self.shops_answer()
    }
}

// ---- reading

// A register, line by line, and nothing after it.
#[tactic(auto, unfolding(crate::specs::Layout::whole, crate::specs::Register::register_layout, crate::specs::Register::register_in))]
fn parse_register(text: &[u8]) -> Option<Register>
    ensures { MatchOption result (register_in text.now ≡ none) (λ v. register_in text.now ≡ some v) }
{
    let mut reader = Reader::new(text);
    let count = reader.number(b"shops=", COUNT_WIDTH, 1, SHOPS as u32)? as usize;
    let shops = reader.entries(b"shop=", count)?;
    let own = reader.code(b"own=", b'\n')?;
    reader.ends().then_some(Register { count, shops, own })
}

// The register that a text carries.
pub fn read_register(text: &[u8]) -> Result<Register, Refusal>
    ensures { register_said result ≡ register_read text.now }
{
    let Some(register) = parse_register(text) else {
        return Err(Refusal::Form);
    };
    register.shops_answer()?;
    Ok(register)
}

// ---- writing

// A register, line by line.
fn put_register(buf: &mut [u8], r: Register) -> usize
    requires { (register_layout.legal r ≡ true) × Room buf.old 0 (register_layout.text r) }
    ensures { Wrote buf.old 0 (register_layout.text r) buf.new result }
{
    let mut pen = Pen { page: buf, at: 0 };
    pen.put_number_line(b"shops=", r.count as u32, COUNT_WIDTH);
    put_entries(&mut pen, b"shop=", &r.shops[..r.count]);
    pen.put_code_line(b"own=", r.own, b'\n');
    pen.at
}

// Writes a register's text at the front of a lent buffer; answers its length. Why it stands beside `write_slip` is said there.
pub fn write_register(register: Register, buffer: &mut [u8]) -> Result<usize, Refusal>
    ensures answer { written result ≡ register_written register buffer.old }
    ensures bytes { buffer.new ≡ register_buffer register buffer.old }
{
    if buffer.len() < REGISTER_ROOM {
        return Err(Refusal::Room);
    }
    register.answer()?;
    Ok(put_register(buffer, register))
}
