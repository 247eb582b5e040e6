// Poking: one field of the current record is changed, so that any record can be handed in. Nothing is printed.
ghost use Rattle.std.specs.Prelude.{◌<◌};
ghost use Rattle.texts.specs.declared.bounds.TheConstants.{SHOPS};
ghost use Rattle.replica.specs.declared.bounds.TheConstants.{WAITING};

use crate::script::{WORD, number_after};
use replica::Replica;
use replica::bounds::WAITING;
use texts::bounds::SHOPS;

// The digits of a position or place, and of the value.
const SHORT: usize = 2;

const LONG: usize = 10;
// The values that a byte and a number of the record can have: a larger one is cut to its low bits.
const BYTES: usize = 256;

const NUMBERS: usize = 4294967296;

// The fields of a record, by the words that name them.
#[derive(Clone, Copy)]
enum Field {
    Count,
    Listed,
    Digit,
    Opening,
    OwnLen,
    OwnDigit,
    Issued,
    Balance,
    Taken,
    Applied,
    Mark,
    Waits,
    Payer,
    Number,
    Payee,
    Amount,
    Need,
}

impl Field {
    // The field that a word names.
    fn read(word: &[u8]) -> Option<Self> {
        match word {
            b"count   " => Some(Field::Count),
            b"listed  " => Some(Field::Listed),
            b"digit   " => Some(Field::Digit),
            b"opening " => Some(Field::Opening),
            b"ownlen  " => Some(Field::OwnLen),
            b"owndigit" => Some(Field::OwnDigit),
            b"issued  " => Some(Field::Issued),
            b"balance " => Some(Field::Balance),
            b"taken   " => Some(Field::Taken),
            b"applied " => Some(Field::Applied),
            b"mark    " => Some(Field::Mark),
            b"waits   " => Some(Field::Waits),
            b"payer   " => Some(Field::Payer),
            b"number  " => Some(Field::Number),
            b"payee   " => Some(Field::Payee),
            b"amount  " => Some(Field::Amount),
            b"need    " => Some(Field::Need),
            _ => None,
        }
    }
}

// The field to change, where it stands (the position of a shop, a place in its code or in its line, and the position of a shop
// that a slip names), and what it becomes.
#[derive(Clone, Copy)]
pub(crate) struct Poke {
    field: Field,
    shop: usize,
    place: usize,
    needed: usize,
    value: usize,
    ghost shop_listed: { shop < SHOPS },
    ghost place_used: { place < WAITING },
    ghost needed_listed: { needed < SHOPS },
}

impl Poke {
    // The poke that the bytes say: the field's name, then the two positions with the place between them and the value, each after a
    // blank.
    pub(crate) fn read(raw: &[u8]) -> Option<Self> {
        let (word, rest) = raw.split_at_checked(WORD)?;
        let (shop, rest) = number_after(rest, b" ", SHORT)?;
        let (place, rest) = number_after(rest, b" ", SHORT)?;
        let (needed, rest) = number_after(rest, b" ", SHORT)?;
        let (value, rest) = number_after(rest, b" ", LONG)?;
        if SHOPS <= shop || WAITING <= place || SHOPS <= needed || !rest.is_empty() {
            return None;
        }
        Some(Poke {
            field: Field::read(word)?,
            shop,
            place,
            needed,
            value,
        })
    }

    // Changes the field of the record.
    pub(crate) fn change(self, record: &mut Replica) {
        let Poke {
            field,
            shop,
            place,
            needed,
            value,
        } = self;
        let byte = (value % BYTES) as u8;
        let number = (value % NUMBERS) as u32;
        match field {
            Field::Count => record.register.count = value,
            Field::Listed => record.register.shops[shop].code.len = value,
            Field::Digit => record.register.shops[shop].code.digits[place] = byte,
            Field::Opening => record.register.shops[shop].number = number,
            Field::OwnLen => record.register.own.len = value,
            Field::OwnDigit => record.register.own.digits[place] = byte,
            Field::Issued => record.issued = number,
            Field::Balance => record.shops[shop].balance = number,
            Field::Taken => record.shops[shop].taken = number,
            Field::Applied => record.shops[shop].applied = number,
            Field::Mark => record.shops[shop].mark = number,
            Field::Waits => record.lines[shop].count = value,
            Field::Payer => record.lines[shop].slips[place].payer = value,
            Field::Number => record.lines[shop].slips[place].number = number,
            Field::Payee => record.lines[shop].slips[place].payee = value,
            Field::Amount => record.lines[shop].slips[place].amount = number,
            Field::Need => record.lines[shop].slips[place].needs[needed] = number,
        }
    }
}
