// The calls: what each word stands for, and what it does.
use crate::lent::Lent;
use crate::page::Page;
use crate::poke::Poke;
use crate::replica_calls::{put_balance, put_issued, put_lawful, put_opened, put_taken};
use crate::script::number;
use crate::state::put_record;
use crate::text_calls::{Text, put_payee, put_round};
use replica::Replica;
use std::fmt;
use texts::{Register, Slip};

// The digits of an amount, before the payee's code.
const AMOUNT_DIGITS: usize = 10;

// A call, with what its raw bytes say: a new one is a variant here, an arm of `read`, and an arm of `make`.
#[derive(Clone, Copy)]
pub(crate) enum Call<'a> {
    Register(&'a [u8]),
    Slip(&'a [u8]),
    BadRegister(&'a [u8]),
    BadSlip(&'a [u8]),
    Payee { register: &'a [u8], slip: &'a [u8] },
    Open(&'a [u8]),
    Take(&'a [u8]),
    Issue { payee: &'a [u8], amount: u32 },
    Balance(&'a [u8]),
    Lawful,
    Poke(Poke),
    State,
}

impl<'a> Call<'a> {
    // How many raw bytes a call has: its text, and before it, to show a payee, a register of `room` bytes.
    pub(crate) fn raw_bytes(word: &[u8], room: usize, text: usize) -> Option<usize> {
        match word {
            b"payee   " => room.checked_add(text),
            _ => Some(text),
        }
    }

    // The call that a word and its raw bytes stand for.
    pub(crate) fn read(word: &[u8], room: usize, raw: &'a [u8]) -> Option<Self> {
        match word {
            b"register" => Some(Call::Register(raw)),
            b"slip    " => Some(Call::Slip(raw)),
            b"badreg  " => Some(Call::BadRegister(raw)),
            b"badslip " => Some(Call::BadSlip(raw)),
            b"payee   " => {
                let (register, slip) = raw.split_at_checked(room)?;
                Some(Call::Payee { register, slip })
            }
            b"open    " => Some(Call::Open(raw)),
            b"take    " => Some(Call::Take(raw)),
            b"issue   " => {
                let (amount, payee) = raw.split_at_checked(AMOUNT_DIGITS)?;
                let amount = u32::try_from(number(amount)?).ok()?;
                Some(Call::Issue { payee, amount })
            }
            b"balance " => Some(Call::Balance(raw)),
            b"lawful  " if raw.is_empty() => Some(Call::Lawful),
            b"poke    " => Some(Call::Poke(Poke::read(raw)?)),
            b"state   " if raw.is_empty() => Some(Call::State),
            _ => None,
        }
    }

    // Makes the call: changes the current record, and prints what is answered. Page, record and lent bytes come apart, since few calls take all.
    pub(crate) fn make(self, lent: Lent, page: &mut Page, record: &mut Replica) -> fmt::Result {
        match self {
            Call::Register(text) => put_round(page, lent, Register::read(text)),
            Call::Slip(text) => put_round(page, lent, Slip::read(text)),
            Call::BadRegister(text) => put_round(
                page,
                lent,
                Register::read(text).map(Text::spoiled),
            ),
            Call::BadSlip(text) => put_round(page, lent, Slip::read(text).map(Text::spoiled)),
            Call::Payee { register, slip } => put_payee(page, register, slip),
            Call::Open(text) => put_opened(page, text, record),
            Call::Take(text) => put_taken(page, lent, text, record),
            Call::Issue { payee, amount } => put_issued(page, lent, payee, amount, record),
            Call::Balance(code) => put_balance(page, code, record),
            Call::Lawful => put_lawful(page, record),
            Call::Poke(poke) => {
                poke.change(record);
                Ok(())
            }
            Call::State => put_record(page, record),
        }
    }
}
