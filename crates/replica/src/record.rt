// What the terminal holds.
ghost use Rattle.std.specs.Prelude.{◌≡◌};
ghost use Rattle.replica.specs.Record.{no_shop, no_waiting, no_line, no_replica};

use crate::bounds::WAITING;
use texts::Register;
use texts::bounds::SHOPS;

// Per shop: the balance, the number taken in, the number applied, the mark (0: none, as `deps_from` has it). No fact in the type: any record
// may be handed in.
#[derive(Clone, Copy, PartialEq, Eq)]
pub struct Shop {
    pub balance: u32,
    pub taken: u32,
    pub applied: u32,
    pub mark: u32,
}

// A waiting slip by position: the payer's position, the payee's position, the slip's number, the amount, and per shop the number
// that must be applied there (0: none, as `waiting_of` has it).
#[derive(Clone, Copy, PartialEq, Eq)]
pub struct Waiting {
    pub payer: usize,
    pub payee: usize,
    pub number: u32,
    pub amount: u32,
    pub needs: [u32; SHOPS],
}

// The slips that wait for one shop, in number order; zeros in the places that are not used.
// A count beside the places, since `lawful` speaks of lines whatever stands in each place.
#[derive(Clone, Copy, PartialEq, Eq)]
pub struct Line {
    pub count: usize,
    pub slips: [Waiting; WAITING],
}

// One replica. The number of shops and the own shop stand in the register. Three lists by position, since the state rule and the steps speak
// of a shop's entry, numbers and line apart (`listed_at`, `shop_at`, `line_at`). That it is lawful stands in clauses and not in the type:
// any record may be handed in, and the rules name it a struct by value.
#[derive(Clone, Copy)]
pub struct Replica {
    pub register: Register,
    pub issued: u32,
    pub shops: [Shop; SHOPS],
    pub lines: [Line; SHOPS],
}

impl Shop {
    // The shop of zeros.
    pub(crate) fn none() -> Self
        ensures { result ≡ no_shop }
    {
        Shop {
            balance: 0,
            taken: 0,
            applied: 0,
            mark: 0,
        }
    }
}

impl Waiting {
    // The waiting slip of zeros.
    pub(crate) fn none() -> Self
        ensures { result ≡ no_waiting }
    {
        Waiting {
            payer: 0,
            payee: 0,
            number: 0,
            amount: 0,
            needs: [0u32; SHOPS],
        }
    }
}

impl Line {
    // A line in which nothing waits.
    pub(crate) fn none() -> Self
        ensures { result ≡ no_line }
    {
        Line {
            count: 0,
            slips: [Waiting::none(); WAITING],
        }
    }
}

impl Replica {
    // The record of zeros, which every call refuses.
    pub fn none() -> Self
        ensures { result ≡ no_replica }
    {
        Replica {
            register: Register::none(),
            issued: 0,
            shops: [Shop::none(); SHOPS],
            lines: [Line::none(); SHOPS],
        }
    }
}
