// The state rule, as a test on any record.
ghost use Rattle.std.specs.Prelude.{◌≡◌, ◌≤◌, ◌↔◌, IsTrue, All, length, sum_by};
ghost use Rattle.texts.specs.Bounds.{most, most_shops};
ghost use Rattle.texts.specs.Register.{opening, register_answer};
ghost use Rattle.replica.specs.Bounds.{most_waiting};
ghost use Rattle.replica.specs.State.{lawful};
ghost use Rattle.replica.specs.Inside.{NeedsKept, SlipKept, InTurn, LineKept, NumbersKept, OwnKept, ShopKept, ShopsKept, RecordKept};

use crate::bounds::WAITING;
use crate::record::{Line, Replica, Shop, Waiting};
use texts::Entry;
use texts::bounds::{MOST, SHOPS};

// The shop whose slips are asked: its position, of so many shops.
#[derive(Clone, Copy)]
struct Payer {
    position: usize,
    shops: usize,
}

impl Payer {
    // Could its slip ask for such numbers: of shops that there are, none of its own, each such as a slip can carry.
    fn may_need(self, needs: &[u32; SHOPS]) -> bool
        ensures { IsTrue result ↔ NeedsKept self.position self.shops needs.now }
    {
        needs.iter().enumerate().all(|(shop, &number)| {
            number <= MOST && (number == 0 || shop < self.shops && shop != self.position)
        })
    }
}

impl Waiting {
    // Could it wait for that shop under that number.
    fn is_kept(&self, payer: Payer, number: u32) -> bool
        ensures { IsTrue result ↔ SlipKept payer.position payer.shops number self.now }
    {
        self.payer == payer.position
            && self.number == number
            && (1..=MOST).contains(&self.amount)
            && self.payee < payer.shops
            && self.payee != payer.position
            && payer.may_need(&self.needs)
    }
}

// Are all these places unused: each the value of zeros that is given.
fn are_all<T: PartialEq>(places: &[T], unused: &T) -> bool
    requires { (x y : T) → IsTrue (T.eq x y) ↔ (x ≡ y) }
    ensures { IsTrue result ↔ All (λ place. place ≡ unused.now) places.now }
{
    places.iter().all(|place| place == unused)
}

// Do the slips wait for that shop one after the other, from the number after applied on.
fn in_turn(slips: &[Waiting], payer: Payer, applied: u32) -> bool
    requires few { length slips.now ≤ most_waiting }
    requires fits { applied ≤ most }
    ensures { IsTrue result ↔ InTurn payer.position payer.shops applied slips.now }
{
    slips
        .iter()
        .enumerate()
        .all(|(k, slip)| slip.is_kept(payer, applied + 1 + k as u32))
}

impl Line {
    // Is it the line of that shop, whose slips up to the number applied are gone, with zeros in the places that are not used.
    fn is_kept(&self, payer: Payer, applied: u32) -> bool
        requires { applied ≤ most }
        ensures { IsTrue result ↔ LineKept payer.position payer.shops applied self.now }
    {
        self.count <= WAITING
            && in_turn(&self.slips[..self.count], payer, applied)
            && are_all(&self.slips[self.count..], &Waiting::none())
    }
}

impl Shop {
    // Is its taken number applied + waiting and at most 999,999, and its mark at most applied.
    fn is_kept(&self, waits: usize) -> bool
        ensures { IsTrue result ↔ NumbersKept waits self.now }
    {
        self.taken <= MOST
            && self.applied <= self.taken
            && (self.taken - self.applied) as usize == waits
            && self.mark <= self.applied
    }

    // Is its mark 0, as the own shop's must be, and the issued number at most 999,999 and at most applied + 1.
    fn is_own(&self, issued: u32) -> bool
        ensures { IsTrue result ↔ OwnKept issued self.now }
    {
        // subtracted, so that no record can make it overflow
        self.mark == 0 && issued <= MOST && issued.saturating_sub(1) <= self.applied
    }
}

// Do the balances of the shops add up to their openings.
fn is_balanced(shops: &[Shop], listed: &[Entry]) -> bool
    requires shops { length shops.now ≤ most_shops }
    requires listed { length listed.now ≤ most_shops }
    ensures { IsTrue result ↔ (sum_by (λ s. s.balance) shops.now ≡ sum_by opening listed.now) }
{
    let balances: u64 = shops.iter().map(|shop| shop.balance as u64).sum();
    let openings: u64 = listed.iter().map(|shop| shop.number as u64).sum();
    balances == openings
}

// Is that shop, with its line, as it must be.
fn shop_kept(shop: &Shop, line: &Line, payer: Payer) -> bool
    ensures { IsTrue result ↔ ShopKept payer.position payer.shops shop.now line.now }
{
    shop.is_kept(line.count) && line.is_kept(payer, shop.applied)
}

// Is each shop, with its line, as it must be.
fn shops_kept(shops: &[Shop], lines: &[Line]) -> bool
    requires { length lines.now ≡ length shops.now }
    ensures { IsTrue result ↔ ShopsKept shops.now lines.now }
{
    shops.iter().zip(lines).enumerate().all(|(position, (shop, line))| {
        let payer = Payer {
            position,
            shops: shops.len(),
        };
        shop_kept(shop, line, payer)
    })
}

impl Replica {
    // Does the record keep the state rule, where its register is legal.
    fn is_kept(&self) -> bool
        requires { register_answer self.now.register ≡ 0 }
        ensures { IsTrue result ↔ RecordKept self.now }
    {
        let register = &self.register;
        let n = register.count;
        let (shops, unused_shops) = self.shops.split_at(n);
        let (lines, unused_lines) = self.lines.split_at(n);
        self.shops[register.position(register.own)].is_own(self.issued)
            && is_balanced(shops, &register.shops[..n])
            && shops_kept(shops, lines)
            && are_all(unused_shops, &Shop::none())
            && are_all(unused_lines, &Line::none())
    }

    // Does the record keep the state rule.
    pub fn lawful(&self) -> bool
        ensures { result ≡ lawful self.now }
    {
        self.register.answer().is_ok() && self.is_kept()
    }
}
