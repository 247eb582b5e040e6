// Issuing a slip of the own shop.
ghost use Rattle.std.specs.Prelude.{◌≡◌, true, map, ◌≤◌, length};
ghost use Rattle.texts.specs.Bounds.{most_deps};
ghost use Rattle.texts.specs.Answers.{answer_number, answer_of};
ghost use Rattle.replica.specs.Slips.{deps_from, slip_with};
ghost use Rattle.replica.specs.Record.{own, line_at};
ghost use Rattle.replica.specs.State.{lawful};
ghost use Rattle.replica.specs.Outcome.{count_said};
ghost use Rattle.replica.specs.Issue.{own_shop, unmarked, issued, issued_buffer};
ghost use Rattle.replica.specs.Inside.{marks_of, ask_rows};

use crate::record::{Replica, Shop};
use crate::reply::Reply;
use texts::bounds::{MOST, SHOPS, SLIP_ROOM};
use texts::{Code, Entry, Refusal, Register, Slip, write_slip};

// The own shop as issuing asks about it: its numbers, how many of its slips wait, and the number that it issued last.
#[derive(Clone, Copy)]
pub(crate) struct Own {
    pub(crate) shop: Shop,
    pub(crate) waits: usize,
    pub(crate) issued: u32,
}

// The shops with their marks set to 0.
fn unmark(shops: [Shop; SHOPS]) -> [Shop; SHOPS]
    ensures { result ≡ map unmarked shops }
{
    shops.map(|shop| Shop { mark: 0, ..shop })
}

// The slip with one dependency per nonzero mark, of which there are at most fifteen.
fn slip_with_marks(
    register: Register,
    shops: &[Shop; SHOPS],
    number: u32,
    payee: Code,
    amount: u32,
) -> Slip
    requires { length (deps_from register.shops (marks_of shops.now)) ≤ most_deps }
    ensures { result ≡ slip_with register.own number payee amount (deps_from register.shops (marks_of shops.now)) }
{
    let mut slip = Slip::none();
    for (i, shop) in shops.iter().enumerate() {
        if shop.mark != 0 {
            slip.deps[slip.count] = Entry {
                code: register.shops[i].code,
                number: shop.mark,
            };
            slip.count += 1;
        }
    }
    Slip {
        payer: register.own,
        number,
        payee,
        amount,
        ..slip
    }
}

// The checks 2, 3, 4, 8, 10 and 9 of issuing.
fn issue_answer(register: Register, own: Own, payee: Code, amount: u32) -> Result<(), Refusal>
    ensures { answer_number result ≡ answer_of (ask_rows register own.shop own.waits own.issued payee amount) }
{
    let shop = own.shop;
    if !register.lists(payee) {
        return Err(Refusal::Shop);
    }
    if payee.same(register.own) {
        return Err(Refusal::Oneself);
    }
    if amount == 0 {
        return Err(Refusal::Range);
    }
    if MOST < amount {
        return Err(Refusal::Range);
    }
    if shop.applied < own.issued {
        return Err(Refusal::Busy);
    }
    if 0 < own.waits {
        return Err(Refusal::Busy);
    }
    if shop.applied == MOST {
        return Err(Refusal::Usedup);
    }
    if shop.balance < amount {
        return Err(Refusal::Short);
    }
    Ok(())
}

impl Replica {
    // The own shop, as issuing asks for it.
    fn own_now(&self) -> Own
        requires { lawful self.now ≡ true }
        ensures { (result.shop ≡ own_shop self.now) × (result.waits ≡ (line_at self.now (own self.now)).count) × (result.issued ≡ self.now.issued) }
    {
        let at = self.register.position(self.register.own);
        Own {
            shop: self.shops[at],
            waits: self.lines[at].count,
            issued: self.issued,
        }
    }

    // Issues a slip: writes its text to the front of the lent buffer. It counts only once the carrier brings it back.
    pub fn issue(mut self, payee: &[u8], amount: u32, buffer: &mut [u8]) -> Reply<usize>
        ensures outcome { count_said result ≡ issued self payee.now amount buffer.old }
        ensures bytes { buffer.new ≡ issued_buffer self payee.now amount buffer.old }
    {
        if !self.lawful() {
            return self.refused(Refusal::State);
        }
        if buffer.len() < SLIP_ROOM {
            return self.refused(Refusal::Room);
        }
        let code = Code::from_bytes(payee);
        let own = self.own_now();
        if let Err(refusal) = issue_answer(self.register, own, code, amount) {
            return self.refused(refusal);
        }
        let number = own.shop.applied + 1;
        let slip = slip_with_marks(self.register, &self.shops, number, code, amount);
        let answer = write_slip(slip, buffer);
        self.shops = unmark(self.shops);
        self.issued = number;
        Reply {
            answer,
            replica: self,
        }
    }
}
