// Ready, apply, settle.
ghost use Rattle.std.specs.Prelude.{◌≡◌, true, ◌+◌, ◌≤◌, ◌<◌, ◌↔◌, length, IsTrue, EachIndex, slice_index, slice_index_or};
ghost use Rattle.texts.specs.Bounds.{most, most_shops};
ghost use Rattle.texts.specs.Written.{over};
ghost use Rattle.replica.specs.Bounds.{list_room, most_credit, most_waiting};
ghost use Rattle.replica.specs.Record.{no_shop, own, line_at};
ghost use Rattle.replica.specs.State.{lawful};
ghost use Rattle.replica.specs.Settle.{paying, paid, settled, applying, without_first, first_waiting, ready, apply};
ghost use Rattle.replica.specs.Outcome.{did, count_said};
ghost use Rattle.replica.specs.Inside.{Movable};

use crate::bounds::WAITING;
use crate::record::{Line, Replica, Shop, Waiting};
use crate::reply::Reply;

impl Waiting {
    // Is every number that it asks for applied at its shop.
    fn needs_applied(&self, shops: &[Shop]) -> bool
        requires { length shops.now ≤ most_shops }
        ensures { IsTrue result ↔ EachIndex shops.now (λ r. slice_index self.now.needs r ≤ (slice_index_or shops.now r no_shop).applied) }
    {
        let needs = &self.needs;
        shops
            .iter()
            .zip(needs)
            .all(|(shop, &need)| need <= shop.applied)
    }
}

impl Shop {
    // Its slip of that number is applied: the amount leaves it, and it is marked where it pays the own shop.
    fn pay(&mut self, to_own: bool, number: u32, amount: u32)
        requires { (amount ≤ self.old.balance) × (self.old.applied ≤ most) }
        ensures { self.new ≡ paying to_own number amount self.old }
    {
        self.balance -= amount;
        self.applied += 1;
        if to_own {
            self.mark = number;
        }
    }

    // The amount goes to it.
    fn receive(&mut self, amount: u32)
        requires { self.old.balance + amount ≤ most_credit }
        ensures { self.new ≡ paid amount self.old }
    {
        self.balance += amount;
    }
}

impl Line {
    // Its first slip goes: the others move up, and the place freed is zero.
    fn remove_first(&mut self)
        requires { (0 < self.old.count) × (self.old.count ≤ most_waiting) }
        ensures { self.new ≡ without_first self.old }
    {
        self.slips.copy_within(1.., 0);
        self.slips[WAITING - 1] = Waiting::none();
        self.count -= 1;
    }
}

impl Replica {
    // Is the first waiting slip of a shop ready: its number is the next, the balance covers it, its dependencies are applied.
    fn is_ready(&self, at: usize) -> bool
        requires { (lawful self.now ≡ true) × (at < self.now.register.count) }
        ensures { result ≡ ready self.now at }
    {
        let shops = &self.shops[..self.register.count];
        let shop = &self.shops[at];
        let line = &self.lines[at];
        let slip = &line.slips[0];
        line.count > 0
            && slip.number == shop.applied + 1
            && slip.amount <= shop.balance
            && slip.needs_applied(shops)
    }

    // The first waiting slip of a shop is applied: its amount moves, and it leaves its line.
    fn apply(&mut self, at: usize, own_at: usize)
        requires own { own_at ≡ own self.old }
        requires funds { Movable self.old.shops at (first_waiting self.old at) }
        requires waits { 0 < (line_at self.old at).count }
        requires eight { (line_at self.old at).count ≤ most_waiting }
        ensures { self.new ≡ apply self.old at }
    {
        let slip = self.lines[at].slips[0];
        self.shops[at].pay(slip.payee == own_at, slip.number, slip.amount);
        self.shops[slip.payee].receive(slip.amount);
        self.lines[at].remove_first();
    }

    // At the first ready slip apply it, then start again from the first shop; stop when no shop has a ready slip. A nested loop whose scan is
    // left by a label: the rules name this form.
    pub(crate) fn settle(mut self, list: &mut [u8]) -> Reply<usize>
        requires { (lawful self ≡ true) × (list_room ≤ length list.old) }
        ensures outcome { count_said result ≡ did (length (applying self)) (settled self) }
        ensures bytes { list.new ≡ over (applying self) list.old }
    {
        let n = self.register.count;
        let own_at = self.register.position(self.register.own);
        let mut done = 0;
        'settle: loop {
            for at in 0..n {
                if self.is_ready(at) {
                    self.apply(at, own_at);
                    list[done] = at as u8;
                    done += 1;
                    continue 'settle;
                }
            }
            break;
        }
        Reply {
            answer: Ok(done),
            replica: self,
        }
    }
}
