// Taking in a slip that the carrier brought.
ghost use Rattle.std.specs.Prelude.{◌≡◌, true, ◌≤◌, ◌<◌, length};
ghost use Rattle.texts.specs.Slip.{slip_layout};
ghost use Rattle.replica.specs.Bounds.{list_room, most_waiting};
ghost use Rattle.replica.specs.State.{lawful};
ghost use Rattle.replica.specs.Take.{with_last, taken, taken_list};
ghost use Rattle.replica.specs.Outcome.{count_said};
ghost use Rattle.replica.specs.Inside.{took_slip, took_list};

use crate::bounds::{LIST_ROOM, WAITING};
use crate::checks::PlacedSlip;
use crate::record::{Line, Replica, Waiting};
use crate::reply::Reply;
use texts::{Refusal, Slip, read_slip};

impl Line {
    // One slip more, last.
    fn push(&mut self, slip: Waiting)
        requires { self.old.count < most_waiting }
        ensures { self.new ≡ with_last self.old slip }
    {
        self.slips[self.count] = slip;
        self.count += 1;
    }
}

impl Replica {
    // Takes in a slip that was read: the checks 4, 2, 3, 5, 6, 7; accepted, it goes last in its payer's line, then settle.
    fn take_slip(mut self, slip: Slip, list: &mut [u8]) -> Reply<usize>
        requires { (lawful self ≡ true) × (slip_layout.legal slip ≡ true) × (list_room ≤ length list.old) }
        ensures outcome { count_said result ≡ took_slip self slip }
        ensures bytes { list.new ≡ took_list self slip list.old }
    {
        let placed = PlacedSlip::new(&self.register, &slip);
        if let Err(refusal) = placed.answer() {
            return self.refused(refusal);
        }
        let payer = placed.payer;
        if slip.number != self.shops[payer].taken + 1 {
            return self.refused(Refusal::Number);
        }
        if WAITING <= self.lines[payer].count {
            return self.refused(Refusal::Full);
        }
        let waiting = placed.waiting();
        self.lines[payer].push(waiting);
        self.shops[payer].taken = slip.number;
        self.settle(list)
    }

    // Takes in a slip's text; the lent list gets the positions of the payers whose slips were applied, in their order.
    pub fn take(self, text: &[u8], list: &mut [u8]) -> Reply<usize>
        ensures outcome { count_said result ≡ taken self text.now list.old }
        ensures bytes { list.new ≡ taken_list self text.now list.old }
    {
        if !self.lawful() {
            return self.refused(Refusal::State);
        }
        if list.len() < LIST_ROOM {
            return self.refused(Refusal::Room);
        }
        match read_slip(text) {
            Ok(slip) => self.take_slip(slip, list),
            Err(refusal) => self.refused(refusal),
        }
    }
}
