// Asking a balance.
ghost use Rattle.std.specs.Prelude.{◌≡◌};
ghost use Rattle.replica.specs.Outcome.{balance_said};
ghost use Rattle.replica.specs.Balance.{asked};

use crate::record::Replica;
use crate::reply::Reply;
use texts::{Code, Refusal};

impl Replica {
    // The balance of a shop.
    pub fn balance(self, code: &[u8]) -> Reply<u32>
        ensures { balance_said result ≡ asked self code.now }
    {
        if !self.lawful() {
            return self.refused(Refusal::State);
        }
        let shop = Code::from_bytes(code);
        if !self.register.lists(shop) {
            return self.refused(Refusal::Shop);
        }
        let at = self.register.position(shop);
        Reply {
            answer: Ok(self.shops[at].balance),
            replica: self,
        }
    }
}
