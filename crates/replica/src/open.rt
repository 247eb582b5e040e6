// Opening a replica.
ghost use Rattle.std.specs.Prelude.{◌≡◌, map};
ghost use Rattle.replica.specs.Outcome.{open_said};
ghost use Rattle.replica.specs.Open.{first_day, opened, fresh};

use crate::record::{Line, Replica, Shop};
use texts::bounds::SHOPS;
use texts::{Entry, Refusal, Register, read_register};

// Each shop with its opening credit as its balance.
fn openings(listed: [Entry; SHOPS]) -> [Shop; SHOPS]
    ensures { result ≡ map first_day listed }
{
    listed.map(|shop| Shop {
        balance: shop.number,
        ..Shop::none()
    })
}

impl Replica {
    // The replica of a register on its first day.
    fn fresh(register: Register) -> Self
        ensures { result ≡ fresh register }
    {
        Replica {
            register,
            issued: 0,
            shops: openings(register.shops),
            lines: [Line::none(); SHOPS],
        }
    }

    // Opens a replica from a register's text.
    pub fn open(text: &[u8]) -> Result<Self, Refusal>
        ensures { open_said result ≡ opened text.now }
    {
        Ok(Replica::fresh(read_register(text)?))
    }
}
