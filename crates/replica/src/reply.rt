// What take, issue and balance answer: what they give, or why they refuse; and the state that they hand back.
ghost use Rattle.std.specs.Prelude.{◌≡◌};
ghost use Rattle.replica.specs.Outcome.{turned_away};

use crate::record::Replica;
use texts::Refusal;

// `T` is what a call that is done gives: a count, or a balance.
#[derive(Clone, Copy)]
pub struct Reply<T> {
    pub answer: Result<T, Refusal>,
    pub replica: Replica,
}

impl Replica {
    // The state comes back as it went in.
    pub(crate) fn refused<T>(self, refusal: Refusal) -> Reply<T>
        ensures { result ≡ turned_away refusal self }
    {
        Reply {
            answer: Err(refusal),
            replica: self,
        }
    }
}
