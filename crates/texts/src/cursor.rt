// A place in a text, by value. A step reads what stands there and hands on the place after it, or gives nothing where it does not stand there.
ghost use Rattle.std.specs.Prelude.{◌≡◌, ◌≤◌, length, drop, IfSome, MatchOption};
ghost use Rattle.std.proofs.Math.Option.{none, some};
ghost use Rattle.texts.specs.Bounds.{number_width};
ghost use Rattle.texts.specs.Layout.{word};
ghost use Rattle.texts.specs.Leaf.{numeral, number};
ghost use Rattle.texts.specs.Code.{code};
ghost use Rattle.texts.specs.Inside.{ReadsAt, passed};

use crate::code::{Code, hold, is_digit};

// By value, with the text beside it in each step: the rules name a cursor by value, and after it the struct over both (`Reader`).
#[derive(Clone, Copy)]
pub(crate) struct Cursor {
    pub(crate) at: usize,
}

// The number that the first `width` bytes of t spell; none where they are not all digits. By hand, since `parse` takes a sign too.
fn spell(t: &[u8], width: usize) -> Option<u32>
    requires { width ≤ number_width }
    ensures { MatchOption result (numeral width t.now ≡ none) (λ v. (width ≤ length t.now) × (numeral width t.now ≡ some (v, drop width t.now))) }
{
    let mut value = 0;
    for b in t.get(..width)? {
        if !is_digit(*b) {
            return None;
        }
        value = value * 10 + (*b - b'0') as u32;
    }
    Some(value)
}

impl Cursor {
    // At the start of a text.
    pub(crate) fn start() -> Self
        ensures { result.at ≡ 0 }
    {
        Cursor { at: 0 }
    }

    // Past the bytes w.
    pub(crate) fn word(self, s: &[u8], w: &[u8]) -> Option<Self>
        ensures { ReadsAt (word w.now) s.now self (passed result) }
    {
        let rest = s.get(self.at..)?;
        if !rest.starts_with(w) {
            return None;
        }
        let at = self.at + w.len();
        Some(Cursor { at })
    }

    // A number of a width, from `least` to `upper`, each given by itself and the width bounded in each clause: a struct of the three would be
    // written out at every call.
    pub(crate) fn number(
        self,
        s: &[u8],
        width: usize,
        least: u32,
        upper: u32,
    ) -> Option<(u32, Self)>
        requires { width ≤ number_width }
        ensures upto { IfSome result (λ p. p.0 ≤ upper) }
        ensures reads { ReadsAt (number width least upper) s.now self result }
    {
        let rest = s.get(self.at..)?;
        let value = spell(rest, width)?;
        if value < least || upper < value {
            return None;
        }
        let at = self.at + width;
        Some((value, Cursor { at }))
    }

    // A code and the byte that closes it.
    pub(crate) fn code(self, s: &[u8], closing: u8) -> Option<(Code, Self)>
        ensures { ReadsAt (code closing) s.now self result }
    {
        let rest = s.get(self.at..)?;
        let code = hold(rest);
        let after = *rest.get(code.len)?;
        if code.len < 1 || after != closing {
            return None;
        }
        let at = self.at + code.len + 1;
        Some((code, Cursor { at }))
    }
}
