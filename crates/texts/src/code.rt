// A shop's code: one to eight decimal digits. It is never a number.
ghost use Rattle.std.specs.Prelude.{◌≡◌};
ghost use Rattle.texts.specs.Leaf.{digit};
ghost use Rattle.texts.specs.Code.{no_code, is_code, same_code, code_of};
ghost use Rattle.texts.specs.Inside.{Held};

use crate::bounds::CODE_DIGITS;

// `len` digits as they were written, zeros in the places that are not used.
// A length beside the places, and no fact in the type: `is_code` and `same_code` speak of codes whatever stands in each place.
#[derive(Clone, Copy, Debug, PartialEq, Eq)]
pub struct Code {
    pub digits: [u8; CODE_DIGITS],
    pub len: usize,
}

// Is the byte one of the digits 0 to 9: the library's test, with a promise that codes and numbers cite.
pub(crate) fn is_digit(b: u8) -> bool
    ensures { result ≡ digit b }
{
    b.is_ascii_digit()
}

// The digits at the front of t, at most eight of them.
pub(crate) fn hold(t: &[u8]) -> Code
    ensures { Held t.now result }
{
    let len = t
        .iter()
        .take(CODE_DIGITS)
        .take_while(|b| is_digit(**b))
        .count();
    let mut digits = [0u8; CODE_DIGITS];
    digits[..len].copy_from_slice(&t[..len]);
    Code { digits, len }
}

impl Code {
    // The code of zeros, which is no shop's.
    pub fn none() -> Self
        ensures { result ≡ no_code }
    {
        Code {
            digits: [0u8; CODE_DIGITS],
            len: 0,
        }
    }

    // The code that the bytes spell, or the code of zeros where they spell none.
    // No `Option` and no `TryFrom`: it could not fail before, and `asked` and `issued` take the code of zeros as a shop that is not listed.
    pub fn from_bytes(s: &[u8]) -> Self
        ensures { result ≡ code_of s.now }
    {
        let code = hold(s);
        if code.len == s.len() {
            return code;
        }
        Code::none()
    }

    // Are the two the same, in length and byte by byte: what `==` says, as a promise. The lengths first, which costs least.
    pub fn same(self, other: Code) -> bool
        ensures { result ≡ same_code self other }
    {
        self.len == other.len && self.digits == other.digits
    }

    // Could a text carry it.
    pub fn fits(self) -> bool
        ensures { result ≡ is_code self }
    {
        if !(1..=CODE_DIGITS).contains(&self.len) {
            return false;
        }
        let (used, unused) = self.digits.split_at(self.len);
        used.iter().all(|&b| is_digit(b)) && unused.iter().all(|&b| b == 0)
    }
}
