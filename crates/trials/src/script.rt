// The script: calls one after the other, each a header line of a fixed width, raw bytes, and a byte 10.
use crate::call::Call;
use crate::lent::Lent;

// The bytes of a word; a shorter one has blanks after it.
pub(crate) const WORD: usize = 8;
// The digits of the two numbers of a header.
const DIGITS: usize = 4;

// The number that the digits say: `parse` would take a sign before them, and refuse no digits, which say 0.
pub(crate) fn number(digits: &[u8]) -> Option<usize> {
    let mut value = 0usize;
    for &digit in digits {
        let last = char::from(digit).to_digit(10)?;
        value = value.checked_mul(10)?.checked_add(last as usize)?;
    }
    Some(value)
}

// The number of so many digits that a text has after a key, and what follows it.
pub(crate) fn number_after<'a>(
    text: &'a [u8],
    key: &[u8],
    digits: usize,
) -> Option<(usize, &'a [u8])> {
    let (said, rest) = text.strip_prefix(key)?.split_at_checked(digits)?;
    Some((number(said)?, rest))
}

// The first call of what is left of a script, what it lends, and what follows it: `WORD.... room=NNNN text=NNNN`, a byte 10, the
// raw bytes, and a byte 10.
pub(crate) fn read_call(left: &[u8]) -> Option<(Call<'_>, Lent, &[u8])> {
    let (word, rest) = left.split_at_checked(WORD)?;
    let (room, rest) = number_after(rest, b" room=", DIGITS)?;
    let (text, rest) = number_after(rest, b" text=", DIGITS)?;
    let size = Call::raw_bytes(word, room, text)?;
    let (raw, rest) = rest.strip_prefix(b"\n")?.split_at_checked(size)?;
    let call = Call::read(word, room, raw)?;
    Some((call, Lent::new(room)?, rest.strip_prefix(b"\n")?))
}
