// The lines that say what a call answered.
use crate::page::Page;
use std::fmt;
use std::fmt::Write;
use texts::{Refusal, number_of, why};

// A key, an answer's number, and its name.
pub(crate) fn put_answer<T: Copy>(
    page: &mut Page,
    key: &str,
    answer: Result<T, Refusal>,
) -> fmt::Result {
    let number = number_of(answer);
    let name = why(number);
    write!(page, "{key}={number:02} why=")?;
    page.put(name.bytes.get(..name.len).unwrap_or(&[]))
}

// What a call on the replica answered; a call that has no count or no balance to give has 0 there.
pub(crate) fn put_outcome<T: Copy>(
    page: &mut Page,
    answer: Result<T, Refusal>,
    count: usize,
    balance: u32,
) -> fmt::Result {
    put_answer(page, "answer", answer)?;
    writeln!(page, " count={count:03} balance={balance:08}")
}
