// The calls on the current record. Each prints its lines on the page; the record that it answers is the next current one.
use crate::lent::Lent;
use crate::page::Page;
use crate::report::put_outcome;
use replica::{Replica, Reply};
use std::fmt;

// Opens a replica; where the register is refused the record is that of zeros.
pub(crate) fn put_opened(page: &mut Page, text: &[u8], record: &mut Replica) -> fmt::Result {
    let answer = Replica::open(text);
    *record = answer.unwrap_or(Replica::none());
    put_outcome(page, answer, 0, 0)
}

// Asks a balance.
pub(crate) fn put_balance(page: &mut Page, code: &[u8], record: &mut Replica) -> fmt::Result {
    let reply = record.balance(code);
    *record = reply.replica;
    put_outcome(page, reply.answer, 0, reply.answer.unwrap_or(0))
}

// What a call that gives a count answered; hands on the count.
fn put_counted(
    page: &mut Page,
    reply: Reply<usize>,
    record: &mut Replica,
) -> Result<usize, fmt::Error> {
    *record = reply.replica;
    let count = reply.answer.unwrap_or(0);
    put_outcome(page, reply.answer, count, 0)?;
    Ok(count)
}

// Takes in a slip, and prints whose slips were applied.
pub(crate) fn put_taken(
    page: &mut Page,
    mut lent: Lent,
    text: &[u8],
    record: &mut Replica,
) -> fmt::Result {
    let room = lent.room;
    let reply = record.take(text, &mut lent.bytes[..room]);
    let count = put_counted(page, reply, record)?;
    lent.put_list(page, count)
}

// Issues a slip, and prints its text.
pub(crate) fn put_issued(
    page: &mut Page,
    mut lent: Lent,
    payee: &[u8],
    amount: u32,
    record: &mut Replica,
) -> fmt::Result {
    let room = lent.room;
    let reply = record.issue(payee, amount, &mut lent.bytes[..room]);
    let count = put_counted(page, reply, record)?;
    lent.put_text(page, count)
}

// Says whether the record keeps the state rule.
pub(crate) fn put_lawful(page: &mut Page, record: &Replica) -> fmt::Result {
    if record.lawful() {
        page.put(b"lawful=yes\n")
    } else {
        page.put(b"lawful=no\n")
    }
}
