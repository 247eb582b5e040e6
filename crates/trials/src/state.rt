// Printing the current record; the codes of its register are not printed.
use crate::page::Page;
use replica::{Line, Replica, Shop, Waiting};
use std::fmt;
use std::fmt::Write;
use texts::bounds::SHOPS;

// What stands in a place that is not used; the replica's own value of zeros is private there.
const BLANK: Waiting = Waiting {
    payer: 0,
    payee: 0,
    number: 0,
    amount: 0,
    needs: [0; SHOPS],
};

// What a slip needs of each shop, with a comma between.
fn put_needs(page: &mut Page, needs: &[u32; SHOPS]) -> fmt::Result {
    write!(page, " needs={:010}", needs[0])?;
    for need in &needs[1..] {
        write!(page, ",{need:010}")?;
    }
    Ok(())
}

// The slip at the place k of the line i; nothing where it is zeros.
fn put_slip(page: &mut Page, i: usize, k: usize, slip: &Waiting) -> fmt::Result {
    if *slip == BLANK {
        return Ok(());
    }
    let Waiting {
        payer,
        payee,
        number,
        amount,
        needs,
    } = slip;
    write!(
        page,
        "slip={i:02}:{k} payer={payer:010} number={number:010}"
    )?;
    write!(page, " payee={payee:010} amount={amount:010}")?;
    put_needs(page, needs)?;
    page.put(b"\n")
}

// The slips of the line i.
fn put_slips(page: &mut Page, i: usize, line: &Line) -> fmt::Result {
    for (k, slip) in line.slips.iter().enumerate() {
        put_slip(page, i, k, slip)?;
    }
    Ok(())
}

// The slips of every line.
fn put_lines(page: &mut Page, lines: &[Line; SHOPS]) -> fmt::Result {
    for (i, line) in lines.iter().enumerate() {
        put_slips(page, i, line)?;
    }
    Ok(())
}

// The shop at the position i, and how many slips wait there.
fn put_shop(page: &mut Page, i: usize, shop: &Shop, waits: usize) -> fmt::Result {
    let Shop {
        balance,
        taken,
        applied,
        mark,
    } = shop;
    write!(page, "at={i:02} balance={balance:010} taken={taken:010}")?;
    writeln!(
        page,
        " applied={applied:010} mark={mark:010} waits={waits:010}"
    )
}

// The shops in their order.
fn put_shops(page: &mut Page, shops: &[Shop; SHOPS], lines: &[Line; SHOPS]) -> fmt::Result {
    for (i, (shop, line)) in shops.iter().zip(lines.iter()).enumerate() {
        put_shop(page, i, shop, line.count)?;
    }
    Ok(())
}

// The record: how many shops and slips issued, the shops, and the slips.
pub(crate) fn put_record(page: &mut Page, record: &Replica) -> fmt::Result {
    let count = record.register.count;
    let issued = record.issued;
    writeln!(page, "shops={count:010} issued={issued:010}")?;
    put_shops(page, &record.shops, &record.lines)?;
    put_lines(page, &record.lines)
}
