// Makes the calls of a script that comes in on standard input, and prints what each answers.
#![tactic(auto)]

mod call;
mod lent;
mod page;
mod poke;
mod replica_calls;
mod report;
mod script;
mod state;
mod text_calls;

ghost use Rattle.std.specs.Prelude.{◌≤◌, length};

use call::Call;
use lent::Lent;
use page::Page;
use replica::Replica;
use script::read_call;
use std::fmt::Write as _;
use std::io::Read;
use std::{fmt, io};

// The bytes of a script that are read; what follows them is not.
const SCRIPT_ROOM: usize = 262144;
// The calls that a script may have.
const TRIALS: usize = 9999;

// Prints a call's running number, and makes it.
fn put_trial(
    page: &mut Page,
    trial: usize,
    call: Call,
    lent: Lent,
    record: &mut Replica,
) -> fmt::Result {
    writeln!(page, "trial={trial:04}")?;
    call.make(lent, page, record)
}

// Makes the calls one after the other, until the script ends or is bad, or printing fails.
fn run(rt: &impl Print, script: &[u8], page: &mut Page) -> io::Result<()> {
    let mut record = Replica::none();
    let mut left = script;
    for trial in 1..=TRIALS {
        let Some((call, lent, rest)) = read_call(left) else {
            break;
        };
        // An error only says that the page cut something off.
        let _ = put_trial(page, trial, call, lent, &mut record);
        if page.is_full() {
            page.print(rt)?;
        }
        left = rest;
    }
    if !left.is_empty() {
        let _ = page.put(b"script=bad\n");
    }
    page.print(rt)
}

// Reads until the bytes are full, the input ends or a read fails; answers how many were read, as `read_exact` does not.
fn read_full(input: &mut impl Read, bytes: &mut [u8]) -> usize
    ensures { result ≤ length bytes.new }
{
    let mut done = 0;
    while done < bytes.len() {
        match input.read(&mut bytes[done..]) {
            Ok(0) | Err(_) => break,
            Ok(n) => done += n,
        }
    }
    done
}

// Reads the script, and makes its calls.
fn main(rt: HostRuntime) {
    let mut script = [0u8; SCRIPT_ROOM];
    let mut page = Page::new();
    let n = read_full(&mut rt.stdin(), &mut script);
    // Where printing fails, there is nobody to tell.
    let _ = run(&rt, &script[..n], &mut page);
}
