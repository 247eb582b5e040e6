// Reads a register and slips from standard input, and prints what came of them.
#![tactic(auto)]

use desk::Desk;
use desk::bounds::{PAGE, WINDOW};
use std::io::{Read, Write};

// A loop that is proved must end, and nothing says that an input does: it counts to a number that no run reaches. A read
// that fails is the end of the input, and after the first write that fails nothing is written.
fn main(rt: HostRuntime) {
    let mut input = rt.stdin();
    let mut output = rt.stdout();
    let mut window = [0u8; WINDOW];
    let mut page = [0u8; PAGE];
    let mut desk = Desk::new();
    for _ in 0..u64::MAX {
        let n = input.read(&mut window).unwrap_or(0);
        if n == 0 {
            break;
        }
        let count = desk.feed(&window, n, &mut page);
        if output.write_all(&page[..count]).is_err() {
            return;
        }
        if desk.stops() {
            break;
        }
    }
    let count = desk.close(&mut page);
    let _ = output.write_all(&page[..count]);
}
