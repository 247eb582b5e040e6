// Showing a payee: its code as the part of the register's text where that shop is listed, else as the part of the slip's text.
ghost use Rattle.std.specs.Prelude.{◌≡◌, true, false, ◌≤◌, length, MatchOption};
ghost use Rattle.texts.specs.Register.{register_layout};
ghost use Rattle.texts.specs.Payee.{before_shop, in_register, start_in_register, shown, placed, payee_part};

use crate::bounds::{COUNT_WIDTH, NUMBER_WIDTH};
use crate::code::Code;
use crate::register::{Register, read_register};
use crate::slip::read_slip;

// The bytes before the first shop's line: `shops=`, the count, byte 10.
const TO_SHOPS: usize = 6 + COUNT_WIDTH + 1;
// From a line's start to its shop's code: `shop=`.
const TO_CODE: usize = 5;
// From the code's end to the next line: a colon, the opening, byte 10.
const AFTER_CODE: usize = 1 + NUMBER_WIDTH + 1;
// The bytes before the payer's code: `payer=`.
const TO_PAYER: usize = 6;
// From its end to the payee's code: byte 10, `number=`, the number, byte 10, `payee=`.
const TO_PAYEE: usize = 1 + 7 + NUMBER_WIDTH + 1 + 6;

// Where the code of the shop at a position starts, in the register's text.
fn shop_start(register: Register, position: usize) -> usize
    requires { (register_layout.legal register ≡ true) × (position ≤ register.count) }
    ensures { result ≡ length (before_shop register position) }
{
    let mut at = TO_SHOPS;
    for shop in &register.shops[..position] {
        at += TO_CODE + shop.code.len + AFTER_CODE;
    }
    at + TO_CODE
}

// Where a register's text lists a code.
fn shop_spot(text: &[u8], code: Code) -> Option<usize>
    ensures { MatchOption result (in_register text.now code ≡ false) (λ start. (in_register text.now code ≡ true) × (start ≡ start_in_register text.now code)) }
{
    let Ok(register) = read_register(text) else {
        return None;
    };
    if !register.lists(code) {
        return None;
    }
    Some(shop_start(register, register.position(code)))
}

// The payee's code, as a part of the one text or of the other; empty at the slip's start where the slip is refused.
pub fn payee_part<'a>(register: &'a [u8], slip: &'a [u8]) -> &'a [u8]
    ensures bytes { result.now ≡ shown (payee_part register.now slip.now) register.now slip.now }
    ensures place { result.ref_ptr ≡ placed (payee_part register.now slip.now) register.entry.ref_ptr slip.entry.ref_ptr }
{
    let Ok(found) = read_slip(slip) else {
        return &slip[..0];
    };
    let size = found.payee.len;
    if let Some(start) = shop_spot(register, found.payee) {
        return &register[start..start + size];
    }
    let start = TO_PAYER + found.payer.len + TO_PAYEE;
    &slip[start..start + size]
}
