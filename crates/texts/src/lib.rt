// Codes, registers and slips: their values, their texts, and the answers that reading and writing give.
#![tactic(auto)]

pub mod answers;
pub mod bounds;
mod code;
mod cursor;
mod entry;
pub mod page;
mod payee;
mod pen;
mod reader;
mod register;
mod slip;

pub use answers::{Name, Refusal, number_of, why};
pub use code::Code;
pub use entry::Entry;
pub use payee::payee_part;
pub use register::{Register, read_register, write_register};
pub use slip::{Slip, read_slip, write_slip};
