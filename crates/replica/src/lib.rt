// The replica: the register, the shops' numbers, the lines of waiting slips, and the steps over them.
#![tactic(auto)]

mod balance;
pub mod bounds;
mod checks;
mod issue;
mod open;
mod record;
mod reply;
mod settle;
mod state;
mod take;

pub use record::{Line, Replica, Shop, Waiting};
pub use reply::Reply;
