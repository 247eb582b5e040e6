// The bounds of the trade, each named once: how many, how long, how much.

// The shops that a register has room for.
pub const SHOPS: usize = 16;
// The dependencies that a slip has at most: every shop but the payer.
pub const MOST_DEPS: usize = SHOPS - 1;
// The digits that a code has room for.
pub const CODE_DIGITS: usize = 8;
// The digits of an opening, an amount and a slip number.
pub const NUMBER_WIDTH: usize = 6;
// The digits of `shops=` and `deps=`.
pub const COUNT_WIDTH: usize = 2;
// The largest opening credit, amount and slip number.
pub const MOST: u32 = 999999;
// The bytes that a lent buffer needs for a register, and for a slip.
pub const REGISTER_ROOM: usize = 358;

pub const SLIP_ROOM: usize = 366;
