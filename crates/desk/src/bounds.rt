// The bounds of the counter's work, each named once.

// The bytes of the input that are fed at a time.
pub const WINDOW: usize = 16384;
// The bytes that are printed at a time: at most 48 for each that is fed.
pub const PAGE: usize = 786432;
// The bytes that are kept of a chunk: one more than the longest text, so that a longer chunk is seen to be longer.
pub(crate) const KEPT: usize = 367;
// The slip chunks that are looked at.
pub(crate) const SLIPS: u32 = 999999;
