// The replica's bounds, each named once.

// The slips that may wait for one shop.
pub const WAITING: usize = 8;
// The bytes that a lent list needs: one for each slip that can wait.
pub const LIST_ROOM: usize = 128;
