/// How many ticks an item lies there at least before it is picked up.
pub const PICKUP_TICKS: u64 = 40;
/// How far on x and on z it may lie from who picks it up, in 1/32 of a block.
pub const PICKUP_SIDE: u32 = 32;
/// How far above or below it may lie, in 1/32 of a block.
pub const PICKUP_HEIGHT: u32 = 48;
