/// How many lists and compounds may stand in one another, the outermost compound counted.
pub const DEPTH_MAX: usize = 512;

/// How many bytes a name or a text has at most.
pub const NAME_MAX: usize = 65_535;

/// How many items a list or an array has at most.
pub const ITEMS_MAX: u32 = 2_147_483_647;

/// The largest tag byte.
pub const KIND_MAX: u8 = 11;

/// The tag byte of a compound.
pub const COMPOUND: u8 = 10;

/// The byte that ends a compound.
pub const END: u8 = 0;
