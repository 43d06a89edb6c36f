use mc_land::Terrain;

/// What a world begins with.
#[derive(Clone, Copy, Debug, PartialEq, Eq)]
pub struct Settings {
    /// How many players may be in play, 1 to 50.
    pub players: u32,
    /// How large a view may be, in columns on each side of a player's own, 2 to 8.
    pub cap: u8,
    /// The land.
    pub terrain: Terrain,
}
