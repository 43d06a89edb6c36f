/// How many entities can be seen at most: 4,096 dropped items, 64 mobs and 50 players. A packet
/// that takes entities away holds as many numbers.
pub const DESTROYED_MAX: usize = 4_210;

/// What an entity is to a client that sees it. It is the same for good.
#[derive(Clone, Copy, Debug, PartialEq, Eq)]
pub enum SeenKind {
    /// A player, by its identifier.
    Player(u128),
    /// A dropped item.
    Dropped,
    /// A mob.
    Mob,
}
