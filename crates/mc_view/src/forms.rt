/// How a client is told where an entity is and looks now, by where it was told last.
#[derive(Clone, Copy, Debug, PartialEq, Eq)]
pub enum Form {
    /// Nothing is told: place, yaw and pitch are the same.
    Still,
    /// By how much it moved to the east, up and to the south, in 1/32 blocks. It looks as before.
    Step(i8, i8, i8),
    /// By how much it moved, in 1/32 blocks; yaw or pitch changed too.
    StepTurn(i8, i8, i8),
    /// It is where it was; yaw or pitch changed.
    Turn,
    /// Its place is told anew: it moved on an axis by more than a signed byte holds.
    Jump,
}

/// What one entity's change takes.
#[derive(Clone, Copy, Debug, PartialEq, Eq)]
pub struct Moves {
    /// How place and look are told.
    pub form: Form,
    /// Whether its head is turned: exactly where yaw changed.
    pub head: bool,
}
