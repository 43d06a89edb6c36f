/// How far a connection has come.
#[derive(Clone, Copy, Debug, PartialEq, Eq)]
pub enum Stage {
    /// It has not said yet what it wants.
    Hand,
    /// It asks for the status.
    Status,
    /// It logs in.
    Login,
    /// It asked to play, and the answer is not settled. No connection is in this stage between two
    /// events.
    Asked,
    /// Its player is in play.
    Play,
    /// It is closed; whatever comes of it is ignored.
    Closed,
}
