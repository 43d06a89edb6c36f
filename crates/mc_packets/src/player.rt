use crate::Properties;
use mc_bytes::Text;

/// A property of a player, as its skin.
#[derive(Drop)]
pub struct Property {
    /// Its name.
    pub name: Text,
    /// Its value.
    pub value: Text,
    /// Whether a signature follows.
    pub is_signed: bool,
    /// The signature, where one follows.
    pub signature: Option<Text>,
}

/// What changes of a player in the list of players. The packet's action says which of these it is.
#[derive(Drop)]
pub enum PlayerChange {
    /// Action 0, the player joins: its ping in milliseconds, whether a name to show follows, and
    /// that name as JSON.
    Join {
        name: Text,
        properties: Properties,
        mode: i32,
        ping: i32,
        is_shown: bool,
        shown: Option<Text>,
    },
    /// Actions 1 and 2: its game mode, or its ping.
    Number(i32),
    /// Action 3: whether a name to show follows, and that name as JSON.
    Shown(bool, Option<Text>),
    /// Action 4: the player leaves.
    Leave,
}

/// A player of the list of players.
#[derive(Drop)]
pub struct Player {
    /// The player's UUID.
    pub uuid: u128,
    /// What changes of it.
    pub change: PlayerChange,
}
