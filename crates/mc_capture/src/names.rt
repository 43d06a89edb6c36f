ghost use Rattle.std.specs.Prelude.{◌≡◌, map};
ghost use Rattle.mc_capture.specs.Names.{name_of, names_of};

use crate::states::{State, Way};

/// The names of the packets that begin a connection, by their ids.
const HAND_UP: [&str; 1] = ["Handshake"];

/// The names of the packets that ask for the status.
const STATUS_UP: [&str; 2] = ["Request", "Ping"];

/// The names of the packets that answer those.
const STATUS_DOWN: [&str; 2] = ["Response", "Pong"];

/// The names of the packets of a client that logs in.
const LOGIN_UP: [&str; 1] = ["Start"];

/// The names of the packets to a client that logs in; none has the id 1.
const LOGIN_DOWN: [&str; 3] = ["Disconnect", "", "Success"];

/// The names of the packets of a client that plays.
const PLAY_UP: [&str; 26] = [
    "KeepAlive",
    "Chat",
    "UseEntity",
    "Player",
    "Position",
    "Look",
    "PositionLook",
    "Digging",
    "Placement",
    "Held",
    "Animation",
    "EntityAction",
    "Steer",
    "CloseWindow",
    "ClickWindow",
    "Confirm",
    "Creative",
    "Enchant",
    "Sign",
    "Abilities",
    "TabComplete",
    "Settings",
    "ClientStatus",
    "Plugin",
    "Spectate",
    "ResourcePack",
];

/// The names of the packets to a client that plays; none has the id 46 (hex).
const PLAY_DOWN: [&str; 74] = [
    "KeepAlive",
    "JoinGame",
    "Chat",
    "Time",
    "Equipment",
    "SpawnPosition",
    "Health",
    "Respawn",
    "PositionLook",
    "Held",
    "Raw",
    "Animation",
    "SpawnPlayer",
    "Collect",
    "SpawnObject",
    "SpawnMob",
    "Raw",
    "Raw",
    "Velocity",
    "Destroy",
    "Entity",
    "Step",
    "Look",
    "StepLook",
    "Teleport",
    "HeadLook",
    "Status",
    "Attach",
    "Meta",
    "Raw",
    "Raw",
    "Experience",
    "Raw",
    "Chunk",
    "MultiChange",
    "Change",
    "Raw",
    "Raw",
    "Raw",
    "Raw",
    "Raw",
    "Raw",
    "Raw",
    "GameState",
    "Raw",
    "OpenWindow",
    "CloseWindow",
    "SetSlot",
    "WindowItems",
    "WindowProperty",
    "Confirm",
    "Raw",
    "Raw",
    "Raw",
    "SignEditor",
    "Raw",
    "List",
    "Abilities",
    "TabComplete",
    "Raw",
    "Raw",
    "Raw",
    "Raw",
    "Plugin",
    "Disconnect",
    "Difficulty",
    "Raw",
    "Raw",
    "Raw",
    "Raw",
    "",
    "Raw",
    "Raw",
    "Raw",
];

/// The names of the packets of a state, by their ids.
#[tactic(auto, unfolding(crate::specs::Names::names_of))]
fn names_of(way: Way, state: State) -> &'static [&'static str]
    ensures { map (λ name. name.now) result.now ≡ names_of way state }
{
    match way {
        Way::Up => names_up(state),
        Way::Down => names_down(state),
    }
}

/// The names of the packets of a client in a state.
#[tactic(auto, unfolding(crate::specs::Names::names_of))]
fn names_up(state: State) -> &'static [&'static str]
    ensures { map (λ name. name.now) result.now ≡ names_of Way.Up state }
{
    match state {
        State::Hand => &HAND_UP,
        State::Status => &STATUS_UP,
        State::Login => &LOGIN_UP,
        State::Play => &PLAY_UP,
    }
}

/// The names of the packets to a client in a state.
#[tactic(auto, unfolding(crate::specs::Names::names_of))]
fn names_down(state: State) -> &'static [&'static str]
    ensures { map (λ name. name.now) result.now ≡ names_of Way.Down state }
{
    match state {
        State::Hand => &[],
        State::Status => &STATUS_DOWN,
        State::Login => &LOGIN_DOWN,
        State::Play => &PLAY_DOWN,
    }
}

/// The name of the packet of a state that has an id; empty where none has it.
pub(crate) fn name_of(way: Way, state: State, id: u8) -> &'static str
    ensures { result.now ≡ name_of way state id }
{
    match names_of(way, state).get(id as usize) {
        Some(name) => name,
        None => "",
    }
}
