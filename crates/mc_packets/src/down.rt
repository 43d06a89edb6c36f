use crate::{Metas, Players, Records, Slots, Speed, Texts, Varints};
use mc_bytes::{Octets, Text};
use mc_fields::Cell;
use mc_slots::Slot;

/// A packet to a client in play, with its fields in their order.
#[derive(Drop)]
pub enum Down {
    /// The client is to send this number back.
    KeepAlive(i32),
    /// The client's entity, how many players there may be, the kind of level, and whether less is
    /// shown for finding faults.
    JoinGame {
        eid: i32,
        mode: u8,
        dimension: i8,
        difficulty: u8,
        max_players: u8,
        level_type: Text,
        reduced_debug_info: bool,
    },
    /// A message as JSON, and where it is shown.
    Chat(Text, i8),
    /// The world's age and its time of day, in ticks.
    Time(i64, i64),
    /// An entity, where it has an item, and the item.
    Equipment(i32, i16, Slot),
    /// Where compasses point.
    SpawnPosition(Cell),
    /// Health, food and saturation; the first and the last are bit patterns of binary32 numbers.
    Health(u32, i32, u32),
    /// The player's new dimension, and the kind of level.
    Respawn {
        dimension: i32,
        difficulty: u8,
        mode: u8,
        level_type: Text,
    },
    /// Where the player is in blocks and looks in degrees, as bit patterns of binary64 and binary32
    /// numbers, and which of these are relative.
    PositionLook {
        x: u64,
        y: u64,
        z: u64,
        yaw: u32,
        pitch: u32,
        flags: i8,
    },
    /// Which slot of the hotbar is held.
    Held(i8),
    /// An entity, and how it is animated.
    Animation(i32, u8),
    /// A player: its place in 1/32 blocks, its turns in 1/256 turns, and the id of the item in its
    /// hand or 0.
    SpawnPlayer {
        eid: i32,
        uuid: u128,
        x: i32,
        y: i32,
        z: i32,
        yaw: u8,
        pitch: u8,
        item: i16,
        metas: Metas,
    },
    /// An item, and the entity that takes it.
    Collect(i32, i32),
    /// An object: its place in 1/32 blocks, its turns in 1/256 turns, a number that depends on its
    /// kind, and its speed, which is there exactly where that number is above 0.
    SpawnObject {
        eid: i32,
        kind: i8,
        x: i32,
        y: i32,
        z: i32,
        pitch: u8,
        yaw: u8,
        extra: i32,
        speed: Option<Speed>,
    },
    /// A mob: its place in 1/32 blocks, its turns and its head's yaw in 1/256 turns, and its speed
    /// in 1/8000 blocks a tick.
    SpawnMob {
        eid: i32,
        kind: u8,
        x: i32,
        y: i32,
        z: i32,
        yaw: u8,
        pitch: u8,
        head: u8,
        dx: i16,
        dy: i16,
        dz: i16,
        metas: Metas,
    },
    /// An entity's speed, in 1/8000 blocks a tick.
    Velocity {
        eid: i32,
        dx: i16,
        dy: i16,
        dz: i16,
    },
    /// Entities that are no longer shown.
    Destroy(Varints),
    /// An entity that stays as it is.
    Entity(i32),
    /// An entity's move, in 1/32 blocks.
    Step {
        eid: i32,
        dx: i8,
        dy: i8,
        dz: i8,
        on_ground: bool,
    },
    /// Where an entity looks, in 1/256 turns.
    Look {
        eid: i32,
        yaw: u8,
        pitch: u8,
        on_ground: bool,
    },
    /// `Step` and `Look` in one.
    StepLook {
        eid: i32,
        dx: i8,
        dy: i8,
        dz: i8,
        yaw: u8,
        pitch: u8,
        on_ground: bool,
    },
    /// An entity's new place in 1/32 blocks, and its turns in 1/256 turns.
    Teleport {
        eid: i32,
        x: i32,
        y: i32,
        z: i32,
        yaw: u8,
        pitch: u8,
        on_ground: bool,
    },
    /// An entity, and its head's yaw in 1/256 turns.
    HeadLook(i32, u8),
    /// An entity, and what happens to it.
    Status(i32, i8),
    /// An entity, what it is attached to, and whether by a leash.
    Attach(i32, i32, bool),
    /// An entity, and what changes of its metadata.
    Meta(i32, Metas),
    /// How full the bar of experience is from 0 to 1, as the bit pattern of a binary32 number, the
    /// level, and the experience in all.
    Experience(u32, i32, i32),
    /// A column: its place in columns, whether it is all of the column, and which sections the body
    /// has, the lowest section at the lowest bit.
    Chunk {
        cx: i32,
        cz: i32,
        ground_up: bool,
        mask: u16,
        body: Octets,
    },
    /// Cells of one column that change: x and z in columns, and the changes.
    MultiChange(i32, i32, Records),
    /// A cell, and its new state.
    Change(Cell, i32),
    /// What changes of the game, and a number that depends on it, as the bit pattern of a binary32
    /// number.
    GameState(u8, u32),
    /// A window: its title as JSON, how many slots it has, and the entity, which is there exactly
    /// where the kind is `EntityHorse`.
    OpenWindow {
        window: u8,
        kind: Text,
        title: Text,
        slots: u8,
        horse: Option<i32>,
    },
    /// The number of a window that closes.
    CloseWindow(u8),
    /// The number of a window, a slot of it, and what is in the slot.
    SetSlot(i8, i16, Slot),
    /// The number of a window, and what is in each of its slots.
    WindowItems(u8, Slots),
    /// The number of a window, a property of it, and its value.
    WindowProperty(u8, i16, i16),
    /// The number of a window, that of a click in it, and whether the click was accepted.
    Confirm(i8, i16, bool),
    /// The sign that the player may write on.
    SignEditor(Cell),
    /// The list of players: what changes of each, from 0 to 4, and the players.
    List(i32, Players),
    /// What the player may do, how fast it flies, and its field of view; the last two are bit
    /// patterns of binary32 numbers.
    Abilities(i8, u32, u32),
    /// What a word may be completed to.
    TabComplete(Texts),
    /// A channel, and a message of it.
    Plugin(Text, Octets),
    /// Why the server closes the connection, as JSON.
    Disconnect(Text),
    /// The difficulty.
    Difficulty(u8),
    /// A packet whose fields are not taken apart: its id, and the bytes after it.
    Raw(i32, Octets),
}
