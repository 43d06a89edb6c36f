//! The packets of a client that plays: the enum, its reader and its writer.

ghost use Rattle.std.specs.Prelude.{◌≡◌, ◌++◌, ℕ, List, IfOk, OnOk, OnErr, Ok};
ghost use Rattle.mc_fields.specs.Row.{GivesRow, GivesPacket, packet_read, packet_of};
ghost use Rattle.mc_up.specs.PlayUp.{rows, SpellsPlayUp, spelling_of};

mod parts;
mod reading;
mod writing;

pub use self::parts::Hit;
use self::reading::read_fields;
use self::writing::write_fields;
use mc_bytes::{Cursor, NoMemory, Octets, Text};
use mc_fields::{Cell, PacketRead, RowError, take_varint, whole};
use mc_slots::Slot;
use std::alloc::Global;

/// A packet of a client that plays. A number with a fraction is its pattern of bits.
#[derive(Drop)]
pub enum PlayUp {
    /// The number of the keep-alive that the client answers.
    KeepAlive(i32),
    /// What the player says.
    Chat(Text),
    /// The entity that is used, how (0 used, 1 attacked, 2 used at a place), and where it was hit,
    /// which is there exactly for 2.
    UseEntity(i32, i32, Option<Hit>),
    /// Whether the player stands on something.
    Player(bool),
    /// The player's x, y of the feet and z, in blocks, and whether it stands on something.
    Position {
        x: u64,
        y: u64,
        z: u64,
        on_ground: bool,
    },
    /// The player's yaw and pitch, in degrees, and whether it stands on something.
    Look(u32, u32, bool),
    /// The fields of `Position` and `Look`.
    PositionLook {
        x: u64,
        y: u64,
        z: u64,
        yaw: u32,
        pitch: u32,
        on_ground: bool,
    },
    /// What is done (0 begun, 1 given up, 2 finished, 3 the stack in hand dropped, 4 one item of it
    /// dropped, 5 its use ended), the block, and its face.
    Digging(i8, Cell, i8),
    /// The block, its face, what the player holds, and where on the face, in 1/16 blocks. With an
    /// x, y and z of -1 what is held is used where the player is.
    Placement {
        place: Cell,
        face: i8,
        item: Slot,
        x: i8,
        y: i8,
        z: i8,
    },
    /// The slot of the hotbar that the player holds.
    Held(i16),
    /// The player's arm swings.
    Animation,
    /// The player's own entity, what it does, and how high its horse jumps.
    EntityAction(i32, i32, i32),
    /// How the player steers what it rides: sideways, forward, and whether it jumps or leaves.
    Steer(u32, u32, u8),
    /// The window that is closed.
    CloseWindow(u8),
    /// The window, the slot (-999 outside), the button, the click's number, its mode, and the item
    /// that the client thinks is there.
    ClickWindow {
        window: u8,
        slot: i16,
        button: i8,
        number: i16,
        mode: i8,
        item: Slot,
    },
    /// The window, the number of the click that the client confirms, and whether it accepts that.
    Confirm(i8, i16, bool),
    /// The slot of the inventory, and what the player in creative mode puts there.
    Creative(i16, Slot),
    /// The window, and which enchantment is taken.
    Enchant(i8, i8),
    /// The sign's block, and its four lines as JSON.
    Sign {
        place: Cell,
        first: Text,
        second: Text,
        third: Text,
        fourth: Text,
    },
    /// Flags of what the player may do, and how fast it flies and walks.
    Abilities(i8, u32, u32),
    /// What is typed so far, whether the player looks at a block, and that block, which is there
    /// exactly where it does.
    TabComplete(Text, bool, Option<Cell>),
    /// The client's language, how many columns it sees each way, which chat it shows, whether with
    /// colours, and which parts of its skin.
    Settings {
        locale: Text,
        view: i8,
        chat_mode: i8,
        colours: bool,
        skin: u8,
    },
    /// What the client wants: to enter again, its statistics, or to have opened its inventory.
    ClientStatus(i32),
    /// A channel between plugins, and what is said on it.
    Plugin(Text, Octets),
    /// The player that a spectator wants to be at.
    Spectate(u128),
    /// The hash of a resource pack, and what became of it.
    ResourcePack(Text, i32),
}

/// The packet of a frame, or its first fault, with its place counted from the frame's end.
#[tactic(auto, unfolding(mc_fields::specs::Row::packet_read))]
fn packet_in(alloc: Global, frame: &[u8]) -> Result<PlayUp, RowError>
    ensures { GivesRow (λ packet. packet) result (packet_read rows frame.now) }
{
    let mut cursor = Cursor::new(frame);
    let id = take_varint(&mut cursor)?;
    let packet = read_fields(alloc, &mut cursor, id)?;
    Ok(whole(packet, &cursor)?)
}

/// Reads a packet, whose frame is the bytes after the frame's length.
pub fn read_play_up(alloc: Global, frame: &[u8]) -> Result<PlayUp, PacketRead>
    // What is read is spelled so.
    ensures found { IfOk result (λ packet. SpellsPlayUp packet frame.now) }
    // What is spelled so is read, unless memory runs out.
    ensures only { (packet : PlayUp) → SpellsPlayUp packet frame.now →
        GivesPacket result (Ok packet) }
    // A frame spells one packet at most.
    ensures one { (p q : PlayUp) → SpellsPlayUp p frame.now → SpellsPlayUp q frame.now → p ≡ q }
    // Which fault it is.
    ensures exact { GivesPacket result (packet_of frame.now (packet_read rows frame.now)) }
{
    packet_in(alloc, frame).map_err(|error| error.within(frame.len()))
}

/// Appends a packet, with its VarInts the shortest. Without memory `out` is as before.
pub fn write_play_up(packet: &PlayUp, out: &mut Vec<u8>) -> Result<(), NoMemory>
    // It has a spelling.
    requires { (bytes : List ℕ) × SpellsPlayUp packet.now bytes }
    ensures ok { OnOk result (out.new.items ≡ out.old.items ++ spelling_of packet.now) }
    ensures spelled { SpellsPlayUp packet.now (spelling_of packet.now) }
    // What is written is read as the same packet.
    ensures again { packet_read rows (spelling_of packet.now) ≡ Ok packet.now }
    ensures err { OnErr result (out.new.items ≡ out.old.items) }
{
    let start = out.len();
    let written = write_fields(packet, out);
    if written.is_err() {
        out.truncate(start);
    }
    written
}
