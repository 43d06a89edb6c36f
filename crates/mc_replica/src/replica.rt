ghost use Rattle.std.specs.Prelude.{◌≡◌, ◌++◌, ◌∷◌, ◌↔◌, ◌&&◌, ◌==◌, [], Some, OnOk, IfOk};
ghost use Rattle.std.specs.Prelude.{IsErrOf, OnErr, slice_get};
ghost use Rattle.std.specs.Prelude.{if◌then◌else◌};
ghost use Rattle.std.specs.FinMap.{entries, get, keys, len};
ghost use Rattle.std.specs.Option.{option_copied, option_map};
ghost use Rattle.mc_bytes.specs.declared.fault.FieldFault.{FieldFault};
ghost use Rattle.mc_bytes.specs.declared.fault.ReadFault.TheVariants as faults;
ghost use Rattle.mc_bytes.specs.Placed.{PlacedGives};
ghost use Rattle.mc_column.specs.Body.{body_read};
ghost use Rattle.mc_model.specs.Replica.{apply, changed_at, is_cursor, new_replica, with_chunk};
ghost use Rattle.mc_model.specs.Replica.{with_columns, with_cursor, with_slot};
ghost use Rattle.mc_model.specs.Sight.{Seen as SeenValue};
ghost use Rattle.mc_replica.specs.Blocks.{block_in};
ghost use Rattle.mc_replica.specs.Dump.{dump_text};
ghost use Rattle.mc_replica.specs.Faults.{chunk_fault, fault_in, fault_of, taken};
ghost use Rattle.mc_replica.specs.KeptPlayers.{rows_of};
ghost use Rattle.mc_replica.specs.Slots.{window_of};
ghost use Rattle.mc_wire.specs.Count.{Rose, StandsOrRises};
ghost use Rattle.mc_wire.specs.Stream.{Grows};
ghost use Rattle.mc_text.specs.Passes.{Breaks, Passes, SendsPart};

use crate::columns::Columns;
use crate::dump::{put_all, put_text};
use crate::dump_fault::DumpFault;
use crate::entities::Entities;
use crate::lines::times_text;
use crate::places::{Place, inside, low_state, place_at, place_of};
use crate::player_list::{Listed, PlayerList};
use crate::seen::Seen;
use crate::window::SeenWindow;
use mc_bytes::{NoMemory, ReadFault, Text};
use mc_column::{Body, Column, read_body};
use mc_fields::Cell;
use mc_packets::Down;
use mc_slots::Slot;
use mc_wire::Sink;
use mc_text::{Unfinished, write_out};
use std::alloc::Global;
use std::marker::Model;

/// The world of one client, made of the packets that it was sent. Contracts see it as the
/// definitions' replica.
#[derive(Drop)]
pub struct Replica {
    /// Where its memory comes from.
    alloc: Global,
    /// The dimension has a sky, so bodies have sky light.
    sky: bool,
    beat: Option<i32>,
    age: Option<i64>,
    list: PlayerList,
    columns: Columns,
    entities: Entities,
    window: SeenWindow,
    chat: Vec<Text>,
}

impl Model for Replica {
    ghost use Rattle.std.specs.Coded.{codes};
    ghost use Rattle.mc_nbt.specs.TreeCode.{coded_tree};
    ghost use Rattle.mc_model.specs.Replica as replica;
    ghost use Rattle.mc_replica.specs.contracts.columns.Columns.{the_row as columns_row};
    ghost use Rattle.mc_replica.specs.contracts.entities.Entities.{the_row as entities_row};
    ghost use Rattle.mc_replica.specs.contracts.player_list.PlayerList.{the_row as list_row};

    ghost Value = { replica.Replica };

    ghost coded = { Prim.hlevel (
      codes,
      coded_tree,
      columns_row.coded,
      entities_row.coded,
      list_row.coded,
    ) };

    ghost view = { λ r. record {
      sky = r.sky;
      sight = record {
        beat = r.beat;
        age = r.age;
        pairs = r.list;
        columns = r.columns;
        entities = r.entities;
        window = r.window.window;
        pack = r.window.pack;
        cursor = r.window.cursor;
        chat = r.chat.items;
      };
    } };
}

impl Replica {
    /// A client that was sent nothing: under a sky, with no column, entity, player, window, line,
    /// age or beat, and an empty pack and cursor. It takes no memory.
    pub fn new(alloc: Global) -> Replica
        ensures { result ≡ new_replica }
    {
        Replica {
            alloc,
            sky: true,
            beat: None,
            age: None,
            list: PlayerList::new(alloc),
            columns: Columns::new(alloc),
            entities: Entities::new(alloc),
            window: SeenWindow::new(),
            chat: Vec::new(alloc),
        }
    }

    /// Where its memory comes from.
    pub(crate) fn allocator(&self) -> Global {
        self.alloc
    }

    // ---- what it shows

    /// The number that it was sent last to send back, None where there was none.
    pub fn beat(&self) -> Option<i32>
        ensures { result ≡ self.now.sight.beat }
    {
        self.beat
    }

    /// The world's age that it was sent last, None where there was none.
    pub fn age(&self) -> Option<i64>
        ensures { result ≡ self.now.sight.age }
    {
        self.age
    }

    /// The state of a cell, None exactly where its column is not loaded or y is not 0 to 255.
    pub fn block(&self, cell: Cell) -> Option<u16>
        ensures { result ≡ block_in self.now.sight.columns cell.x cell.y cell.z }
    {
        if cell.y < 0 || cell.y >= 256 {
            return None;
        }
        let column = self.columns.find(&place_of(&cell))?;
        Some(column.get(inside(cell.x), cell.y as u8, inside(cell.z)))
    }

    /// The column at a place, None exactly where it is not loaded.
    pub fn column(&self, cx: i32, cz: i32) -> Option<&Column>
        ensures { option_copied result ≡ get self.now.sight.columns (cx, cz) }
    {
        self.columns.find(&(cx, cz))
    }

    /// How many columns are loaded.
    pub fn columns(&self) -> usize
        ensures { result ≡ len self.now.sight.columns }
    {
        self.columns.len()
    }

    /// The place of the loaded column that has `i` loaded ones before it in rising order, None
    /// exactly where `i` or fewer are loaded.
    pub fn loaded(&self, i: usize) -> Option<(i32, i32)>
        ensures { result ≡ slice_get (keys self.now.sight.columns) i }
    {
        self.columns.place(i)
    }

    /// The entity of a number, None exactly where it is not known.
    pub fn entity(&self, eid: i32) -> Option<&Seen>
        ensures { option_copied result
            ≡ option_map (λ (e : SeenValue). (eid, e)) (get self.now.sight.entities eid) }
    {
        self.entities.find(&eid)
    }

    /// All entities, by rising number.
    pub fn entities(&self) -> &[Seen]
        ensures { result.now ≡ entries self.now.sight.entities }
    {
        self.entities.all()
    }

    /// The list of players, by rising identifier.
    pub fn listed(&self) -> &[Listed]
        ensures { rows_of result.now ≡ entries self.now.sight.pairs }
    {
        self.list.all()
    }

    /// The slots that it has.
    pub fn window(&self) -> &SeenWindow
        ensures { result.now ≡ window_of self.now.sight }
    {
        &self.window
    }

    /// What was said, in order.
    pub fn chat(&self) -> &[Text]
        ensures { result.now ≡ self.now.sight.chat }
    {
        self.chat.as_slice()
    }

    /// Writes what it shows as text, a line each: what it was told last, the list of players, the
    /// columns, the entities, the slots that are full and what was said. `Write` comes only where
    /// the sink failed; any fault leaves some first part of the text written.
    pub fn dump<S: Sink>(&self, sink: &mut S) -> Result<(), DumpFault>
        ensures whole { OnOk result (Grows (S.held sink.old) (S.held sink.new)
            (dump_text self.now)) }
        ensures part { OnErr result (SendsPart (S.held sink.old) (S.held sink.new)
            (dump_text self.now)) }
        ensures failed { IsErrOf result DumpFault.Write →
            Rose (S.faults sink.old) (S.faults sink.new) }
        ensures counts { StandsOrRises (S.faults sink.old) (S.faults sink.new) }
    {
        let mut lines = Vec::new(self.alloc);
        self.put_lines(&mut lines, sink)?;
        write_out(&mut lines, sink)?;
        Ok(())
    }

    /// Puts the lines of a dump behind those that wait.
    fn put_lines<S: Sink>(&self, lines: &mut Vec<u8>, sink: &mut S) -> Result<(), Unfinished>
        ensures passes { OnOk result (Passes (S.held sink.old) (S.held sink.new)
            lines.old.items (dump_text self.now) lines.new.items []) }
        ensures breaks { OnErr result (Breaks (S.held sink.old) (S.held sink.new)
            lines.old.items (dump_text self.now)) }
        ensures failed { IsErrOf result Unfinished.Failed →
            Rose (S.faults sink.old) (S.faults sink.new) }
        ensures counts { StandsOrRises (S.faults sink.old) (S.faults sink.new) }
    {
        let alloc = self.allocator();
        let (age, beat) = (self.age(), self.beat());
        let (players, columns, entities) = (self.listed(), self.column_rows(), self.entities());
        let (window, chat) = (self.window(), self.chat());
        put_text(times_text(alloc, age, beat), lines, sink)?;
        put_all(alloc, players, lines, sink)?;
        put_all(alloc, columns, lines, sink)?;
        put_all(alloc, entities, lines, sink)?;
        put_text(window.to_text(alloc), lines, sink)?;
        put_all(alloc, chat, lines, sink)?;
        Ok(())
    }

    /// All columns with their places, by rising place.
    fn column_rows(&self) -> &[(Place, Column)]
        ensures { result.now ≡ entries self.now.sight.columns }
    {
        self.columns.all()
    }

    // ---- packets

    /// Becomes what a packet makes of it. A chunk whose bytes are not as many as its mask, its
    /// kind and the sky make is a fault, with its place in those bytes, and changes nothing. Out of
    /// memory, some first part of what the packet changes may be changed.
    pub fn apply(&mut self, packet: &Down) -> Result<(), ReadFault>
        ensures ok { OnOk result (self.new ≡ apply self.old packet.now) }
        ensures fault { (fault : FieldFault) → IsErrOf result (faults.Field fault) ↔
            (fault_in self.old packet.now ≡ Some fault) }
        ensures kept { (fault : FieldFault) → IsErrOf result (faults.Field fault) →
            self.new ≡ self.old }
    {
        if let Down::Chunk {
            cx,
            cz,
            ground_up,
            mask,
            body,
        } = packet
        {
            return self.take_chunk(cx, cz, *ground_up, *mask, body.as_slice());
        }
        self.take(packet)?;
        Ok(())
    }

    /// Becomes what a packet makes of it that is no chunk. Out of memory, some first part of what
    /// the packet changes may be changed.
    #[tactic(auto, unfolding(mc_model::specs::Replica::apply))]
    fn take(&mut self, packet: &Down) -> Result<(), NoMemory>
        ensures ok { OnOk result (self.new ≡ taken self.old packet.now) }
    {
        match packet {
            Down::KeepAlive(beat) => self.beat = Some(*beat),
            Down::JoinGame { dimension, .. } => self.sky = *dimension == 0,
            Down::Chat(text, _) => self.take_line(text)?,
            Down::Time(age, _) => self.age = Some(*age),
            Down::List(_, players) => self.list.take_all(players.as_slice())?,
            Down::Change(cell, state) => self.take_change(cell, *state)?,
            Down::MultiChange(cx, cz, records) => {
                self.columns.set_all(&place_at(cx, cz), records.as_slice())?;
            }
            Down::SpawnPlayer { .. } | Down::SpawnObject { .. } | Down::SpawnMob { .. } => self
                .entities
                .take_new(packet)?,
            Down::Destroy(_)
            | Down::Step { .. }
            | Down::StepLook { .. }
            | Down::Look { .. }
            | Down::Teleport { .. }
            | Down::HeadLook(_, _)
            | Down::Equipment(_, _, _)
            | Down::Meta(_, _) => self.entities.take(packet)?,
            Down::SetSlot(window, i, item) => self.take_slot(*window, *i, item)?,
            Down::WindowItems(number, items) => {
                self.window.set_all(self.alloc, *number, items.as_slice())?;
            }
            Down::OpenWindow { window, .. } => self.window.open(*window),
            Down::CloseWindow(_) => self.window.close(),
            _ => {}
        }
        Ok(())
    }

    /// Takes a chunk: all of a column, some sections of one that is there, or none, which takes the
    /// column away.
    fn take_chunk(
        &mut self,
        cx: &i32,
        cz: &i32,
        ground_up: bool,
        mask: u16,
        bytes: &[u8],
    ) -> Result<(), ReadFault>
        ensures ok { OnOk result (self.new ≡ with_columns self.old (with_chunk self.old.sky
            self.old.sight.columns (cx.now, cz.now) ground_up mask bytes.now)) }
        ensures fault { (fault : FieldFault) → IsErrOf result (faults.Field fault) ↔
            (chunk_fault self.old.sky ground_up mask bytes.now ≡ Some fault) }
        ensures kept { (fault : FieldFault) → IsErrOf result (faults.Field fault) →
            self.new ≡ self.old }
    {
        let place = place_at(cx, cz);
        if takes_away(ground_up, mask) {
            self.columns.remove(&place);
            return Ok(());
        }
        let body = match body_of(self.alloc, bytes, mask, self.sky, ground_up) {
            Ok(body) => body,
            Err(fault) => return Err(fault),
        };
        if ground_up {
            self.columns.load(self.alloc, &place, &body, mask)?;
        } else {
            self.columns.lay(&place, &body, mask)?;
        }
        Ok(())
    }

    /// Takes a text that is said.
    fn take_line(&mut self, text: &Text) -> Result<(), NoMemory>
        ensures ok { OnOk result (self.new ≡ record self.old {
          sight = record self.old.sight { chat = self.old.sight.chat ++ text.now ∷ [] };
        }) }
    {
        self.chat.push(text.copy()?)?;
        Ok(())
    }

    /// Takes a change of a cell.
    fn take_change(&mut self, cell: &Cell, state: i32) -> Result<(), NoMemory>
        ensures ok { OnOk result (self.new ≡ with_columns self.old
            (changed_at self.old.sight.columns cell.now.x cell.now.y cell.now.z state)) }
    {
        if cell.y < 0 || cell.y >= 256 {
            return Ok(());
        }
        let (x, y, z) = (inside(cell.x), cell.y as u8, inside(cell.z));
        self.columns.set(&place_of(cell), x, y, z, low_state(state))
    }

    /// Takes a slot: slot -1 of window -1 is the cursor.
    fn take_slot(&mut self, window: i8, i: i16, item: &Slot) -> Result<(), NoMemory>
        ensures ok { OnOk result (self.new ≡ (if is_cursor window i
            then with_cursor self.old item.now
            else record self.old { sight = with_slot window i item.now self.old.sight })) }
    {
        if is_cursor(window, i) {
            self.window.set_cursor(item)?;
            return Ok(());
        }
        self.window.set(self.alloc, window, i, item)?;
        Ok(())
    }
}

/// Whether a slot of a window is the cursor.
fn is_cursor(window: i8, i: i16) -> bool
    ensures { result ≡ is_cursor window i }
{
    window == -1 && i == -1
}

/// Whether a chunk is all of a column and has no section.
fn takes_away(ground_up: bool, mask: u16) -> bool
    ensures { result ≡ (ground_up && mask == 0) }
{
    ground_up && mask == 0
}

/// Reads a chunk body, exactly where the bytes spell one.
fn body_of(
    alloc: Global,
    bytes: &[u8],
    mask: u16,
    sky: bool,
    ground_up: bool,
) -> Result<Body, ReadFault>
    ensures reads { PlacedGives (λ body. body) result (body_read mask sky ground_up bytes.now) }
    ensures sort { IfOk result (λ body. (body.mask ≡ mask) × (body.ground_up ≡ ground_up)) }
    ensures fault { (fault : FieldFault) → IsErrOf result (faults.Field fault) ↔
        (fault_of (body_read mask sky ground_up bytes.now) ≡ Some fault) }
{
    read_body(alloc, bytes, mask, sky, ground_up)
}
