ghost use Rattle.std.specs.Prelude.{◌≡◌, ◌≤◌, ◌+◌, ◌++◌, List, ℕ, IfOk, OnOk, OnErr, Some, pos};
ghost use Rattle.std.specs.List.{AllByRecursion};
ghost use Rattle.std.specs.Option.{option_copied};
ghost use Rattle.std.specs.FinMap as map;
ghost use Rattle.mc_frame.specs.Kept.{joined};
ghost use Rattle.mc_entities.specs.Numbers.{Rise};
ghost use Rattle.mc_entities.specs.Folk.{eid_of};
ghost use Rattle.mc_model.specs.Sight.{Sight, others};
ghost use Rattle.mc_model.specs.Delta.{delta};
ghost use Rattle.mc_sending.specs.Sending.{play_bytes};
ghost use Rattle.mc_flush.specs.Seeing.{column_packets, StandsFor, IsNamed, changes, listed};
ghost use Rattle.mc_flush.specs.Seeing.{loaded, noted_of, player_packets, present_parts, seen};
ghost use Rattle.mc_flush.specs.Seeing.{settled_parts, spot_seen};
ghost use Rattle.mc_flush.specs.LineFrames.{IsLine};
ghost use Rattle.mc_loads.specs.Columns.{IsReady};
ghost use Rattle.mc_flush.specs.Encoding.{AreFrames, looks, noted_looks, nothing_encoded};
ghost use Rattle.mc_told.specs.Telling.{told_now};

use crate::noted::noted_piece;
use crate::pushing::{push_age, push_notes, push_slots};
use crate::{Encoded, Mark, PlayerList};
use bytes::Bytes;
use mc_bytes::{NoMemory, Text};
use mc_entities::Folk;
use mc_fields::Spot;
use mc_land::{Land, Steps};
use mc_loads::{ColumnsView, push_piece};
use mc_model::{Notes, spawn_spot};
use mc_slots::Chest;
use mc_told::{EncodedEntities, EntityView};
use mc_view::ViewSet;
use mc_windows::Pack;
use std::alloc::Global;
use std::sync::ledger::Ledger;

/// What one client is shown a part of: the land, the entities, what its player carries, the list of
/// players, what was said, and how old the world is.
#[derive(Drop)]
pub struct ClientView<'w> {
    /// The cells.
    pub land: &'w Land,
    /// The entities.
    pub folk: &'w Folk,
    /// What its player carries.
    pub pack: &'w Pack,
    /// The chest whose window its player is shown, of the number that the pack has for it.
    pub chest: Option<&'w Chest>,
    /// The players in play.
    pub list: &'w PlayerList,
    /// What was said that the client was not shown yet.
    pub lines: &'w [Text],
    /// How many ticks old the world is.
    pub age: u64,
    /// The number of the client's own entity.
    pub me: i32,
    /// The columns that the client is shown.
    pub view: ViewSet,
}

impl ClientView<'_> {
    /// What the client is shown of the entities.
    pub(crate) fn entities<'a>(&'a self, encoded: &'a EncodedEntities) -> EntityView<'a>
        ensures folk { result.folk.now ≡ self.now.folk.now }
        ensures encoded { result.encoded.now ≡ encoded.now }
        ensures me { result.me ≡ self.now.me }
        ensures view { result.view ≡ self.now.view }
    {
        EntityView {
            folk: self.folk,
            encoded,
            me: self.me,
            view: self.view,
        }
    }

    /// Where its player is and looks: as its entity, or where players enter, if it has none.
    fn spot(&self) -> Spot
        ensures { result
            ≡ spot_seen self.now.land.now self.now.folk.now.state.entities self.now.me }
    {
        // All of them tell that no number is negative.
        let _all = self.folk.all();
        match self.folk.get(self.me) {
            Some(entity) => entity.spot,
            None => spawn_spot(self.land.terrain()),
        }
    }

    /// Appends what differs of columns: those that are out of view, those that come, and the cells
    /// that changed of those that stay.
    fn push_columns<L: Ledger>(
        &self,
        alloc: Global,
        encoded: &Encoded,
        mark: &Mark,
        out: &mut Vec<Bytes>,
        steps: &mut Steps<L>,
    ) -> Result<(), NoMemory>
        requires ready { AllByRecursion (IsReady self.now.land.now)
            (loaded mark.now self.now.view) }
        requires frames { AreFrames self.now.land.now self.now.list.now encoded.now }
        ensures sent { OnOk result (joined out.new.items ≡ joined out.old.items ++ play_bytes
            (column_packets self.now.land.now mark.now self.now.view)) }
        ensures cost { OnOk result (steps.new ≡ steps.old
            + looks encoded.now self.now.land.now mark.now self.now.view) }
        ensures bounded { steps.new ≤ steps.old
            + looks encoded.now self.now.land.now mark.now self.now.view }
    {
        let columns = ColumnsView {
            land: self.land,
            encoded: encoded.columns(),
            was: mark.shown(),
            view: self.view,
        };
        columns.push_columns(alloc, out, steps)?;
        Ok(())
    }

    /// The frames about players: of all, where nothing was shown, else of who left and of who came.
    fn players(&self, alloc: Global, encoded: &Encoded, mark: &Mark) -> Result<Bytes, NoMemory>
        requires few { map.len self.now.list.now.present ≤ 50 }
        requires few_before { map.len self.now.list.now.last ≤ 50 }
        requires named { AllByRecursion IsNamed (map.entries self.now.list.now.present) }
        requires frames { AreFrames self.now.land.now self.now.list.now encoded.now }
        ensures { IfOk result (λ piece. piece ≡ play_bytes
            (player_packets (listed mark.now self.now.list.now) self.now.list.now.present)) }
    {
        if mark.view().is_none() {
            return self.list.everybody(alloc);
        }
        match encoded.players() {
            Some(piece) => Ok(piece.clone()?),
            None => self.list.changes(alloc),
        }
    }

    /// Appends what differs from what a client was shown, and keeps what it is told of entities.
    fn push_changes<L: Ledger>(
        &self,
        alloc: Global,
        encoded: &Encoded,
        mark: &mut Mark,
        out: &mut Vec<Bytes>,
        steps: &mut Steps<L>,
    ) -> Result<(), NoMemory>
        requires few { map.len self.now.list.now.present ≤ 50 }
        requires few_before { map.len self.now.list.now.last ≤ 50 }
        requires named { AllByRecursion IsNamed (map.entries self.now.list.now.present) }
        requires ready { AllByRecursion (IsReady self.now.land.now)
            (loaded mark.old self.now.view) }
        requires frames { AreFrames self.now.land.now self.now.list.now encoded.now }
        requires lines { AllByRecursion IsLine self.now.lines.now }
        requires young { self.now.age ≤ 1000000000 }
        ensures sent { OnOk result (joined out.new.items ≡ joined out.old.items ++ play_bytes
            (changes self.now.land.now self.now.list.now
            (others self.now.me self.now.folk.now.state.entities)
            self.now.pack.now (option_copied self.now.chest) mark.old self.now.view
            self.now.age self.now.lines.now)) }
        ensures mark { OnOk result (mark.new ≡ record mark.old {
          told = told_now (others self.now.me self.now.folk.now.state.entities) self.now.view;
        }) }
        ensures rise { OnOk result (Rise eid_of (pos 0) self.now.folk.now.state.entities
            (pos self.now.folk.now.state.given)) }
        ensures cost { OnOk result (steps.new ≡ steps.old
            + looks encoded.now self.now.land.now mark.old self.now.view) }
        ensures bounded { steps.new ≤ steps.old
            + looks encoded.now self.now.land.now mark.old self.now.view }
    {
        // Its walk is that of eight exits, at two of which the piece of what is shown is alive.
        push_age(alloc, mark, self.age, out)?;
        push_piece(self.players(alloc, encoded, mark)?, out)?;
        let (gone, shown) = mark.tell(alloc, self, encoded.entities())?;
        push_piece(gone, out)?;
        self.push_columns(alloc, encoded, mark, out, steps)?;
        push_piece(shown, out)?;
        push_slots(alloc, mark, self.pack, self.chest, out)?;
        encoded.lines().push_lines(alloc, self.lines, out)?;
        Ok(())
    }
}

/// Puts pieces behind others. Where there are no others they are handed on as they are. Without
/// memory the others are as before.
fn push_pieces(mut pieces: Vec<Bytes>, out: &mut Vec<Bytes>) -> Result<(), NoMemory>
    ensures ok { OnOk result (out.new.items ≡ out.old.items ++ pieces.items) }
    ensures nothing { OnErr result (out.new.items ≡ out.old.items) }
{
    if out.is_empty() {
        *out = pieces;
        return Ok(());
    }
    out.append(&mut pieces)?;
    Ok(())
}

/// Appends what a client is sent at a tick: the frames that lead it from what it was shown to what
/// the parts are now, then those of what was noted. The mark then stands for the parts, once list
/// and land are settled. A frame that was encoded is shared, and the others are encoded: what is
/// sent is the same. Of a column that stays only the cells that changed are looked at, one step
/// each, and of one that comes all its cells; neither where the frames were encoded. Without memory
/// nothing is appended, and the mark is not to be used again.
pub fn flush_with<L: Ledger>(
    alloc: Global,
    view: &ClientView<'_>,
    encoded: &Encoded,
    mark: &mut Mark,
    notes: &Notes,
    out: &mut Vec<Bytes>,
    steps: &mut Steps<L>,
) -> Result<(), NoMemory>
    requires few { map.len view.now.list.now.present ≤ 50 }
    requires few_before { map.len view.now.list.now.last ≤ 50 }
    requires named { AllByRecursion IsNamed (map.entries view.now.list.now.present) }
    requires lines { AllByRecursion IsLine view.now.lines.now }
    requires ready { AllByRecursion (IsReady view.now.land.now) (loaded mark.old view.now.view) }
    requires frames { AreFrames view.now.land.now view.now.list.now encoded.now }
    requires young { view.now.age ≤ 1000000000 }
    ensures sent { (p : Sight) →
        StandsFor mark.old (settled_parts view.now.land.now view.now.list.now) p →
        OnOk result (joined out.new.items ≡ joined out.old.items ++ play_bytes
        (delta p (seen view.now.land.now view.now.list.now
        (others view.now.me view.now.folk.now.state.entities)
        view.now.pack.now (option_copied view.now.chest) view.now.view view.now.age
        (p.chat ++ view.now.lines.now))
        ++ noted_of view.now.land.now view.now.view notes.now
        (spot_seen view.now.land.now view.now.folk.now.state.entities view.now.me)
        view.now.pack.now (option_copied view.now.chest))) }
    ensures stands { (chat : List (List ℕ)) → OnOk result
        (StandsFor mark.new (present_parts view.now.land.now view.now.list.now)
        (seen view.now.land.now view.now.list.now
        (others view.now.me view.now.folk.now.state.entities)
        view.now.pack.now (option_copied view.now.chest) view.now.view view.now.age chat)) }
    ensures opened { OnOk result (mark.new.view ≡ Some view.now.view) }
    ensures nothing { OnErr result (out.new.items ≡ out.old.items) }
    ensures cost { OnOk result (steps.new ≡ steps.old
        + (looks encoded.now view.now.land.now mark.old view.now.view
        + noted_looks view.now.view notes.now)) }
    ensures bounded { steps.new ≤ steps.old
        + (looks encoded.now view.now.land.now mark.old view.now.view
        + noted_looks view.now.view notes.now) }
{
    // The pieces are alive at each of its five exits, and die there.
    let mut pieces = Vec::new(alloc);
    view.push_changes(alloc, encoded, mark, &mut pieces, steps)?;
    push_piece(
        noted_piece(alloc, view.land, &view.view, notes, steps)?,
        &mut pieces,
    )?;
    push_notes(
        alloc,
        notes,
        &view.spot(),
        view.pack,
        view.chest,
        &mut pieces,
    )?;
    push_pieces(pieces, out)?;
    mark.keep(view.age, view.view, view.pack, view.chest);
    Ok(())
}

/// Appends what a client is sent at a tick, of which nothing was encoded: the frames that lead it
/// from what it was shown to what the parts are now, then those of what was noted. The mark then
/// stands for the parts, once list and land are settled. Without memory nothing is appended, and
/// the mark is not to be used again.
pub fn flush<L: Ledger>(
    alloc: Global,
    view: &ClientView<'_>,
    mark: &mut Mark,
    notes: &Notes,
    out: &mut Vec<Bytes>,
    steps: &mut Steps<L>,
) -> Result<(), NoMemory>
    requires few { map.len view.now.list.now.present ≤ 50 }
    requires few_before { map.len view.now.list.now.last ≤ 50 }
    requires named { AllByRecursion IsNamed (map.entries view.now.list.now.present) }
    requires lines { AllByRecursion IsLine view.now.lines.now }
    requires ready { AllByRecursion (IsReady view.now.land.now) (loaded mark.old view.now.view) }
    requires young { view.now.age ≤ 1000000000 }
    ensures sent { (p : Sight) →
        StandsFor mark.old (settled_parts view.now.land.now view.now.list.now) p →
        OnOk result (joined out.new.items ≡ joined out.old.items ++ play_bytes
        (delta p (seen view.now.land.now view.now.list.now
        (others view.now.me view.now.folk.now.state.entities)
        view.now.pack.now (option_copied view.now.chest) view.now.view view.now.age
        (p.chat ++ view.now.lines.now))
        ++ noted_of view.now.land.now view.now.view notes.now
        (spot_seen view.now.land.now view.now.folk.now.state.entities view.now.me)
        view.now.pack.now (option_copied view.now.chest))) }
    ensures stands { (chat : List (List ℕ)) → OnOk result
        (StandsFor mark.new (present_parts view.now.land.now view.now.list.now)
        (seen view.now.land.now view.now.list.now
        (others view.now.me view.now.folk.now.state.entities)
        view.now.pack.now (option_copied view.now.chest) view.now.view view.now.age chat)) }
    ensures opened { OnOk result (mark.new.view ≡ Some view.now.view) }
    ensures nothing { OnErr result (out.new.items ≡ out.old.items) }
    ensures cost { OnOk result (steps.new ≡ steps.old
        + (looks nothing_encoded view.now.land.now mark.old view.now.view
        + noted_looks view.now.view notes.now)) }
    ensures bounded { steps.new ≤ steps.old
        + (looks nothing_encoded view.now.land.now mark.old view.now.view
        + noted_looks view.now.view notes.now) }
{
    let encoded = Encoded::new(alloc);
    let done = flush_with(alloc, view, &encoded, mark, notes, out, steps);
    drop(encoded);
    done
}
