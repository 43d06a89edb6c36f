ghost use Rattle.std.specs.Prelude.{◌≡◌, ◌≤◌, IfOk, OnOk, Some, pos};
ghost use Rattle.std.specs.Option.{option_copied};
ghost use Rattle.mc_entities.specs.Numbers.{Rise};
ghost use Rattle.mc_entities.specs.Folk.{eid_of};
ghost use Rattle.mc_model.specs.Delta.{destroying, is_told};
ghost use Rattle.mc_model.specs.Sight.{others};
ghost use Rattle.mc_told.specs.EntityFrames.{AreEncoded};
ghost use Rattle.mc_sending.specs.Sending.{play_bytes};
ghost use Rattle.mc_flush.specs.Seeing.{loaded, nothing_shown, window_kept};
ghost use Rattle.mc_told.specs.Telling.{age_now, beat_now, entity_frames, gone_from, told_now};

mod fields;

use crate::ClientView;
use crate::windows::{Window, window_of};
use bytes::Bytes;
use mc_bytes::NoMemory;
use mc_slots::{Chest, Pile};
use mc_told::{Clock, EncodedEntities, tell};
use mc_view::{Columns, Tracker, ViewSet};
use mc_windows::{PACK_PILES, Pack};
use std::alloc::Global;
use std::marker::Model;

/// What a client was told, and no copy of it: the beat and the age, the columns of a view, of each
/// entity where it is and its pile, the window of a chest, and the piles of its pack and of its
/// cursor. The players and the cells that it was shown are those of the last settling of the list
/// and of the land.
#[derive(Drop)]
pub struct Mark {
    /// The beat and the age that were told last.
    clock: Clock,
    /// The view, None before the first tick.
    shown: Option<ViewSet>,
    /// What was told of entities.
    told: Tracker,
    /// The window of the chest that was shown, if one was.
    window: Option<Window>,
    /// The piles of the pack that were shown.
    slots: [Pile; PACK_PILES],
    /// What was shown to hang on the cursor.
    cursor: Pile,
}

impl Model for Mark {
    ghost use Rattle.mc_view.specs.ToldCode.{coded_told};
    ghost use Rattle.std.specs.Coded.{codes};
    ghost use Rattle.mc_flush.specs.Seeing.{IsMark, MarkValue};

    ghost Value = { MarkValue };

    ghost coded = { Prim.hlevel (codes, coded_told) };

    ghost view = { λ mark. record {
      beat = mark.clock.beat;
      age = mark.clock.age;
      view = mark.shown;
      told = mark.told;
      window = mark.window;
      slots = mark.slots;
      cursor = mark.cursor;
    } };

    ghost invariant = { λ mark. IsMark (record {
      beat = mark.clock.beat;
      age = mark.clock.age;
      view = mark.shown;
      told = mark.told;
      window = mark.window;
      slots = mark.slots;
      cursor = mark.cursor;
    }) };
}

impl Mark {
    /// The mark of a client that was shown nothing yet.
    pub fn new(alloc: Global) -> Mark
        ensures { result ≡ nothing_shown }
    {
        Mark {
            clock: Clock::new(),
            shown: None,
            told: Tracker::new(alloc),
            window: None,
            slots: [Pile::Empty; PACK_PILES],
            cursor: Pile::Empty,
        }
    }

    /// Whether the client was told this beat last.
    pub fn was_told(&self, beat: i32) -> bool
        ensures { result ≡ is_told self.now.beat beat }
    {
        self.clock.was_told(beat)
    }

    /// The beat and the age that the client was told last.
    pub(crate) fn clock(&self) -> &Clock
        ensures { result.now ≡ record { beat = self.now.beat; age = self.now.age } }
    {
        &self.clock
    }

    /// The view whose columns were shown, None before the first tick.
    pub fn view(&self) -> Option<&ViewSet>
        ensures { option_copied result ≡ self.now.view }
    {
        self.shown.as_ref()
    }

    /// The columns of a view that were not shown.
    pub fn entered(&self, view: &ViewSet) -> Columns
        ensures { result ≡ loaded self.now view.now }
    {
        match self.view() {
            Some(old) => view.entered(old),
            None => view.all(),
        }
    }

    /// The view whose columns were shown, None before the first tick, as a copy.
    pub(crate) fn shown(&self) -> Option<ViewSet>
        ensures { result ≡ self.now.view }
    {
        self.shown
    }

    /// The window of the chest that was shown, if one was.
    pub(crate) fn window(&self) -> Option<&Window>
        ensures { option_copied result ≡ self.now.window }
    {
        self.window.as_ref()
    }

    /// The piles of the pack that were shown.
    pub(crate) fn slots(&self) -> &[Pile; PACK_PILES]
        ensures { result.now ≡ self.now.slots }
    {
        &self.slots
    }

    /// What was shown to hang on the cursor.
    pub(crate) fn cursor(&self) -> Pile
        ensures { result ≡ self.now.cursor }
    {
        self.cursor
    }

    /// The frames of the entities that a client is to be shown no more, and those of the others,
    /// which are then what was told. Without memory what was told is as before.
    pub(crate) fn tell(
        &mut self,
        alloc: Global,
        view: &ClientView<'_>,
        encoded: &EncodedEntities,
    ) -> Result<(Bytes, Bytes), NoMemory>
        requires { AreEncoded encoded.now }
        ensures gone { IfOk result (λ pieces. pieces.0 ≡ play_bytes
            (destroying (gone_from self.old.told
            (others view.now.me view.now.folk.now.state.entities) view.now.view))) }
        ensures shown { IfOk result (λ pieces. pieces.1 ≡ play_bytes
            (entity_frames self.old.told
            (others view.now.me view.now.folk.now.state.entities) view.now.view)) }
        ensures mark { OnOk result (self.new ≡ record self.old {
          told = told_now (others view.now.me view.now.folk.now.state.entities) view.now.view;
        }) }
        ensures rise { Rise eid_of (pos 0) view.now.folk.now.state.entities
            (pos view.now.folk.now.state.given) }
    {
        tell(alloc, &view.entities(encoded), &mut self.told)
    }

    /// Keeps what was shown last: the beat and the age that are told at an age of the world, the
    /// view, the window of a chest, and the pack with its cursor.
    pub(crate) fn keep(&mut self, age: u64, view: ViewSet, pack: &Pack, chest: Option<&Chest>)
        requires { age ≤ 1000000000 }
        ensures { self.new ≡ record self.old {
          beat = beat_now age;
          age = age_now age;
          view = Some view;
          window = window_kept pack.now (option_copied chest.entry);
          slots = pack.now.slots;
          cursor = pack.now.cursor;
        } }
    {
        self.clock.keep(age);
        self.shown = Some(view);
        self.window = window_of(pack, chest);
        self.slots = pack.slots;
        self.cursor = pack.cursor;
    }
}
