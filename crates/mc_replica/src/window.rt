ghost use Rattle.std.specs.Prelude.{◌≡◌, None, IfOk, OnOk, replicate, slice_index_or};
ghost use Rattle.std.specs.Prelude.{string_bytes};
ghost use Rattle.std.specs.Option.{option_copied};
ghost use Rattle.mc_slots.specs.declared.slot.Slot.TheVariants as slots;
ghost use Rattle.mc_windows.specs.Pack.{pack_size};
ghost use Rattle.mc_model.specs.Replica.{with_chest_items, with_chest_slot, with_items};
ghost use Rattle.mc_model.specs.Replica.{with_own_items, with_own_slot, with_slot, with_window};
ghost use Rattle.mc_model.specs.Sight.{Sight};
ghost use Rattle.mc_replica.specs.Dump.{shown_lines, text_of, window_lines};
ghost use Rattle.mc_replica.specs.Slots.{chest_slot, holding, number_of, open_slot, own_slot};
ghost use Rattle.mc_replica.specs.Slots.{shown_slot};

use crate::slot_lines::{push_cursor, push_number, push_slots};
use crate::slot_row::SlotRow;
use mc_bytes::NoMemory;
use mc_slots::{CHEST_PILES, Slot};
use mc_windows::PACK_PILES;
use std::alloc::Global;
use std::marker::Model;

/// The first slot of the pack in window 0.
const OWN_FIRST: usize = 9;

/// The window of a chest.
#[derive(Drop)]
struct Shown {
    number: u8,
    chest: SlotRow,
}

impl Model for Shown {
    ghost use Rattle.std.specs.Coded.{codes};
    ghost use Rattle.mc_nbt.specs.TreeCode.{coded_tree};
    ghost use Rattle.mc_model.specs.Sight.{ChestWindow};

    ghost Value = { ChestWindow };

    ghost coded = { Prim.hlevel (codes, coded_tree) };

    ghost view = { λ shown. record { number = shown.number; slots = shown.chest } };
}

impl Shown {
    /// A slot of the window: one of the chest, or behind those one of the pack.
    fn slot<'a>(&'a self, pack: &'a SlotRow, at: usize) -> Option<&'a Slot>
        ensures { option_copied result ≡ shown_slot self.now pack.now at }
    {
        if at < CHEST_PILES {
            return Some(self.chest.get(at));
        }
        if at < CHEST_PILES + PACK_PILES {
            return Some(pack.get(at - CHEST_PILES));
        }
        None
    }
}

/// The lines that a dump has of a window, none where none is shown.
fn shown_text(alloc: Global, shown: &Option<Shown>) -> Result<String, NoMemory>
    ensures { IfOk result (λ text. string_bytes text ≡ text_of (shown_lines shown.now)) }
{
    let mut text = String::new(alloc);
    let Some(shown) = shown else {
        return Ok(text);
    };
    push_number(alloc, shown.number, &mut text)?;
    push_slots(alloc, "chest", &shown.chest, &mut text)?;
    Ok(text)
}

/// The slots that a client has: those of the window that it is shown, of its pack, and its cursor.
#[derive(Drop)]
pub struct SeenWindow {
    /// The window of a chest, where one is shown.
    shown: Option<Shown>,
    pack: SlotRow,
    cursor: Slot,
    /// Lent where no window is shown.
    empty: Slot,
}

impl Model for SeenWindow {
    ghost use Rattle.std.specs.Prelude.{◌≡◌};
    ghost use Rattle.std.specs.Coded.{codes};
    ghost use Rattle.mc_nbt.specs.TreeCode.{coded_tree};
    ghost use Rattle.mc_slots.specs.declared.slot.Slot.TheVariants as slots;
    ghost use Rattle.mc_replica.specs.Slots.{WindowValue};

    ghost Value = { WindowValue };

    ghost coded = { Prim.hlevel (codes, coded_tree) };

    ghost view = { λ w. record { window = w.shown; pack = w.pack; cursor = w.cursor } };

    ghost invariant = { λ w. w.empty ≡ slots.Empty };
}

impl SeenWindow {
    /// No window is shown, and all slots are empty.
    pub(crate) fn new() -> SeenWindow
        ensures { result ≡ record {
          window = None;
          pack = replicate pack_size slots.Empty;
          cursor = slots.Empty;
        } }
    {
        SeenWindow {
            shown: None,
            pack: SlotRow::empty(PACK_PILES),
            cursor: Slot::Empty,
            empty: Slot::Empty,
        }
    }

    /// The number of the window that is shown, 0 where none is.
    pub fn number(&self) -> u8
        ensures { result ≡ number_of self.now.window }
    {
        match &self.shown {
            Some(shown) => shown.number,
            None => 0,
        }
    }

    /// A slot of the chest whose window is shown; an empty one where none is.
    pub fn chest(&self, i: usize) -> &Slot
        ensures { result.now ≡ chest_slot self.now.window i }
    {
        match &self.shown {
            Some(shown) => shown.chest.get(i),
            None => &self.empty,
        }
    }

    /// A slot of the own pack.
    pub fn pack(&self, i: usize) -> &Slot
        ensures { result.now ≡ slice_index_or self.now.pack i slots.Empty }
    {
        self.pack.get(i)
    }

    /// What hangs on the cursor.
    pub fn cursor(&self) -> &Slot
        ensures { result.now ≡ self.now.cursor }
    {
        &self.cursor
    }

    /// Slot `i` of the window that is shown, or of window 0 where none is: None exactly where it has
    /// no such slot. Slots 0 to 8 of window 0 are empty.
    pub fn slot(&self, i: i16) -> Option<&Slot>
        ensures { option_copied result ≡ open_slot self.now i }
    {
        if i < 0 {
            return None;
        }
        let at = usize::from(i.cast_unsigned());
        match &self.shown {
            Some(shown) => shown.slot(&self.pack, at),
            None => self.own_slot(at),
        }
    }

    /// A slot of window 0.
    fn own_slot(&self, at: usize) -> Option<&Slot>
        ensures { option_copied result ≡ own_slot self.now.pack at }
    {
        if at < OWN_FIRST {
            return Some(&self.empty);
        }
        if at < OWN_FIRST + PACK_PILES {
            return Some(self.pack.get(at - OWN_FIRST));
        }
        None
    }

    /// The lines that a dump has of them.
    pub(crate) fn to_text(&self, alloc: Global) -> Result<String, NoMemory>
        ensures { IfOk result (λ text. string_bytes text ≡
            text_of (window_lines self.now.window self.now.pack self.now.cursor)) }
    {
        let mut text = shown_text(alloc, &self.shown)?;
        push_slots(alloc, "pack", &self.pack, &mut text)?;
        push_cursor(alloc, &self.cursor, &mut text)?;
        Ok(text)
    }

    /// A window opens, of whose slots nothing is known yet; a chest's has no number 0.
    pub(crate) fn open(&mut self, number: u8)
        ensures { (p : Sight) → holding self.new p ≡ with_window number (holding self.old p) }
    {
        if number == 0 {
            return;
        }
        self.shown = Some(Shown {
            number,
            chest: SlotRow::empty(CHEST_PILES),
        });
    }

    /// The window closes.
    pub(crate) fn close(&mut self)
        ensures { self.new ≡ record self.old { window = None } }
    {
        self.shown = None;
    }

    /// Puts what hangs on the cursor.
    pub(crate) fn set_cursor(&mut self, item: &Slot) -> Result<(), NoMemory>
        ensures ok { OnOk result (self.new ≡ record self.old { cursor = item.now }) }
    {
        self.cursor = item.copy()?;
        Ok(())
    }

    /// Puts a slot of a window.
    pub(crate) fn set(
        &mut self,
        alloc: Global,
        window: i8,
        i: i16,
        item: &Slot,
    ) -> Result<(), NoMemory>
        ensures { OnOk result ((p : Sight) →
            holding self.new p ≡ with_slot window i item.now (holding self.old p)) }
    {
        if i < 0 {
            return Ok(());
        }
        let at = usize::from(i.cast_unsigned());
        if window == 0 {
            return self.set_own(alloc, at, item);
        }
        self.set_shown(alloc, window.cast_unsigned(), at, item)
    }

    /// Puts a slot of window 0.
    fn set_own(&mut self, alloc: Global, at: usize, item: &Slot) -> Result<(), NoMemory>
        ensures { OnOk result ((p : Sight) →
            holding self.new p ≡ with_own_slot at item.now (holding self.old p)) }
    {
        if at < OWN_FIRST || at >= OWN_FIRST + PACK_PILES {
            return Ok(());
        }
        self.pack.set(alloc, at - OWN_FIRST, item.copy()?)
    }

    /// Puts a slot of the window of a number, if that is shown.
    fn set_shown(
        &mut self,
        alloc: Global,
        number: u8,
        at: usize,
        item: &Slot,
    ) -> Result<(), NoMemory>
        ensures { OnOk result ((p : Sight) → holding self.new p ≡
            with_chest_slot self.old.window number at item.now (holding self.old p)) }
    {
        let Some(shown) = &mut self.shown else {
            return Ok(());
        };
        if shown.number != number || at >= CHEST_PILES + PACK_PILES {
            return Ok(());
        }
        if at < CHEST_PILES {
            return shown.chest.set(alloc, at, item.copy()?);
        }
        self.pack.set(alloc, at - CHEST_PILES, item.copy()?)
    }

    /// Puts all slots of the window of a number.
    pub(crate) fn set_all(
        &mut self,
        alloc: Global,
        number: u8,
        items: &[Slot],
    ) -> Result<(), NoMemory>
        ensures { OnOk result ((p : Sight) →
            holding self.new p ≡ with_items number items.now (holding self.old p)) }
    {
        if number == 0 {
            self.set_all_own(alloc, items)?;
            return Ok(());
        }
        self.set_all_shown(alloc, number, items)
    }

    /// Puts all slots of window 0, of which the pack begins at slot 9.
    fn set_all_own(&mut self, alloc: Global, items: &[Slot]) -> Result<(), NoMemory>
        ensures { OnOk result ((p : Sight) →
            holding self.new p ≡ with_own_items items.now (holding self.old p)) }
    {
        if items.len() != OWN_FIRST + PACK_PILES {
            return Ok(());
        }
        let (_others, pack) = items.split_at(OWN_FIRST);
        self.pack = SlotRow::from_slice(alloc, pack)?;
        Ok(())
    }

    /// Puts all slots of the window of a number, if that is shown.
    fn set_all_shown(&mut self, alloc: Global, number: u8, items: &[Slot]) -> Result<(), NoMemory>
        ensures { OnOk result ((p : Sight) → holding self.new p ≡
            with_chest_items self.old.window number items.now (holding self.old p)) }
    {
        let Some(shown) = &mut self.shown else {
            return Ok(());
        };
        if shown.number != number || items.len() != CHEST_PILES + PACK_PILES {
            return Ok(());
        }
        let (chest, pack) = items.split_at(CHEST_PILES);
        let chest = SlotRow::from_slice(alloc, chest)?;
        self.pack = SlotRow::from_slice(alloc, pack)?;
        shown.chest = chest;
        Ok(())
    }
}
