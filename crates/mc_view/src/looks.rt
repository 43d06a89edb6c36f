//! What was told of entities, looked at one number after another.

ghost use Rattle.std.specs.Prelude.{◌≡◌};
ghost use Rattle.std.specs.Option.{option_map};
ghost use Rattle.std.specs.FinMap as map;
ghost use Rattle.mc_view.specs.KeptTold.{IsRising, told_of};

use crate::tracker::{Entry, place_near};
use mc_fields::Spot;
use mc_slots::Pile;
use std::marker::Model;

/// A look at what a client was told of entities. Who asks for numbers that rise goes through it
/// once; any other number is searched for. Contracts see it as the map from numbers.
#[derive(Drop)]
pub struct Looks<'a> {
    /// By rising number.
    entries: &'a [Entry],
    /// Where the next number is looked for first.
    near: usize,
}

impl<'a> Model for Looks<'a> {
    ghost use Rattle.mc_view.specs.Told.{Told};
    ghost use Rattle.mc_view.specs.ToldCode.{coded_told};
    ghost use Rattle.mc_view.specs.KeptTold.{IsRising, told_of};

    ghost Value = { Told };

    ghost coded = { coded_told };

    ghost view = { λ looks. told_of looks.entries.now };

    ghost invariant = { λ looks. IsRising looks.entries.now };
}

impl<'a> Looks<'a> {
    /// A look at entries of rising numbers.
    pub(crate) fn new(entries: &'a [Entry]) -> Looks<'a>
        requires { IsRising entries.now }
        ensures { result ≡ told_of entries.now }
    {
        Looks { entries, near: 0 }
    }

    /// What the client was told of an entity, None where it was not.
    #[inline]
    pub fn find(&mut self, eid: i32) -> Option<(&'a Spot, &'a Pile)>
        ensures same { self.new ≡ self.old }
        ensures is { option_map (λ told. (told.0.now, told.1.now)) result ≡ map.get self.old eid }
    {
        match place_near(self.entries, self.near, eid) {
            Ok(at) => {
                self.near = at + 1;
                let entry = &self.entries[at];
                Some((&entry.spot, &entry.pile))
            }
            Err(at) => {
                self.near = at;
                None
            }
        }
    }
}
