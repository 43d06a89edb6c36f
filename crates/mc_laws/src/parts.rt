ghost use Rattle.std.specs.Prelude.{◌≡◌, ◌<◌, ◌^◌, ◌↔◌, ℕ, ℤ, true, unsigned_abs};
ghost use Rattle.std.specs.Prelude.{List, Some, None};
ghost use Rattle.std.specs.List.{Contains};
ghost use Rattle.mc_bytes.specs.Reading.{IsBytes};
ghost use Rattle.mc_fields.specs.Pattern.{Fixes, IsEndless, IsVast, Represents, RepresentsTurn};
ghost use Rattle.mc_fields.specs.Pattern.{Turns};
ghost use Rattle.mc_frame.specs.Cut.{IsCutAt};
ghost use Rattle.mc_land.specs.Places.{Place};
ghost use Rattle.mc_view.specs.Views.{is_in_view, view_of};
ghost use Rattle.mc_model.specs.Cutting.{cut_of};
ghost use Rattle.mc_model.specs.Delta.{Follows, delta};
ghost use Rattle.mc_model.specs.Numbers.{degrees_of, fixed_of, pattern_of, turn_of};
ghost use Rattle.mc_model.specs.Replica.{replay, seeing};
ghost use Rattle.mc_model.specs.Sight.{Sight};

/// The cut that is worked out frame by frame is the cut of the stream.
pub fn cuts_are_worked_out()
    ensures { (count : ℕ) (bytes : List ℕ) → IsBytes bytes →
        IsCutAt count bytes (cut_of count bytes) }
{}

/// The numbers that are worked out of patterns, and the patterns of numbers, are those that
/// `mc_fields` says by inequalities.
pub fn numbers_are_worked_out()
    ensures fixed { (p : ℕ) (n : ℤ) → fixed_of p ≡ Some n → Fixes p n }
    ensures endless { (p : ℕ) → fixed_of p ≡ None ↔ IsEndless p }
    ensures turn { (p a : ℕ) → turn_of p ≡ Some a → Turns p a }
    ensures vast { (p : ℕ) → turn_of p ≡ None ↔ IsVast p }
    ensures pattern { (n : ℤ) → unsigned_abs n < 2 ^ 32 → Represents n (pattern_of n) }
    ensures degrees { (a : ℕ) → a < 256 → RepresentsTurn a (degrees_of a) }
{}

/// The columns of a view are those near the middle.
pub fn views_are_near()
    ensures { (middle : Place) (d : ℕ) (place : Place) →
        Contains (view_of middle d) place ↔ (is_in_view middle d place ≡ true) }
{}

/// The packets of the difference make of what a client was shown what it is to be shown.
pub fn difference_leads()
    ensures { (p q : Sight) → Follows p q → replay (seeing p) (delta p q) ≡ seeing q }
{}
