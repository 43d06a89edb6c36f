ghost use Rattle.std.specs.Prelude.{◌≡◌, ◌++◌, ℕ, List, Some, None, length};
ghost use Rattle.mc_bytes.specs.Reading.{IsBytes};
ghost use Rattle.mc_frame.specs.Cut.{Cut, IsCut};
ghost use Rattle.mc_frame.specs.Held.{Splitting, nothing_held};
ghost use Rattle.mc_frame.specs.Splitting.{Event, Runs, Takes, Answers, fed_bytes, taken_frames};
ghost use Rattle.mc_frame.specs.declared.fault.Take.{Take};

/// There is exactly one cut of every stream.
pub fn one_cut()
    ensures exists { (stream : List ℕ) → IsBytes stream → (cut : Cut) × IsCut stream cut }
    ensures unique { (stream : List ℕ) (cut other : Cut) → IsCut stream cut → IsCut stream other →
        cut ≡ other }
{}

/// Whatever was fed and taken, in any order and in pieces of any size: the frames that were taken
/// are the first ones of the cut of all bytes that the feeds took, and what the next take answers
/// is what that cut says, the next frame, or that there is none yet, or the fault.
pub fn same_frames_in_any_pieces()
    ensures frames { (events : List Event) (now : Splitting) (cut : Cut) →
        Runs nothing_held events now → IsCut (fed_bytes events) cut →
        (later : List (List ℕ)) × (cut.frames ≡ taken_frames events ++ later) }
    ensures answer { (events : List Event) (now next : Splitting) (answer : Take) (cut : Cut) →
        Runs nothing_held events now → Takes now answer next → IsCut (fed_bytes events) cut →
        Answers cut (taken_frames events) answer }
{}
