ghost use Rattle.std.specs.Prelude.{◌≡◌, ◌++◌, [], List, ℕ};
ghost use Rattle.std.specs.List.{AllByRecursion};
ghost use Rattle.mc_bytes.specs.Reading.{IsBytes};
ghost use Rattle.mc_frame.specs.Kept.{joined};
ghost use Rattle.mc_model.specs.Step.{came, on_bytes, step};
ghost use Rattle.mc_model.specs.World.{Seat, World, unread_of};
ghost use Rattle.mc_laws.specs.Pieces.{IsFull, SameOutcome, SameTurn, Waits, in_pieces, in_two};
ghost use Rattle.mc_laws.specs.Pieces.{taken};

/// However the bytes of a connection are cut, they come to the same. In one event or in two they
/// hand the same to each connection, and leave the same world but for what is not read of that
/// connection once it is closed. So it is also where it takes all that it is owed after each piece,
/// as long as all of the bytes at once would not close it since it is owed too much.
pub fn bytes_may_be_cut()
    ensures apart { (w : World) (k : ℕ) (bytes more : List ℕ) → IsBytes (unread_of k w).rest →
        IsBytes bytes → IsBytes more →
        SameOutcome k (step w (came k (bytes ++ more))) (in_two w (came k bytes) (came k more)) }
    ensures taken { (k : ℕ) (s : Seat) (pieces : List (List ℕ)) → s.link.owed ≡ [] → Waits s →
        AllByRecursion IsBytes pieces → ¬ IsFull (on_bytes k s (joined pieces)).seat.link →
        SameTurn (taken (on_bytes k s (joined pieces))) (in_pieces k s pieces) }
{}
