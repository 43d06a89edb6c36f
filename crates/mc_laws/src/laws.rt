ghost use Rattle.std.specs.Prelude.{◌≡◌, ◌≤◌, List, Some, length, ℕ};
ghost use Rattle.std.specs.FinMap.{get};
ghost use Rattle.mc_bytes.specs.Reading.{IsBytes};
ghost use Rattle.mc_model.specs.Run.{AreBytes, history};
ghost use Rattle.mc_model.specs.Step.{Event, broke, came, left, ticked, took, step};
ghost use Rattle.mc_model.specs.Apart.{AlikeBut, FallsSilent, HandsAlike, HasBadFrame, IsFullIn};
ghost use Rattle.mc_model.specs.Apart.{IsNoJoin, IsOf, LetsIn, OnlySender, OwesOther, SameBut};
ghost use Rattle.mc_model.specs.Apart.{StandsBefore};
ghost use Rattle.mc_model.specs.Balance.{Balance};
ghost use Rattle.mc_model.specs.Causes.{ClosesFirst};
ghost use Rattle.mc_model.specs.Delta.{destroys_point};
ghost use Rattle.mc_model.specs.Game.{AreSettings};
ghost use Rattle.mc_model.specs.Minds.{Start};
ghost use Rattle.mc_model.specs.Good.{GoodWorld};
ghost use Rattle.mc_model.specs.Link.{Link};
ghost use Rattle.mc_model.specs.Promised.{Lasts, Promised};
ghost use Rattle.mc_model.specs.Sight.{Sight};
ghost use Rattle.mc_model.specs.World.{World, new_world};
ghost use Rattle.mc_model.specs.declared.seen.TheConstants.{DESTROYED_MAX};

/// Along every run, whatever mobs it begins with, each player is one entity, which holds what its
/// pack has at its hand; numbers and identifiers are of one player each; packs and chests are of
/// what a world holds, and there is a chest just where the land has one; a player is shown a chest
/// just where its window has a number, and that chest is there; packets can tell what is in the
/// game, with its mobs; and there are players exactly for the connections in play.
pub fn worlds_stay_good()
    ensures { (start : Start) (events : List Event) →
        GoodWorld (history (new_world start) events) }
{}

/// What one connection does hands nothing to any other, and leaves its link, its unread bytes, what
/// it was shown, and of its player all but the notes and which chest it is shown. It leaves what
/// mobs are still to do, too, so ticks alone change that.
pub fn only_senders_change()
    ensures { (start : Start) (events : List Event) (e : Event) (k : ℕ) → IsOf k e →
        OnlySender k (history (new_world start) events)
        (step (history (new_world start) events) e) }
{}

/// What others do, and ticks, in two worlds that are the same but for one connection leaves them so
/// and hands all others the same; and whatever is done to that connection in one of them leaves
/// them so. One that broke leaves the world, but for itself, as if it had gone; and so does one
/// that a bad frame closes, as if only what stands before that frame had come: there are first
/// bytes that do. One to whom too much is due at a tick leaves the world, but for itself, as if its
/// outbox had had room, since it took what it was owed, and it had gone after the tick; and one
/// that was silent for too long as if it had gone before it: both where nothing hangs on the
/// cursor of its player, since that falls as it leaves, with a number and an age.
pub fn connections_are_apart()
    ensures others { (start : Start) (events : List Event) (v : World) (k : ℕ) (e : Event) →
        SameBut k (history (new_world start) events) v → (IsOf k e → ⊥) →
        LetsIn (history (new_world start) events) e → LetsIn v e →
        AlikeBut k (step (history (new_world start) events) e) (step v e) }
    ensures own { (start : Start) (events : List Event) (v : World) (k : ℕ) (e : Event) →
        SameBut k (history (new_world start) events) v → IsOf k e → IsNoJoin e →
        SameBut k (step (history (new_world start) events) e).world v }
    ensures broke { (w : World) (k : ℕ) (l : Link) → get w.links k ≡ Some l →
        SameBut k (step w (broke k)).world (step w (left k)).world }
    ensures bad { (w : World) (k : ℕ) (bytes before : List ℕ) (bad : HasBadFrame k w bytes) →
        StandsBefore k w bytes bad.good before →
        SameBut k (step w (came k bytes)).world
        (step (step w (came k before)).world (left k)).world }
    ensures found { (start : Start) (events : List Event) (k : ℕ) (bytes : List ℕ) →
        AreBytes events → IsBytes bytes →
        (bad : HasBadFrame k (history (new_world start) events) bytes) →
        (before : List ℕ)
        × StandsBefore k (history (new_world start) events) bytes bad.good before }
    ensures full { (start : Start) (events : List Event) (v : World) (k : ℕ) →
        IsFullIn k (history (new_world start) events) v →
        SameBut k (step (history (new_world start) events) ticked).world
        (step (step v ticked).world (left k)).world
        × HandsAlike k (step (history (new_world start) events) ticked) (step v ticked) }
    ensures room { (w : World) (k n : ℕ) (l : Link) → get w.links k ≡ Some l →
        OwesOther k w (step w (took k n)).world }
    ensures silent { (start : Start) (events : List Event) (k : ℕ) →
        FallsSilent k (history (new_world start) events) →
        SameBut k (step (history (new_world start) events) ticked).world
        (step (step (history (new_world start) events) (left k)).world ticked).world
        × HandsAlike k (step (history (new_world start) events) ticked)
        (step (step (history (new_world start) events) (left k)).world ticked) }
{}

/// What a connection took is the first bytes of what was handed to it, also once it is closed and
/// forgotten. No others are missing but those that it is owed, those that it was owed when it left
/// or a write to it broke, and those of a connection that was closed since it was owed too many. It
/// is closed just where a cause is kept of it, which is the first.
pub fn bytes_are_promised()
    ensures { (start : Start) (events : List Event) (k : ℕ) →
        Promised k (new_world start) events }
{}

/// Each event closes just the connections that it has a cause to close, each for that.
pub fn closed_for_the_first_cause()
    ensures { (start : Start) (events : List Event) (e : Event) →
        ClosesFirst (history (new_world start) events) e }
{}

/// No item is lost or made: of each sort, what all names carry, what lies in the world and in its
/// chests and what was placed is what the kits of all names had and what was dug.
pub fn items_are_kept()
    ensures { (start : Start) (events : List Event) →
        Balance (history (new_world start) events).game }
{}

/// A connection is there from its joining until it is forgotten, and is forgotten only where it is
/// closed and owed nothing.
pub fn connections_last()
    ensures { (start : Start) (events : List Event) (e : Event) (k : ℕ) (l : Link) →
        get (history (new_world start) events).links k ≡ Some l →
        Lasts k (history (new_world start) events) e l }
{}

/// There are never more entities, mobs among them, than one Destroy holds. So whatever a client is
/// to be shown next, the difference from what it was shown has one at most.
pub fn entities_are_few()
    ensures few { (start : Start) (events : List Event) →
        AreSettings start.settings.players start.settings.cap → AreBytes events →
        length (history (new_world start) events).game.entities ≤ DESTROYED_MAX }
    ensures one { (start : Start) (events : List Event) (k : ℕ) (p q : Sight) →
        AreSettings start.settings.players start.settings.cap → AreBytes events →
        get (history (new_world start) events).shown k ≡ Some p →
        length (destroys_point p q) ≤ 1 }
{}
