ghost use Rattle.std.specs.Prelude.{◌≡◌, ◌≢◌, ◌++◌, ◌∷◌, List, [], Option, Some, ℕ};
ghost use Rattle.std.specs.FinMap.{get};
ghost use Rattle.mc_wire.specs.declared.log.LogEntry.{LogEntry};
ghost use Rattle.mc_model.specs.declared.stage.Stage.TheVariants as stages;
ghost use Rattle.mc_model.specs.Decoding.{IsDecoded, decoder_of};
ghost use Rattle.mc_model.specs.Packets.{Decoder, Sent, played};
ghost use Rattle.mc_model.specs.Replica.{new_replica, replay};
ghost use Rattle.mc_model.specs.Run.{AreBytes, handed, history, received, stream};
ghost use Rattle.mc_model.specs.Step.{Event, ticked};
ghost use Rattle.mc_model.specs.Game.{AreSettings};
ghost use Rattle.mc_model.specs.Minds.{Start};
ghost use Rattle.mc_model.specs.declared.player.Player.{Player};
ghost use Rattle.mc_model.specs.Headline.{AfterTick, AtTick, Between, Closing, Headline, LoggingIn};
ghost use Rattle.mc_model.specs.Headline.{ShowsGame};
ghost use Rattle.mc_model.specs.Link.{Link};
ghost use Rattle.mc_model.specs.Serving.{Serves};
ghost use Rattle.mc_model.specs.Tick.{at_tick};
ghost use Rattle.mc_model.specs.Turns.{AreTurns};
ghost use Rattle.mc_model.specs.World.{new_world};

/// Whatever happens, however bytes are cut and mobs move: after each tick, what was handed out to a
/// client in play, folded from an empty replica, shows exactly the game in its view, with its mobs;
/// and so do the packets that it decodes from the bytes of that.
pub fn runs_show_the_world()
    ensures handed { (start : Start) (events : List Event) (k : ℕ) (p : Player) →
        get (history (new_world start) (events ++ ticked ∷ [])).game.players k ≡ Some p →
        ShowsGame (at_tick (history (new_world start) events)) k
        (replay new_replica (played (handed k (new_world start) (events ++ ticked ∷ [])))) }
    ensures decoded { (start : Start) (events : List Event) (k : ℕ) (p : Player)
        (packets : List Sent) → AreSettings start.settings.players start.settings.cap →
        AreBytes (events ++ ticked ∷ []) →
        get (history (new_world start) (events ++ ticked ∷ [])).game.players k ≡ Some p →
        IsDecoded (decoder_of (received k (new_world start) (events ++ ticked ∷ [])))
        (stream k (new_world start) (events ++ ticked ∷ [])) packets →
        ShowsGame (at_tick (history (new_world start) events)) k
        (replay new_replica (played packets)) }
{}

/// What a client is handed, and when. At a tick just what is due to it, unless that is more than
/// its outbox holds, which closes it; the game that is left is the one that clients were shown.
/// Between two ticks nothing, but for the answer to a login and for the farewell of a connection
/// that is closed, which is that of the cause that is kept. Who logs in is answered by the name
/// that came.
pub fn ticks_hand_what_is_due()
    ensures ticks { (start : Start) (events : List Event) →
        AtTick (history (new_world start) events) }
    ensures after { (start : Start) (events : List Event) →
        AfterTick (history (new_world start) events) }
    ensures between { (start : Start) (events : List Event) (e : Event) (k : ℕ) (p : Player) →
        get (history (new_world start) events).game.players k ≡ Some p → e ≢ ticked →
        Between (history (new_world start) events) e k p }
    ensures logging_in { (start : Start) (events : List Event) (e : Event) (k : ℕ)
        (l : Link) → get (history (new_world start) events).links k ≡ Some l →
        l.stage ≡ stages.Login → LoggingIn (history (new_world start) events) e k l }
{}

/// What an event closes, and what it leaves alone. A connection is closed by the first thing that
/// closes it, for the cause of that; from then on it stays closed, and nothing is handed to it.
pub fn closed_ones_stay_closed()
    ensures { (start : Start) (events : List Event) (e : Event) →
        Closing (history (new_world start) events) e }
{}

/// What is handed out to a client is bytes that it cuts and decodes as exactly those packets, by
/// the first frame of the bytes that came from it: those of the status, or those of a login and
/// behind Login Success those of play. A client that sent no handshake is handed nothing. No bytes
/// are decoded in two ways.
pub fn bytes_are_decoded()
    ensures decoded { (start : Start) (events : List Event) (k : ℕ) →
        AreSettings start.settings.players start.settings.cap → AreBytes events →
        IsDecoded (decoder_of (received k (new_world start) events))
        (stream k (new_world start) events) (handed k (new_world start) events) }
    ensures one_way { (decoder : Option Decoder) (bytes : List ℕ) (packets others : List Sent) →
        IsDecoded decoder bytes packets → IsDecoded decoder bytes others → packets ≡ others }
{}

/// All of it in one promise, whatever the world begins with, for every list of events.
pub fn headline()
    ensures { (start : Start) (log : List Event) →
        AreSettings start.settings.players start.settings.cap → AreBytes log → Headline start log }
{}

/// Turns in which connections are served over a lobby do what they are for: what was put to each is
/// what was handed to it, in order, as far as it took it, and just those are closed that are closed
/// in the world and owed nothing, each once.
pub fn turns_serve()
    ensures { (start : Start) (turns : List (List LogEntry)) →
        AreTurns (new_world start) turns → Serves start turns }
{}
