ghost use Rattle.std.specs.Prelude.{◌≡◌, ◌≢◌, ◌^◌, ◌<◌, ◌↔◌, true, false};
ghost use Rattle.mc_wire.specs.Count.{Rose};
ghost use Rattle.mc_capture.specs.declared.tape_state.TapeState.TheVariants as states;
ghost use Rattle.mc_capture.specs.Tape.{counts_with};
ghost use Rattle.mc_capture.specs.TapedView.{counts_in, listens_in, mark_of};
ghost use Rattle.mc_capture.specs.TapeStart.{FaultsSince, IsTape, start_of};

use crate::taped::Taped;
use mc_wire::{Event, Failed, Lobby, Pace, Sink, Wrote};
use std::marker::{Brand, PhantomData};

/// What a taped lobby began with, as a type stands for it. It is picked where a function over such
/// a type is called with `Brand`.
pub trait Started {
    ghost use Rattle.mc_capture.specs.TapeStart.{TapeStart};

    // What it began with.
    ghost start: { TapeStart };
}

impl Started for Brand {
    ghost use Rattle.mc_capture.specs.TapeStart.{no_start};

    ghost start = { no_start };
}

/// A taped lobby whose type knows what it began with: so whatever a loop over any lobby did with
/// it, it still has the lobby and the sink that it was made with, and the sink has the capture of
/// what was added to the log since then. It is a lobby as the one in it is, and does no more.
#[derive(Drop)]
pub struct TapedSince<'a, L: Lobby, O: Sink, S: Started> {
    /// The taped lobby.
    pub taped: Taped<'a, L, O>,
    start: PhantomData<S>,
    // The same lobby, and the same sink.
    pub ghost lobby: { taped.lobby.ghost_name ≡ S.start.lobby },
    pub ghost sink: { taped.out.ghost_name ≡ S.start.sink },
    // What the sink got, which has the head from when it listens on.
    pub ghost tape: { IsTape S.start (L.told taped.lobby.now) (mark_of O.held O.faults taped) },
    pub ghost begun: { taped.heard ≡ true → taped.state ≢ states.Blank },
    // What was counted.
    pub ghost faults: { ∥ FaultsSince S.start (mark_of O.held O.faults taped) ∥₁ },
    pub ghost own_faults: { taped.state ≢ states.Failed → taped.own_faults ≡ 0 },
    pub ghost small: { S.start.counts.faults < 2 ^ 64 →
        (L.counts taped.lobby.now).faults < 2 ^ 64 },
}

impl<'a, L: Lobby, O: Sink, S: Started> TapedSince<'a, L, O, S> {
    /// A taped lobby that nothing happened to yet, with its start.
    pub fn new(taped: Taped<'a, L, O>) -> TapedSince<'a, L, O, S>
        requires start { start_of L.told L.counts O.held O.faults taped ≡ S.start }
        requires blank { taped.state ≡ states.Blank }
        requires heard { taped.heard ≡ false }
        requires own_faults { taped.own_faults ≡ 0 }
        ensures { result.taped ≡ taped.entry }
    {
        TapedSince {
            taped,
            start: PhantomData,
        }
    }

    /// Says whether the sink failed.
    pub fn sink_failed(&self) -> bool
        ensures { result ≡ true ↔ (self.now.taped.state ≡ states.Failed) }
    {
        self.taped.sink_failed()
    }

    /// Gives the taped lobby back, with what holds of it since its start.
    pub fn into_taped(self) -> Taped<'a, L, O>
        ensures same { result ≡ self.entry.taped }
        ensures lobby { result.lobby.ghost_name ≡ S.start.lobby }
        ensures sink { result.out.ghost_name ≡ S.start.sink }
        ensures tape { IsTape S.start (L.told result.lobby.now) (mark_of O.held O.faults result) }
        ensures faults { FaultsSince S.start (mark_of O.held O.faults result) }
        ensures lobby_faults { result.state ≢ states.Failed → S.start.counts.faults < 2 ^ 64 →
            Rose (counts_with 0 S.start.counts).faults (counts_in L.counts result).faults →
            Rose S.start.counts.faults (L.counts result.lobby.now).faults }
    {
        self.taped
    }
}

impl<'a, L: Lobby, O: Sink, S: Started> Lobby for TapedSince<'a, L, O, S> {
    ghost told = { λ since. L.told since.taped.lobby.now };

    ghost listens = { λ since. listens_in L.listens since.taped };

    ghost counts = { λ since. counts_in L.counts since.taped };

    ghost least = { λ since. L.least since.taped.lobby.now };

    fn pace(&mut self, pace: Pace) {
        self.taped.pace(pace);
    }

    fn listen(&mut self, port: u16) -> Result<(), Failed> {
        self.taped.listen(port)
    }

    fn next(&mut self, buf: &mut [u8]) -> Result<Event, Failed> {
        self.taped.next(buf)
    }

    fn write(&mut self, k: u32, piece: &[u8]) -> Wrote {
        self.taped.write(k, piece)
    }

    fn close(&mut self, k: u32) {
        self.taped.close(k);
    }
}
