ghost use Rattle.std.specs.Prelude.{◌≡◌, ◌≤◌, ◌<◌, ◌⊎◌, ℕ, Ok, None, IfOk, IfErr};
ghost use Rattle.std.specs.Prelude.{OnOk, All, true, false};
ghost use Rattle.std.specs.Option.{option_copied};
ghost use Rattle.mc_fields.specs.Row.{packet_of, packet_read};
ghost use Rattle.mc_hello.specs.LoginDown as login_down;
ghost use Rattle.mc_packets.specs.Down as play;
ghost use Rattle.mc_bot.specs.LinkFaults.{LinkFaults};
ghost use Rattle.mc_bot.specs.Arriving.{GoesWith, IsPatient, to_come};
ghost use Rattle.mc_bot.specs.Asked.{IsInRange, bytes_of, reply_to};
ghost use Rattle.mc_bot.specs.BotFaults.{fault_of_packet};
ghost use Rattle.mc_bot.specs.Playing.{goes, acted, farewell, is_leaving, is_state, line_played};
ghost use Rattle.mc_bot.specs.Playing.{lines_played, logged_in, packet_taken, packets_taken};
ghost use Rattle.mc_bot.specs.Playing.{rules_of, taken_by, taken_until, then_play};
ghost use Rattle.mc_bot.specs.Steps.{CanGoOn, ComparedAs, HasTakenFrame, IsStep, LoginAs, left_off};
ghost use Rattle.mc_bot.specs.Steps.{PacketAs, TookAs, not_logged_in};
ghost use Rattle.mc_bot.specs.Played.{HasSent};

use crate::asking::{put_act, put_reply};
use crate::clicking::number_past;
use crate::incoming::Incoming;
use crate::sending::send_bytes;
use crate::{Act, BotFault, Line};
use mc_bytes::{NoMemory, ReadFault, Text};
use mc_down::read_down;
use mc_fields::{Cell, PacketRead};
use mc_hello::{LoginDown, read_login_down};
use mc_packets::Down;
use mc_replica::Seer;
use mc_wire::Link;
use std::alloc::Global;
use std::marker::Model;

// ---- one frame

/// The fault of a play where a frame is no packet, behind so many packets that were read.
fn unread(read: PacketRead, count: u64) -> BotFault
    ensures { result ≡ fault_of_packet count read }
{
    match read {
        PacketRead::Fault(fault) => BotFault::Packet(fault, count),
        PacketRead::NoMemory => BotFault::NoMemory,
    }
}

/// Takes a packet that answers the login.
fn log_by(packet: &LoginDown) -> Result<(), BotFault>
    ensures { LoginAs (Ok packet.now) 0 result }
{
    match packet {
        LoginDown::Success(..) => Ok(()),
        LoginDown::Disconnect(reason) => Err(BotFault::Closed(reason.copy()?)),
    }
}

/// Takes the frame that answers the login, behind so many packets.
fn take_login(alloc: Global, frame: &[u8], count: u64) -> Result<(), BotFault>
    ensures { LoginAs (packet_of frame.now (packet_read login_down.rows frame.now)) count
        result }
{
    let packet = read_login_down(alloc, frame).map_err(|read| unread(read, count))?;
    let logged = log_by(&packet);
    drop(packet);
    logged
}

/// The words by which the server closes the link, where a packet does so.
fn farewell(packet: &Down) -> Option<&Text>
    ensures { option_copied result ≡ farewell packet.now }
{
    match packet {
        Down::Disconnect(reason) => Some(reason),
        _ => None,
    }
}

/// The fault of a play whose link the server closes with these words.
fn closed_by(reason: &Text) -> BotFault
    ensures { (result ≡ BotFault.Closed reason.now) ⊎ (result ≡ BotFault.NoMemory) }
{
    match reason.copy() {
        Ok(reason) => BotFault::Closed(reason),
        Err(NoMemory) => BotFault::NoMemory,
    }
}

/// Lets what follows the server take a packet.
#[tactic(auto, using(crate::proofs::Taking::not_refused))]
fn take_in<S: Seer>(seer: &mut S, packet: &Down) -> Result<(), BotFault>
    ensures { TookAs (rules_of S.refused S.taken S.asked S.sent
        S.block_at S.slot_at S.window_at S.text) packet.now
        seer.old seer.new result }
{
    match seer.took(packet) {
        Ok(()) => Ok(()),
        Err(ReadFault::Field(fault)) => Err(BotFault::Body(fault)),
        Err(ReadFault::NoMemory) => Err(BotFault::NoMemory),
    }
}

/// Sends the answer that a bot gives to a packet by itself.
#[tactic(auto, using(crate::proofs::Coming::none_sent))]
fn send_reply<K: Link>(alloc: Global, packet: &Down, link: &mut K) -> Result<(), BotFault>
    requires connected { (K.stage link.old).connected ≡ true }
    ensures sent { HasSent (bytes_of (reply_to packet.now)) (K.told link.old) (K.told link.new)
        result }
    ensures stands { K.stage link.new ≡ K.stage link.old }
    ensures link { LinkFaults (K.counts link.old).faults (K.counts link.new).faults result }
    ensures fewer { K.answers link.new ≤ K.answers link.old }
{
    let mut reply = Vec::new(alloc);
    put_reply(alloc, packet, &mut reply)?;
    send_bytes(link, reply.as_slice())
}

/// Takes a packet that does not close the link, and sends its answer at once.
#[tactic(auto, using(crate::proofs::Taking::reply_taken, crate::proofs::Taking::in_failed))]
fn take_and_reply<S: Seer, K: Link>(
    alloc: Global,
    seer: &mut S,
    packet: &Down,
    link: &mut K,
) -> Result<(), BotFault>
    requires connected { (K.stage link.old).connected ≡ true }
    requires stays { farewell packet.now ≡ None }
    ensures taken { (read : ℕ) → HasTakenFrame (taken_by (rules_of S.refused S.taken S.asked S.sent
        S.block_at S.slot_at S.window_at S.text) (Ok packet.now))
        seer.old seer.new read (K.told link.old) (K.told link.new) result }
    ensures stands { K.stage link.new ≡ K.stage link.old }
    ensures link { LinkFaults (K.counts link.old).faults (K.counts link.new).faults result }
    ensures fewer { K.answers link.new ≤ K.answers link.old }
{
    take_in(seer, packet)?;
    send_reply(alloc, packet, link)
}

/// Takes a packet of play.
#[tactic(auto, using(crate::proofs::Taking::closed_taken))]
fn apply<S: Seer, K: Link>(
    alloc: Global,
    seer: &mut S,
    packet: &Down,
    link: &mut K,
) -> Result<(), BotFault>
    requires connected { (K.stage link.old).connected ≡ true }
    ensures taken { (read : ℕ) → HasTakenFrame (taken_by (rules_of S.refused S.taken S.asked S.sent
        S.block_at S.slot_at S.window_at S.text) (Ok packet.now))
        seer.old seer.new read (K.told link.old) (K.told link.new) result }
    ensures stands { K.stage link.new ≡ K.stage link.old }
    ensures link { LinkFaults (K.counts link.old).faults (K.counts link.new).faults result }
    ensures fewer { K.answers link.new ≤ K.answers link.old }
{
    match farewell(packet) {
        Some(reason) => Err(closed_by(reason)),
        None => take_and_reply(alloc, seer, packet, link),
    }
}

/// Reads the packet of play that a frame is, behind so many packets.
fn read_packet(alloc: Global, frame: &[u8], count: u64) -> Result<Down, BotFault>
    ensures { PacketAs (packet_of frame.now (packet_read play.rows frame.now)) count result }
{
    match read_down(alloc, frame) {
        Ok(packet) => Ok(packet),
        Err(read) => Err(unread(read, count)),
    }
}

/// Takes the frame of a packet of play, behind so many packets.
#[tactic(auto, using(crate::proofs::Taking::unread_taken, crate::proofs::Taking::read_taken))]
fn take_frame<S: Seer, K: Link>(
    alloc: Global,
    seer: &mut S,
    frame: &[u8],
    count: u64,
    link: &mut K,
) -> Result<(), BotFault>
    requires connected { (K.stage link.old).connected ≡ true }
    ensures taken { HasTakenFrame (taken_by (rules_of S.refused S.taken S.asked S.sent
        S.block_at S.slot_at S.window_at S.text)
        (packet_of frame.now (packet_read play.rows frame.now)))
        seer.old seer.new count (K.told link.old) (K.told link.new) result }
    ensures stands { K.stage link.new ≡ K.stage link.old }
    ensures link { LinkFaults (K.counts link.old).faults (K.counts link.new).faults result }
    ensures fewer { K.answers link.new ≤ K.answers link.old }
{
    let packet = read_packet(alloc, frame, count)?;
    let taken = apply(alloc, seer, &packet, link);
    drop(packet);
    taken
}

// ---- lines

/// Says whether a line ends the script.
fn is_leaving(act: &Act) -> bool
    ensures { result ≡ is_leaving act.now }
{
    match act {
        Act::Leave => true,
        _ => false,
    }
}

/// Says whether a cell has a state.
fn has_state<S: Seer>(seer: &S, cell: Cell, state: u16) -> bool
    ensures { result ≡ is_state (S.block_at seer.now cell) state }
{
    match seer.block(cell) {
        Some(have) => have == state,
        None => false,
    }
}

/// Compares the state of a cell, for a line of this number.
fn expect<S: Seer>(seer: &S, line: u32, cell: Cell, want: u16) -> Result<(), BotFault>
    ensures { ComparedAs line want (S.block_at seer.now cell) result }
{
    let have = seer.block(cell);
    if have == Some(want) {
        return Ok(());
    }
    Err(BotFault::Expect { line, want, have })
}

/// What a bot keeps beside what follows the server: what comes of the link, how many packets were
/// read, and the number of the next click.
#[derive(Drop)]
pub struct Playing {
    alloc: Global,
    incoming: Incoming,
    read: u64,
    number: i16,
}

impl Model for Playing {
    ghost use Rattle.mc_bot.specs.Steps.{Keeping};

    ghost Value = { Keeping };

    ghost view = { λ playing. record {
      incoming = playing.incoming;
      read = playing.read;
      number = playing.number;
    } };
}

impl Playing {
    /// What a bot keeps before the answer to its login.
    pub fn new(alloc: Global, patience: u64) -> Result<Playing, BotFault>
        ensures is { IfOk result (λ playing. playing ≡ not_logged_in patience) }
        ensures fault { IfErr result (λ fault. fault ≡ BotFault.NoMemory) }
    {
        Ok(Playing {
            alloc,
            incoming: Incoming::new(alloc, patience)?,
            read: 0,
            number: 1,
        })
    }

    /// Takes the next packet.
    fn take<S: Seer, K: Link>(&mut self, seer: &mut S, link: &mut K) -> Result<(), BotFault>
        requires ready { CanGoOn self.old (K.stage link.old) }
        ensures step { IsStep (packet_taken (rules_of S.refused S.taken S.asked S.sent
            S.block_at S.slot_at S.window_at S.text)) goes
            (record { seen = seer.old; keeping = self.old; told = K.told link.old })
            (record { seen = seer.new; keeping = self.new; told = K.told link.new })
            (K.stage link.new) result }
        ensures link { LinkFaults (K.counts link.old).faults (K.counts link.new).faults result }
        ensures fewer { OnOk result
            (to_come (K.answers link.new) self.new.incoming.splitting <
            to_come (K.answers link.old) self.old.incoming.splitting) }
    {
        let frame = self.incoming.next(link)?;
        take_frame(self.alloc, seer, frame.as_slice(), self.read, link)?;
        self.read = self.read.saturating_add(1);
        Ok(())
    }

    /// Takes so many packets.
    #[tactic(auto, using(crate::proofs::Sends::send_failed, crate::proofs::Sends::counts_on))]
    fn take_many<S: Seer, K: Link>(
        &mut self,
        seer: &mut S,
        link: &mut K,
        count: u32,
    ) -> Result<(), BotFault>
        requires ready { CanGoOn self.old (K.stage link.old) }
        ensures step { IsStep (packets_taken (rules_of S.refused S.taken S.asked S.sent
            S.block_at S.slot_at S.window_at S.text) count) goes
            (record { seen = seer.old; keeping = self.old; told = K.told link.old })
            (record { seen = seer.new; keeping = self.new; told = K.told link.new })
            (K.stage link.new) result }
        ensures link { LinkFaults (K.counts link.old).faults (K.counts link.new).faults result }
    {
        let mut left = count;
        while left > 0 {
            self.take(seer, link)?;
            left -= 1;
        }
        Ok(())
    }

    /// Takes packets until a cell has a state.
    #[tactic(auto, using(crate::proofs::Sends::send_failed, crate::proofs::Sends::counts_on))]
    fn take_until<S: Seer, K: Link>(
        &mut self,
        seer: &mut S,
        link: &mut K,
        cell: Cell,
        state: u16,
    ) -> Result<(), BotFault>
        requires ready { CanGoOn self.old (K.stage link.old) }
        ensures step { IsStep (λ bot. taken_until (rules_of S.refused S.taken S.asked S.sent
            S.block_at S.slot_at S.window_at S.text) cell state bot.ahead.frames bot) goes
            (record { seen = seer.old; keeping = self.old; told = K.told link.old })
            (record { seen = seer.new; keeping = self.new; told = K.told link.new })
            (K.stage link.new) result }
        ensures link { LinkFaults (K.counts link.old).faults (K.counts link.new).faults result }
    {
        while !has_state(seer, cell, state) {
            self.take(seer, link)?;
        }
        Ok(())
    }

    /// Sends what a line asks for.
    fn act<S: Seer, K: Link>(
        &mut self,
        seer: &mut S,
        link: &mut K,
        act: &Act,
    ) -> Result<(), BotFault>
        requires range { IsInRange act.now }
        requires ready { CanGoOn self.old (K.stage link.old) }
        ensures step { IsStep (λ bot. goes (acted (rules_of S.refused S.taken S.asked S.sent
            S.block_at S.slot_at S.window_at S.text) act.now bot)) goes
            (record { seen = seer.old; keeping = self.old; told = K.told link.old })
            (record { seen = seer.new; keeping = self.new; told = K.told link.new })
            (K.stage link.new) result }
        ensures link { LinkFaults (K.counts link.old).faults (K.counts link.new).faults result }
    {
        let mut bytes = Vec::new(self.alloc);
        put_act(self.alloc, seer, act, self.number, &mut bytes)?;
        send_bytes(link, bytes.as_slice())?;
        self.number = number_past(act, self.number);
        Ok(())
    }

    /// Does a line that does not end the script.
    fn play_line<S: Seer, K: Link>(
        &mut self,
        seer: &mut S,
        link: &mut K,
        line: &Line,
    ) -> Result<(), BotFault>
        requires stays { is_leaving line.now.act ≡ false }
        requires range { IsInRange line.now.act }
        requires ready { CanGoOn self.old (K.stage link.old) }
        ensures step { IsStep (line_played (rules_of S.refused S.taken S.asked S.sent
            S.block_at S.slot_at S.window_at S.text) line.now.number line.now.act) goes
            (record { seen = seer.old; keeping = self.old; told = K.told link.old })
            (record { seen = seer.new; keeping = self.new; told = K.told link.new })
            (K.stage link.new) result }
        ensures link { LinkFaults (K.counts link.old).faults (K.counts link.new).faults result }
    {
        match &line.act {
            Act::Wait(count) => self.take_many(seer, link, *count),
            Act::Until(cell, state) => self.take_until(seer, link, *cell, *state),
            Act::Expect(cell, state) => expect(seer, line.number, *cell, *state),
            act => self.act(seer, link, act),
        }
    }

    /// Does the lines of a script, in order.
    #[tactic(auto, using(crate::proofs::Sends::send_failed, crate::proofs::Sends::counts_on))]
    fn play_lines<S: Seer, K: Link>(
        &mut self,
        seer: &mut S,
        link: &mut K,
        lines: &[Line],
    ) -> Result<(), BotFault>
        requires range { All (λ line. IsInRange line.act) lines.now }
        requires ready { CanGoOn self.old (K.stage link.old) }
        ensures step { IsStep (lines_played (rules_of S.refused S.taken S.asked S.sent
            S.block_at S.slot_at S.window_at S.text) lines.now) left_off
            (record { seen = seer.old; keeping = self.old; told = K.told link.old })
            (record { seen = seer.new; keeping = self.new; told = K.told link.new })
            (K.stage link.new) result }
        ensures link { LinkFaults (K.counts link.old).faults (K.counts link.new).faults result }
    {
        for line in lines {
            if is_leaving(&line.act) {
                return Ok(());
            }
            self.play_line(seer, link, line)?;
        }
        Ok(())
    }

    /// Takes the answer to the login, and does the lines of a script.
    pub fn play<S: Seer, K: Link>(
        &mut self,
        seer: &mut S,
        link: &mut K,
        lines: &[Line],
    ) -> Result<(), BotFault>
        requires range { All (λ line. IsInRange line.act) lines.now }
        requires goes { GoesWith self.old.incoming (K.stage link.old) }
        requires patient { IsPatient self.old.incoming }
        ensures step { IsStep (λ bot. then_play (logged_in bot) (lines_played
            (rules_of S.refused S.taken S.asked S.sent S.block_at S.slot_at S.window_at S.text)
            lines.now)) left_off
            (record { seen = seer.old; keeping = self.old; told = K.told link.old })
            (record { seen = seer.new; keeping = self.new; told = K.told link.new })
            (K.stage link.new) result }
        ensures link { LinkFaults (K.counts link.old).faults (K.counts link.new).faults result }
    {
        let frame = self.incoming.next(link)?;
        take_login(self.alloc, frame.as_slice(), self.read)?;
        self.read = self.read.saturating_add(1);
        self.play_lines(seer, link, lines)
    }
}
