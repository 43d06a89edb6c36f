//! What players do in their windows.

ghost use Rattle.std.specs.Prelude.{◌≡◌, ◌<◌, if◌then◌else◌, is_some, nat_lt, IfOk, OnErr, OnOk};
ghost use Rattle.mc_slots.specs.declared.pile.Item as items;
ghost use Rattle.mc_slots.specs.declared.pile.Pile.TheVariants.{Full};
ghost use Rattle.mc_slots.specs.Pile.{IsPile};
ghost use Rattle.mc_windows.specs.Clicks.{answer_of, chest_after, dropped, outcome, pack_after};
ghost use Rattle.mc_windows.specs.Pack.{finished_pack};
ghost use Rattle.mc_model.specs.Deeds.{noting, repack_of};
ghost use Rattle.mc_model.specs.Game.{room_in};
ghost use Rattle.mc_model.specs.Notes.{again};
ghost use Rattle.mc_model.specs.Windows.{answering, close, confirm, is_accepted, is_sent_again};
ghost use Rattle.mc_model.specs.Windows.{kept_in_hand, let_fall, press, shut};
ghost use Rattle.mc_play.specs.Kept.{TakesOne, by_player, played};

use crate::game::Game;
use mc_bytes::NoMemory;
use mc_model::Answered;
use mc_slots::{Chest, Pile, Slot};
use mc_windows::{Click, Clicked, Pack, answer, finish};

/// The mode of the clicks by a number key.
const NUMBER_KEY: i8 = 2;

/// A click of these fields.
fn click_of(
    window: u8,
    slot: i16,
    button: i8,
    number: i16,
    mode: i8,
    item: &Slot,
) -> Result<Click, NoMemory>
    ensures { IfOk result (λ click. click ≡ record {
      window = window;
      slot = slot;
      button = button;
      number = number;
      mode = mode;
      item = item.now;
    }) }
{
    Ok(Click {
        window,
        slot,
        button,
        number,
        mode,
        item: item.copy()?,
    })
}

/// Does a click on a pack and the chest that is shown beside it, if one is.
fn clicked(pack: &mut Pack, chest: &mut Option<Chest>, click: &Click, room: bool) -> Clicked
    ensures pack { pack.new ≡ pack_after pack.old click.now.number
        (outcome pack.old chest.old click.now room) }
    ensures chest { chest.new ≡ chest_after chest.old (outcome pack.old chest.old click.now room) }
    ensures there { is_some chest.new ≡ is_some chest.old }
    ensures answer { result ≡ answer_of (outcome pack.old chest.old click.now room) }
    ensures range { IsPile (dropped result) }
{
    match chest {
        None => mc_windows::click(pack, None, click, room),
        Some(chest) => mc_windows::click(pack, Some(chest), click, room),
    }
}

/// Whether a click was done.
fn is_accepted(came: Clicked) -> bool
    ensures { result ≡ is_accepted came }
{
    matches!(came, Clicked::Done(_))
}

/// Whether the window is sent again after a click: after each that was refused, and after each by a
/// number key.
fn is_sent_again(click: &Click, came: Clicked) -> bool
    ensures { result ≡ is_sent_again click.now came }
{
    match came {
        Clicked::Done(_) => click.mode == NUMBER_KEY,
        Clicked::Refused(_) => true,
    }
}

/// What a click dropped.
fn dropped(came: Clicked) -> Pile
    ensures { result ≡ dropped came }
{
    match came {
        Clicked::Done(pile) => pile,
        Clicked::Refused(_) => Pile::Empty,
    }
}

/// A pack whose window is closed, with what hung on its cursor there still.
fn kept_in_hand(pack: Pack) -> Pack
    ensures { result ≡ kept_in_hand pack }
{
    let mut pack = pack;
    pack.window = 0;
    pack.waiting = None;
    pack
}

impl Game {
    // ---- what falls

    /// Lets a pile lie where the player of a connection is, if it has one. Nothing comes of an
    /// empty pile; for another there are room and a place.
    fn let_fall(&mut self, connection: u32, pile: Pile)
        requires range { IsPile pile }
        requires room { (item : items.Item) → pile ≡ Full item → 0 < room_in self.old.game }
        requires place { 0 < self.old.aside.reserve }
        ensures is { self.new ≡ played self.old (by_player connection
            (λ p. let_fall p pile) self.old.game) self.new.aside }
        ensures one { TakesOne self.old.aside self.new.aside }
    {
        let Some(player) = self.players.find(connection) else {
            return;
        };
        let Pile::Full(item) = pile else {
            return;
        };
        let spot = self.feet_of(player);
        self.drop_item(item, spot);
    }

    /// Gives the player of a connection another pack, and lets what comes out of its window fall,
    /// for which there are room and a place.
    fn repack_and_drop(&mut self, connection: u32, pack: Pack, pile: Pile)
        requires pile { IsPile pile }
        requires room { (item : items.Item) → pile ≡ Full item → 0 < room_in self.old.game }
        requires place { 0 < self.old.aside.reserve }
        ensures is { self.new ≡ played self.old (by_player connection
            (λ p g. let_fall p pile (repack_of p pack g)) self.old.game) self.new.aside }
        ensures one { TakesOne self.old.aside self.new.aside }
    {
        self.repack(connection, pack);
        self.let_fall(connection, pile);
    }

    // ---- clicks

    /// Notes the answer to a click of the client of a connection. Without memory all is as before.
    fn answer(&mut self, connection: u32, click: &Click, came: Clicked) -> Result<(), NoMemory>
        ensures ok { OnOk result (self.new ≡ played self.old (noting
            (answering click.now came) connection self.old.game) self.old.aside) }
        ensures err { OnErr result (self.new ≡ self.old) }
    {
        let answered = Answered {
            window: click.window,
            number: click.number,
            accepted: is_accepted(came),
        };
        self.players
            .note_answer(connection, answered, is_sent_again(click, came))
    }

    /// Does a click of the player of a connection in the window that it is shown, and notes the
    /// answer. Without memory all is as before.
    fn press(&mut self, connection: u32, click: &Click) -> Result<(), NoMemory>
        ensures ok { OnOk result (self.new ≡ played self.old (by_player connection
            (λ p. press connection p click.now) self.old.game) self.new.aside) }
        ensures err { OnErr result (self.new
            ≡ played self.old self.old.game self.new.aside) }
    {
        let Some(player) = self.players.find(connection) else {
            return Ok(());
        };
        let shown = player.chest;
        let mut pack = self.pack_of(player);
        let mut chest = self.chest_of(player);
        let came = clicked(&mut pack, &mut chest, click, self.may_drop());
        self.reserve(1)?;
        self.answer(connection, click, came)?;
        self.restock(shown, chest);
        self.repack_and_drop(connection, pack, dropped(came));
        Ok(())
    }

    /// Does a click of the player of a connection that is of these fields. Without memory all is as
    /// before.
    pub(super) fn click(
        &mut self,
        connection: u32,
        window: u8,
        slot: i16,
        button: i8,
        number: i16,
        mode: i8,
        item: &Slot,
    ) -> Result<(), NoMemory>
        ensures ok { OnOk result (self.new ≡ played self.old (by_player connection
            (λ p. press connection p (record {
              window = window;
              slot = slot;
              button = button;
              number = number;
              mode = mode;
              item = item.now;
            })) self.old.game) self.new.aside) }
        ensures err { OnErr result (self.new
            ≡ played self.old self.old.game self.new.aside) }
    {
        let click = click_of(window, slot, button, number, mode, item)?;
        let done = self.press(connection, &click);
        drop(click);
        done
    }

    // ---- confirmations

    /// Ends the wait of the player of a connection, where its window is the one of a number and
    /// waits for this click.
    pub(super) fn confirm(&mut self, connection: u32, window: u8, number: i16)
        ensures { self.new ≡ played self.old (by_player connection
            (λ p. confirm p window number) self.old.game) self.old.aside }
    {
        let Some(player) = self.players.find(connection) else {
            return;
        };
        let mut pack = self.pack_of(player);
        answer(&mut pack, window, number);
        self.repack(connection, pack);
    }

    // ---- closing

    /// Closes the window of the player of a connection, which carries a pack; what hangs on the
    /// cursor stays there, and the window is sent again.
    fn keep_in_hand(&mut self, connection: u32, pack: Pack)
        ensures { self.new ≡ played self.old (by_player connection
            (λ p g. noting again connection (repack_of p (kept_in_hand pack) g))
            self.old.game) self.old.aside }
    {
        self.repack(connection, kept_in_hand(pack));
        self.players.note_window(connection);
    }

    /// Closes the window of the player of a connection, which carries a pack. What hangs on the
    /// cursor falls, for which there is a place; without room for it, it stays there, and the
    /// window is sent again.
    fn put_away(&mut self, connection: u32, pack: Pack)
        requires { 0 < self.old.aside.reserve }
        ensures is { self.new ≡ played self.old (by_player connection
            (λ p g. if nat_lt 0 (room_in g)
            then let_fall p pack.cursor (repack_of p (finished_pack pack) g)
            else noting again connection (repack_of p (kept_in_hand pack) g))
            self.old.game) self.new.aside }
        ensures one { TakesOne self.old.aside self.new.aside }
    {
        if !self.may_drop() {
            self.keep_in_hand(connection, pack);
            return;
        }
        let mut closed = pack;
        let cursor = finish(&mut closed);
        self.repack_and_drop(connection, closed, cursor);
    }

    /// Closes the window of the player of a connection, if it has one: it is shown no chest any
    /// more. There is a place for what hangs on the cursor.
    pub(super) fn shut(&mut self, connection: u32)
        requires { 0 < self.old.aside.reserve }
        ensures is { self.new ≡ played self.old (by_player connection
            (shut connection) self.old.game) self.new.aside }
        ensures one { TakesOne self.old.aside self.new.aside }
    {
        let Some(player) = self.players.find(connection) else {
            return;
        };
        let pack = self.pack_of(player);
        self.put_away(connection, pack);
        self.watch(connection, None);
    }

    /// Closes the window of the player of a connection, where it is the one of a number. Without
    /// memory all is as before.
    pub(super) fn close(&mut self, connection: u32, window: u8) -> Result<(), NoMemory>
        ensures ok { OnOk result (self.new ≡ played self.old (by_player connection
            (λ p. close connection p window) self.old.game) self.new.aside) }
        ensures err { OnErr result (self.new
            ≡ played self.old self.old.game self.new.aside) }
    {
        let Some(player) = self.players.find(connection) else {
            return Ok(());
        };
        if window != self.pack_of(player).window {
            return Ok(());
        }
        self.reserve(1)?;
        self.shut(connection);
        Ok(())
    }
}
