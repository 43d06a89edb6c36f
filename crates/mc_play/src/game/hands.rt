//! What players have in their hands.

ghost use Rattle.std.specs.Prelude.{◌≡◌};
ghost use Rattle.mc_slots.specs.Pile.{IsPile};
ghost use Rattle.mc_model.specs.Hands.{place_of_hotbar, carrying, take_up};
ghost use Rattle.mc_model.specs.Deeds.{repack_of};
ghost use Rattle.mc_model.specs.Game.{held_by};
ghost use Rattle.mc_play.specs.Kept.{by_player, played};

use crate::game::Game;
use crate::hands::{in_hand, place_of_hotbar, with_hand};
use mc_model::Player;
use mc_slots::Pile;
use mc_windows::Pack;

impl Game {
    /// What a player has in its hand.
    pub(super) fn held_by(&self, player: &Player) -> Pile
        ensures is { result ≡ held_by self.now.game player.now }
        ensures range { IsPile result }
    {
        in_hand(&self.pack_of(player), player.hand)
    }

    /// Gives the player of a connection another pack; its entity holds what that has at its hand.
    pub(super) fn repack(&mut self, connection: u32, pack: Pack)
        ensures { self.new ≡ played self.old (by_player connection
            (λ p. repack_of p pack) self.old.game) self.old.aside }
    {
        let Some(player) = self.players.find(connection) else {
            return;
        };
        self.packs.put(player.name.text(), pack);
        self.entities.hold(player.eid, in_hand(&pack, player.hand));
    }

    /// Gives the player of a connection another pile in its hand.
    pub(super) fn carry(&mut self, connection: u32, pile: Pile)
        requires { IsPile pile }
        ensures { self.new ≡ played self.old (by_player connection
            (λ p. carrying p pile) self.old.game) self.old.aside }
    {
        let Some(player) = self.players.find(connection) else {
            return;
        };
        let pack = with_hand(self.pack_of(player), player.hand, pile);
        self.repack(connection, pack);
    }

    /// Puts the hand of the player of a connection on a place of the hotbar, if the number is one;
    /// its entity holds what is there.
    pub(super) fn take_up(&mut self, connection: u32, place: i16)
        ensures { self.new ≡ played self.old (by_player connection
            (λ p. take_up connection p (place_of_hotbar place)) self.old.game) self.old.aside }
    {
        let Some(hand) = place_of_hotbar(place) else {
            return;
        };
        let Some(player) = self.players.find(connection) else {
            return;
        };
        let eid = player.eid;
        let pile = in_hand(&self.pack_of(player), hand);
        self.entities.hold(eid, pile);
        self.players.put_hand(connection, hand);
    }
}
