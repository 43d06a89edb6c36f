//! Who comes and who goes.

ghost use Rattle.std.specs.Prelude.{◌≡◌, ◌<◌, ◌||◌, ◌&&◌, nat_lt, true, IfOk, OnErr, OnOk};
ghost use Rattle.std.specs.FinMap.{len};
ghost use Rattle.mc_entities.specs.declared.entity.TheConstants.{EID_MAX};
ghost use Rattle.mc_model.specs.Step.{is_47, refusal};
ghost use Rattle.mc_model.specs.Deeds.{enter_as};
ghost use Rattle.mc_model.specs.Game.{is_known};
ghost use Rattle.mc_model.specs.Leaving.{leave};
ghost use Rattle.mc_play.specs.Admitting.{IsAnswer, has_room};
ghost use Rattle.mc_play.specs.Kept.{played};

use crate::game::Game;
use crate::hands::in_hand;
use mc_bytes::{NoMemory, Text};
use mc_model::{Name, Notes, Player, Refusal, spawn_spot};
use mc_session::offline_uuid;

/// How many names there may be that ever were in play.
const NAMES_MAX: usize = 65_536;

fn is_47(protocol: i32) -> bool
    ensures { result ≡ is_47 protocol }
{
    protocol == 47
}

impl Game {
    /// Whether a name was in play before, or one more name may come.
    fn knows_or_learns(&self, name: &Text) -> bool
        ensures { result ≡ (is_known self.now.game name.now
            || nat_lt (len self.now.game.packs) 65536) }
    {
        self.packs.get(name).is_some() || self.packs.len() < NAMES_MAX
    }

    /// Whether one more may play, under a name.
    fn has_room(&self, name: &Text) -> bool
        ensures { result ≡ has_room self.now.game name.now }
    {
        self.players.len() < self.limits.players() as usize
            && self.entities.has_number()
            && self.knows_or_learns(name)
    }

    /// Judges whether a client may play under a name: the name, or why it may not.
    pub fn admit(&self, protocol: i32, name: &Text) -> Result<Result<Name, Refusal>, NoMemory>
        ensures { IfOk result (IsAnswer self.now.game name.now
            (refusal self.now.game protocol name.now)) }
    {
        if !is_47(protocol) {
            return Ok(Err(Refusal::Version));
        }
        let Some(name) = Name::read(self.alloc, name)? else {
            return Ok(Err(Refusal::Name));
        };
        if self.players.has(offline_uuid(&name)) {
            return Ok(Err(Refusal::Taken));
        }
        if !self.has_room(name.text()) {
            return Ok(Err(Refusal::Full));
        }
        Ok(Ok(name))
    }

    /// Lets a player enter under a name, for a connection.
    pub fn enter(&mut self, connection: u32, name: Name) -> Result<(), NoMemory>
        requires { has_room self.old.game name ≡ true }
        ensures { OnOk result (self.new ≡ played self.old
            (enter_as connection name self.old.game) self.new.aside) }
    {
        let pack = self.pack_named(name.text());
        self.packs.admit(name.text())?;
        let uuid = offline_uuid(&name);
        let spot = spawn_spot(self.ground.terrain());
        let eid = self.entities.enter(uuid, in_hand(&pack, 0), spot)?;
        let player = Player {
            name,
            uuid,
            eid,
            view_byte: 2,
            hand: 0,
            since: self.lines.len(),
            chest: None,
            notes: Notes::new(self.alloc),
        };
        self.players.add(connection, player)
    }

    /// The player of a connection leaves, if it has one: its window closes first. Without memory
    /// all is as before.
    #[tactic(auto, unfolding(mc_model::specs::Leaving::leave))]
    pub fn leave(&mut self, connection: u32) -> Result<(), NoMemory>
        ensures is { OnOk result (self.new
            ≡ played self.old (leave connection self.old.game) self.new.aside) }
        ensures ready { OnOk result (self.new.aside.ready ≡ self.old.aside.ready) }
        ensures err { OnErr result (self.new
            ≡ played self.old self.old.game self.new.aside) }
    {
        let Some(player) = self.players.find(connection) else {
            return Ok(());
        };
        let eid = player.eid;
        self.reserve(1)?;
        self.shut(connection);
        self.entities.remove(eid);
        drop(self.players.remove(connection));
        Ok(())
    }
}
