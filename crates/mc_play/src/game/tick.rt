//! A game's own part of a tick.

ghost use Rattle.std.specs.Prelude.{◌≡◌, ◌<◌, OnErr, OnOk, map};
ghost use Rattle.mc_land.specs.Land.{with_ready};
ghost use Rattle.mc_land.specs.Places.{IsPlace};
ghost use Rattle.mc_land.specs.Shed.{IsSettled, shed_land};
ghost use Rattle.mc_model.specs.Minds.{mobs_moved, plans_left};
ghost use Rattle.mc_model.specs.Tick.{grown, told};
ghost use Rattle.mc_play.specs.Kept.{land_of, played};

use crate::game::Game;
use mc_bytes::NoMemory;
use mc_entities::Mind;

impl Game {
    /// Makes it a tick older.
    pub fn grow(&mut self)
        requires { self.old.game.age < 1000000000 }
        ensures { self.new ≡ played self.old (grown self.old.game) self.old.aside }
    {
        self.age += 1;
    }

    /// Lets mind i move the i-th mob by rising number, but where it would leave the range. Minds
    /// beyond the mobs are not asked, and mobs without a mind stay.
    #[tactic(auto, unfolding(mc_model::specs::Minds::mobs_moved))]
    pub fn move_mobs<M: Mind>(&mut self, minds: &mut [M])
        ensures game { self.new ≡ played self.old
            (mobs_moved (map (λ mind. M.plan mind) minds.old) self.old.game) self.old.aside }
        ensures plans { map (λ mind. M.plan mind) minds.new
            ≡ plans_left self.old.game (map (λ mind. M.plan mind) minds.old) }
    {
        self.entities.move_mobs(minds);
    }

    /// Makes a column ready to be looked at. Without memory all is as before.
    pub fn ready(&mut self, place: &(i32, i32)) -> Result<(), NoMemory>
        requires { IsPlace place.now }
        ensures land { OnOk result (land_of self.new ≡ with_ready (land_of self.old) place.now) }
        ensures game { self.new.game ≡ self.old.game }
        ensures settled { self.new.settled ≡ self.old.settled }
        ensures err { OnErr result (self.new ≡ self.old) }
    {
        self.ground.ready(place)
    }

    /// Every client was shown the game: what was said and noted goes, and cells and entities are
    /// kept as they were shown.
    pub fn told(&mut self)
        ensures game { self.new.game ≡ told self.old.game }
        ensures settled { self.new.settled ≡ self.old.game.edits }
        ensures ready { self.new.aside.ready ≡ self.old.aside.ready }
    {
        self.ground.settle();
        self.entities.settle();
        self.lines.clear();
        self.players.told(self.alloc);
    }

    /// Gives up those ready columns all of whose cells are as the terrain has them and that no view
    /// reaches. A view is the numbers of its middle column, and how many columns it reaches on each
    /// axis.
    pub fn shed(&mut self, views: &[(i32, i32, u8)])
        requires { IsSettled (land_of self.old) }
        ensures land { land_of self.new ≡ shed_land (land_of self.old) views.now }
        ensures game { self.new.game ≡ self.old.game }
        ensures settled { self.new.settled ≡ self.old.settled }
    {
        self.ground.shed(views);
    }
}
