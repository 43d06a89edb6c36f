ghost use Rattle.std.specs.Prelude.{◌≡◌, ◌≢◌, ◌≤◌, ℕ, IfOk, Some};
ghost use Rattle.std.specs.FinMap.{get, len};
ghost use Rattle.std.specs.List.{AllByRecursion};
ghost use Rattle.std.specs.Option.{option_copied};
ghost use Rattle.mc_slots.specs.Pile.{Sort, held};
ghost use Rattle.mc_land.specs.Land.{terrain_at};
ghost use Rattle.mc_land.specs.Places.{Key};
ghost use Rattle.mc_model.specs.Balance.{stock};
ghost use Rattle.mc_model.specs.Game.{AreSettings, pack_named, pack_of, spot_of};
ghost use Rattle.mc_model.specs.declared.mobs.TheConstants.{MOBS_MAX};
ghost use Rattle.mc_play.specs.Census.{census_of, game_items};
ghost use Rattle.mc_play.specs.Kept.{AreNear, IsClearLine, IsNear, IsNew, land_of};

mod acts;
mod chat;
mod chests;
mod coming;
mod digging;
mod fields;
mod hands;
mod movement;
mod pickups;
mod placing;
mod reaching;
mod tick;
mod windows;

use crate::entities::Entities;
use crate::ground::Ground;
use crate::limits::Limits;
use crate::{Census, Lines, Packs, Players};
pub use acts::ActFault;
use mc_bytes::{NoMemory, Text};
use mc_entities::Folk;
use mc_fields::Spot;
use mc_land::{Land, Terrain};
use mc_model::{Player, Settings};
use mc_windows::{Pack, kit};
use std::alloc::Global;
use std::marker::Model;

/// All that is played, apart from the connections: the land, the entities, what each name carries,
/// what was said, and the players in play by the numbers of their connections.
#[derive(Drop)]
pub struct Game {
    /// Where its memory comes from.
    alloc: Global,
    limits: Limits,
    /// The ticks that came.
    age: u64,
    ground: Ground,
    /// The mobs, the players in play and the dropped items.
    entities: Entities,
    /// What each name carries that was ever in play.
    packs: Packs,
    /// What was said since the last tick.
    lines: Lines,
    players: Players,
}

impl Model for Game {
    ghost use Rattle.std.specs.Coded.{codes};
    ghost use Rattle.std.specs.FinSet as set;
    ghost use Rattle.mc_land.specs.LandCode.{coded_place};
    ghost use Rattle.mc_land.specs.Places.{place_cmp};
    ghost use Rattle.mc_model.specs.Stored.{coded_edits};
    ghost use Rattle.mc_play.specs.Codes.{coded_chests};
    ghost use Rattle.mc_play.specs.contracts.packs.Packs.{the_row as packs_row};
    ghost use Rattle.mc_play.specs.contracts.players.Players.{the_row as players_row};
    ghost use Rattle.mc_play.specs.Kept.{GameValue};

    ghost Value = { GameValue };

    ghost coded = { Prim.hlevel (
      codes,
      coded_edits,
      coded_chests,
      packs_row.coded,
      players_row.coded,
      set.code {R = place_cmp} coded_place,
    ) };

    ghost view = { λ g. record {
      game = record {
        settings = record {
          players = g.limits.players;
          cap = g.limits.cap;
          terrain = g.ground.terrain;
        };
        age = g.age;
        edits = g.ground.edits;
        chests = g.ground.chests;
        entities = g.entities.state.entities;
        eids = g.entities.state.given;
        packs = g.packs;
        lines = g.lines;
        players = g.players;
      };
      settled = g.ground.settled;
      aside = record {
        ready = g.ground.ready;
        told = g.entities.state.told;
        reserve = g.entities.reserve;
      };
    } };
}

impl Game {
    /// A game that nobody came to yet, with so many mobs.
    pub fn new(alloc: Global, settings: Settings, mobs: u32) -> Result<Game, NoMemory>
        requires settings { AreSettings settings.players settings.cap }
        requires mobs { mobs ≤ MOBS_MAX }
        ensures { IfOk result (λ game. IsNew settings mobs game) }
    {
        let entities = Entities::with_mobs(alloc, &settings.terrain, mobs)?;
        Ok(Game {
            alloc,
            limits: Limits::new(settings.players, settings.cap),
            age: 0,
            ground: Ground::new(alloc, settings.terrain),
            entities,
            packs: Packs::new(alloc),
            lines: Lines::new(alloc),
            players: Players::new(alloc),
        })
    }

    // ---- what is asked of a game

    /// How many players may be in play.
    pub fn most(&self) -> u32
        ensures is { result ≡ self.now.game.settings.players }
        ensures few { result ≤ 50 }
    {
        self.limits.players()
    }

    /// How large a view may be, in columns on each side of a player's own.
    pub fn cap(&self) -> u8
        ensures is { result ≡ self.now.game.settings.cap }
        ensures few { result ≤ 8 }
    {
        self.limits.cap()
    }

    /// What the land is where nothing was changed.
    pub fn terrain(&self) -> &Terrain
        ensures { result.now ≡ self.now.game.settings.terrain }
    {
        self.ground.terrain()
    }

    /// How many ticks came.
    pub fn age(&self) -> u64
        ensures { result ≡ self.now.game.age }
    {
        self.age
    }

    /// The land.
    pub fn land(&self) -> &Land
        ensures { result.now ≡ land_of self.now }
    {
        self.ground.land()
    }

    /// The mobs, the players in play and the dropped items.
    pub fn folk(&self) -> &Folk
        ensures entities { result.now.state.entities ≡ self.now.game.entities }
        ensures given { result.now.state.given ≡ self.now.game.eids }
        ensures near { AreNear self.now.game.entities }
    {
        self.entities.folk()
    }

    /// What was said since the last tick, as texts that packets can carry.
    pub fn lines(&self) -> &[Text]
        ensures is { result.now ≡ self.now.game.lines }
        ensures clear { AllByRecursion IsClearLine self.now.game.lines }
    {
        self.lines.as_slice()
    }

    /// Those in play.
    pub fn players(&self) -> &Players
        ensures { result.now ≡ self.now.game.players }
    {
        &self.players
    }

    /// How many are in play. More than a number can hold are out of memory, as they would be long
    /// before.
    pub fn online(&self) -> Result<u32, NoMemory>
        ensures { IfOk result (λ online. online ≡ len self.now.game.players) }
    {
        match u32::try_from(self.players.len()) {
            Ok(online) => Ok(online),
            Err(_) => Err(NoMemory),
        }
    }

    /// Counts the cells whose state is not the terrain's, and all items. It takes no memory.
    pub fn census(&self) -> Census
        ensures is { result ≡ census_of self.now.game }
        // Each edit is such a cell.
        ensures differ { (key : Key) (state : ℕ) → get self.now.game.edits key ≡ Some state →
            state ≢ terrain_at self.now.game.settings.terrain key }
        // Of each sort as many items are counted as the balance of items has of it.
        ensures sorts { (sort : Sort) →
            game_items (held sort) self.now.game ≡ stock sort self.now.game }
    {
        Census {
            edits: self.ground.edited(),
            stock: self.packs.items() + self.ground.stored() + self.entities.items(),
        }
    }

    /// What a player carries; the kit, where its name never was in play.
    pub fn pack_of(&self, player: &Player) -> Pack
        ensures { result ≡ pack_of self.now.game player.now }
    {
        self.pack_named(player.name.text())
    }

    /// What a player carries, which is lent; None where its name never was in play.
    pub fn pack(&self, player: &Player) -> Option<&Pack>
        ensures { option_copied result ≡ get self.now.game.packs player.now.name }
    {
        self.packs.get(player.name.text())
    }

    /// What a name carries; the kit, where it never was in play.
    fn pack_named(&self, name: &Text) -> Pack
        ensures { result ≡ pack_named self.now.game name.now }
    {
        match self.packs.get(name) {
            Some(pack) => *pack,
            None => kit(),
        }
    }

    /// Where a player is, and how it looks; where players enter, if it has no entity.
    pub fn spot_of(&self, player: &Player) -> Spot
        ensures is { result ≡ spot_of self.now.game player.now }
        ensures near { IsNear result }
    {
        self.entities.spot_of(self.ground.terrain(), player.eid)
    }
}
