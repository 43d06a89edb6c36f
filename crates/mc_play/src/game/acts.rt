//! What the packets of players do.

ghost use Rattle.std.specs.Prelude.{◌≡◌};
ghost use Rattle.mc_up.specs.PlayUp.{FitsPlayUp};
ghost use Rattle.mc_model.specs.Acts.{act};
ghost use Rattle.mc_play.specs.Acting.{Acts};

use crate::game::Game;
use mc_bytes::NoMemory;
use mc_up::PlayUp;

/// Why an act is not done.
#[derive(Clone, Copy)]
pub enum ActFault {
    /// A number of the packet stands for no number.
    BadNumber,
    /// Out of memory.
    NoMemory,
}

impl From<NoMemory> for ActFault {
    ghost use Rattle.mc_play.specs.declared.game.acts.ActFault.TheVariants as faults;

    ghost from_gives = { λ _ fault. fault ≡ faults.NoMemory };

    fn from(_fault: NoMemory) -> ActFault {
        ActFault::NoMemory
    }
}

impl Game {
    /// Does what a packet of the player of a connection says, if it has one. `BadNumber` comes
    /// exactly where a number of the packet stands for none, and then all is as before.
    #[tactic(auto, unfolding(mc_model::specs::Acts::act))]
    pub fn act(&mut self, connection: u32, packet: &PlayUp) -> Result<(), ActFault>
        requires { FitsPlayUp packet.now }
        ensures { Acts result self.old self.new (act self.old.game connection packet.now) }
    {
        match packet {
            PlayUp::Chat(text) => self.say(connection, text)?,
            PlayUp::Position { x, y, z, .. } => return self.walk(connection, *x, *y, *z),
            PlayUp::Look(yaw, pitch, _) => return self.turn(connection, *yaw, *pitch),
            PlayUp::PositionLook {
                x,
                y,
                z,
                yaw,
                pitch,
                ..
            } => return self.walk_and_turn(connection, *x, *y, *z, *yaw, *pitch),
            PlayUp::Digging(status, cell, _) => self.digging(connection, *status, *cell)?,
            PlayUp::Placement { place, face, .. } => self.place_on(connection, *place, *face)?,
            PlayUp::Held(place) => self.take_up(connection, *place),
            PlayUp::ClickWindow {
                window,
                slot,
                button,
                number,
                mode,
                item,
            } => self.click(connection, *window, *slot, *button, *number, *mode, item)?,
            PlayUp::CloseWindow(window) => self.close(connection, *window)?,
            PlayUp::Confirm(window, number, _) => {
                self.confirm(connection, window.cast_unsigned(), *number);
            }
            PlayUp::Creative(_, _) => self.players.note_window(connection),
            PlayUp::Settings { view, .. } => self.players.ask_view(connection, *view),
            _ => {}
        }
        Ok(())
    }
}
