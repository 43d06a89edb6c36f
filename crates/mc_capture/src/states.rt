ghost use Rattle.std.specs.Prelude.{◌≡◌};
ghost use Rattle.mc_capture.specs.Frames.{state_of, turned, wanted_state};

/// One of the two ways of a connection.
#[derive(Clone, Copy)]
pub enum Way {
    /// What the client sends.
    Up,
    /// What the client takes.
    Down,
}

/// How far one way of a connection has come: of which packets its next frame is one.
#[derive(Clone, Copy)]
pub enum State {
    /// Nothing was said.
    Hand,
    /// The client asks for the status.
    Status,
    /// The client logs in.
    Login,
    /// The client plays.
    Play,
}

/// How far both ways of a connection have come.
#[derive(Clone, Copy)]
pub struct States {
    /// The way of what the client sends.
    pub up: State,
    /// The way of what the client takes.
    pub down: State,
}

/// What a packet changes of how far the ways of its connection have come.
#[derive(Clone, Copy)]
pub enum Turn {
    /// Nothing.
    Stays,
    /// Both ways come to a state.
    Greets(State),
    /// Its own way comes to play.
    Plays,
}

/// The state that a handshake's wish leads to: 1 is the status, 2 is to log in.
pub(crate) fn wanted_state(next: i32) -> State
    ensures { result ≡ wanted_state next }
{
    if next == 1 {
        State::Status
    } else {
        State::Login
    }
}

impl States {
    /// How far one way has come.
    pub fn of(&self, way: Way) -> State
        ensures { result ≡ state_of way self.now }
    {
        match way {
            Way::Up => self.up,
            Way::Down => self.down,
        }
    }

    /// How far both have come after a packet of one way.
    pub fn turned(&self, turn: Turn, way: Way) -> States
        ensures { result ≡ turned turn way self.now }
    {
        match turn {
            Turn::Stays => *self,
            Turn::Greets(next) => States {
                up: next,
                down: next,
            },
            Turn::Plays => self.played(way),
        }
    }

    /// How far both have come where one comes to play.
    fn played(&self, way: Way) -> States
        ensures { result ≡ turned Turn.Plays way self.now }
    {
        match way {
            Way::Up => States {
                up: State::Play,
                down: self.down,
            },
            Way::Down => States {
                up: self.up,
                down: State::Play,
            },
        }
    }
}
