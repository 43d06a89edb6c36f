//! What is asked of the bytes of a connection that came.

ghost use Rattle.std.specs.Prelude.{◌≡◌, ◌&&◌, length, nat_lt, not};
ghost use Rattle.mc_model.specs.Stages.{is_closed};

use super::Connection;

impl Connection {
    /// Whether it is open, and some bytes of a frame came that is not whole yet.
    pub fn is_inside(&self) -> bool
        ensures { result
            ≡ (not (is_closed self.now.link.stage) && nat_lt 0 (length self.now.splitter.held)) }
    {
        !self.is_closed() && self.splitter.len() > 0
    }
}
