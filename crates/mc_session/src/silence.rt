ghost use Rattle.std.specs.Prelude.{◌≡◌, nat_le};
ghost use Rattle.mc_model.specs.declared.ticks.TheConstants as limits;

use mc_model::MISSED_MAX;

/// Whether a client is silent at the next beat that left so many without an answer.
pub fn is_silent(missed: u32) -> bool
    ensures { result ≡ nat_le limits.MISSED_MAX missed }
{
    MISSED_MAX <= missed
}
