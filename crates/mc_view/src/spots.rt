ghost use Rattle.std.specs.Prelude.{◌≡◌, true};
ghost use lib.IntN.{◌-ℤ◌};
ghost use Rattle.mc_view.specs.Forms.{are_bytes, are_zero, form_by, form_of, is_turned, moves_of};
ghost use Rattle.mc_view.specs.Steps.{byte_between, bytes_between};

use crate::forms::{Form, Moves};
use mc_fields::Spot;

/// How a client that was told the one spot of an entity is told the other: wiki.vg, Entity Relative
/// Move, and rules of this project. It takes no memory.
pub fn form(old: Spot, new: Spot) -> Moves
    ensures { result ≡ moves_of old new }
{
    Moves {
        form: form_of(&old, &new),
        head: old.yaw != new.yaw,
    }
}

/// How the place and the look are told.
fn form_of(old: &Spot, new: &Spot) -> Form
    ensures { result ≡ form_of old.now new.now }
{
    let turned = is_turned(old, new);
    match step_between(old, new) {
        Some((dx, dy, dz)) => step_form(dx, dy, dz, turned),
        None => Form::Jump,
    }
}

/// How a step is told: so far to the east, up and to the south.
fn step_form(dx: i8, dy: i8, dz: i8, turned: bool) -> Form
    requires { are_bytes dx dy dz ≡ true }
    ensures { result ≡ form_by dx dy dz turned }
{
    if is_zero(dx, dy, dz) {
        return if turned { Form::Turn } else { Form::Still };
    }
    if turned {
        return Form::StepTurn(dx, dy, dz);
    }
    Form::Step(dx, dy, dz)
}

/// Whether nothing moved.
fn is_zero(dx: i8, dy: i8, dz: i8) -> bool
    ensures { result ≡ are_zero dx dy dz }
{
    dx == 0 && dy == 0 && dz == 0
}

/// The differences of two places; None where one does not fit into a signed byte.
fn step_between(old: &Spot, new: &Spot) -> Option<(i8, i8, i8)>
    ensures { result ≡ bytes_between (new.now.x -ℤ old.now.x) (new.now.y -ℤ old.now.y)
        (new.now.z -ℤ old.now.z) }
{
    let dx = byte_between(old.x, new.x)?;
    let dy = byte_between(old.y, new.y)?;
    let dz = byte_between(old.z, new.z)?;
    Some((dx, dy, dz))
}

/// Whether yaw or pitch differs.
fn is_turned(old: &Spot, new: &Spot) -> bool
    ensures { result ≡ is_turned old.now new.now }
{
    old.yaw != new.yaw || old.pitch != new.pitch
}

/// The difference of two numbers; None where a signed byte does not hold it.
fn byte_between(old: i32, new: i32) -> Option<i8>
    ensures { result ≡ byte_between (new -ℤ old) }
{
    i8::try_from(i64::from(new) - i64::from(old)).ok()
}
