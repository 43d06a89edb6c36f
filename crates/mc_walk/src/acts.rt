//! What a client does: `move X Y Z` in 1/32 blocks, `look YAW PITCH` in 1/256 turns, or `both`.

use mc_fields::Spot;
use mc_rows::Words;

/// What a client says of itself.
#[derive(Clone, Copy)]
pub enum Act {
    Move,
    Look,
    Both,
}

/// The act that a word names.
pub fn act_of(name: &str) -> Option<Act> {
    match name {
        "move" => Some(Act::Move),
        "look" => Some(Act::Look),
        "both" => Some(Act::Both),
        _ => None,
    }
}

/// The spot of the next words, which name what is new of another.
pub fn spot_in(act: Act, words: &mut Words<'_>, before: Spot) -> Spot {
    let mut spot = before;
    if !matches!(act, Act::Look) {
        spot.x = words.number();
        spot.y = words.number();
        spot.z = words.number();
    }
    if !matches!(act, Act::Move) {
        spot.yaw = words.number();
        spot.pitch = words.number();
    }
    spot
}
