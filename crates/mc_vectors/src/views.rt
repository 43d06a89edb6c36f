//! Views and what a client is told: `view CALL VIEW ..` works on views, each `CX CZ D`; `form`
//! compares two spots, each `X Y Z YAW PITCH`; and `tracker CALL ..` works on the tracker that the
//! rows before left. A pile is one word, `IDxCOUNT:DAMAGE` or `empty`.

use crate::windows::{Shown, pile_of};
use mc_fields::Spot;
use mc_rows::{Answer, Words, look_up};
use mc_slots::Pile;
use mc_view::{Columns, Form, MIDDLE_BORDER, Moves, Tracker, ViewSet};
use std::mem::replace;

/// A call of a view or of a tracker.
#[derive(Clone, Copy)]
enum Call {
    Has,
    All,
    Entered,
    Left,
    New,
    Knows,
    Known,
    Meet,
    Moves,
    Pile,
    Tell,
    Lose,
    Lost,
    Past,
}

/// The calls by their words.
const CALLS: [(&str, Call); 14] = [
    ("has", Call::Has),
    ("all", Call::All),
    ("entered", Call::Entered),
    ("left", Call::Left),
    ("new", Call::New),
    ("knows", Call::Knows),
    ("known", Call::Known),
    ("meet", Call::Meet),
    ("moves", Call::Moves),
    ("pile", Call::Pile),
    ("tell", Call::Tell),
    ("lose", Call::Lose),
    ("lost", Call::Lost),
    ("past", Call::Past),
];

/// The call that a word names.
fn call_of(name: &str) -> Option<Call> {
    look_up(&CALLS, name)
}

/// The next three words as a view that there can be.
fn view_in(words: &mut Words<'_>) -> Option<ViewSet> {
    let cx: i32 = words.number();
    let cz: i32 = words.number();
    let d: u8 = words.number();
    if MIDDLE_BORDER < cx.unsigned_abs() {
        return None;
    }
    if MIDDLE_BORDER < cz.unsigned_abs() || 8 < d {
        return None;
    }
    Some(ViewSet::of(cx, cz, d))
}

/// The next five words as a spot.
pub fn spot_in(words: &mut Words<'_>) -> Spot {
    Spot {
        x: words.number(),
        y: words.number(),
        z: words.number(),
        yaw: words.number(),
        pitch: words.number(),
    }
}

/// Puts a spot.
pub fn put_spot(spot: &Spot, answer: &mut Answer) {
    answer.word(spot.x);
    answer.word(spot.y);
    answer.word(spot.z);
    answer.word(spot.yaw);
    answer.word(spot.pitch);
}

/// The next word as a pile.
fn pile_in(words: &mut Words<'_>) -> Pile {
    match pile_of(words.word()) {
        Some(pile) => pile,
        None => {
            words.fail();
            Pile::Empty
        }
    }
}

/// Answers a row of views.
/// Dear to prove: two exits, and arms with a match in them.
pub fn view(words: &mut Words<'_>, answer: &mut Answer) {
    let Some(call) = call_of(words.word()) else {
        return words.fail();
    };
    let Some(view) = view_in(words) else {
        return words.fail();
    };
    match call {
        Call::Has => answer.word(view.has(words.number(), words.number())),
        Call::All => put_columns(view.all(), answer),
        Call::Entered => match view_in(words) {
            Some(old) => put_columns(view.entered(&old), answer),
            None => words.fail(),
        },
        Call::Left => match view_in(words) {
            Some(old) => put_columns(view.left(&old), answer),
            None => words.fail(),
        },
        _ => words.fail(),
    }
}

/// Puts how many columns there are, the first and the last.
fn put_columns(columns: Columns, answer: &mut Answer) {
    let mut count: u32 = 0;
    let mut first = None;
    let mut last = None;
    for place in columns {
        count = count.saturating_add(1);
        first = first.or(Some(place));
        last = Some(place);
    }
    answer.word(count);
    put_place(first, answer);
    put_place(last, answer);
}

/// Puts the numbers of a column, where there is one.
fn put_place(place: Option<(i32, i32)>, answer: &mut Answer) {
    if let Some((cx, cz)) = place {
        answer.word(cx);
        answer.word(cz);
    }
}

/// Answers a row that compares two spots.
pub fn form(words: &mut Words<'_>, answer: &mut Answer) {
    let old = spot_in(words);
    let new = spot_in(words);
    put_moves(mc_view::form(old, new), answer);
}

/// Puts how a change is told, and whether the head turns.
fn put_moves(moves: Moves, answer: &mut Answer) {
    match moves.form {
        Form::Still => answer.word("Still"),
        Form::Step(dx, dy, dz) => put_step("Step", dx, dy, dz, answer),
        Form::StepTurn(dx, dy, dz) => put_step("StepTurn", dx, dy, dz, answer),
        Form::Turn => answer.word("Turn"),
        Form::Jump => answer.word("Jump"),
    }
    if moves.head {
        answer.word("head");
    }
}

/// Puts a step.
fn put_step(name: &str, dx: i8, dy: i8, dz: i8, answer: &mut Answer) {
    answer.word(name);
    answer.word(dx);
    answer.word(dy);
    answer.word(dz);
}

/// Answers a row of the tracker.
/// Dear to prove: ten arms over a tracker that is lent.
pub fn tracker(tracker: &mut Tracker, words: &mut Words<'_>, answer: &mut Answer) {
    match call_of(words.word()) {
        Some(Call::New) => drop(replace(tracker, Tracker::new(words.alloc))),
        Some(Call::Knows) => answer.word(tracker.knows(words.number())),
        Some(Call::Known) => match tracker.known(words.number()) {
            Some(eid) => answer.word(eid),
            None => answer.word("none"),
        },
        Some(Call::Meet) => meet(tracker, words, answer),
        Some(Call::Moves) => moves(tracker, words, answer),
        Some(Call::Pile) => pile(tracker, words, answer),
        Some(Call::Tell) => tell(tracker, words, answer),
        Some(Call::Lose) => answer.word(tracker.lose(words.number())),
        Some(Call::Lost) => lost(tracker, words, answer),
        Some(Call::Past) => past(tracker, words, answer),
        _ => words.fail(),
    }
}

/// Tells of an entity that is not known.
fn meet(tracker: &mut Tracker, words: &mut Words<'_>, answer: &mut Answer) {
    let eid = words.number();
    let spot = spot_in(words);
    let pile = pile_in(words);
    if tracker.knows(eid) {
        return words.fail();
    }
    answer.needs(tracker.meet(eid, spot, pile));
}

/// Tells where a known entity is.
fn moves(tracker: &mut Tracker, words: &mut Words<'_>, answer: &mut Answer) {
    let eid = words.number();
    let spot = spot_in(words);
    if !tracker.knows(eid) {
        return words.fail();
    }
    put_moves(tracker.moves(eid, spot), answer);
}

/// Tells what a known entity holds or is.
fn pile(tracker: &mut Tracker, words: &mut Words<'_>, answer: &mut Answer) {
    let eid = words.number();
    let pile = pile_in(words);
    if !tracker.knows(eid) {
        return words.fail();
    }
    answer.word(tracker.pile(eid, pile));
}

/// Tells all of an entity, and puts what was told of it before.
fn tell(tracker: &mut Tracker, words: &mut Words<'_>, answer: &mut Answer) {
    let eid = words.number();
    let was = match tracker.looks().find(eid) {
        Some((spot, pile)) => Some((*spot, *pile)),
        None => None,
    };
    let spot = spot_in(words);
    if tracker.put(eid, &spot, &pile_in(words)).is_err() {
        return answer.lose();
    }
    match was {
        Some((spot, pile)) => {
            put_spot(&spot, answer);
            answer.word(Shown { pile });
        }
        None => answer.word("none"),
    }
}

/// Puts how many entities a tracker that knows some numbers does not know of these, and their
/// numbers.
fn lost(tracker: &Tracker, words: &mut Words<'_>, answer: &mut Answer) {
    let Some(now) = knowing(tracker, words) else {
        return answer.lose();
    };
    match tracker.lost(words.alloc, &now) {
        Ok(eids) => put_numbers(eids.as_slice(), answer),
        Err(_) => answer.lose(),
    }
}

/// Goes past what was told, as far as it is just that of so many entities, one after another; puts
/// how many it went past, and whether none is left.
fn past(tracker: &Tracker, words: &mut Words<'_>, answer: &mut Answer) {
    let mut rest = tracker.rest();
    let mut passed = 0_u8;
    let count: u8 = words.number();
    for _ in 0..count {
        let eid = words.number();
        let spot = spot_in(words);
        if rest.pass(eid, &spot, &pile_in(words)) {
            passed = passed.saturating_add(1);
        }
    }
    answer.word(passed);
    answer.word(rest.is_empty());
}

/// A tracker that knows the numbers of so many next words.
fn knowing(tracker: &Tracker, words: &mut Words<'_>) -> Option<Tracker> {
    let mut now = tracker.anew().ok()?;
    let count: u8 = words.number();
    for _ in 0..count {
        let spot = Spot {
            x: 0,
            y: 0,
            z: 0,
            yaw: 0,
            pitch: 0,
        };
        now.put(words.number(), &spot, &Pile::Empty).ok()?;
    }
    Some(now)
}

/// Puts how many numbers there are, and these.
fn put_numbers(numbers: &[i32], answer: &mut Answer) {
    answer.word(numbers.len());
    for number in numbers {
        answer.word(*number);
    }
}
