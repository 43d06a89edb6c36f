//! Views: `size CAP ASKED` is the size of one, `column X Z` the column of a place in 1/32 blocks,
//! and `view X Z D` the columns of a view.

use mc_fields::Spot;
use mc_rows::{Answer, Words};
use mc_view::{ViewSet, column_of_spot, view_size};

/// Answers the size of a view.
pub fn size(words: &mut Words<'_>, answer: &mut Answer) {
    let cap = words.number();
    answer.word(view_size(cap, words.number()));
}

/// Answers the column of a place.
pub fn column(words: &mut Words<'_>, answer: &mut Answer) {
    let spot = Spot {
        x: words.number(),
        y: 0,
        z: words.number(),
        yaw: 0,
        pitch: 0,
    };
    let (cx, cz) = column_of_spot(&spot);
    answer.word(cx);
    answer.word(cz);
}

/// How many columns a view has.
fn count_of(view: &ViewSet) -> u32 {
    let mut count: u32 = 0;
    for _column in view.all() {
        count = count.saturating_add(1);
    }
    count
}

/// Answers the columns of a view: how many there are, and each.
pub fn view(words: &mut Words<'_>, answer: &mut Answer) {
    let cx = words.number::<i32>();
    let cz = words.number::<i32>();
    let d = words.number::<u8>();
    if cx < -1000 || cx > 1000 || cz < -1000 || cz > 1000 || d > 8 {
        words.fail();
        return;
    }
    let view = ViewSet::of(cx, cz, d);
    answer.word(count_of(&view));
    for (cx, cz) in view.all() {
        answer.comma();
        answer.word(cx);
        answer.word(cz);
    }
}
