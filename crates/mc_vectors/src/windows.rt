//! Packs and their windows: `window CALL ..` works on a pack in its window. The window is `own`, or
//! `chest` for that of a chest, which has number 1 and is the first; words follow for what it is
//! not empty of: `SLOT=PILE`, `SLOT..SLOT=PILE`, `cursor=PILE`, `wait=N`, its number `window=N`,
//! that of the last one `last=N`, and `full` where nothing more may be dropped. A `/` ends them.
//! What the window holds in the end is said in the same words. A pile is one word here,
//! `IDxCOUNT:DAMAGE` or `empty`.

ghost use Rattle.mc_slots.specs.Pile.{IsPile};

use crate::slots::{is_worldly, worldly};
use mc_rows::{Answer, Marked, Words, look_up};
use mc_slots::{Chest, Item, Pile, Slot, Stack, read_slot};
use mc_windows::{Click, Clicked, Pack, begin, finish, kit, store};
use std::fmt;
use std::fmt::Display;

/// How many slots a window has at most.
const SLOTS: usize = 63;

/// A pack, the chest that its window shows, and whether there is room for what is dropped.
#[derive(Clone, Copy)]
struct Open {
    pack: Pack,
    chest: Option<Chest>,
    room: bool,
}

/// A pile as a word.
#[derive(Clone, Copy)]
pub struct Shown {
    pub pile: Pile,
}

impl Display for Shown {
    fn fmt<W: fmt::Write>(&self, f: &mut fmt::Formatter<W>) -> fmt::Result {
        match self.pile {
            Pile::Empty => write!(f, "empty"),
            Pile::Full(item) => write!(f, "{}x{}:{}", item.id, item.count, item.damage),
        }
    }
}

/// A call on a pack.
#[derive(Clone, Copy)]
enum Call {
    Kit,
    Begin,
    Click,
    Store,
    Finish,
    Confirm,
}

/// The calls by their words.
const CALLS: [(&str, Call); 6] = [
    ("kit", Call::Kit),
    ("begin", Call::Begin),
    ("click", Call::Click),
    ("store", Call::Store),
    ("finish", Call::Finish),
    ("confirm", Call::Confirm),
];

/// The call that a word names.
fn call_of(name: &str) -> Option<Call> {
    look_up(&CALLS, name)
}

/// Answers a row of a pack.
pub fn window(words: &mut Words<'_>, answer: &mut Answer) {
    match call_of(words.word()) {
        Some(named) => answer_call(named, words, answer),
        None => words.fail(),
    }
}

/// Answers a call on a pack.
fn answer_call(call: Call, words: &mut Words<'_>, answer: &mut Answer) {
    match call {
        Call::Kit => put_window(&own(kit()), answer),
        Call::Begin => begin_in(words, answer),
        Call::Click => click_in(words, answer),
        Call::Store => store_in(words, answer),
        Call::Finish => finish_in(words, answer),
        Call::Confirm => confirm_in(words, answer),
    }
}

/// The player's own window on a pack.
fn own(pack: Pack) -> Open {
    Open {
        pack,
        chest: None,
        room: true,
    }
}

/// The player's own window on an empty pack: that of who joins, emptied.
fn empty_window() -> Open {
    let mut pack = kit();
    for i in 0..36 {
        set_packed(&mut pack, i, Pile::Empty);
    }
    own(pack)
}

/// The window of the first words.
fn first_window(words: &mut Words<'_>) -> Open {
    let mut window = empty_window();
    if words.is_next("chest") {
        let _number = begin(&mut window.pack);
        window.chest = Some(Chest::new());
    } else {
        words.skip("own");
    }
    window
}

/// The window of the next words, up to a `/`.
fn window_in(words: &mut Words<'_>) -> Open {
    let mut window = first_window(words);
    for _ in 0..SLOTS {
        let word = words.word();
        if word == "/" {
            return window;
        }
        if set_word(&mut window, word).is_none() {
            words.fail();
        }
    }
    words.fail();
    window
}

/// Makes what a word says true of a window. None where it says nothing.
fn set_word(window: &mut Open, word: &str) -> Option<()> {
    if word == "full" {
        window.room = false;
        return Some(());
    }
    let (name, value) = word.split_once('=')?;
    match name {
        "wait" => window.pack.waiting = Some(value.parse::<i16>().ok()?),
        "window" => window.pack.window = value.parse::<u8>().ok()?,
        "last" => window.pack.last = value.parse::<u8>().ok()?,
        _ => return set_pile(window, name, value),
    }
    Some(())
}

/// Puts the pile of a word where another says: on the cursor, or into slots.
fn set_pile(window: &mut Open, name: &str, value: &str) -> Option<()> {
    let pile = worldly(pile_of(value)?)?;
    if name == "cursor" {
        window.pack.cursor = pile;
        return Some(());
    }
    set_slots(window, name, pile)
}

/// The pile of a word.
/// Dear to prove: five exits.
pub fn pile_of(word: &str) -> Option<Pile> {
    if word == "empty" {
        return Some(Pile::Empty);
    }
    let (id, rest) = word.split_once('x')?;
    let (count, damage) = rest.split_once(':')?;
    Some(Pile::Full(Item {
        id: id.parse::<i16>().ok()?,
        damage: damage.parse::<i16>().ok()?,
        count: count.parse::<u8>().ok()?,
    }))
}

/// Puts a pile into a slot, or into each of a range of slots.
fn set_slots(window: &mut Open, slots: &str, pile: Pile) -> Option<()>
    requires { IsPile pile }
{
    let (first, last) = slots.split_once("..").unwrap_or((slots, slots));
    let first = first.parse::<usize>().ok()?;
    let last = last.parse::<usize>().ok()?;
    for slot in 0..SLOTS {
        if first <= slot && slot <= last {
            set_slot(window, slot, pile);
        }
    }
    Some(())
}

/// Puts a pile into a slot that the window has.
fn set_slot(window: &mut Open, slot: usize, pile: Pile)
    requires { IsPile pile }
{
    match &mut window.chest {
        Some(chest) if slot < 27 => chest.set(slot, pile),
        Some(_) => set_packed(&mut window.pack, slot.saturating_sub(27), pile),
        None if 9 <= slot => set_packed(&mut window.pack, slot - 9, pile),
        None => {}
    }
}

/// Puts a pile into a place that a pack has.
fn set_packed(pack: &mut Pack, i: usize, pile: Pile)
    requires { IsPile pile }
{
    let slots = &mut pack.slots;
    if i < 36 {
        slots[i] = pile;
    }
}

/// What lies in a slot.
fn pile_in(window: &Open, slot: usize) -> Pile {
    match &window.chest {
        Some(chest) if slot < 27 => chest.get(slot),
        Some(_) => packed(&window.pack, slot.saturating_sub(27)),
        None if 9 <= slot => packed(&window.pack, slot - 9),
        None => Pile::Empty,
    }
}

/// What lies in a place of a pack.
fn packed(pack: &Pack, i: usize) -> Pile {
    match pack.slots.get(i) {
        Some(pile) => *pile,
        None => Pile::Empty,
    }
}

/// Puts what a window holds.
fn put_window(window: &Open, answer: &mut Answer) {
    put_slots(window, answer);
    if window.pack.cursor != Pile::Empty {
        answer.word("cursor=");
        answer.put(Shown {
            pile: window.pack.cursor,
        });
    }
    if let Some(number) = window.pack.waiting {
        answer.word("wait=");
        answer.put(number);
    }
    put_number("window=", window.pack.window, answer);
    put_number("last=", window.pack.last, answer);
}

/// Puts the number of a window, where it is one.
fn put_number(name: &str, number: u8, answer: &mut Answer) {
    if number != 0 {
        answer.word(name);
        answer.put(number);
    }
}

/// Puts the slots that hold anything, those in a row that hold the same as a range.
fn put_slots(window: &Open, answer: &mut Answer) {
    let mut next = 0;
    for slot in 0..SLOTS {
        if slot >= next {
            let pile = pile_in(window, slot);
            let last = last_alike(window, slot, pile);
            put_run(slot, last, pile, answer);
            next = last.saturating_add(1);
        }
    }
}

/// The last slot, from one on, up to which each holds this pile.
fn last_alike(window: &Open, first: usize, pile: Pile) -> usize {
    let mut last = first;
    for slot in first..SLOTS {
        if pile_in(window, slot) != pile {
            return last;
        }
        last = slot;
    }
    last
}

/// Puts a range of slots and the pile that each holds, where they hold one.
fn put_run(first: usize, last: usize, pile: Pile, answer: &mut Answer) {
    if pile == Pile::Empty {
        return;
    }
    answer.word(first);
    if first < last {
        answer.put("..");
        answer.put(last);
    }
    answer.put('=');
    answer.put(Shown { pile });
}

/// Puts how many a store left, and the window.
fn store_in(words: &mut Words<'_>, answer: &mut Answer) {
    let mut window = window_in(words);
    match pile_of(words.word()) {
        Some(Pile::Full(item)) if is_worldly(item) => {
            answer.word("left");
            answer.word(store(&mut window.pack, item));
            put_window(&window, answer);
        }
        _ => words.fail(),
    }
}

/// Opens a window, and puts its number.
fn begin_in(words: &mut Words<'_>, answer: &mut Answer) {
    let mut window = window_in(words);
    answer.word(begin(&mut window.pack));
    put_window(&window, answer);
}

/// Closes a window.
fn finish_in(words: &mut Words<'_>, answer: &mut Answer) {
    let mut window = window_in(words);
    answer.word(Shown {
        pile: finish(&mut window.pack),
    });
    put_window(&window, answer);
}

/// Confirms a number in a window.
fn confirm_in(words: &mut Words<'_>, answer: &mut Answer) {
    let mut window = window_in(words);
    let shown = words.number();
    mc_windows::answer(&mut window.pack, shown, words.number());
    put_window(&window, answer);
}

/// Does a click.
fn click_in(words: &mut Words<'_>, answer: &mut Answer) {
    let mut window = window_in(words);
    let click = click_of(words, window.pack.window);
    let room = window.room;
    let clicked = mc_windows::click(&mut window.pack, window.chest.as_mut(), &click, room);
    drop(click);
    put_clicked(clicked, answer);
    put_window(&window, answer);
}

/// Puts what became of a click.
fn put_clicked(clicked: Clicked, answer: &mut Answer) {
    match clicked {
        Clicked::Done(Pile::Empty) => answer.word("done"),
        Clicked::Done(pile) => {
            answer.word("done drops");
            answer.word(Shown { pile });
        }
        Clicked::Refused(why) => {
            answer.word("refused");
            answer.name(why);
        }
    }
}

/// The click of the next words, in the shown window and with number 1 where nothing else is said.
fn click_of(words: &mut Words<'_>, shown: u8) -> Click {
    let (slot, button, mode) = (words.number(), words.number(), words.number());
    let item = seen(words);
    let (mut window, mut number) = (shown, 1);
    if words.is_more() {
        window = words.number();
        number = words.number();
    }
    Click {
        window,
        slot,
        button,
        number,
        mode,
        item,
    }
}

/// The item that was seen: a pile, or `#` and the bytes of a slot.
fn seen(words: &mut Words<'_>) -> Slot {
    let word = words.word();
    if let Some(digits) = word.strip_prefix('#') {
        return slot_of(words, digits);
    }
    match pile_of(word) {
        Some(pile) => slot_that_shows(pile),
        None => {
            words.fail();
            Slot::Empty
        }
    }
}

/// The slot that shows a pile, whether the world holds it or not.
fn slot_that_shows(pile: Pile) -> Slot {
    match pile {
        Pile::Empty => Slot::Empty,
        Pile::Full(item) => Slot::Full(Stack {
            id: item.id,
            count: item.count.cast_signed(),
            damage: item.damage,
            tag: None,
        }),
    }
}

/// The slot of these bytes.
fn slot_of(words: &mut Words<'_>, digits: &str) -> Slot {
    let input = Marked::parse(words.alloc, digits).unwrap_or(Marked::nothing(words.alloc));
    match read_slot(words.alloc, &input.bytes, 0) {
        Ok((slot, _)) => slot,
        Err(_) => {
            words.fail();
            Slot::Empty
        }
    }
}
