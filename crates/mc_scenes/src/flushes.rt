//! What one client is sent, on flat land whose columns from -3 to 3 are ready: `flush STEP ..`
//! works on the list of players, the cells, the entities, the pack, what is noted and the mark.
//! `player UUID X Y Z YAW PITCH` adds the entity of a player whose hand is empty, `hold` and
//! `empty` change what its hand holds, and `me EID` names the client's own entity, which is none at
//! first: its player is where that is, or where players enter. `age N` makes the world N ticks old,
//! which is 1 at first, and `say TEXT` adds a text as it stands, of which no JSON is made. `settle`
//! settles players, land and entities and forgets the texts, `share` has the frames encoded for all
//! clients from now on, and `tell X Z D` answers the frames of a view of D around the column (X,
//! Z).

ghost use Rattle.std.specs.Prelude.{◌≡◌, ◌<◌, true, IfOk, IfSome};
ghost use Rattle.std.specs.List.{AllByRecursion};
ghost use Rattle.std.specs.FinSet as set;
ghost use Rattle.mc_land.specs.Places.{IsPlace};
ghost use Rattle.mc_view.specs.Sets.{all_of};
ghost use Rattle.mc_flush.specs.Encoding.{AreFrames};
ghost use Rattle.mc_flush.specs.LineFrames.{IsLine};
ghost use Rattle.mc_loads.specs.Columns.{IsReady};

use crate::frames::put_frames;
use crate::guests::Guests;
use crate::things::{
    add_player, cell_in, change_item, drop_item, empty_hand, fill_hand, filled, move_to, set_cell,
    take_out,
};
use mc_bytes::{NoMemory, Text};
use mc_entities::Folk;
use mc_flush::{ClientView, Encoded, Mark, flush, flush_with};
use mc_land::{Land, Steps, Terrain};
use mc_model::{AGE_MAX, Notes};
use mc_rows::{Answer, Words, look_up};
use mc_view::ViewSet;
use mc_windows::{Pack, kit};
use std::alloc::Global;
use std::marker::Brand;
use std::sync::ledger::{Blank, Ledger};

/// What a client is shown a part of, and what it was shown.
#[derive(Drop)]
struct Scene {
    land: Land,
    folk: Folk,
    pack: Pack,
    guests: Guests,
    /// The number of the client's own entity, 0 where it has none.
    me: i32,
    /// What was said since the last settling.
    lines: Vec<Text>,
    age: u64,
    mark: Mark,
    notes: Notes,
    /// Whether frames are encoded for all clients before one is told of them.
    shares: bool,
}

/// Makes a column near the middle ready.
fn make_ready(land: &mut Land, cx: i32, cz: i32) -> Result<(), NoMemory> {
    if -9 < cx && cx < 9 && -9 < cz && cz < 9 {
        land.ready(cx, cz)?;
    }
    Ok(())
}

/// A flat land whose columns near the middle are ready.
fn ready_land(alloc: Global) -> Result<Land, NoMemory> {
    let mut land = Land::new(alloc, Terrain::Flat);
    for cx in -3..4 {
        for cz in -3..4 {
            make_ready(&mut land, cx, cz)?;
        }
    }
    Ok(land)
}

/// A call of a scene.
#[derive(Clone, Copy)]
enum Call {
    Enter,
    Settle,
    Clear,
    Note,
    Cell,
    Again,
    Set,
    Player,
    Hold,
    Empty,
    Me,
    Drop,
    Turn,
    Move,
    Take,
    Pack,
    Age,
    Say,
    Share,
    Tell,
}

/// The calls by their words.
const CALLS: [(&str, Call); 20] = [
    ("enter", Call::Enter),
    ("settle", Call::Settle),
    ("clear", Call::Clear),
    ("note", Call::Note),
    ("cell", Call::Cell),
    ("again", Call::Again),
    ("set", Call::Set),
    ("player", Call::Player),
    ("hold", Call::Hold),
    ("empty", Call::Empty),
    ("me", Call::Me),
    ("drop", Call::Drop),
    ("turn", Call::Turn),
    ("move", Call::Move),
    ("take", Call::Take),
    ("pack", Call::Pack),
    ("age", Call::Age),
    ("say", Call::Say),
    ("share", Call::Share),
    ("tell", Call::Tell),
];

/// The call that a word names.
fn call_of(name: &str) -> Option<Call> {
    look_up(&CALLS, name)
}

/// What a client is shown at first.
fn new_scene(alloc: Global) -> Result<Scene, NoMemory> {
    Ok(Scene {
        land: ready_land(alloc)?,
        folk: Folk::new(alloc),
        pack: kit(),
        guests: Guests::new(alloc),
        me: 0,
        lines: Vec::new(alloc),
        age: 1,
        mark: Mark::new(alloc),
        notes: Notes::new(alloc),
        shares: false,
    })
}

/// Answers the steps of a client.
pub fn client(words: &mut Words<'_>, answer: &mut Answer) {
    match new_scene(words.alloc) {
        Ok(mut scene) => {
            steps(&mut scene, words, answer);
            drop(scene);
        }
        Err(NoMemory) => answer.lose(),
    }
}

/// Answers the steps of a scene.
fn steps(scene: &mut Scene, words: &mut Words<'_>, answer: &mut Answer) {
    for _ in 0..64 {
        if words.is_more() {
            step(scene, words, answer);
        }
    }
}

/// Answers a step.
fn step(scene: &mut Scene, words: &mut Words<'_>, answer: &mut Answer) {
    match call_of(words.word()) {
        Some(call) => answer_call(call, scene, words, answer),
        None => words.fail(),
    }
}

/// Answers a call.
fn answer_call(call: Call, scene: &mut Scene, words: &mut Words<'_>, answer: &mut Answer) {
    // Dear to prove, for twenty arms over a scene that is lent.
    match call {
        Call::Enter => enter(&mut scene.guests, words, answer),
        Call::Settle => settle(words.alloc, scene, answer),
        Call::Clear => scene.guests.clear(),
        Call::Note => scene.notes.placing = true,
        Call::Cell => answer.needs(scene.notes.cells.push(cell_in(words))),
        Call::Again => scene.notes.resend = true,
        Call::Set => set_cell(&mut scene.land, words, answer),
        Call::Player => add_player(&mut scene.folk, words, answer),
        Call::Hold => fill_hand(&mut scene.folk, words),
        Call::Empty => empty_hand(&mut scene.folk, words),
        Call::Me => scene.me = words.number(),
        Call::Drop => drop_item(&mut scene.folk, words, answer),
        Call::Turn => change_item(&mut scene.folk, words),
        Call::Move => move_to(&mut scene.folk, words),
        Call::Take => take_out(&mut scene.folk, words),
        Call::Pack => scene.pack = filled(scene.pack, words),
        Call::Age => scene.age = words.number(),
        Call::Say => say(&mut scene.lines, words, answer),
        Call::Share => scene.shares = true,
        Call::Tell => tell(scene, words, answer),
    }
}

/// All clients were shown the players, the cells, the entities and the texts as they are, and
/// nothing is noted any more.
fn settle(alloc: Global, scene: &mut Scene, answer: &mut Answer) {
    answer.needs(scene.guests.settle());
    scene.land.settle();
    scene.folk.settle();
    scene.lines.clear();
    scene.notes = Notes::new(alloc);
}

/// A player enters.
fn enter(guests: &mut Guests, words: &mut Words<'_>, answer: &mut Answer) {
    let uuid = words.number();
    answer.needs(guests.enter(uuid, words.text()));
}

/// Whether a packet can carry a text, as it can one of at most 400 bytes.
fn is_line(text: &Text) -> bool
    ensures { result ≡ true → IsLine text.now }
{
    text.as_str().len() <= 400
}

/// Whether packets can carry texts.
fn are_lines(texts: &[Text]) -> bool
    ensures { result ≡ true → AllByRecursion IsLine texts.now }
{
    for text in texts {
        if !is_line(text) {
            return false;
        }
    }
    true
}

/// Something is said.
fn say(lines: &mut Vec<Text>, words: &mut Words<'_>, answer: &mut Answer) {
    let text = words.text();
    if is_line(&text) {
        answer.needs(lines.push(text));
    } else {
        drop(text);
        words.fail();
    }
}

/// The next words as a view.
fn view_in(words: &mut Words<'_>) -> ViewSet {
    let cx = words.number::<i32>();
    let cz = words.number::<i32>();
    let d = words.number::<u8>();
    if -9 < cx && cx < 9 && -9 < cz && cz < 9 && d <= 8 {
        ViewSet::of(cx, cz, d)
    } else {
        words.fail();
        ViewSet::of(0, 0, 0)
    }
}

/// Puts what a client is sent.
fn tell(scene: &mut Scene, words: &mut Words<'_>, answer: &mut Answer) {
    let view = view_in(words);
    match flushed::<Brand>(words.alloc, scene, view, Blank::new(1)) {
        Ok(Some(bytes)) => put_sent(&bytes, answer),
        Ok(None) => words.fail(),
        Err(NoMemory) => answer.lose(),
    }
}

/// Puts what was sent.
fn put_sent(bytes: &[u8], answer: &mut Answer) {
    answer.comma();
    if bytes.is_empty() {
        answer.word("nothing");
    }
    put_frames(bytes, answer);
}

// Its walk is that of five exits at which what was encoded is alive.
/// What is encoded for all clients, if anything is: the frames of who left and came, of moves, of
/// what was said, and of these columns.
fn encode<L: Ledger>(
    alloc: Global,
    scene: &Scene,
    view: &ViewSet,
    steps: &mut Steps<L>,
) -> Result<Option<Encoded>, NoMemory>
    requires ready { AllByRecursion (IsReady scene.now.land) (all_of view.now) }
    requires lines { AllByRecursion IsLine scene.now.lines.items }
    ensures { IfOk result (λ all. IfSome all (AreFrames scene.now.land scene.now.guests)) }
{
    if !scene.shares {
        return Ok(None);
    }
    let mut encoded = Encoded::new(alloc);
    encoded.add_players(alloc, scene.guests.list())?;
    encoded.add_entities(alloc, &scene.folk)?;
    encoded.add_lines(alloc, scene.lines.as_slice())?;
    for place in view.all() {
        encoded.add_load(alloc, &scene.land, &place, steps)?;
        encoded.add_changes(alloc, &scene.land, &place, steps)?;
    }
    Ok(Some(encoded))
}

// Its walk is that of three exits at which what was encoded and its pieces are alive; a `drop` of
// both before them made it dearer.
/// What a client is sent, where its columns are ready, packets can carry what was said, and no
/// world is older.
fn flushed<L: Ledger>(
    alloc: Global,
    scene: &mut Scene,
    view: ViewSet,
    blank: Blank,
) -> Result<Option<Vec<u8>>, NoMemory>
    requires name { blank.name ≡ L.name }
    requires parts { blank.parts ≡ L.parts }
    requires some { 0 < blank.parts }
{
    let mut steps = Steps::<L>::new(blank);
    if scene.age > AGE_MAX || !are_lines(scene.lines.as_slice()) {
        return Ok(None);
    }
    if !is_ready(&scene.land, &view, &mut steps) {
        return Ok(None);
    }
    let encoded = encode(alloc, scene, &view, &mut steps)?;
    let view = ClientView {
        land: &scene.land,
        folk: &scene.folk,
        pack: &scene.pack,
        chest: None,
        list: scene.guests.list(),
        lines: scene.lines.as_slice(),
        age: scene.age,
        me: scene.me,
        view,
    };
    let mut pieces = Vec::new(alloc);
    let done = match &encoded {
        Some(encoded) => flush_with(
            alloc,
            &view,
            encoded,
            &mut scene.mark,
            &scene.notes,
            &mut pieces,
            &mut steps,
        ),
        None => flush(
            alloc,
            &view,
            &mut scene.mark,
            &scene.notes,
            &mut pieces,
            &mut steps,
        ),
    };
    done?;
    let mut bytes = Vec::new(alloc);
    for piece in &pieces {
        bytes.extend_from_slice(piece.as_slice())?;
    }
    Ok(Some(bytes))
}

/// Whether a column is ready.
fn is_there<L: Ledger>(land: &Land, place: &(i32, i32), steps: &mut Steps<L>) -> bool
    requires { IsPlace place.now }
    ensures { result ≡ set.contains land.now.ready place.now }
{
    land.column(place.0, place.1, steps).is_some()
}

/// Whether all columns of a view are ready.
fn is_ready<L: Ledger>(land: &Land, view: &ViewSet, steps: &mut Steps<L>) -> bool
    ensures { result ≡ true → AllByRecursion (IsReady land.now) (all_of view.now) }
{
    for place in view.all() {
        if !is_there(land, &place, steps) {
            return false;
        }
    }
    true
}
