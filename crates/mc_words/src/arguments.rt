ghost use Rattle.std.specs.Prelude.{◌≡◌, option_map, map, position};
ghost use Rattle.std.specs.Str.{bytes_eq};
ghost use Rattle.std.specs.List.{list_any};
ghost use Rattle.mc_words.specs.Arguments.{is_equals, name_of, value_of, value_in, are_options};
ghost use Rattle.mc_words.specs.Arguments.{number_in, number_or, terrain_of, players_in, view_in};
ghost use Rattle.mc_words.specs.Arguments.{land_in, mobs_in, world_in, port_in, tick_limit_in};
ghost use Rattle.mc_words.specs.Arguments.{event_limit_in};
ghost use Rattle.mc_words.specs.Arguments.{pace_of, pace_in, answer_of, capture_in, patience_in};
ghost use Rattle.mc_words.specs.Arguments.{client_in, clients_in, short_tick_limit_in};
ghost use Rattle.mc_words.specs.Arguments.{status_of, replay_of, serve_of, bot_of, view_of, show_of};
ghost use Rattle.mc_words.specs.Arguments.{load_of, named, command_of};
ghost use Rattle.mc_words.specs.Arguments.{bytes_of};

use mc_land::Terrain;
use mc_text::{long_number, ranged_u32};
use mc_wire::Pace;

/// The options of a world, as it begins.
#[derive(Clone, Copy, Debug, PartialEq, Eq)]
pub struct WorldOptions {
    /// The most players.
    pub players: u32,
    /// How many columns a client sees to each side.
    pub view: u32,
    /// What the world is made of.
    pub terrain: Terrain,
    /// How many of the minds that are there move a mob of the world.
    pub mobs: u32,
}

/// The options of `serve`.
#[derive(Clone, Copy, Debug, PartialEq, Eq)]
pub struct ServeOptions {
    /// The world that is served.
    pub world: WorldOptions,
    /// The port to listen on.
    pub port: u16,
    /// After so many ticks it ends well.
    pub ticks: u32,
    /// After so many events it ends in any case.
    pub events: u32,
    /// What ticks come by.
    pub pace: Pace,
    /// Whether a capture of all that happens is written.
    pub capture: bool,
}

/// The options of `bot`.
#[derive(Clone, Copy, Debug, PartialEq, Eq)]
pub struct BotOptions {
    /// The port to connect to.
    pub port: u16,
    /// After so many quiet reads in turn it waits no longer.
    pub patience: u32,
}

/// The options of `load`.
#[derive(Clone, Copy, Debug, PartialEq, Eq)]
pub struct LoadOptions {
    /// How many clients there are.
    pub clients: u32,
    /// How many ticks come.
    pub ticks: u32,
}

/// What the arguments of the command line say.
#[derive(Clone, Copy, Debug, PartialEq, Eq)]
pub enum Command {
    /// `status`, with the most players.
    Status(u32),
    /// `replay`, with the options of its world.
    Replay(WorldOptions),
    /// `serve`, with its options.
    Serve(ServeOptions),
    /// `bot`, with its options.
    Bot(BotOptions),
    /// `view`.
    View,
    /// `show`, with the number of the client that is shown.
    Show(u32),
    /// `load`, with its options.
    Load(LoadOptions),
}

/// The place of the first `=`.
fn equals(argument: &[u8]) -> Option<usize>
    ensures { result ≡ position is_equals argument.now }
{
    argument.iter().position(|byte| *byte == b'=')
}

/// The name and the value of an option.
fn cut_option(argument: &[u8]) -> (&[u8], &[u8])
    ensures name { result.0.now ≡ name_of argument.now }
    ensures value { result.1.now ≡ value_of argument.now }
{
    match equals(argument) {
        Some(end) => (&argument[..end], argument.split_at(end + 1).1),
        None => (argument, argument.split_at(argument.len()).1),
    }
}

/// The value of a name among some arguments.
fn value_in<'a>(name: &[u8], arguments: &'a [String]) -> Option<&'a [u8]>
    ensures { option_map (λ value. value.now) result ≡ value_in name.now (bytes_of arguments.now) }
{
    for argument in arguments {
        let (found, value) = cut_option(argument.as_bytes());
        if found == name {
            return Some(value);
        }
    }
    None
}

/// Whether a name is one of some names.
fn is_one(name: &[u8], names: &[&str]) -> bool
    ensures { result ≡ list_any (bytes_eq name.now) (map (λ known. known.now) names.now) }
{
    for known in names {
        if name == known.as_bytes() {
            return true;
        }
    }
    false
}

/// Whether the name of each argument is one of some names, and stands once.
fn are_options(names: &[&str], arguments: &[String]) -> bool
    ensures { result ≡ are_options (map (λ known. known.now) names.now) (bytes_of arguments.now) }
{
    for (i, argument) in arguments.iter().enumerate() {
        let (name, _) = cut_option(argument.as_bytes());
        if !is_one(name, names) {
            return false;
        }
        if value_in(name, arguments.split_at(i + 1).1).is_some() {
            return false;
        }
    }
    true
}

/// A number of an option that must stand.
fn number_in(low: u32, high: u32, value: Option<&[u8]>) -> Option<u32>
    ensures { result ≡ number_in low high (option_map (λ v. v.now) value.entry) }
{
    ranged_u32(value?, low, high)
}

/// A number that stands for an option, or its default.
fn number_or(default: u32, low: u32, high: u32, value: Option<&[u8]>) -> Option<u32>
    ensures { result ≡ number_or default low high (option_map (λ v. v.now) value.entry) }
{
    match value {
        None => Some(default),
        Some(value) => ranged_u32(value, low, high),
    }
}

/// The terrain that a value names.
#[tactic(auto, unfolding(crate::specs::Arguments::terrain_of))]
fn terrain_of(value: &[u8]) -> Option<Terrain>
    ensures { result ≡ terrain_of value.now }
{
    if value == b"flat".as_slice() {
        return Some(Terrain::Flat);
    }
    if value == b"isle".as_slice() {
        return Some(Terrain::Isle);
    }
    let digits = value.strip_prefix(b"hills:".as_slice())?;
    Some(Terrain::Hills(long_number(digits)?))
}

/// The most players.
#[tactic(auto, unfolding(crate::specs::Arguments::players_in))]
fn players(arguments: &[String]) -> Option<u32>
    ensures { result ≡ players_in (bytes_of arguments.now) }
{
    number_or(20, 1, 50, value_in(b"players".as_slice(), arguments))
}

/// How many columns a client sees to each side.
#[tactic(auto, unfolding(crate::specs::Arguments::view_in))]
fn view(arguments: &[String]) -> Option<u32>
    ensures { result ≡ view_in (bytes_of arguments.now) }
{
    number_or(6, 2, 8, value_in(b"view".as_slice(), arguments))
}

/// What the world is made of.
#[tactic(auto, unfolding(crate::specs::Arguments::land_in))]
fn land(arguments: &[String]) -> Option<Terrain>
    ensures { result ≡ land_in (bytes_of arguments.now) }
{
    match value_in(b"land".as_slice(), arguments) {
        None => Some(Terrain::Flat),
        Some(value) => terrain_of(value),
    }
}

/// How many mobs there are at most.
#[tactic(auto, unfolding(crate::specs::Arguments::mobs_in))]
fn mobs(arguments: &[String]) -> Option<u32>
    ensures { result ≡ mobs_in (bytes_of arguments.now) }
{
    number_or(0, 0, 64, value_in(b"mobs".as_slice(), arguments))
}

/// The options of a world.
fn world(arguments: &[String]) -> Option<WorldOptions>
    ensures { result ≡ world_in (bytes_of arguments.now) }
{
    Some(WorldOptions {
        players: players(arguments)?,
        view: view(arguments)?,
        terrain: land(arguments)?,
        mobs: mobs(arguments)?,
    })
}

/// The port to listen on, or to connect to.
#[tactic(auto, unfolding(crate::specs::Arguments::port_in))]
fn port(arguments: &[String]) -> Option<u16>
    ensures { result ≡ port_in (bytes_of arguments.now) }
{
    let port = number_in(1, 65_535, value_in(b"port".as_slice(), arguments))?;
    u16::try_from(port).ok()
}

/// After how many ticks serving ends well.
#[tactic(auto, unfolding(crate::specs::Arguments::tick_limit_in))]
fn tick_limit(arguments: &[String]) -> Option<u32>
    ensures { result ≡ tick_limit_in (bytes_of arguments.now) }
{
    number_in(1, 1_000_000_000, value_in(b"ticks".as_slice(), arguments))
}

/// After how many events serving ends in any case.
#[tactic(auto, unfolding(crate::specs::Arguments::event_limit_in))]
fn event_limit(arguments: &[String]) -> Option<u32>
    ensures { result ≡ event_limit_in (bytes_of arguments.now) }
{
    number_or(
        4_000_000_000,
        1,
        4_000_000_000,
        value_in(b"events".as_slice(), arguments),
    )
}

/// The pace that a value names.
fn pace_of(value: &[u8]) -> Option<Pace>
    ensures { result ≡ pace_of value.now }
{
    if value == b"clock".as_slice() {
        return Some(Pace::Clock);
    }
    if value == b"turns".as_slice() {
        return Some(Pace::Turns);
    }
    None
}

/// What ticks come by.
#[tactic(auto, unfolding(crate::specs::Arguments::pace_in))]
fn pace(arguments: &[String]) -> Option<Pace>
    ensures { result ≡ pace_in (bytes_of arguments.now) }
{
    match value_in(b"pace".as_slice(), arguments) {
        None => Some(Pace::Clock),
        Some(value) => pace_of(value),
    }
}

/// What a value of yes or no says.
fn answer_of(value: &[u8]) -> Option<bool>
    ensures { result ≡ answer_of value.now }
{
    if value == b"yes".as_slice() {
        return Some(true);
    }
    if value == b"no".as_slice() {
        return Some(false);
    }
    None
}

/// Whether a capture is asked for.
#[tactic(auto, unfolding(crate::specs::Arguments::capture_in))]
fn capture(arguments: &[String]) -> Option<bool>
    ensures { result ≡ capture_in (bytes_of arguments.now) }
{
    match value_in(b"capture".as_slice(), arguments) {
        None => Some(false),
        Some(value) => answer_of(value),
    }
}

/// After how many quiet reads in turn a bot waits no longer.
#[tactic(auto, unfolding(crate::specs::Arguments::patience_in))]
fn patience(arguments: &[String]) -> Option<u32>
    ensures { result ≡ patience_in (bytes_of arguments.now) }
{
    number_or(
        20_000_000,
        1,
        1_000_000_000,
        value_in(b"patience".as_slice(), arguments),
    )
}

/// The client of a capture.
#[tactic(auto, unfolding(crate::specs::Arguments::client_in))]
fn client(arguments: &[String]) -> Option<u32>
    ensures { result ≡ client_in (bytes_of arguments.now) }
{
    number_in(0, u32::MAX, value_in(b"client".as_slice(), arguments))
}

/// How many clients a load has.
#[tactic(auto, unfolding(crate::specs::Arguments::clients_in))]
fn clients(arguments: &[String]) -> Option<u32>
    ensures { result ≡ clients_in (bytes_of arguments.now) }
{
    number_in(1, 50, value_in(b"n".as_slice(), arguments))
}

/// How many ticks a load has.
#[tactic(auto, unfolding(crate::specs::Arguments::short_tick_limit_in))]
fn short_tick_limit(arguments: &[String]) -> Option<u32>
    ensures { result ≡ short_tick_limit_in (bytes_of arguments.now) }
{
    number_in(1, 10_000, value_in(b"ticks".as_slice(), arguments))
}

/// `status`, with its options.
fn status(arguments: &[String]) -> Option<Command>
    ensures { result ≡ status_of (bytes_of arguments.now) }
{
    if !are_options(&["players"], arguments) {
        return None;
    }
    Some(Command::Status(players(arguments)?))
}

/// `replay`, with its options.
fn replay(arguments: &[String]) -> Option<Command>
    ensures { result ≡ replay_of (bytes_of arguments.now) }
{
    if !are_options(&["players", "view", "land", "mobs"], arguments) {
        return None;
    }
    Some(Command::Replay(world(arguments)?))
}

/// The names of the options of `serve`.
const SERVE_NAMES: [&str; 9] = [
    "port", "ticks", "players", "view", "land", "mobs", "events", "pace", "capture",
];

/// `serve`, with its options.
fn serve(arguments: &[String]) -> Option<Command>
    ensures { result ≡ serve_of (bytes_of arguments.now) }
{
    if !are_options(&SERVE_NAMES, arguments) {
        return None;
    }
    Some(Command::Serve(ServeOptions {
        world: world(arguments)?,
        port: port(arguments)?,
        ticks: tick_limit(arguments)?,
        events: event_limit(arguments)?,
        pace: pace(arguments)?,
        capture: capture(arguments)?,
    }))
}

/// `bot`, with its options.
fn bot(arguments: &[String]) -> Option<Command>
    ensures { result ≡ bot_of (bytes_of arguments.now) }
{
    if !are_options(&["port", "patience"], arguments) {
        return None;
    }
    Some(Command::Bot(BotOptions {
        port: port(arguments)?,
        patience: patience(arguments)?,
    }))
}

/// `view`, which has no options.
fn view_capture(arguments: &[String]) -> Option<Command>
    ensures { result ≡ view_of (bytes_of arguments.now) }
{
    if !arguments.is_empty() {
        return None;
    }
    Some(Command::View)
}

/// `show`, with its option.
fn show(arguments: &[String]) -> Option<Command>
    ensures { result ≡ show_of (bytes_of arguments.now) }
{
    if !are_options(&["client"], arguments) {
        return None;
    }
    Some(Command::Show(client(arguments)?))
}

/// `load`, with its options.
fn load(arguments: &[String]) -> Option<Command>
    ensures { result ≡ load_of (bytes_of arguments.now) }
{
    if !are_options(&["n", "ticks"], arguments) {
        return None;
    }
    Some(Command::Load(LoadOptions {
        clients: clients(arguments)?,
        ticks: short_tick_limit(arguments)?,
    }))
}

/// The command of a name, with its options.
#[tactic(auto, unfolding(crate::specs::Arguments::named))]
fn named(name: &[u8], options: &[String]) -> Option<Command>
    ensures { result ≡ named name.now (bytes_of options.now) }
{
    if name == b"status".as_slice() {
        return status(options);
    }
    if name == b"replay".as_slice() {
        return replay(options);
    }
    if name == b"serve".as_slice() {
        return serve(options);
    }
    if name == b"bot".as_slice() {
        return bot(options);
    }
    if name == b"view".as_slice() {
        return view_capture(options);
    }
    if name == b"show".as_slice() {
        return show(options);
    }
    if name == b"load".as_slice() {
        return load(options);
    }
    None
}

impl Command {
    /// What the arguments after the program's name say, or none where they name no command with
    /// its options.
    pub fn read(arguments: &[String]) -> Option<Command>
        ensures { result ≡ command_of (bytes_of arguments.now) }
    {
        let (name, options) = arguments.split_first()?;
        named(name.as_bytes(), options)
    }
}
