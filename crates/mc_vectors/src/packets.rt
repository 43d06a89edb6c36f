use crate::{down, up};
use mc_rows::{Answer, Words, look_up};

/// A row of a packet, by the phase and the way of the packet, or by what is done with it.
#[derive(Clone, Copy)]
pub enum Packet {
    Hand,
    StatusUp,
    StatusDown,
    LoginUp,
    LoginDown,
    PlayUp,
    Down,
    Again,
    Destroy,
    Meta,
}

/// The packets by their words.
const PACKETS: [(&str, Packet); 10] = [
    ("hand", Packet::Hand),
    ("status_up", Packet::StatusUp),
    ("status_down", Packet::StatusDown),
    ("login_up", Packet::LoginUp),
    ("login_down", Packet::LoginDown),
    ("play_up", Packet::PlayUp),
    ("down", Packet::Down),
    ("again", Packet::Again),
    ("destroy", Packet::Destroy),
    ("meta", Packet::Meta),
];

/// The row that a word names.
pub fn packet_of(name: &str) -> Option<Packet> {
    look_up(&PACKETS, name)
}

/// Answers a row of a packet.
pub fn answer_packet(packet: Packet, words: &mut Words<'_>, answer: &mut Answer) {
    match packet {
        Packet::Hand => up::hand(words, answer),
        Packet::StatusUp => up::status_up(words, answer),
        Packet::StatusDown => up::status_down(words, answer),
        Packet::LoginUp => up::login_up(words, answer),
        Packet::LoginDown => up::login_down(words, answer),
        Packet::PlayUp => up::play_up(words, answer),
        Packet::Down => down::down(words, answer),
        Packet::Again => down::again(words, answer),
        Packet::Destroy => down::destroy(words, answer),
        Packet::Meta => down::meta(words, answer),
    }
}
