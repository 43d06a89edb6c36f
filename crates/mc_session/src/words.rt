ghost use Rattle.std.specs.Prelude.{◌≡◌, IfOk, option_map};
ghost use Rattle.serde_json.specs.View.{view};
ghost use Rattle.mc_model.specs.Texts.{chat_data, chat_json, status_data, status_json};
ghost use Rattle.mc_model.specs.Texts.{refusal_text, farewell_text};

use mc_bytes::{NoMemory, Text};
use mc_model::{Cause, Refusal};
use serde_json::{Value, json};
use std::alloc::{AllocError, Global};

/// A text to be shown, as the JSON of a chat component.
#[tactic(auto, unfolding(mc_model::specs::Texts::chat_json))]
pub fn chat_json(alloc: Global, text: &str) -> Result<Text, NoMemory>
    ensures { IfOk result (λ json. json ≡ chat_json text.now) }
{
    let value = chat_value(alloc, text)?;
    Ok(Text::from_string(value.to_string(alloc)?))
}

/// A text to be shown, as a JSON value.
fn chat_value(alloc: Global, text: &str) -> Result<Value, AllocError>
    ensures { IfOk result (λ value. view value ≡ chat_data text.now) }
{
    json!(in alloc; {"text": text})
}

/// The status, as JSON: how many players may be in play, and how many are.
#[tactic(auto, unfolding(mc_model::specs::Texts::status_json))]
pub fn status_json(alloc: Global, max: u32, online: u32) -> Result<Text, NoMemory>
    ensures { IfOk result (λ json. json ≡ status_json max online) }
{
    let value = status_value(alloc, max, online)?;
    Ok(Text::from_string(value.to_string(alloc)?))
}

/// The status, as a JSON value.
fn status_value(alloc: Global, max: u32, online: u32) -> Result<Value, AllocError>
    ensures { IfOk result (λ value. view value ≡ status_data max online) }
{
    json!(in alloc; {
        "description": {"text": "craft47"},
        "players": {"max": max, "online": online},
        "version": {"name": "1.8", "protocol": 47u32}
    })
}

/// What a client is told that may not play.
pub fn refusal_text(why: Refusal) -> &'static str
    ensures { result.now ≡ refusal_text why }
{
    match why {
        Refusal::Version => "This server speaks protocol 47.",
        Refusal::Name => "That name is not allowed.",
        Refusal::Taken => "That name is in play.",
        Refusal::Full => "The server is full.",
    }
}

/// What a client is told whose connection is closed for this cause; for other causes nothing.
pub fn farewell_text(cause: &Cause) -> Option<&'static str>
    ensures { option_map (λ text. text.now) result ≡ farewell_text cause.now }
{
    match cause {
        Cause::Frame(_) => Some("Bad frame."),
        Cause::Packet(_) => Some("Bad packet."),
        Cause::BadNumber => Some("Bad number."),
        Cause::Silent => Some("No answer."),
        _ => None,
    }
}
