//! What one connection is answered, by its stage alone.
//!
//! Stands on the packets of `mc_up` and the definitions of `mc_model`. Its one contract: a
//! `Session` answers every frame as what it comes to by the definition `request_of`, and what it
//! hands out is exactly the frames of the packets that `refused`, `accepted` and `farewell` name.
#![tactic(auto)]

mod identity;
mod kept_status;
mod reply;
mod session;
mod silence;
mod step;
mod words;

pub use identity::offline_uuid;
pub use session::Session;
pub use silence::is_silent;
pub use step::Step;
pub use words::chat_json;
