ghost use Rattle.std.specs.Prelude.{◌≡◌, ◌==◌, ◌&&◌, IfOk, IfSome};
ghost use Rattle.mc_hello.specs.declared.status_down.StatusDown.TheVariants.{Response};
ghost use Rattle.mc_model.specs.Packets.{frame_of, of_status};
ghost use Rattle.mc_model.specs.Texts.{status_json};
ghost use Rattle.mc_session.specs.State.{Told};

use crate::reply;
use mc_bytes::{NoMemory, Octets};
use std::alloc::Global;
use std::marker::Model;

/// The frame of the status, as it was made for some numbers of players. Contracts see these.
#[derive(Drop)]
pub struct KeptStatus {
    /// How many may be in play.
    most: u32,
    /// How many are.
    online: u32,
    /// The frame of the status that tells so.
    frame: Octets,
}

impl Model for KeptStatus {
    ghost use Rattle.std.specs.Prelude.{◌≡◌};
    ghost use Rattle.mc_hello.specs.declared.status_down.StatusDown.TheVariants.{Response};
    ghost use Rattle.mc_model.specs.Packets.{frame_of, of_status};
    ghost use Rattle.mc_model.specs.Texts.{status_json};
    ghost use Rattle.mc_session.specs.State.{Told};

    ghost Value = { Told };

    ghost view = { λ s. record { most = s.most; online = s.online } };

    ghost invariant = { λ s. s.frame
        ≡ frame_of (of_status (Response (status_json s.most s.online))) };
}

impl KeptStatus {
    /// Makes the frame of the status that tells these numbers.
    fn new(alloc: Global, most: u32, online: u32) -> Result<KeptStatus, NoMemory>
        ensures { IfOk result (λ made. made ≡ record { most = most; online = online }) }
    {
        let frame = reply::response(alloc, most, online)?;
        Ok(KeptStatus {
            most,
            online,
            frame,
        })
    }

    /// Whether it tells these numbers.
    fn tells(&self, most: u32, online: u32) -> bool
        ensures { result ≡ (self.now.most == most && self.now.online == online) }
    {
        self.most == most && self.online == online
    }

    /// The frame of the status that tells these numbers, without copying it.
    fn frame(&self) -> &[u8]
        ensures { result.now ≡ frame_of
            (of_status (Response (status_json self.now.most self.now.online))) }
    {
        self.frame.as_slice()
    }
}

/// The frame of the status that was made last, where that tells these numbers.
pub fn kept_frame(last: Option<&KeptStatus>, most: u32, online: u32) -> Option<&[u8]>
    ensures { IfSome result (λ frame. frame.now ≡ frame_of
        (of_status (Response (status_json most online)))) }
{
    let made = last?;
    if !made.tells(most, online) {
        return None;
    }
    Some(made.frame())
}

/// The frame of the status, with `most` players at most and `online` in play: a copy of the one
/// that was made last where that tells these numbers, else one that is made and kept.
pub fn status_frame(
    last: &mut Option<KeptStatus>,
    alloc: Global,
    most: u32,
    online: u32,
) -> Result<Octets, NoMemory>
    ensures { IfOk result (λ frame. frame ≡ frame_of
        (of_status (Response (status_json most online)))) }
{
    if let Some(frame) = kept_frame(last.as_ref(), most, online) {
        return Octets::from_slice(alloc, frame);
    }
    let made = KeptStatus::new(alloc, most, online)?;
    let frame = Octets::from_slice(alloc, made.frame())?;
    *last = Some(made);
    Ok(frame)
}
