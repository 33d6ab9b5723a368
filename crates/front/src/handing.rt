//! How a response is handed over.
ghost use Rattle.std.specs.Prelude.{◌≡◌};
ghost use Rattle.front.specs.Courses.{IsHanded, failed_of};

use crate::device::Device;
use crate::reply::Reply;
use cmp_ports::{Answered, Octets, Outcome};

/// Which device failed, where that is the response.
pub(crate) fn failed_device(response: &Option<Reply>, drawn: &Option<[u8; 32]>) -> Option<Device>
    ensures { result ≡ failed_of response.now drawn.now }
{
    let Some(response) = response else {
        return None;
    };
    match (response.note.outcome, drawn) {
        (Outcome::SystemFailure, Some(_)) => Some(Device::Disk),
        (Outcome::SystemFailure, None) => Some(Device::Entropy),
        _ => None,
    }
}

/// Puts the response in the place of what `reply` held, or nothing where there is none.
pub(crate) fn hand(response: Option<Reply>, reply: &mut Octets) -> Answered
    ensures { IsHanded response reply.new result }
{
    match response {
        Some(response) => {
            let Reply { note, octets } = response;
            *reply = octets;
            Answered::Replied(note)
        }
        None => {
            reply.clear();
            Answered::NoMemory
        }
    }
}
