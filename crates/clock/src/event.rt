// The 8 bytes of an event of a list, by its position, and names for the kinds. A byte behind the end is 0.
ghost use Rattle.std.specs.Prelude.{◌≡◌, ◌+◌, ◌*◌, ◌<◌};
ghost use Rattle.paper.specs.Bytes.{byte};
ghost use Rattle.clock.specs.Event.{kind_at, process_at, peer_at, message_at};

use super::{Message, Position, Process};
use octets::read::{byte_at, two_at};

// Bytes and no enum: a damaged list has kinds that are none of the three, and `kind_at` tells each.
pub const INTERNAL: u8 = 0;

pub const SEND: u8 = 1;

pub const RECEIVE: u8 = 2;

// Byte k of the event; where no record begins it is behind the end, so that 8 times the position is always a number.
fn field(list: &[u8], i: Position, k: usize) -> u8
    requires { k < 8 }
    ensures { result ≡ byte list.now (8 * i.0 + k) }
{
    if list.len() / 8 < i.0 {
        return 0;
    }
    byte_at(list, 8 * i.0 + k)
}

pub fn kind_at(list: &[u8], i: Position) -> u8
    ensures { result ≡ kind_at list.now i.0 }
{
    field(list, i, 0)
}

pub fn process_at(list: &[u8], i: Position) -> Process
    ensures { result.0 ≡ process_at list.now i.0 }
{
    Process(field(list, i, 1))
}

// For a send the addressee, for a receive the sender.
pub fn peer_at(list: &[u8], i: Position) -> Process
    ensures { result.0 ≡ peer_at list.now i.0 }
{
    Process(field(list, i, 2))
}

pub fn message_at(list: &[u8], i: Position) -> Message
    ensures { result.0 ≡ message_at list.now i.0 }
{
    if list.len() / 8 < i.0 {
        return Message(0);
    }
    Message(two_at(list, 8 * i.0 + 4))
}
