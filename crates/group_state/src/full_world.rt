//! A full world: one that holds as many packets as it may.

ghost use Rattle.std.specs.Prelude.{◌≡◌, length, nat_lt};

use crate::state::GroupState;

/// No packet is sent once there are so many.
const MOST_PACKETS: usize = 1_000_000;

impl GroupState {
    /// Whether one packet more may be sent.
    pub(crate) fn has_room(&self) -> bool
        ensures { result ≡ nat_lt (length self.now.packets) self.now.room }
    {
        self.packets.len() < MOST_PACKETS
    }
}
