// Slots: empty ones, and the one that a frame is kept in.
ghost use Rattle.std.specs.Prelude.{◌≡◌, ◌≤◌, length};
ghost use Rattle.record.specs.Frame.{longest_frame};
ghost use Rattle.record.specs.Stored.{empty_slots, frame_slot};

use crate::{LONGEST_FRAME, Slot};
use code::sizes::MOST_COLUMNS;

// Slots in which nothing came.
#[tactic(auto, unfolding(crate::specs::Stored::no_slot))]
pub fn no_slots() -> [Slot; MOST_COLUMNS]
    ensures { result ≡ empty_slots }
{
    let slot = Slot {
        taken: 0,
        bytes: [0u8; LONGEST_FRAME],
    };
    [slot; MOST_COLUMNS]
}

// The slot that a frame is kept in.
#[tactic(auto, unfolding(crate::specs::Stored::frame_slot, arrays::specs::Array::padded, arrays::specs::Array::in_front))]
pub fn filled(frame: &[u8]) -> Slot
    requires { length frame.now ≤ longest_frame }
    ensures { result ≡ frame_slot frame.now }
{
    let mut bytes = [0u8; LONGEST_FRAME];
    bytes[..frame.len()].copy_from_slice(frame);
    Slot { taken: 1, bytes }
}
