// A column's record: plain data, by value. Any bit pattern of it is a record, and each call checks it again.
#![tactic(auto)]

pub mod frames;
pub mod refusals;
pub mod slots;

ghost use Rattle.std.specs.Prelude.{◌≡◌, ◌*◌, ◌≤◌};
ghost use Rattle.code.specs.Size.{vector_room};
ghost use Rattle.record.specs.Record.{raised as «raised_of»};
ghost use Rattle.record.specs.Stored.{no_column};

use code::settings::Settings;
use code::sizes::{CHECKS_ROOM, MOST_COLUMNS, VALUE_ROOM, VECTOR_ROOM};

// A frame's command, sender and run number.
pub const HEADER: usize = 4;

pub const LONGEST_FRAME: usize = HEADER + CHECKS_ROOM;

// Who a column is: the settings n, t, w, its number, the run number, and its own value in front of its array.
#[repr(C)]
#[derive(Clone, Copy)]
pub struct Identity {
    pub n: u32,
    pub t: u32,
    pub w: u32,
    pub number: u32,
    pub run: u16,
    pub own: [u8; VALUE_ROOM],
}

// What came in from one sender for a round: whether its frame was taken, which any number but 0 says, and the frame.
#[repr(C)]
#[derive(Clone, Copy)]
pub struct Slot {
    pub taken: u8,
    pub bytes: [u8; LONGEST_FRAME],
}

// What a round of checks told of a sender, where it is no number of places: its frame was missing, or its checks gave "none".
pub const TOLD_MISSING: u8 = 254;

pub const TOLD_NONE: u8 = 255;

// What a column has found: V after round one, Y after two, values and confidences after three. Values stand one after the other, w
// bytes each, from their array's front on. And what rounds two and three told of each sender, when they are closed.
#[repr(C)]
#[derive(Clone, Copy)]
pub struct Findings {
    pub heard: [u8; VECTOR_ROOM],
    pub agreed: [u8; VECTOR_ROOM],
    pub values: [u8; VECTOR_ROOM],
    pub confidences: [u8; MOST_COLUMNS],
    pub told_two: [u8; MOST_COLUMNS],
    pub told_three: [u8; MOST_COLUMNS],
}

// A record: who the column is, what came in by slot, for its round and early for the one that follows, what it has found, its round, 1
// to 4, and how many frames it has refused, by the slot that they came in.
#[repr(C)]
#[derive(Clone, Copy)]
pub struct Column {
    pub who: Identity,
    pub slots: [Slot; MOST_COLUMNS],
    pub early: [Slot; MOST_COLUMNS],
    pub found: Findings,
    pub round: u32,
    pub refused: [u32; MOST_COLUMNS],
}

// What a call that changes the record answers: 0 or the number of the refusal, and the record.
#[repr(C)]
#[derive(Clone, Copy)]
pub struct Outcome {
    pub answer: u32,
    pub column: Column,
}

// What asking for the result answers: 0 or the number of the refusal, the values and confidences, and what rounds two and three told of
// each sender.
#[repr(C)]
#[derive(Clone, Copy)]
pub struct Holdings {
    pub answer: u32,
    pub values: [u8; VECTOR_ROOM],
    pub confidences: [u8; MOST_COLUMNS],
    pub told_two: [u8; MOST_COLUMNS],
    pub told_three: [u8; MOST_COLUMNS],
}

// The record whose bytes are all 0.
#[tactic(auto, unfolding(crate::specs::Stored::no_column, crate::specs::Stored::identity, crate::specs::Stored::no_findings, arrays::specs::Array::padded, arrays::specs::Array::in_front))]
pub fn empty() -> Column
    ensures { result ≡ no_column }
{
    let who = Identity {
        n: 0,
        t: 0,
        w: 0,
        number: 0,
        run: 0,
        own: [0u8; VALUE_ROOM],
    };
    let found = Findings {
        heard: [0u8; VECTOR_ROOM],
        agreed: [0u8; VECTOR_ROOM],
        values: [0u8; VECTOR_ROOM],
        confidences: [0u8; MOST_COLUMNS],
        told_two: [0u8; MOST_COLUMNS],
        told_three: [0u8; MOST_COLUMNS],
    };
    let slots = slots::no_slots();
    Column {
        who,
        slots,
        early: slots,
        found,
        round: 0,
        refused: [0u32; MOST_COLUMNS],
    }
}

// The bytes of a value for each column.
#[tactic(auto, using(code::proofs::ValidSettings::values_fit))]
pub fn vector_size(settings: Settings) -> usize
    ensures { (result ≡ settings.n * settings.w) × (result ≤ vector_room) }
{
    settings.columns() * settings.size()
}

// One more in a count that stays at its top.
#[tactic(auto, using(std::proofs::lemmas::Bool::Decides::nat_tests), unfolding(crate::specs::Record::raised))]
pub fn raised(count: u32) -> u32
    ensures { result ≡ raised_of count }
{
    count.saturating_add(1)
}
