// What a column has found, as the result hands it out.
ghost use Rattle.std.specs.Prelude.{◌≡◌, ◌*◌, ◌≤◌, length, take};
ghost use Rattle.arrays.specs.Array.{padded};
ghost use Rattle.code.specs.Size.{most_columns, vector_room};
ghost use Rattle.column.specs.Steps.Holdings.{Fronts};

use code::settings::Settings;
use code::sizes::{MOST_COLUMNS, VECTOR_ROOM};
use record::Findings;

// The values and confidences that a column ended with, and what rounds two and three told of each sender.
#[derive(Clone, Copy)]
pub struct Verdict {
    pub values: [u8; VECTOR_ROOM],
    pub confidences: [u8; MOST_COLUMNS],
    pub told_two: [u8; MOST_COLUMNS],
    pub told_three: [u8; MOST_COLUMNS],
}

// The first bytes of an array, zeros behind them.
#[tactic(auto, unfolding(arrays::specs::Array::padded, arrays::specs::Array::in_front))]
fn front<const ROOM: usize>(bytes: &[u8; ROOM], many: usize) -> [u8; ROOM]
    requires { many ≤ ROOM }
    ensures { result ≡ padded ROOM (take many bytes.now) }
{
    let mut front = [0u8; ROOM];
    front[..many].copy_from_slice(&bytes[..many]);
    front
}

impl Verdict {
    // The values of the columns that there are, and so many of each list.
    #[tactic(auto, unfolding(crate::specs::Steps::Holdings::Fronts))]
    pub fn of(found: &Findings, settings: Settings) -> Self
        ensures fronts { Fronts found.now (settings.n * settings.w) settings.n result }
        ensures long { (length found.now.values ≡ vector_room) × (length found.now.confidences ≡ most_columns) }
    {
        let many = settings.columns();
        let values = front(&found.values, record::vector_size(settings));
        let confidences = front(&found.confidences, many);
        let told_two = front(&found.told_two, many);
        let told_three = front(&found.told_three, many);
        Verdict {
            values,
            confidences,
            told_two,
            told_three,
        }
    }
}
