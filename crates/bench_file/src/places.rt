// Where in a bench file the own values and messages stand.
ghost use Rattle.std.specs.Prelude.{◌≡◌, List, ℕ, ◌≤◌, ◌<◌};
ghost use Rattle.std.proofs.Math.Option.{some};
ghost use Rattle.code.specs.Settings.{settings as «settings_of», settings_refusal};
ghost use Rattle.code.specs.Size.{most_columns};
ghost use Rattle.grading.specs.Value.{Value};
ghost use Rattle.record.specs.Frame.{operand_size};
ghost use Rattle.record.specs.Refusal.{open_refusal};
ghost use Rattle.bench_file.specs.Scenario.{Scenario, only_settings, with_own, with_message, message, own_of, message_of, is_good};
ghost use Rattle.bench_file.specs.Steps.Places.{most_messages, message_index, BytesAt, MessageRange, Located};

use code::settings::Settings;
use code::sizes::MOST_COLUMNS;

// Of each round, from each column to each.
const MOST_MESSAGES: usize = 3 * MOST_COLUMNS * MOST_COLUMNS;

// The settings, the place of each column's own value, and of each message by round, sender and reader. Whether there is a message yet.
#[derive(Clone, Copy)]
pub struct Places {
    pub settings: Settings,
    pub owns: [Option<usize>; MOST_COLUMNS],
    // 48 KiB as 16 bytes each, made once for a file: half of it would be saved by places of 32 bits, for a conversion at each use.
    pub messages: [Option<usize>; MOST_MESSAGES],
    pub late: bool,
}

fn index_of_message(round: u32, from: u32, to: u32) -> usize
    requires { MessageRange round from to }
    ensures { (result ≡ message_index round from to) × (result < most_messages) }
{
    ((round - 1) * 1024 + ((from - 1) * 32 + (to - 1))) as usize
}

impl Places {
    // The settings alone, where they are allowed. Of others nothing is said, and the least that are allowed stand for them.
    pub fn only_settings(n: u32, t: u32, w: u32) -> Self
        ensures { (file : List ℕ) → settings_refusal (settings_of n t w) ≡ 0 → Located file result (only_settings (settings_of n t w)) }
    {
        let least = Settings { n: 1, t: 0, w: 1 };
        Places {
            settings: Settings::new(n, t, w).unwrap_or(least),
            owns: [None; MOST_COLUMNS],
            messages: [None; MOST_MESSAGES],
            late: false,
        }
    }

    // The place of a column's own value; none, a bad column.
    pub fn own(&self, column: u32) -> Option<usize>
        requires { (1 ≤ column) × (column ≤ most_columns) }
        ensures { (file : List ℕ) (f : Scenario) → Located file self.now f → BytesAt file self.now.settings.w result (own_of f.owns column) }
    {
        self.owns[(column - 1) as usize]
    }

    pub fn is_good(&self, column: u32) -> bool
        requires { (1 ≤ column) × (column ≤ most_columns) }
        ensures { (file : List ℕ) (f : Scenario) → Located file self.now f → result ≡ is_good f column }
    {
        self.own(column).is_some()
    }

    // The place of a message.
    pub fn message(&self, round: u32, from: u32, to: u32) -> Option<usize>
        requires { MessageRange round from to }
        ensures { (file : List ℕ) (f : Scenario) → Located file self.now f → BytesAt file (operand_size f.settings round) result (message_of f.messages round from to) }
    {
        self.messages[index_of_message(round, from, to)]
    }

    // Puts a column's own value at a place.
    pub fn put_own(&mut self, column: u32, at: usize)
        requires { (1 ≤ column) × (column ≤ most_columns) }
        ensures { (file : List ℕ) (f : Scenario) (v : Value) → Located file self.old f → BytesAt file self.old.settings.w (Some at) (some v) → open_refusal f.settings column v ≡ 0 → Located file self.new (with_own f column v) }
    {
        self.owns[(column - 1) as usize] = Some(at);
    }

    // Puts a message at a place.
    pub fn put_message(&mut self, round: u32, from: u32, to: u32, at: usize)
        requires { MessageRange round from to }
        ensures { (file : List ℕ) (f : Scenario) (x : List ℕ) → Located file self.old f → BytesAt file (operand_size f.settings round) (Some at) (some x) → Located file self.new (with_message f (message round from to x)) }
    {
        self.messages[index_of_message(round, from, to)] = Some(at);
        self.late = true;
    }
}
