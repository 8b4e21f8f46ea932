// The run of a group: three rounds of all columns. A bad column's record is empty, so that each call on it is refused.
ghost use Rattle.std.specs.Prelude.{◌≡◌, List, ◌++◌, ℕ, ◌+◌, ◌≤◌, length, take};
ghost use Rattle.std.proofs.Math.Option.{some};
ghost use Rattle.code.specs.Size.{most_columns, checks_room};
ghost use Rattle.grading.specs.Value.{Value};
ghost use Rattle.record.specs.Frame.{header_size, header};
ghost use Rattle.record.specs.Record.{opened as «opened_as»};
ghost use Rattle.column.specs.Call.{after_take, Run};
ghost use Rattle.record.specs.View.{view};
ghost use Rattle.bench_file.specs.Scenario.{Scenario, own_of};
ghost use Rattle.bench.specs.Group.{bench_run, heard_in, round_calls};
ghost use Rattle.bench_file.specs.Steps.Places.{MessageRange, Located, PlacesOf};
ghost use Rattle.bench.specs.Steps.Finished.{record_of};
ghost use Rattle.bench.specs.Steps.Running.{AfterHearing, frame_bytes, Sends, frame_at, RoundRun, GroupRan};

use bench_file::places::Places;
use code::sizes::MOST_COLUMNS;
use record::{Column, HEADER, LONGEST_FRAME, frames};

// The run number of every frame.
const BENCH_RUN: u16 = 0;

// The record of a column, opened with its own value. The file stands beside its places: what ties them is said of a scenario that no code
// holds, which a ghost field cannot say.
fn opened_at(file: &[u8], places: &Places, number: u32) -> Column
    requires { PlacesOf file.now places.now × (1 ≤ number) × (number ≤ most_columns) }
    ensures { (f : Scenario) (v : Value) → Located file.now places.now f → own_of f.owns number ≡ some v → view result ≡ opened_as f.settings number bench_run v }
{
    let Some(at) = places.own(number) else {
        return record::empty();
    };
    let group = places.settings;
    let own = &file[at..at + group.size()];
    match column::open(group.n, group.t, group.w, number, BENCH_RUN, own) {
        Ok(column) => column,
        Err(_) => record::empty(),
    }
}

fn opened(file: &[u8], places: &Places) -> [Column; MOST_COLUMNS]
    requires { PlacesOf file.now places.now }
    ensures { (f : Scenario) (k : ℕ) (v : Value) → Located file.now places.now f → own_of f.owns k ≡ some v → record_of result k ≡ opened_as f.settings k bench_run v }
{
    let none = record::empty();
    let mut columns = [none; MOST_COLUMNS];
    // Here and below a range ends before n + 1: of one that includes n, the proof would show the last turn apart.
    for number in 1..places.settings.n + 1 {
        columns[(number - 1) as usize] = opened_at(file, places, number);
    }
    columns
}

// A frame, from the array's front on.
#[derive(Clone, Copy)]
pub struct Frame {
    pub bytes: [u8; LONGEST_FRAME],
}

// The frame of a column's round.
fn sent(column: &Column) -> Frame
    ensures { Sends (view column.now) result }
{
    let mut bytes = [0u8; LONGEST_FRAME];
    // A bad column's record is refused, and nobody hears what stands here for its frame.
    let _ = column::send(column, &mut bytes);
    Frame { bytes }
}

fn all_sent(n: u32, columns: &[Column; MOST_COLUMNS]) -> [Frame; MOST_COLUMNS]
    requires { n ≤ most_columns }
    ensures { (k : ℕ) → 1 ≤ k → k ≤ n → Sends (record_of columns.now k) (frame_at result k) }
{
    let none = Frame {
        bytes: [0u8; LONGEST_FRAME],
    };
    let mut frames = [none; MOST_COLUMNS];
    for number in 1..n + 1 {
        let k = (number - 1) as usize;
        frames[k] = sent(&columns[k]);
    }
    frames
}

// The frame of a bad column's message.
fn framed(round: u32, from: u32, operand: &[u8]) -> Frame
    requires { (round ≤ 3) × (from ≤ most_columns) × (length operand.now ≤ checks_room) }
    ensures { take (header_size + length operand.now) result.bytes ≡ header round from bench_run ++ operand.now }
{
    let mut bytes = [0u8; LONGEST_FRAME];
    frames::put_header(round, from, BENCH_RUN, &mut bytes);
    arrays::copy(&mut bytes, HEADER, operand, 0, operand.len());
    Frame { bytes }
}

// Takes a frame; the record counts it where it is refused.
fn take(column: &mut Column, slot: u32, frame: &[u8])
    ensures { view column.new ≡ after_take (view column.old) slot frame.now }
{
    let _ = column::take(column, slot, frame);
}

// What the column hears in a slot.
fn hear(
    file: &[u8],
    places: &Places,
    round: u32,
    frame: &Frame,
    slot: u32,
    to: u32,
    column: &mut Column,
)
    requires { PlacesOf file.now places.now × MessageRange round slot to }
    ensures { (f : Scenario) (frames : ℕ → List ℕ) → Located file.now places.now f → frames slot ≡ frame_bytes f.settings round frame.now → AfterHearing slot (heard_in f frames round to slot) (view column.old) (view column.new) }
{
    if slot == to {
        return;
    }
    let size = frames::operand_size(places.settings.t, places.settings.w, round);
    if places.is_good(slot) {
        take(column, slot, &frame.bytes[..HEADER + size]);
        return;
    }
    let Some(at) = places.message(round, slot, to) else {
        return;
    };
    let message = framed(round, slot, &file[at..at + size]);
    take(column, slot, &message.bytes[..HEADER + size]);
}

// A round in which these frames were sent.
fn finish_round(
    file: &[u8],
    places: &Places,
    round: u32,
    frames: &[Frame; MOST_COLUMNS],
    to: u32,
    column: &mut Column,
)
    requires { PlacesOf file.now places.now × (1 ≤ round) × (round ≤ 3) × (1 ≤ to) × (to ≤ most_columns) }
    ensures { (f : Scenario) → Located file.now places.now f → Run (view column.old) (round_calls f (λ k. frame_bytes f.settings round (frame_at frames.now k)) round to) (view column.new) }
{
    for slot in 1..places.settings.n + 1 {
        hear(
            file,
            places,
            round,
            &frames[(slot - 1) as usize],
            slot,
            to,
            column,
        );
    }
    // A good column's closing is not refused, and a bad one's record stays empty.
    let _ = column::close(column);
}

// One round of all columns.
fn run_round(file: &[u8], places: &Places, round: u32, columns: &mut [Column; MOST_COLUMNS])
    requires { PlacesOf file.now places.now × (1 ≤ round) × (round ≤ 3) }
    ensures { (f : Scenario) → Located file.now places.now f → RoundRun f round columns.old columns.new }
{
    let frames = all_sent(places.settings.n, columns);
    for number in 1..places.settings.n + 1 {
        let k = (number - 1) as usize;
        let mut column = columns[k];
        finish_round(file, places, round, &frames, number, &mut column);
        columns[k] = column;
    }
}

// The columns after three rounds.
pub fn run(file: &[u8], places: &Places) -> [Column; MOST_COLUMNS]
    requires { PlacesOf file.now places.now }
    ensures { (f : Scenario) → Located file.now places.now f → GroupRan f result }
{
    let mut columns = opened(file, places);
    run_round(file, places, 1, &mut columns);
    run_round(file, places, 2, &mut columns);
    run_round(file, places, 3, &mut columns);
    columns
}
