// The calls for programs in C and Rust, in one archive under names of one prefix. Records pass by value as C passes structs, a slice
// passes as pointer and length. A record that a call changes is copied into the outcome and changed there, so that it is copied once.
#![tactic(auto)]

ghost use Rattle.std.specs.Prelude.{◌≡◌};
ghost use Rattle.code.specs.Entry.{ChecksSays};
ghost use Rattle.repair.specs.Entry.{RepairSays};
ghost use Rattle.column.specs.Entry.{OpenSays, TakeSays, FrameSizeSays, SendSays, CloseSays, ResultSays};
ghost use Rattle.column.specs.Answer.{holdings_of};
ghost use Rattle.level.specs.Entry.{LevelSays};

use code::sizes::{MOST_COLUMNS, VECTOR_ROOM};
use column::Verdict;
use level::answer::Level;
use record::{Column, Holdings, Outcome};
use refusal::Refusal;
use repair::RepairAnswer;

#[unsafe(no_mangle)]
pub extern "C" fn sajowemi_open(
    n: u32,
    t: u32,
    w: u32,
    number: u32,
    run: u16,
    own: &[u8],
) -> Outcome
    ensures { OpenSays n t w number run own.now result.answer result.column }
{
    let mut outcome = Outcome {
        answer: 0,
        column: record::empty(),
    };
    let opening = column::open_in(&mut outcome.column, n, t, w, number, run, own);
    outcome.answer = refusal::answer(opening);
    outcome
}

#[unsafe(no_mangle)]
pub extern "C" fn sajowemi_take(column: Column, slot: u32, frame: &[u8]) -> Outcome
    ensures { TakeSays column slot frame.now result.answer result.column }
{
    let mut outcome = Outcome { answer: 0, column };
    outcome.answer = refusal::answer(column::take(&mut outcome.column, slot, frame));
    outcome
}

#[unsafe(no_mangle)]
pub extern "C" fn sajowemi_frame_size(column: Column) -> u32
    ensures { FrameSizeSays column result }
{
    column::frame_size(&column).unwrap_or(0)
}

#[unsafe(no_mangle)]
pub extern "C" fn sajowemi_send(column: Column, buffer: &mut [u8]) -> u32
    ensures { SendSays column buffer.old result buffer.new }
{
    let who = column.who;
    let found = column.found;
    refusal::answer(column::send_by(&who, column.round, &found, buffer))
}

#[unsafe(no_mangle)]
pub extern "C" fn sajowemi_close(column: Column) -> Outcome
    ensures { CloseSays column result.answer result.column }
{
    let mut outcome = Outcome { answer: 0, column };
    outcome.answer = refusal::answer(column::close(&mut outcome.column));
    outcome
}

#[unsafe(no_mangle)]
pub extern "C" fn sajowemi_result(column: Column) -> Holdings
    ensures { ResultSays column result }
{
    holdings(column::result(&column))
}

// What a column ended with as C reads it: behind the number of a refusal every byte is 0.
#[tactic(auto, unfolding(record::specs::Stored::no_holdings))]
fn holdings(outcome: Result<Verdict, Refusal>) -> Holdings
    ensures { result ≡ holdings_of outcome }
{
    match outcome {
        Ok(verdict) => {
            let values = verdict.values;
            let confidences = verdict.confidences;
            let told_two = verdict.told_two;
            let told_three = verdict.told_three;
            Holdings {
                answer: 0,
                values,
                confidences,
                told_two,
                told_three,
            }
        }
        Err(refusal) => Holdings {
            answer: refusal.number(),
            values: [0; VECTOR_ROOM],
            confidences: [0; MOST_COLUMNS],
            told_two: [0; MOST_COLUMNS],
            told_three: [0; MOST_COLUMNS],
        },
    }
}

#[unsafe(no_mangle)]
pub extern "C" fn sajowemi_level(column: Column) -> Level
    ensures { LevelSays column result.answer result.level result.correction }
{
    Level::from(level::level(&column))
}

#[unsafe(no_mangle)]
pub extern "C" fn sajowemi_check_values(
    n: u32,
    t: u32,
    w: u32,
    vector: &[u8],
    output: &mut [u8],
) -> u32
    ensures { ChecksSays n t w vector.now result output.old output.new }
{
    refusal::answer(code::check_values(n, t, w, vector, output))
}

#[unsafe(no_mangle)]
pub extern "C" fn sajowemi_repair(
    n: u32,
    t: u32,
    w: u32,
    vector: &[u8],
    checks: &[u8],
    output: &mut [u8],
) -> RepairAnswer
    ensures { RepairSays n t w vector.now checks.now result.answer result.changed result.tried output.old output.new }
{
    repair::repair(n, t, w, vector, checks, output)
}
