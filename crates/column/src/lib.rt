// One column's part in the exchange: its record and the calls on it.
#![tactic(auto)]

mod holdings;
mod sending;

ghost use Rattle.std.specs.Prelude.{◌≡◌, ◌↔◌, IsSome};
ghost use Rattle.refusal.specs.Number.{answer_of};
ghost use Rattle.record.specs.Refusal.{close_refusal};
ghost use Rattle.record.specs.View.{view};
ghost use Rattle.record.specs.Stored.{no_column};
ghost use Rattle.column.specs.Entry.{OpenSays, TakeSays, FrameSizeSays, SendSays, CloseSays, ResultSays};
ghost use Rattle.column.specs.Answer.{opened_record, size_or_none, holdings_of};
ghost use Rattle.column.specs.Steps.Sending.{speaking};

pub use crate::holdings::Verdict;
use code::sizes::VALUE_ROOM;
use record::frames::Due;
use record::{Column, Findings, HEADER, Identity, frames, refusals, slots};
use refusal::Refusal;
use rounds::closing;

// A column with its settings, number, run and own value. Refused by Columns to OwnBlank, 1 to 6.
pub fn open(n: u32, t: u32, w: u32, number: u32, run: u16, own: &[u8]) -> Result<Column, Refusal>
    ensures { OpenSays n t w number run own.now (answer_of result) (opened_record result) }
{
    let mut column = record::empty();
    open_in(&mut column, n, t, w, number, run, own)?;
    Ok(column)
}

// The same in a record of zeros, which a refusal leaves: where there is room for the record already, it is not copied there.
pub fn open_in(
    column: &mut Column,
    n: u32,
    t: u32,
    w: u32,
    number: u32,
    run: u16,
    own: &[u8],
) -> Result<(), Refusal>
    ensures { column.old ≡ no_column → OpenSays n t w number run own.now (answer_of result) column.new }
{
    refusals::check_open(n, t, w, number, own)?;
    let mut value = [0u8; VALUE_ROOM];
    value[..own.len()].copy_from_slice(own);
    column.who = Identity {
        n,
        t,
        w,
        number,
        run,
        own: value,
    };
    column.round = 1;
    Ok(())
}

// Takes a frame that came in a slot, of the round, or early, of the one that follows. Refused by 1 to 4 or 6 to 15.
pub fn take(column: &mut Column, slot: u32, frame: &[u8]) -> Result<(), Refusal>
    ensures { TakeSays column.old slot frame.now (answer_of result) column.new }
{
    let settings = refusals::check_slot(&column.who, column.round, slot)?;
    let k = (slot - 1) as usize;
    let due = Due {
        round: column.round,
        taken: column.slots[k].taken != 0,
        early: column.early[k].taken != 0,
    };
    match frames::check_frame(&column.who, settings, slot, due, frame) {
        Ok(sent) => {
            let filled = slots::filled(frame);
            if sent == column.round {
                column.slots[k] = filled;
            } else {
                column.early[k] = filled;
            }
            Ok(())
        }
        Err(refusal) => {
            column.refused[k] = record::raised(column.refused[k]);
            Err(refusal)
        }
    }
}

// The length of the frame that `send` writes; none where it would write none, however long the buffer.
pub fn frame_size(column: &Column) -> Option<u32>
    ensures size { FrameSizeSays column.now (size_or_none result) }
    ensures some { IsSome result ↔ (close_refusal (view column.now) ≡ 0) }
{
    match refusals::check_close(&column.who, column.round) {
        Ok(settings) => Some(frames::frame_size(settings, column.round) as u32),
        Err(_) => None,
    }
}

// Writes the frame of the round in front of a buffer. Refused by 1 to 4, 6, 7 or 16.
pub fn send(column: &Column, buffer: &mut [u8]) -> Result<(), Refusal>
    ensures { SendSays column.now buffer.old (answer_of result) buffer.new }
{
    send_by(&column.who, column.round, &column.found, buffer)
}

// The same by what of a record goes into a frame: whoever has the record by value copies no more of it.
pub fn send_by(
    who: &Identity,
    round: u32,
    found: &Findings,
    buffer: &mut [u8],
) -> Result<(), Refusal>
    ensures { SendSays (speaking who.now round found.now) buffer.old (answer_of result) buffer.new }
{
    let settings = refusals::check_close(who, round)?;
    let size = frames::frame_size(settings, round);
    if buffer.len() < size {
        return Err(Refusal::Buffer);
    }
    frames::put_header(round, who.number, who.run, buffer);
    let operand = &mut buffer[HEADER..size];
    sending::put_operand(who, settings, round, found, operand);
    Ok(())
}

// Closes the round: the next opens with the frames that came early. Refused by 1 to 4, 6 or 7.
pub fn close(column: &mut Column) -> Result<(), Refusal>
    ensures { CloseSays column.old (answer_of result) column.new }
{
    refusals::check_close(&column.who, column.round)?;
    let found = closing::found_after(column);
    let early = column.early;
    let none = slots::no_slots();
    column.found = found;
    column.slots = early;
    column.early = none;
    column.round += 1;
    Ok(())
}

// The values and confidences that the column ended with, and what rounds two and three told of each sender, zeros behind them. Refused by
// 1 to 4, 6 or 17.
pub fn result(column: &Column) -> Result<Verdict, Refusal>
    ensures { ResultSays column.now (holdings_of result) }
{
    let settings = refusals::check_ask(&column.who, column.round)?;
    Ok(Verdict::of(&column.found, settings))
}
