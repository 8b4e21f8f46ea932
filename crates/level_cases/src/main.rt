// Runs `level` on stored cases that another implementation worked out, and says how many agree: in the answer and in both numbers.
#![tactic(auto)]

use code::sizes::{MOST_COLUMNS, VALUE_ROOM};
use level::answer::Level;
use record::Column;
use std::io::{self, Read};
use vector_file::Header;

// A number by its sign, which is 0 or 1, and its magnitude.
fn signed([sign]: [u8; 1], magnitude: [u8; 4]) -> i64 {
    let number = i64::from(u32::from_be_bytes(magnitude));
    if sign == 0 { number } else { -number }
}

// What a column holds of a case: its own value, the values and the confidences.
fn fill<R: Read>(input: &mut R, column: &mut Column) -> io::Result<()> {
    vector_file::fill(input, &mut column.who.own, VALUE_ROOM)?;
    vector_file::fill(input, &mut column.found.values, 4 * MOST_COLUMNS)?;
    vector_file::fill(input, &mut column.found.confidences, MOST_COLUMNS)?;
    Ok(())
}

// Whether the next case agrees, none at the end of the input. Its settings, number, round and answer come first, as
// models/vectors/levels.py lays them out.
fn step<R: Read>(input: &mut R) -> io::Result<Option<bool>> {
    let Some(bytes) = vector_file::read_header::<R, 34>(input)? else {
        return Ok(None);
    };
    let mut header = Header { left: &bytes };
    let mut column = record::empty();
    column.who.n = u32::from_be_bytes(header.take());
    column.who.t = u32::from_be_bytes(header.take());
    column.who.w = u32::from_be_bytes(header.take());
    column.who.number = u32::from_be_bytes(header.take());
    column.round = u32::from_be_bytes(header.take());
    let expected = Level {
        answer: u32::from_be_bytes(header.take()),
        level: signed(header.take(), header.take()),
        correction: signed(header.take(), header.take()),
    };
    fill(input, &mut column)?;
    Ok(Some(Level::from(level::level(&column)) == expected))
}

fn main(rt: HostRuntime) -> io::Result<()> {
    vector_file::run(&rt, b"level", step)
}
