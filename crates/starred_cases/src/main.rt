// Runs the starred cases in compiled code and prints what comes out, which is held to the stored lines. All but one: no call hands out a
// generator, so that its case is one of the definitions alone.
#![tactic(auto)]

use code::sizes::{MOST_COLUMNS, VALUE_ROOM, VECTOR_ROOM};
use column::Verdict;
use record::{Column, Identity};
use refusal::Refusal;
use repair::RepairAnswer;
use std::io;

fn print_bytes<P: Print>(to: &P, name: &str, bytes: &[u8]) -> io::Result<()> {
    print!(to; "{name}")?;
    for byte in bytes {
        print!(to; " {byte}")?;
    }
    println!(to)
}

fn print_checks<P: Print>(to: &P, vector: [u8; 4]) -> io::Result<()> {
    let mut checks = [0u8; 2];
    match code::check_values(4, 1, 1, &vector, &mut checks) {
        Ok(()) => print_bytes(to, "checks", &checks),
        Err(refusal) => println!(to; "checks {refusal}"),
    }
}

fn print_repaired<P: Print>(to: &P, answer: RepairAnswer, output: &[u8]) -> io::Result<()> {
    if answer.answer == 256 {
        println!(to; "repaired none")?;
    } else {
        print_bytes(to, "repaired", output)?;
    }
    println!(to; "changed {}", answer.changed)?;
    print_bytes(to, "tried", &answer.tried)
}

fn repaired_by<P: Print>(to: &P, checks: [u8; 2]) -> io::Result<()> {
    let vector = [241, 86, 35, 35];
    let mut output = [0u8; 4];
    let repaired = repair::repair(4, 1, 1, &vector, &checks, &mut output);
    print_repaired(to, repaired, &output)
}

// Seven columns, of which two may be wrong.
fn two_repaired<P: Print>(to: &P, vector: [u8; 7], checks: [u8; 4]) -> io::Result<()> {
    let mut output = [0u8; 7];
    let repaired = repair::repair(7, 2, 1, &vector, &checks, &mut output);
    print_repaired(to, repaired, &output)
}

// Values of two bytes, and so two planes: nothing near the first, and column 3 of the second wrong.
fn planes_tried<P: Print>(to: &P) -> io::Result<()> {
    let vector = [241, 241, 86, 86, 35, 35, 35, 35];
    let checks = [22, 0, 77, 136];
    let mut output = [0u8; 8];
    let repaired = repair::repair(4, 1, 2, &vector, &checks, &mut output);
    print_repaired(to, repaired, &output)
}

// Column 1 of the exchange of 004, which closed round two.
fn second_closed() -> Result<Column, Refusal> {
    let mut column = column::open(4, 1, 1, 1, 7, b"\xf1")?;
    column::take(&mut column, 2, b"\x11\x02\x00\x07\x56")?;
    column::take(&mut column, 3, b"\x11\x03\x00\x07\x23")?;
    column::take(&mut column, 4, b"\x11\x04\x00\x07\x23")?;
    column::close(&mut column)?;
    column::take(&mut column, 2, b"\x22\x02\x00\x07\x27\x4e")?;
    column::take(&mut column, 3, b"\x22\x03\x00\x07\x52\x1e")?;
    column::take(&mut column, 4, b"\x22\x04\x00\x07\x16\x3d")?;
    column::close(&mut column)?;
    Ok(column)
}

// What the closing of round two tells of all four.
fn told_in_two<P: Print>(to: &P) -> io::Result<()> {
    match second_closed() {
        Ok(column) => print_bytes(to, "told", &column.found.told_two[..4]),
        Err(refusal) => println!(to; "told {refusal}"),
    }
}

fn opened<P: Print>(to: &P, n: u32) -> io::Result<()> {
    let outcome = column::open(n, 1, 1, 1, 0, b"\x07");
    println!(to; "opening {}", refusal::answer(outcome.map(|_| ())))
}

// What a column alone ends with, through its three rounds.
fn held_alone() -> Result<Verdict, Refusal> {
    let mut column = column::open(1, 0, 1, 1, 0, b"\x07")?;
    column::close(&mut column)?;
    column::close(&mut column)?;
    column::close(&mut column)?;
    column::result(&column)
}

fn alone<P: Print>(to: &P) -> io::Result<()> {
    match held_alone() {
        Ok(held) => {
            println!(to; "alone {}", held.values[0])?;
            println!(to; "confidence {}", held.confidences[0])
        }
        Err(refusal) => println!(to; "alone {refusal}"),
    }
}

// A column of a group of n that has finished with these heights, which it is sure of, and holds no other column's.
fn finished(n: u32, t: u32, heights: &[i32]) -> Column {
    let mut column = record::empty();
    let mut values = [0u8; VECTOR_ROOM];
    let mut confidences = [0u8; MOST_COLUMNS];
    for (value, height) in values.chunks_exact_mut(4).zip(heights) {
        value.copy_from_slice(&height.to_be_bytes());
    }
    for (confidence, _) in confidences.iter_mut().zip(heights) {
        *confidence = 2;
    }
    column.who = Identity {
        n,
        t,
        w: 4,
        number: 1,
        run: 0,
        own: [1u8; VALUE_ROOM],
    };
    column.found.values = values;
    column.found.confidences = confidences;
    column.round = 4;
    column
}

fn levelled<P: Print>(to: &P, column: &Column, expected: i64) -> io::Result<()> {
    match level::level(column) {
        Ok(found) if found.level == expected => println!(to; "level as worked out by hand"),
        _ => println!(to; "another level"),
    }
}

fn main(rt: HostRuntime) -> io::Result<()> {
    println!(rt; "product {}", field::product(2, 128))?;
    print_checks(&rt, [241, 86, 35, 35])?;
    print_checks(&rt, [241, 86, 35, 40])?;
    print_checks(&rt, [241, 86, 35, 0])?;
    repaired_by(&rt, [0, 136])?;
    repaired_by(&rt, [22, 61])?;
    repaired_by(&rt, [22, 77])?;
    repaired_by(&rt, [39, 78])?;
    repaired_by(&rt, [39, 79])?;
    two_repaired(&rt, [1, 20, 3, 4, 50, 6, 7], [16, 65, 58, 215])?;
    two_repaired(&rt, [1, 20, 3, 4, 5, 6, 7], [16, 65, 0, 215])?;
    planes_tried(&rt)?;
    told_in_two(&rt)?;
    opened(&rt, 4)?;
    opened(&rt, 3)?;
    alone(&rt)?;
    levelled(&rt, &finished(4, 1, &[1000, 1004, 1010]), 1005)?;
    levelled(&rt, &finished(2, 0, &[-5, -2]), -4)
}
