// The bench: a group's file from standard input, its listing to standard output.
#![tactic(auto)]

use bench::LISTING_ROOM;
use bench_file::reading::LONGEST_FILE;
use std::io;

// One byte more than a file may have is read, and no more, so that a longer one is refused.
const FILE_ROOM: usize = LONGEST_FILE + 1;

fn main(rt: HostRuntime) -> io::Result<()> {
    let mut file = [0u8; FILE_ROOM];
    let mut output = [0u8; LISTING_ROOM];
    let got = streams::read_full(&mut rt.reader(), &mut file)?;
    match bench::bench(&file[..got], &mut output) {
        Some(size) => rt.write_all(&output[..size]),
        None => Ok(()),
    }
}
