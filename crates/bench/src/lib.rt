// A whole group from one file: the good columns run by the calls of the column crate, the bad ones say what the file says.
#![tactic(auto)]

mod group;
mod lines;
mod printing;

ghost use Rattle.std.specs.Prelude.{◌≤◌, ◌↔◌, length, IsSome};
ghost use Rattle.std.specs.Option.{unwrap_or};
ghost use Rattle.bench_file.specs.File.{parse_file};
ghost use Rattle.bench.specs.Entry.{listing_room, Printed, BenchSays};

use crate::printing::Text;
use bench_file::reading;
use code::sizes::MOST_COLUMNS;

// Room for every listing: the settings, and a line for each column.
pub const LISTING_ROOM: usize = 14 + MOST_COLUMNS * (2 + MOST_COLUMNS * 36 + 1);

fn printed(file: &[u8]) -> Text
    ensures { Printed (parse_file file.now) result }
{
    match reading::parse(file) {
        Ok(places) => lines::listing(&places, &group::run(file, &places)),
        Err(refusal) => lines::refused(refusal),
    }
}

// The output for a file in front of the bytes lent, and how many bytes it has; none, and every byte kept, where these may be too few.
pub fn bench(file: &[u8], output: &mut [u8]) -> Option<usize>
    ensures says { BenchSays file.now output.old (unwrap_or result 0) output.new }
    ensures room { IsSome result ↔ (listing_room ≤ length output.old) }
{
    if output.len() < LISTING_ROOM {
        return None;
    }
    Some(printed(file).copy_to(output))
}
