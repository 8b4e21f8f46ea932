// A reader of a bench file, command by command: the lent bytes, and a place in them. It is taken apart for each step on bytes and
// place, which does the work.
ghost use Rattle.std.specs.Prelude.{◌≤◌, length};
ghost use Rattle.bench_file.specs.Scenario.{Scenario};
ghost use Rattle.bench_file.specs.Steps.Places.{Located};
ghost use Rattle.bench_file.specs.Steps.CommandAt.{Stepped};

use crate::commands;
use crate::places::Places;
use refusal::Refusal;

#[derive(Clone, Copy)]
pub struct Reader<'a> {
    pub file: &'a [u8],
    pub at: usize,
}

impl<'a> Reader<'a> {
    // The command at the reader's place is read, which says where the reader goes on.
    pub fn step(self, places: &mut Places) -> Result<Option<usize>, Refusal>
        requires { self.at ≤ length self.file.now }
        ensures { (f : Scenario) → Located self.entry.file.now places.old f → Stepped f self.entry.file.now self.entry.at result places.new }
    {
        commands::step(self.file, self.at, places)
    }
}

// The same by a reader that is made for one command: a loop holds the place, and no reader.
pub fn step_from(file: &[u8], at: usize, places: &mut Places) -> Result<Option<usize>, Refusal>
    requires { at ≤ length file.now }
    ensures { (f : Scenario) → Located file.now places.old f → Stepped f file.now at result places.new }
{
    let reader = Reader { file, at };
    reader.step(places)
}
