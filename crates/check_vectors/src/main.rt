// Runs `check_values` on the stored vectors that another coder made, and says how many agree: in the answer and in every
// byte of the lent output.
#![tactic(auto)]

use std::io::{self, Read};
use vector_file::{Output, Part};

// Whether the next vector agrees, none at the end of the input.
fn step<R: Read>(input: &mut R) -> io::Result<Option<bool>> {
    let Some(r) = vector_file::next(input)? else {
        return Ok(None);
    };
    let vector = Part::read(input, r.vector)?;
    let expected = Part::read(input, r.filled)?;
    let mut output = Output::new(r.room);
    let outcome = code::check_values(r.n, r.t, r.w, vector.bytes(), output.lent());
    let answer = refusal::answer(outcome);
    Ok(Some(answer == r.answer && output.is_filled(&expected)))
}

fn main(rt: HostRuntime) -> io::Result<()> {
    vector_file::run(&rt, b"check values", step)
}
