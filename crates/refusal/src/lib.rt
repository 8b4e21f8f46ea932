// What is refused, each refusal under its name: its number is the one that C is told.
#![tactic(auto)]

ghost use Rattle.std.specs.Prelude.{◌≡◌};
ghost use Rattle.refusal.specs.Number.{number_of, answer_of};

use std::error::Error;
use std::fmt;

#[derive(Clone, Copy, Debug, PartialEq, Eq)]
pub enum Refusal {
    // n is not 1 to 32
    Columns = 1,
    // n is below 3t + 1
    Bad = 2,
    // w is not 1 to 8
    Width = 3,
    // the own number is not 1 to n
    Number = 4,
    // the own value has not w bytes
    OwnLength = 5,
    // the own value is blank
    OwnBlank = 6,
    // the round is not 1, 2 or 3
    Round = 7,
    // the slot is not 1 to n, or the column's own
    Slot = 8,
    // a frame shorter than a header
    Header = 9,
    // an unknown command
    Command = 10,
    // a frame's length is not its command's
    FrameLength = 11,
    // the sender is not the slot
    Sender = 12,
    // another run number
    Run = 13,
    // a frame of a round closed or two ahead
    OtherRound = 14,
    // the sender's frame of that round is there already
    Repeated = 15,
    // a buffer shorter than the frame
    Buffer = 16,
    // the round is not 4
    Unfinished = 17,
    // vector, checks or output of another length
    Lengths = 18,
    // a bench file: unknown, out of order, cut short, or bytes after the end
    Form = 19,
    // a bench file: an operand that is not allowed
    Operand = 20,
    // values are not of four bytes
    NoHeights = 21,
    // more than t columns without a height
    TooFew = 22,
}

impl Refusal {
    pub fn number(self) -> u32
        ensures { result ≡ number_of self }
    {
        self as u32
    }
}

impl From<Refusal> for u32 {
    ghost from_gives = { λ refusal number. number ≡ number_of refusal };

    fn from(refusal: Refusal) -> u32 {
        refusal.number()
    }
}

impl fmt::Display for Refusal {
    fn fmt<W: fmt::Write>(&self, f: &mut fmt::Formatter<W>) -> fmt::Result {
        f.write_str(match self {
            Refusal::Columns => "n is not 1 to 32",
            Refusal::Bad => "n is below 3t + 1",
            Refusal::Width => "w is not 1 to 8",
            Refusal::Number => "the own number is not 1 to n",
            Refusal::OwnLength => "the own value has not w bytes",
            Refusal::OwnBlank => "the own value is blank",
            Refusal::Round => "the round is not 1, 2 or 3",
            Refusal::Slot => "the slot is not 1 to n, or the column's own",
            Refusal::Header => "the frame is shorter than a header",
            Refusal::Command => "the command is unknown",
            Refusal::FrameLength => "the frame's length is not its command's",
            Refusal::Sender => "the sender is not the slot",
            Refusal::Run => "another run number",
            Refusal::OtherRound => "the frame's round is closed or two ahead",
            Refusal::Repeated => "the sender's frame of that round is there already",
            Refusal::Buffer => "the buffer is shorter than the frame",
            Refusal::Unfinished => "the round is not 4",
            Refusal::Lengths => "vector, checks or output of another length",
            Refusal::Form => "unknown, out of order, cut short, or bytes after the end",
            Refusal::Operand => "an operand is not allowed",
            Refusal::NoHeights => "values are not of four bytes",
            Refusal::TooFew => "more than t columns without a height",
        })
    }
}

impl Error for Refusal {}

// The number that C is told: 0 where nothing is refused.
pub fn answer(outcome: Result<(), Refusal>) -> u32
    ensures { result ≡ answer_of outcome }
{
    match outcome {
        Ok(()) => 0,
        Err(refusal) => refusal.number(),
    }
}
