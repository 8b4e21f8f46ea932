// What asking for the level answers.
ghost use Rattle.std.specs.Prelude.{◌≡◌};

use refusal::Refusal;

// The level of the group and the column's correction, in tenths of a millimetre.
#[derive(Clone, Copy, Debug, PartialEq, Eq)]
pub struct Levelled {
    pub level: i64,
    pub correction: i64,
}

// The same for C: 0 or the number of the refusal, and both numbers, which are 0 for a refusal.
#[repr(C)]
#[derive(Clone, Copy, Debug, PartialEq, Eq)]
pub struct Level {
    pub answer: u32,
    pub level: i64,
    pub correction: i64,
}

impl From<Result<Levelled, Refusal>> for Level {
    ghost use Rattle.level.specs.Answer.{level_as};

    ghost from_gives = { λ outcome level. level ≡ level_as outcome };

    fn from(outcome: Result<Levelled, Refusal>) -> Level {
        match outcome {
            Ok(numbers) => Level {
                answer: 0,
                level: numbers.level,
                correction: numbers.correction,
            },
            Err(refusal) => Level {
                answer: refusal.number(),
                level: 0,
                correction: 0,
            },
        }
    }
}
