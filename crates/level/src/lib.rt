// The level of a group of columns and a column's correction, from what the column ended with.
#![tactic(auto)]

pub mod answer;
mod ends;
mod heights;

ghost use Rattle.refusal.specs.Number.{answer_of};
ghost use Rattle.level.specs.Entry.{LevelSays};
ghost use Rattle.level.specs.Answer.{numbers_of};

use crate::answer::Levelled;
use crate::ends::Sorted;
use record::Column;
use refusal::Refusal;

// The bytes of a height.
const HEIGHT: u32 = 4;

// The level and the correction of a finished column whose values are heights. Refused by 1 to 4, 6, 17, 21 or 22.
pub fn level(column: &Column) -> Result<Levelled, Refusal>
    ensures { LevelSays column.now (answer_of result) (numbers_of result).level (numbers_of result).correction }
{
    let held = column::result(column)?;
    let who = &column.who;
    if who.w != HEIGHT {
        return Err(Refusal::NoHeights);
    }
    let n = who.n as usize;
    let t = who.t as usize;
    let sorted = Sorted::of(n, &held.values, &held.confidences);
    let blank = n - sorted.len();
    if blank > t {
        return Err(Refusal::TooFew);
    }
    let dropped = t - blank;
    let level = sorted.middle(dropped);
    let correction = heights::correction(level, &who.own);
    Ok(Levelled { level, correction })
}
