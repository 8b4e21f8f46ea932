// Repair after repair of one vector: checks that came last time too need no second search.
ghost use Rattle.std.specs.Prelude.{◌≡◌};
ghost use Rattle.repair.specs.declared.RepairAnswer.{RepairAnswer};
ghost use Rattle.repair.specs.Again.{AgainSays, is_again, answer_after};

use crate::{RepairAnswer, repair_by};

// The vector repaired by the check values received, after a repair by the last ones: for equal ones there is no new answer, the last one
// stands and the output is left alone; others are repaired by.
#[tactic(auto, using(crate::proofs::Compared::same_pointwise), unfolding(crate::specs::Again::AgainSays))]
pub fn repair_again(
    n: u32,
    t: u32,
    w: u32,
    vector: &[u8],
    own: &[u8],
    checks: &[u8],
    last_checks: &[u8],
    output: &mut [u8],
) -> Option<RepairAnswer>
    ensures { (last : RepairAnswer) → AgainSays n t w vector.now own.now last_checks.now checks.now last (is_again result) (answer_after last result) output.old output.new }
{
    if last_checks == checks {
        return None;
    }
    Some(repair_by(n, t, w, vector, own, checks, output))
}
