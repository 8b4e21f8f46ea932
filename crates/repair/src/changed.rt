// How many places have an error, a place counted once, in however many planes it has one.
ghost use Rattle.std.specs.Prelude.{◌≡◌, ◌≤◌};
ghost use Rattle.code.specs.Size.{most_places};
ghost use Rattle.repair.specs.Steps.Changed.{wrong_rows};

use code::sizes::PLACE_ROWS;
use lanes::ROW_WIDTH;

pub fn count_changed(weighted: &[u8; PLACE_ROWS], places: usize) -> u32
    requires { places ≤ most_places }
    ensures { result ≡ wrong_rows places weighted.now }
{
    let mut changed = 0;
    for k in 0..places {
        let row = ROW_WIDTH * k;
        if !arrays::is_zero(&weighted[row..row + ROW_WIDTH]) {
            changed += 1;
        }
    }
    changed
}
