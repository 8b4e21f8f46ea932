// The test for one error in a plane: the plane's power sums are then a geometric progression, whose first sum is the error and whose
// ratio is its place.
ghost use Rattle.std.specs.Prelude.{◌*◌, ◌≤◌, ◌<◌, length};
ghost use Rattle.code.specs.Size.{most_checks};
ghost use Rattle.lanes.specs.Lanes.{row_width};
ghost use Rattle.locator.specs.Plane.{GeometricAs};

use field::Tables;
use lanes::ROW_WIDTH;

// Whether each sum of plane p is x times the sum before it.
pub fn is_geometric(tables: &Tables, sums: &[u8], p: usize, x: u8, count: usize) -> bool
    requires { (p < row_width) × (count ≤ most_checks) × (row_width * count ≤ length sums.now) }
    ensures { GeometricAs result p x count sums.now }
{
    // A loop, since of `all` the place where a sum fails was tried and not proved.
    for i in 1..count {
        let at = ROW_WIDTH * i + p;
        if sums[at] != tables.product(x, sums[at - ROW_WIDTH]) {
            return false;
        }
    }
    true
}
