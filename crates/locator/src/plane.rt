// One plane of the rows: its bytes put in.
ghost use Rattle.std.specs.Prelude.{◌*◌, ◌≤◌, ◌<◌, length, get_or};
ghost use Rattle.code.specs.Size.{plane_room};
ghost use Rattle.lanes.specs.Lanes.{row_width};
ghost use Rattle.locator.specs.Plane.{LaneWritten};

use lanes::ROW_WIDTH;

// The bytes become plane p of the first rows.
pub fn put_plane(rows: &mut [u8], p: usize, bytes: &[u8])
    requires { (p < row_width) × (length bytes.now ≤ plane_room) × (row_width * length bytes.now ≤ length rows.old) }
    ensures { LaneWritten p (length bytes.now) (λ j. get_or bytes.now j 0) rows.old rows.new }
{
    for (j, byte) in bytes.iter().enumerate() {
        rows[ROW_WIDTH * j + p] = *byte;
    }
}
