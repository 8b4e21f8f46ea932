// The locator of a plane, as far as it has come.
ghost use Rattle.std.specs.Prelude.{◌<◌, ◌≤◌};
ghost use Rattle.code.specs.Size.{plane_room};

use code::sizes::PLANE_ROOM;

// Where the highest coefficient of a locator stands.
pub const TOP: usize = PLANE_ROOM - 1;

// The coefficients stand at the end of their array, zeros in front of them. The locator before it grew last starts at a place of another
// array, and stands there but for a factor, which is a power of 2: by it the discrepancy was 1.
#[derive(Clone, Copy)]
pub struct Locator {
    pub coefficients: [u8; PLANE_ROOM],
    pub size: usize,
    pub before: [u8; PLANE_ROOM],
    pub from: usize,
    pub scale: usize,
    pub ghost within: { (size < plane_room) × (from ≤ plane_room) × (scale ≤ 255) },
}

impl Locator {
    ghost use Rattle.std.specs.Prelude.{◌≡◌, drop};
    ghost use Rattle.locator.specs.Reached.{start_of, Reaches};
    ghost use Rattle.locator.specs.Locator.{start as «start-of»};

    // The locator of no power sums, which is 1.
    pub fn start() -> Self
        ensures { Reaches start-of result }
    {
        let mut coefficients = [0u8; PLANE_ROOM];
        coefficients[TOP] = 1;
        Locator {
            coefficients,
            size: 0,
            before: [0u8; PLANE_ROOM],
            from: PLANE_ROOM,
            scale: 0,
        }
    }

    // The coefficients alone.
    pub fn polynomial(&self) -> &[u8]
        ensures { result.now ≡ drop (start_of self.now.size) self.now.coefficients }
    {
        &self.coefficients[TOP - self.size..]
    }
}
