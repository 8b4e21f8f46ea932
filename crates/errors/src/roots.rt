// How many roots the planes look for.
ghost use Rattle.std.specs.Prelude.{◌≡◌, length};
ghost use Rattle.code.specs.Size.{value_room};
ghost use Rattle.errors.specs.Roots.{Longest};

use code::sizes::VALUE_ROOM;

// The most roots that a plane looks for.
pub fn longest(roots: [u8; VALUE_ROOM]) -> usize
    requires { length roots ≡ value_room }
    ensures { Longest roots result }
{
    let mut most = 0u8;
    for size in roots.iter() {
        most = most.max(*size);
    }
    usize::from(most)
}
