// Heights: bytes read as signed numbers, and halfway between two of them.
ghost use Rattle.std.specs.Prelude.{◌≡◌, ◌*◌, ◌<◌, ◌+ℤ◌, ◌-ℤ◌, take, drop};
ghost use Rattle.std.specs.Int.Signed.{mag};
ghost use Rattle.code.specs.Size.{most_columns};
ghost use Rattle.level.specs.Level.{height, halved};

use code::sizes::{VALUE_ROOM, VECTOR_ROOM};

// The height that four bytes hold, the high byte first.
fn height(bytes: [u8; 4]) -> i32
    ensures { result ≡ height bytes }
{
    i32::from_be_bytes(bytes)
}

// The height of column j, from 0 on, among values of four bytes.
pub fn height_at(values: &[u8; VECTOR_ROOM], j: usize) -> i32
    requires { j < most_columns }
    ensures { result ≡ height (take 4 (drop (j * 4) values.now)) }
{
    let at = 4 * j;
    height([values[at], values[at + 1], values[at + 2], values[at + 3]])
}

// Halfway between two heights, rounded down.
pub fn halfway(low: i32, high: i32) -> i64
    ensures { (result ≡ halved (low +ℤ high)) × (mag result < 4294967296) }
{
    (i64::from(low) + i64::from(high)).div_euclid(2)
}

// A level less the own height.
pub fn correction(level: i64, own: &[u8; VALUE_ROOM]) -> i64
    requires { mag level < 4294967296 }
    ensures { result ≡ level -ℤ height (take 4 own.now) }
{
    let own_height = height([own[0], own[1], own[2], own[3]]);
    level - i64::from(own_height)
}
