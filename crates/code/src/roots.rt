// The twenty roots as a constant table: the 120th to the 139th power of 2.
ghost use Rattle.code.specs.Polynomial.{Roots};

use crate::sizes::MOST_CHECKS;

const ROOTS: [u8; MOST_CHECKS] = [
    225, 69, 138, 147, 161, 197, 13, 26, 52, 104, 208, 39, 78, 156, 191, 249, 117, 234, 83, 166,
];

pub fn roots() -> [u8; MOST_CHECKS]
    ensures { Roots result }
{
    ROOTS
}
