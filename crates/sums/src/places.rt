// The places of a plane as powers of 2, and the polynomials of all planes at one of them.
//
// All planes' polynomials are evaluated in one row, each coefficient by tables that are made once for all places.
ghost use Rattle.std.specs.Prelude.{◌≡◌, ℕ, ◌+◌, ◌*◌, ◌≤◌, ◌<◌, length, get_or};
ghost use Rattle.arrays.specs.Array.{Filled};
ghost use Rattle.field.specs.Field.{power};
ghost use Rattle.field.specs.Table.{Powers, Logarithms};
ghost use Rattle.code.specs.Size.{most_columns, most_checks, most_bad};
ghost use Rattle.lanes.specs.Lanes.{row_width, lane};
ghost use Rattle.code.specs.Polynomial.{eval, first_exponent};
ghost use Rattle.locator.specs.Errors.{place_exponent};
ghost use Rattle.sums.specs.Places.{CoefficientTables};

use code::sizes::MOST_BAD;
use lanes::{ROW_WIDTH, TABLE_ROOM};

// Room for the tables of every row of a locator's coefficients.
pub const LOCATOR_TABLES: usize = TABLE_ROOM * (MOST_BAD + 1);

// The same of a locator of one or two places.
pub const SHORT_LOCATOR: usize = 3;

pub const SHORT_TABLES: usize = TABLE_ROOM * SHORT_LOCATOR;

// A step on from an exponent of 2, below 255 again: 2^255 is 1. It is of the size of an index: the powers on a walk are looked up by it.
pub fn step_on(exponent: usize, step: usize) -> usize
    requires { (exponent < 255) × (step < 255) }
    ensures { (result < 255) × (power 2 result ≡ power 2 (exponent + step)) }
{
    let back = 255 - step;
    if exponent < back {
        return exponent + step;
    }
    exponent - back
}

// A step back. It stays in bytes, many of which are stepped at once.
pub fn step_back(exponent: u8, step: u8) -> u8
    ensures { (exponent < 255 → result < 255) × (power 2 (result + step) ≡ power 2 exponent) }
{
    if exponent < step {
        return exponent + (255 - step);
    }
    exponent - step
}

// The powers of 2 with the exponents start, start + step, start + 2·step and so on.
pub fn progression(powers: &[u8; 255], start: usize, step: usize, constants: &mut [u8])
    requires { Powers powers.now × (start < 255) × (step < 255) }
    ensures { Filled (length constants.old) (length constants.old) (λ i. power 2 (start + i * step)) constants.new }
{
    let mut exponent = start;
    for constant in constants.iter_mut() {
        *constant = powers[exponent];
        exponent = step_on(exponent, step);
    }
}

// The exponent of place j: the columns, then the checks.
pub fn place_exponent(n: usize, count: usize, j: usize) -> usize
    requires { (n ≤ most_columns) × (count ≤ most_checks) × (j < n + count) }
    ensures { (result < 255) × (result ≡ place_exponent n count j) }
{
    if j < n {
        return 254 - j;
    }
    n + count - 1 - j
}

// The logarithm of the first root, by the table that the generator is built of.
pub fn first_logarithm(logarithms: &[u8; 256]) -> usize
    requires { Logarithms logarithms.now }
    ensures { result ≡ first_exponent }
{
    let roots = code::roots::roots();
    usize::from(logarithms[usize::from(roots[0])])
}

// The first row of coefficients. All of them are bytes.
fn first_row(rows: &[u8]) -> [u8; ROW_WIDTH]
    requires { row_width ≤ length rows.now }
    ensures row { Filled row_width row_width (λ p. get_or rows.now p 0) result }
    ensures bytes { (i : ℕ) → get_or rows.now i 0 < 256 }
{
    let mut row = [0u8; ROW_WIDTH];
    row.copy_from_slice(&rows[..ROW_WIDTH]);
    row
}

// The polynomials of all planes: the coefficients in rows, as many as the longest has, and the tables of their multiples.
#[derive(Clone, Copy)]
pub struct Polynomials<'a> {
    pub rows: &'a [u8],
    pub multiples: &'a [u8],
    pub many: usize,
    pub ghost within: { (1 ≤ many) × (many ≤ most_bad + 1) × (row_width * many ≤ length rows.now) },
    pub ghost made: { CoefficientTables many rows.now multiples.now },
}

impl Polynomials<'_> {
    // Each plane's polynomial at the place with this exponent: the first row of coefficients, and to it each other, times the place's power.
    pub fn values(&self, powers: &[u8; 255], exponent: usize) -> [u8; ROW_WIDTH]
        requires { Powers powers.now × (exponent < 255) }
        ensures { Filled row_width row_width (λ p. eval (lane p self.now.many self.now.rows.now) (power 2 exponent)) result }
    {
        let mut row = first_row(self.rows);
        let mut raised = exponent;
        for m in 1..self.many {
            let power = powers[raised];
            lanes::add_from_tables(self.multiples, TABLE_ROOM * m, power, &mut row, 0);
            raised = step_on(raised, exponent);
        }
        row
    }
}
