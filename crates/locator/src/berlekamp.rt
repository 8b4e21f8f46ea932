// The locators of all planes, by Berlekamp and Massey.
//
// A polynomial is its coefficients, lowest power first. A locator stands at the end of its array, zeros in front of it, so that nothing
// moves where a power of x comes in. The planes take each power sum in turn: their steps do not wait for one another.

ghost use Rattle.std.specs.Prelude.{◌≡◌, ◌+◌, ◌*◌, ◌<◌, ◌≤◌, length, get_or};
ghost use Rattle.field.specs.Field.{power};
ghost use Rattle.lanes.specs.Lanes.{row_width, in_row};
ghost use Rattle.code.specs.Size.{plane_room, value_room};
ghost use Rattle.code.specs.Polynomial.{added, «scaled»};
ghost use Rattle.locator.specs.Locator.{against};
ghost use Rattle.locator.specs.Reached.{Comes, AllCome, AllLocated};

use crate::locators::{Locator, TOP};
use code::sizes::VALUE_ROOM;
use field::long::LongTables;
use lanes::ROW_WIDTH;

// The locator against the power sums of plane p from j on.
fn discrepancy(tables: &LongTables, locator: &[u8], sums: &[u8], p: usize, j: usize) -> u8
    requires { (p < row_width) × (length locator.now ≤ plane_room) × (j ≤ plane_room) × (row_width * (j + length locator.now) ≤ length sums.now) }
    ensures { result ≡ against locator.now (λ i. get_or sums.now (in_row i p) 0) j }
{
    let mut sum: u8 = 0;
    for m in (0..locator.len()).rev() {
        let at = ROW_WIDTH * (j + m) + p;
        sum = field::sum(tables.product(locator[m], sums[at]), sum);
    }
    sum
}

// Adds a power of 2 times the other polynomial.
fn add_scaled(tables: &LongTables, polynomial: &mut [u8], exponent: usize, other: &[u8])
    requires { (exponent < 255) × (length other.now ≤ length polynomial.old) }
    ensures { polynomial.new ≡ added polynomial.old (scaled (power 2 exponent) other.now) }
{
    for (i, coefficient) in other.iter().enumerate() {
        let multiple = tables.raised(exponent, *coefficient);
        polynomial[i] = field::sum(polynomial[i], multiple);
    }
}

// Power sum k of plane p. A discrepancy but 0 adds a multiple of the locator before, times a power of x; where that makes the locator
// longer, it gives way to the one that was.
fn step(tables: &LongTables, plane: &mut Locator, sums: &[u8], p: usize, k: usize)
    requires p_lt_row_width { (p < row_width) × (k + 1 < plane_room) × (row_width * (k + 1) ≤ length sums.now) }
    requires comes { Comes k p sums.now plane.old }
    ensures { Comes (k + 1) p sums.now plane.new }
{
    let size = plane.size;
    let from = plane.from;
    let start = TOP - size;
    let d = discrepancy(tables, &plane.coefficients[start..], sums, p, k - size);
    if d == 0 {
        return;
    }
    let own = tables.exponent_of(d);
    let exponent = field::reduced(own + plane.scale);
    let to = TOP + size - (k + 1);
    let last = plane.coefficients;
    let before = plane.before;
    add_scaled(
        tables,
        &mut plane.coefficients[to..],
        exponent,
        &before[from..],
    );
    if 2 * size <= k {
        plane.before = last;
        plane.size = k + 1 - size;
        plane.from = start;
        plane.scale = 255 - own;
    }
}

// Power sum k of each plane.
fn step_all(tables: &LongTables, planes: &mut [Locator], sums: &[u8], k: usize)
    requires planes_le_value_room { (length planes.old ≤ value_room) × (k + 1 < plane_room) × (row_width * (k + 1) ≤ length sums.now) }
    requires all_come { AllCome (λ _. k) sums.now planes.old }
    ensures { AllCome (λ _. k + 1) sums.now planes.new }
{
    for (p, plane) in planes.iter_mut().enumerate() {
        step(tables, plane, sums, p, k);
    }
}

// The locators of the first `many` power sums of each plane.
pub fn locate_all(
    tables: &LongTables,
    sums: &[u8],
    many: usize,
    planes: usize,
) -> [Locator; VALUE_ROOM]
    requires { (planes ≤ value_room) × (many < plane_room) × (row_width * many ≤ length sums.now) }
    ensures { AllLocated planes many sums.now result }
{
    let mut all = [Locator::start(); VALUE_ROOM];
    for k in 0..many {
        step_all(tables, &mut all[..planes], sums, k);
    }
    all
}
