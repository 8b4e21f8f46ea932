// Sums over rows of byte planes: the difference of check values and its syndromes.
//
// A row's byte of plane p stands at p, and each row is worked on in all planes at once.

ghost use Rattle.std.specs.Prelude.{◌≡◌, ◌+◌, ◌*◌, ◌≤◌, ◌<◌, length, get_or};
ghost use Rattle.arrays.specs.Array.{Filled, Written};
ghost use Rattle.field.specs.Field.{plus, power};
ghost use Rattle.code.specs.Size.{most_checks, check_rows};
ghost use Rattle.lanes.specs.Lanes.{row_width, ProductsAdded};
ghost use Rattle.sums.specs.Rows.{ValuesAdded, RootLogarithms, Exponents, RootExponents, Lowered, CheckSums};

use crate::places::step_back;
use code::sizes::{CHECK_ROWS, MOST_CHECKS};
use field::Tables;
use lanes::ROW_WIDTH;

// So many bytes of two lists from a place on, added into the rows. One index serves the three, which start at different places.
fn sum_bytes(a: &[u8], b: &[u8], from: usize, many: usize, rows: &mut [u8; CHECK_ROWS], to: usize)
    requires { (from + many ≤ length a.now) × (from + many ≤ length b.now) × (to + many ≤ check_rows) × (length rows.old ≡ check_rows) }
    ensures { Written to many (λ p. plus (get_or a.now (from + p) 0) (get_or b.now (from + p) 0)) rows.old rows.new }
{
    for p in 0..many {
        rows[to + p] = field::sum(a[from + p], b[from + p]);
    }
}

// The difference of the own check values and those received, which is also their sum, as rows.
pub fn difference(own: &[u8], checks: &[u8], count: usize, size: usize) -> [u8; CHECK_ROWS]
    requires { (count ≤ most_checks) × (size ≤ row_width) × (count * size ≤ length own.now) × (count * size ≤ length checks.now) }
    ensures { ValuesAdded count size own.now checks.now result }
{
    let mut rows = [0u8; CHECK_ROWS];
    for c in 0..count {
        sum_bytes(own, checks, c * size, size, &mut rows, ROW_WIDTH * c);
    }
    rows
}

// To each row of the sums the row times its constant is added, in all planes. A row of zeros is passed over.
fn add_row(row: &[u8], constants: &[u8], sums: &mut [u8])
    requires { (length row.now ≡ row_width) × (row_width * length constants.now ≤ length sums.old) }
    ensures { ProductsAdded (length constants.now) row.now constants.now sums.old sums.new }
{
    if arrays::is_zero(&row[..ROW_WIDTH]) {
        return;
    }
    lanes::add_products(row, constants, sums);
}

// The logarithms of the twenty roots, which come from the table that the generator is built of.
fn root_logarithms(tables: &Tables) -> [u8; MOST_CHECKS]
    ensures { RootLogarithms result }
{
    let roots = code::roots::roots();
    let mut of_roots = [0u8; MOST_CHECKS];
    for (i, root) in roots.iter().enumerate() {
        of_roots[i] = tables.logarithms[usize::from(*root)];
    }
    of_roots
}

// The exponents of the power `count` of each of so many roots, below 255: 2^255 is 1.
fn root_exponents(logarithms: &[u8; MOST_CHECKS], count: usize) -> [u8; MOST_CHECKS]
    requires { RootLogarithms logarithms.now × (count ≤ most_checks) }
    ensures { RootExponents count count result }
{
    let mut exponents = [0u8; MOST_CHECKS];
    for (i, logarithm) in logarithms[..count].iter().enumerate() {
        exponents[i] = (usize::from(*logarithm) * count % 255) as u8;
    }
    exponents
}

// From one power of each root to the one below, of all twenty roots: a number of turns that is known is worked off many at once.
fn lower(logarithms: &[u8; MOST_CHECKS], exponents: &mut [u8; MOST_CHECKS])
    requires { RootLogarithms logarithms.now × (length exponents.old ≡ most_checks) }
    ensures { Lowered most_checks exponents.old exponents.new }
{
    for (i, exponent) in exponents.iter_mut().enumerate() {
        *exponent = step_back(*exponent, logarithms[i]);
    }
}

// The power of each of so many roots by its exponent, in front of the constants.
fn put_root_powers(
    tables: &Tables,
    exponents: &[u8; MOST_CHECKS],
    count: usize,
    constants: &mut [u8; MOST_CHECKS],
)
    requires { (count ≤ most_checks) × Exponents count exponents.now × (length constants.old ≡ most_checks) }
    ensures { Written 0 count (λ i. power 2 (get_or exponents.now i 0)) constants.old constants.new }
{
    for (i, exponent) in exponents[..count].iter().enumerate() {
        constants[i] = tables.powers[usize::from(*exponent)];
    }
}

// The syndromes of the difference: check c's byte belongs to the power count - 1 - c of each root. The exponents start one
// power above the first row's and are lowered before each row.
pub fn syndromes(tables: &Tables, difference: &[u8], count: usize) -> [u8; CHECK_ROWS]
    requires { (count ≤ most_checks) × (row_width * count ≤ length difference.now) }
    ensures { CheckSums count count difference.now result }
{
    let of_roots = root_logarithms(tables);
    let mut exponents = root_exponents(&of_roots, count);
    let mut constants = [0u8; MOST_CHECKS];
    let mut sums = [0u8; CHECK_ROWS];
    for c in 0..count {
        lower(&of_roots, &mut exponents);
        put_root_powers(tables, &exponents, count, &mut constants);
        let at = ROW_WIDTH * c;
        let end = at + ROW_WIDTH;
        add_row(&difference[at..end], &constants[..count], &mut sums);
    }
    sums
}
