// The error at a root as a fraction, of all planes side by side: above stands the value of a polynomial worked out from the locator and the
// power sums, and below that of the locator's derivative. In this field the derivative has the coefficients of the odd powers alone, one power
// down, so that it is a polynomial of the place's square.
ghost use Rattle.std.specs.Prelude.{◌≡◌, ℕ, suc, ◌+◌, ◌*◌, ◌≤◌, ◌<◌, length, get_or, drop};
ghost use Rattle.arrays.specs.Array.{Written};
ghost use Rattle.field.specs.Field.{plus, times};
ghost use Rattle.lanes.specs.Lanes.{row_width, in_row, lane};
ghost use Rattle.code.specs.Size.{most_bad, locator_rows};
ghost use Rattle.locator.specs.Locator.{against};
ghost use Rattle.errors.specs.Fractions.{Numerators, Slopes};

use code::sizes::LOCATOR_ROWS;
use field::Tables;
use lanes::ROW_WIDTH;

// To the row from `to` on the products of two other rows, plane by plane, are added. One index serves the three, which start at different
// places.
fn add_products(tables: &Tables, a: &[u8], i: usize, b: &[u8], k: usize, rows: &mut [u8], to: usize)
    requires { (i + row_width ≤ length a.now) × (k + row_width ≤ length b.now) × (to + row_width ≤ length rows.old) }
    ensures { Written to row_width (λ p. plus (times (get_or a.now (i + p) 0) (get_or b.now (k + p) 0)) (get_or rows.old (to + p) 0)) rows.old rows.new }
{
    for p in 0..ROW_WIDTH {
        rows[to + p] = field::sum(tables.product(a[i + p], b[k + p]), rows[to + p]);
    }
}

// Row d of the numerators, which is zeros yet: the coefficients behind the d-th against the power sums.
fn put_numerator(
    tables: &Tables,
    rows: &[u8],
    sums: &[u8],
    size: usize,
    d: usize,
    numerators: &mut [u8],
)
    requires row { (d < size) × (size ≤ most_bad) }
    requires size_in_bounds { (row_width * (size + 1) ≤ length rows.now) × (row_width * size ≤ length sums.now) × (row_width * size ≤ length numerators.old) }
    requires by_index { (p : ℕ) → p < row_width → get_or numerators.old (in_row d p) 0 ≡ 0 }
    ensures { Written (row_width * d) row_width (λ p. against (drop (suc d) (lane p (size + 1) rows.now)) (λ i. get_or sums.now (in_row i p) 0) 0) numerators.old numerators.new }
{
    for m in (d..size).rev() {
        add_products(
            tables,
            rows,
            ROW_WIDTH * (m + 1),
            sums,
            ROW_WIDTH * (m - d),
            numerators,
            ROW_WIDTH * d,
        );
    }
}

// The coefficients of the polynomials above, by locators of at most so many roots.
pub fn numerators(tables: &Tables, rows: &[u8], sums: &[u8], size: usize) -> [u8; LOCATOR_ROWS]
    requires { (size ≤ most_bad) × (length rows.now ≡ locator_rows) × (row_width * size ≤ length sums.now) }
    ensures { Numerators size size rows.now sums.now result }
{
    let mut numerators = [0u8; LOCATOR_ROWS];
    for d in 0..size {
        put_numerator(tables, rows, sums, size, d, &mut numerators);
    }
    numerators
}

// So many coefficients of the polynomials below.
pub fn slopes(rows: &[u8], half: usize) -> [u8; LOCATOR_ROWS]
    requires { (2 * half ≤ most_bad + 1) × (length rows.now ≡ locator_rows) }
    ensures { Slopes half rows.now result }
{
    let mut slopes = [0u8; LOCATOR_ROWS];
    for k in 0..half {
        arrays::copy(
            &mut slopes,
            ROW_WIDTH * k,
            rows,
            ROW_WIDTH * (2 * k + 1),
            ROW_WIDTH,
        );
    }
    slopes
}
