// The weighted errors at the roots that were found, in place of the marks there.
ghost use Rattle.std.specs.Prelude.{◌≡◌, List, ℕ, true, false, ◌+◌, ◌*◌, ◌/◌, ◌≤◌, ◌<◌, length, get_or};
ghost use Rattle.field.specs.Field.{times, power, inverse};
ghost use Rattle.arrays.specs.Array.{Filled};
ghost use Rattle.lanes.specs.Lanes.{row_width};
ghost use Rattle.code.specs.Size.{most_columns, most_bad, most_checks, most_places, value_room, locator_rows, check_rows, place_rows};
ghost use Rattle.locator.specs.Errors.{place_exponent};
ghost use Rattle.errors.specs.Roots.{Fits};
ghost use Rattle.errors.specs.Fractions.{told, fraction, first_told};
ghost use Rattle.errors.specs.Errors.{error_told, ErrorsPut, ErrorsTold, NoneFound, Unsought, ErrorsFound};

use crate::fractions::{numerators, slopes};
use crate::roots::longest;
use code::sizes::{MOST_BAD, VALUE_ROOM};
use field::Tables;
use lanes::{ROW_WIDTH, TABLE_ROOM, put_row_tables};
use sums::places::{LOCATOR_TABLES, Polynomials, place_exponent, step_back, step_on};

// Room for the tables of every row of a derivative's coefficients.
const SLOPE_TABLES: usize = TABLE_ROOM * (MOST_BAD / 2);

// A byte divided by another, 0 where that is 0. The quotient is looked up before the tests, at 1 in place of 0, so that no branch is left of
// them: which planes have an error at a place is not to be foreseen.
fn divided(tables: &Tables, above: u8, below: u8) -> u8
    ensures { result ≡ times above (inverse below) }
{
    let dividend = above.max(1);
    let divisor = below.max(1);
    let up = tables.logarithms[usize::from(dividend)];
    let down = tables.logarithms[usize::from(divisor)];
    let found = tables.powers[usize::from(step_back(up, down))];
    if above == 0 || below == 0 {
        return 0;
    }
    found
}

// A mark gives way to an error, and no mark to none.
#[tactic(auto, unfolding(crate::specs::Errors::error_told))]
fn marked_error(mark: u8, error: u8) -> u8
    ensures { result ≡ error_told mark error }
{
    if mark == 0 { 0 } else { error }
}

// The marks that stand from `at` on give way to the errors of a place.
fn put_errors(errors: &[u8; VALUE_ROOM], weighted: &mut [u8], at: usize)
    requires { at + value_room ≤ length weighted.old }
    ensures { ErrorsPut value_room at (λ p. get_or errors.now p 0) weighted.old weighted.new }
{
    for (p, error) in errors.iter().enumerate() {
        weighted[at + p] = marked_error(weighted[at + p], *error);
    }
}

// The same at each of so many places, by what tells a place's errors; many places have no mark.
fn put_all<F: Fn(usize) -> [u8; VALUE_ROOM]>(errors_at: F, turns: usize, weighted: &mut [u8])
    requires places { (j : ℕ) → j < turns → F.pre errors_at j }
    requires room { (turns ≤ most_places) × (length weighted.old ≡ place_rows) }
    ensures { (error : (j p : ℕ) → ℕ) → ((j p : ℕ) → error j p < 256) →
        ((j : ℕ) (errors : List ℕ) → j < turns → F.post errors_at j errors → (p : ℕ) → p < value_room → get_or errors p 0 ≡ error j p) →
        ErrorsTold turns error weighted.old weighted.new }
{
    for j in 0..turns {
        let at = ROW_WIDTH * j;
        let end = at + VALUE_ROOM;
        if !arrays::is_zero(&weighted[at..end]) {
            put_errors(&errors_at(j), weighted, at);
        }
    }
}

// The polynomials of the planes' fractions, those above and those below.
#[derive(Clone, Copy)]
struct Fractions<'a, 'b> {
    above: Polynomials<'a>,
    below: Polynomials<'b>,
    ghost half: { below.many ≡ (above.many + 1) / 2 },
}

impl Fractions<'_, '_> {
    // The planes' errors at the place with this exponent.
    fn errors(&self, tables: &Tables, exponent: usize) -> [u8; VALUE_ROOM]
        requires { exponent < 255 }
        ensures { Filled value_room value_room (λ p. fraction self.now.above.rows.now self.now.below.rows.now self.now.above.many p exponent) result }
    {
        let twice = step_on(exponent, exponent);
        let above = self.above.values(&tables.powers, exponent);
        let below = self.below.values(&tables.powers, twice);
        let mut errors = [0u8; VALUE_ROOM];
        for (p, error) in errors.iter_mut().enumerate() {
            *error = divided(tables, above[p], below[p]);
        }
        errors
    }
}

// The marks at each of so many places give way to the errors by two polynomials, for which tables are made.
fn put_fractions(
    tables: &Tables,
    numerators: &[u8],
    slopes: &[u8],
    size: usize,
    n: usize,
    t: usize,
    turns: usize,
    weighted: &mut [u8],
)
    requires sizes { (1 ≤ size) × (size ≤ most_bad) × (length numerators.now ≡ locator_rows) × (length slopes.now ≡ locator_rows) }
    requires n_le_most_columns { (n ≤ most_columns) × (t ≤ most_bad) × (turns ≤ n + 2 * t) × (length weighted.old ≡ place_rows) }
    ensures { ErrorsTold turns (λ j p. fraction numerators.now slopes.now size p (place_exponent n (2 * t) j)) weighted.old weighted.new }
{
    let half = (size + 1) / 2;
    let mut upper = [0u8; LOCATOR_TABLES];
    let mut lower = [0u8; SLOPE_TABLES];
    put_row_tables(numerators, 1, size, &mut upper);
    put_row_tables(slopes, 1, half, &mut lower);
    let above = Polynomials {
        rows: numerators,
        multiples: &upper,
        many: size,
    };
    let below = Polynomials {
        rows: slopes,
        multiples: &lower,
        many: half,
    };
    let fractions = Fractions { above, below };
    let checks = 2 * t;
    let errors = |j: usize| -> [u8; VALUE_ROOM]
        requires { (n ≤ most_columns) × (checks ≤ most_checks) × (j < n + checks) }
        ensures { Filled value_room value_room (λ p. fraction fractions.entry.above.rows.now fractions.entry.below.rows.now fractions.entry.above.many p (place_exponent n checks j)) result }
    { fractions.errors(tables, place_exponent(n, checks, j)) };
    put_all(errors, turns, weighted);
}

// The errors where no locator has more than one root: a plane's first power sum, if it has one.
fn first_errors(rows: &[u8], sums: &[u8]) -> [u8; VALUE_ROOM]
    requires { (2 * row_width ≤ length rows.now) × (row_width ≤ length sums.now) }
    ensures { Filled value_room value_room (λ p. first_told rows.now sums.now p) result }
{
    let mut errors = [0u8; VALUE_ROOM];
    for (p, error) in errors.iter_mut().enumerate() {
        *error = marked_error(rows[ROW_WIDTH + p], sums[p]);
    }
    errors
}

// The marks at each of so many places give way to the errors there. Where no plane looks for more than one root its fraction needs no
// polynomials.
fn put_all_errors(
    tables: &Tables,
    rows: &[u8],
    sums: &[u8],
    roots: [u8; VALUE_ROOM],
    n: usize,
    t: usize,
    turns: usize,
    weighted: &mut [u8],
)
    requires weighted_len { length weighted.old ≡ place_rows }
    requires n_le_most_columns { (n ≤ most_columns) × (t ≤ most_bad) × (turns ≤ n + 2 * t) × (length rows.now ≡ locator_rows) × (length sums.now ≡ check_rows) }
    requires fits { Fits t rows.now roots }
    ensures { ErrorsTold turns (λ j p. told rows.now sums.now roots p (power 2 (place_exponent n (2 * t) j))) weighted.old weighted.new }
{
    let size = longest(roots);
    if size < 2 {
        let errors = first_errors(rows, sums);
        let same = |_j: usize| -> [u8; VALUE_ROOM]
            ensures { result ≡ errors }
        { errors };
        put_all(same, turns, weighted);
        return;
    }
    let numerators = numerators(tables, rows, sums, size);
    let slopes = slopes(rows, (size + 1) / 2);
    put_fractions(tables, &numerators, &slopes, size, n, t, turns, weighted);
}

// Whether a plane has found all of some roots.
fn has_found(roots: u8, left: u8) -> bool
    ensures { result ≡ false → left ≡ 0 → roots ≡ 0 }
{
    left == 0 && roots != 0
}

// Whether no plane has.
fn none_found(roots: [u8; VALUE_ROOM], left: [u8; VALUE_ROOM]) -> bool
    requires { (length roots ≡ value_room) × (length left ≡ value_room) }
    ensures { result ≡ true → NoneFound value_room roots left }
{
    !roots
        .iter()
        .zip(left.iter())
        .any(|(roots, left)| has_found(*roots, *left))
}

// In place of each mark the error there, of the planes that have found all their roots. Of the others nothing is asked, so that where no
// plane has, which is common where no codeword is near, no fraction is worked out.
pub fn put_found_errors(
    tables: &Tables,
    rows: &[u8],
    sums: &[u8],
    roots: [u8; VALUE_ROOM],
    left: [u8; VALUE_ROOM],
    n: usize,
    t: usize,
    turns: usize,
    weighted: &mut [u8],
)
    requires weighted_len { length weighted.old ≡ place_rows }
    requires n_le_most_columns { (n ≤ most_columns) × (t ≤ most_bad) × (turns ≤ n + 2 * t) × (length rows.now ≡ locator_rows) × (length sums.now ≡ check_rows) }
    requires fits { Fits t rows.now roots × (length left ≡ value_room) × Unsought roots weighted.old }
    ensures { ErrorsFound turns (λ j p. told rows.now sums.now roots p (power 2 (place_exponent n (2 * t) j))) left weighted.old weighted.new }
{
    if none_found(roots, left) {
        return;
    }
    put_all_errors(tables, rows, sums, roots, n, t, turns, weighted);
}
