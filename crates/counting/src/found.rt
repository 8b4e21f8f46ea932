// How often the value of a row is found, in all columns at once: a byte for a column, and no column is passed over, so that a step
// takes in many.
ghost use Rattle.std.specs.Prelude.{◌≡◌, ℕ, ◌<◌, get_or};
ghost use Rattle.code.specs.Size.{most_columns};
ghost use Rattle.counting.specs.Steps.Tally.{Marked, MarksSame, CountedOn, FoundInColumns};

use crate::table::Rows;
use code::sizes::MOST_COLUMNS;

// A column is marked where two rows differ in a plane.
fn mark_differing(marks: &mut [u8; MOST_COLUMNS], a: &[u8; MOST_COLUMNS], b: &[u8; MOST_COLUMNS])
    ensures { Marked a.now b.now marks.old marks.new }
{
    for k in 0..MOST_COLUMNS {
        marks[k] |= a[k] ^ b[k];
    }
}

// Where the values of rows i and c differ.
fn differing(rows: &Rows, i: usize, c: usize) -> [u8; MOST_COLUMNS]
    requires { (i < most_columns) × (c < most_columns) }
    ensures { MarksSame rows.now.w rows.now.table.now i c result }
{
    let mut marks = [0u8; MOST_COLUMNS];
    for p in 0..rows.w {
        mark_differing(&mut marks, &rows.table[p][i], &rows.table[p][c]);
    }
    marks
}

// One more in each column that is not marked.
fn count_same(times: &mut [u8; MOST_COLUMNS], marks: &[u8; MOST_COLUMNS])
    requires { (k : ℕ) → k < most_columns → get_or times.old k 0 < 255 }
    ensures { CountedOn marks.now times.old times.new }
{
    for k in 0..MOST_COLUMNS {
        times[k] += u8::from(marks[k] == 0);
    }
}

// How often the value of row c is found, in each column.
pub fn row_times(rows: &Rows, c: usize) -> [u8; MOST_COLUMNS]
    requires { c < rows.now.n }
    ensures { FoundInColumns rows.now.n rows.now.w rows.now.table.now c result }
{
    let mut times = [0u8; MOST_COLUMNS];
    for i in 0..rows.n {
        let marks = differing(rows, i, c);
        count_same(&mut times, &marks);
    }
    times
}
