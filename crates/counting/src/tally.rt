// What a table says of each column: Y, and values with their confidences.
ghost use Rattle.std.specs.Prelude.{◌≡◌, ◌*◌, ◌≤◌, ◌<◌, ℕ, get_or};
ghost use Rattle.arrays.specs.Array.{Written};
ghost use Rattle.code.specs.Settings.{settings};
ghost use Rattle.code.specs.Size.{most_columns};
ghost use Rattle.counting.specs.Stored.{Stores, StoresHeld};
ghost use Rattle.grading.specs.Value.{entries};
ghost use Rattle.grading.specs.Count.{agreed_vector, held_list};
ghost use Rattle.counting.specs.Steps.Table.{value_in, rows_in};
ghost use Rattle.counting.specs.Steps.Tally.{unweighed, value_from, confidence_by};

use crate::leaders;
use crate::leaders::Standing;
use crate::table::Rows;
use code::sizes::{MOST_COLUMNS, VECTOR_ROOM};

// Value k of a vector becomes the value of a row in column k.
fn put_from_row(vector: &mut [u8; VECTOR_ROOM], rows: &Rows, row: usize, k: usize)
    requires { (row < most_columns) × (k < most_columns) }
    ensures { Written (k * rows.now.w) rows.now.w (λ p. get_or (value_in rows.now.w rows.now.table.now row k) p 0) vector.old vector.new }
{
    let at = k * rows.w;
    for p in 0..rows.w {
        vector[at + p] = rows.table[p][row][k];
    }
}

// Of each column the value that leads it, blank where that is found fewer than `least` times.
fn values_from(rows: &Rows, least: usize, standings: &[Standing; MOST_COLUMNS]) -> [u8; VECTOR_ROOM]
    requires { (k : ℕ) → k < rows.now.n → (get_or standings.now k unweighed).leads.row < most_columns }
    ensures { Stores (settings rows.now.n 0 rows.now.w) (entries rows.now.n 0 (λ k. value_from rows.now.w least rows.now.table.now k (get_or standings.now k unweighed).leads)) result }
{
    let mut vector = [0u8; VECTOR_ROOM];
    for k in 0..rows.n {
        let leads = standings[k].leads;
        if least <= leads.times {
            put_from_row(&mut vector, rows, leads.row, k);
        }
    }
    vector
}

// Y: of each column the value found at least n - t times, else blank.
pub fn agreed(rows: &Rows, t: usize) -> [u8; VECTOR_ROOM]
    requires { 2 * t < rows.now.n }
    ensures { let s = settings rows.now.n t rows.now.w in Stores s (agreed_vector s (rows_in rows.now.n rows.now.w rows.now.table.now)) result }
{
    let least = rows.n - t;
    let standings = leaders::find(rows, least);
    values_from(rows, least, &standings)
}

// Found 2t + 1 times or more: confidence 2; t + 1 to 2t times: 1; else 0.
#[tactic(auto, unfolding(crate::specs::Steps::Tally::confidence_by))]
fn confidence(t: usize, times: usize) -> u8
    requires { t ≤ most_columns }
    ensures { result ≡ confidence_by t times }
{
    if times <= t {
        0
    } else if times <= 2 * t {
        1
    } else {
        2
    }
}

// The values and confidences of all columns.
#[derive(Clone, Copy)]
pub struct Ratings {
    pub values: [u8; VECTOR_ROOM],
    pub confidences: [u8; MOST_COLUMNS],
}

pub fn held(rows: &Rows, t: usize) -> Ratings
    requires { 2 * t < rows.now.n }
    ensures { let s = settings rows.now.n t rows.now.w in StoresHeld s (held_list s (rows_in rows.now.n rows.now.w rows.now.table.now)) result.values result.confidences }
{
    let least = t + 1;
    let standings = leaders::find(rows, least);
    let values = values_from(rows, least, &standings);
    let mut confidences = [0u8; MOST_COLUMNS];
    for k in 0..rows.n {
        confidences[k] = confidence(t, standings[k].leads.times);
    }
    Ratings {
        values,
        confidences,
    }
}
