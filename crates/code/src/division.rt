// The register that divides by the generator, of every plane.
//
// Places are powers of x, and x^255 is 1 at every root, so column k is x^(-k): the register runs from column n down to column 1 and takes
// no step through the places that are not in use. Each plane has a window of bytes. With each column its register stands one byte further
// on there, so that nothing is shifted; and planes take turns, so that a step need not wait for the one just before it.
ghost use Rattle.std.specs.Prelude.{◌≡◌, List, ℕ, ◌+◌, ◌*◌, ◌≤◌, ◌<◌, length, get_or, take};
ghost use Rattle.field.specs.Field.{plus};
ghost use Rattle.lanes.specs.Lanes.{row_width, table_room, RowTables};
ghost use Rattle.code.specs.Size.{most_columns, most_checks, value_room, feedback_rows};
ghost use Rattle.code.specs.Steps.Windows.{Feedback, RowsAdded, Shaped, Fed, Divided};

use crate::sizes::{FEEDBACK_ROOM, FEEDBACK_ROWS, FEEDBACK_TABLES, VALUE_ROOM, WINDOW_ROOM};
use lanes::{ROW_WIDTH, TABLE_ROOM, add_from_tables};

// A window of each plane.
pub type Windows = [[u8; WINDOW_ROOM]; VALUE_ROOM];

// A step of one plane's register, which stands at `at`: the byte there and the one that comes in are taken out together, and their
// multiples of the feedback are added to the bytes behind, row after row.
fn feed<const ROWS: usize>(tables: &[u8], byte: u8, window: &mut [u8], at: usize)
    requires { (table_room * ROWS ≤ length tables.now) × (at + 1 + row_width * ROWS ≤ length window.old) }
    ensures bytes { (i : ℕ) → get_or window.new i 0 < 256 }
    ensures added { (hs : List ℕ) → ((i : ℕ) → get_or hs i 0 < 256) → RowTables 0 ROWS hs tables.now →
        RowsAdded (at + 1) ROWS (plus byte (get_or window.old at 0)) hs window.old window.new }
{
    let out = field::sum(byte, window[at]);
    for k in 0..ROWS {
        add_from_tables(tables, TABLE_ROOM * k, out, window, at + 1 + ROW_WIDTH * k);
    }
}

// A step of every plane's register: the value that comes in has a byte for each.
fn feed_value<const ROWS: usize>(tables: &[u8], value: &[u8], windows: &mut Windows, s: usize)
    requires rows { (ROWS ≤ feedback_rows) × (table_room * ROWS ≤ length tables.now) }
    requires s_lt_most_columns { (s < most_columns) × (length value.now ≤ value_room) × Shaped windows.old }
    ensures { Shaped windows.new × ((hs : List ℕ) → ((i : ℕ) → get_or hs i 0 < 256) → RowTables 0 ROWS hs tables.now →
        Fed (length value.now) ROWS s hs value.now windows.old windows.new) }
{
    for (p, byte) in value.iter().enumerate() {
        feed::<ROWS>(tables, *byte, &mut windows[p], s);
    }
}

// The windows when all columns were taken in, by so many rows of feedback in each step.
fn divide_by<const ROWS: usize>(
    feedback: &[u8; FEEDBACK_ROOM],
    count: usize,
    vector: &[u8],
    n: usize,
    size: usize,
) -> Windows
    requires rows { (ROWS ≤ feedback_rows) × (count ≤ row_width * ROWS) }
    requires count_le_most_checks { (count ≤ most_checks) × Feedback count feedback.now }
    requires n_le_most_columns { (n ≤ most_columns) × (size ≤ value_room) × (length vector.now ≡ n * size) }
    ensures { Divided n n size (n + count) (take count feedback.now) vector.now result }
{
    let mut tables = [0u8; FEEDBACK_TABLES];
    lanes::put_row_tables(feedback, 0, ROWS, &mut tables);
    let mut windows = [[0u8; WINDOW_ROOM]; VALUE_ROOM];
    // By place and not by `rchunks_exact`: two must-fail edits turn the order of the columns here.
    for s in 0..n {
        let at = (n - 1 - s) * size;
        feed_value::<ROWS>(&tables, &vector[at..at + size], &mut windows, s);
    }
    windows
}

// The windows when all columns were taken in, the last first: behind them stand the checks, the last first too. A step adds one row of
// feedback where the checks fit in it, or else all: numbers that the compiler knows, so that no step has a loop over them.
pub fn divide(
    feedback: &[u8; FEEDBACK_ROOM],
    count: usize,
    vector: &[u8],
    n: usize,
    size: usize,
) -> Windows
    requires count_le_most_checks { (count ≤ most_checks) × Feedback count feedback.now }
    requires n_le_most_columns { (n ≤ most_columns) × (size ≤ value_room) × (length vector.now ≡ n * size) }
    ensures { Divided n n size (n + count) (take count feedback.now) vector.now result }
{
    if count <= ROW_WIDTH {
        divide_by::<1>(feedback, count, vector, n, size)
    } else {
        divide_by::<FEEDBACK_ROWS>(feedback, count, vector, n, size)
    }
}
