// Rows put into a table.
ghost use Rattle.std.specs.Prelude.{◌*◌, ◌≤◌, ◌<◌, length};
ghost use Rattle.code.specs.Size.{most_columns, value_room};
ghost use Rattle.counting.specs.Steps.Table.{Shaped, row_plane, written_plane, RowPut};

use crate::table::Table;

// Row i becomes a row of n values of w bytes, which stand one after the other.
pub fn put_row(table: &mut Table, i: usize, row: &[u8], n: usize, w: usize)
    requires { (i < most_columns) × (n ≤ most_columns) × (w ≤ value_room) × (n * w ≤ length row.now) × Shaped table.old }
    ensures { RowPut w i (written_plane n w row.now table.old i) table.old table.new }
{
    for p in 0..w {
        arrays::gather(&mut table[p][i], row, w, p, n);
    }
}

// Row i becomes row j, in the planes that values of w bytes have.
pub fn copy_row(table: &mut Table, i: usize, j: usize, w: usize)
    requires { (i < most_columns) × (j < most_columns) × (w ≤ value_room) × Shaped table.old }
    ensures { RowPut w i (row_plane table.old j) table.old table.new }
{
    for p in 0..w {
        table[p][i] = table[p][j];
    }
}
