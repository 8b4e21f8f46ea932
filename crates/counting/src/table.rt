// Tables of rows: plane p has byte p of every value, by rows and columns, so that byte p of the value in row i, column k
// stands at [p][i][k].
ghost use Rattle.std.specs.Prelude.{◌≡◌, ◌≤◌, ◌<◌};
ghost use Rattle.code.specs.Size.{most_columns, value_room};
ghost use Rattle.grading.specs.Value.{is_blank, bytes_before};
ghost use Rattle.counting.specs.Steps.Table.{value_in};

use code::sizes::{MOST_COLUMNS, VALUE_ROOM};

// No struct that carries its shape: tried, and the proof did not close, since a literal of a struct with arrays of arrays has none.
pub type Table = [[[u8; MOST_COLUMNS]; MOST_COLUMNS]; VALUE_ROOM];

// A table of n rows, each of n values of w bytes.
#[derive(Clone, Copy)]
pub struct Rows<'a> {
    pub table: &'a Table,
    pub n: usize,
    pub w: usize,
    pub ghost fits: { (n ≤ most_columns) × (w ≤ value_room) },
}

impl Rows<'_> {
    // Whether the value in row i, column k is blank.
    pub fn is_blank(&self, i: usize, k: usize) -> bool
        requires { (i < most_columns) × (k < most_columns) }
        ensures { result ≡ is_blank (value_in self.now.w self.now.table.now i k) }
    {
        let table = self.table;
        table[..self.w].iter().all(|plane| plane[i][k] == 0)
    }

    // Whether of the values in rows i and j of column k the first has the smaller bytes.
    pub fn is_before(&self, i: usize, j: usize, k: usize) -> bool
        requires { (i < most_columns) × (j < most_columns) × (k < most_columns) }
        ensures { result ≡ bytes_before (value_in self.now.w self.now.table.now i k) (value_in self.now.w self.now.table.now j k) }
    {
        for p in 0..self.w {
            let a = self.table[p][i][k];
            let b = self.table[p][j][k];
            if a != b {
                return a < b;
            }
        }
        false
    }
}
