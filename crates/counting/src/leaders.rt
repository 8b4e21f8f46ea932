// The value that leads each column: the row that it stands in, and how often it is found. The rows are gone through one after the
// other, in all columns, until every column is settled.
ghost use Rattle.std.specs.Prelude.{◌≡◌, false, ◌+◌, ◌≤◌, ◌<◌};
ghost use Rattle.code.specs.Size.{most_columns};
ghost use Rattle.grading.specs.Value.{is_blank};
ghost use Rattle.grading.specs.Count.{found, better_by};
ghost use Rattle.counting.specs.Steps.Table.{value_in, rows_in};
ghost use Rattle.counting.specs.Steps.Tally.{leading, Weighed, AllWeighed, AllSettled};

use crate::found;
use crate::table::Rows;
use code::sizes::MOST_COLUMNS;

// The value of a row in a column, by the row and how often the value is found there. Both are of the type that indexes: bytes would be
// cast at each use, and save a few hundred.
#[derive(Clone, Copy)]
pub struct Counted {
    pub row: usize,
    pub times: usize,
}

// What is kept of a column: the value that leads it, and whether it is settled, and no longer live.
#[derive(Clone, Copy)]
pub struct Standing {
    pub leads: Counted,
    pub settled: bool,
}

// Whether a value goes before the one that leads column k. Counts decide first, since they need no bytes.
fn overtakes(rows: &Rows, k: usize, next: Counted, leads: Counted) -> bool
    requires { (k < most_columns) × (next.row < most_columns) × (leads.row < most_columns) × (1 ≤ next.times) × (1 ≤ leads.times → is_blank (value_in rows.now.w rows.now.table.now leads.row k) ≡ false) }
    ensures { result ≡ better_by next.times leads.times (value_in rows.now.w rows.now.table.now next.row k) (leading rows.now.w rows.now.table.now k leads.row leads.times) }
{
    if next.times < leads.times || rows.is_blank(next.row, k) {
        return false;
    }
    leads.times < next.times || rows.is_before(next.row, leads.row, k)
}

// Column k after one more value, which settles it where no other value can be found `least` times.
fn weigh(rows: &Rows, least: usize, k: usize, next: Counted, standing: &mut Standing)
    requires { (1 ≤ least) × (next.row < rows.now.n) × (k < rows.now.n) × (next.times ≡ found k (value_in rows.now.w rows.now.table.now next.row k) (rows_in rows.now.n rows.now.w rows.now.table.now)) × Weighed rows.now.n rows.now.w least next.row rows.now.table.now k standing.old }
    ensures { Weighed rows.now.n rows.now.w least (next.row + 1) rows.now.table.now k standing.new }
{
    if standing.settled {
        return;
    }
    if overtakes(rows, k, next, standing.leads) {
        standing.leads = next;
    }
    standing.settled = rows.n - next.times < least;
}

// The columns after row c.
fn weigh_row(rows: &Rows, least: usize, c: usize, standings: &mut [Standing; MOST_COLUMNS])
    requires { (1 ≤ least) × (c < rows.now.n) × AllWeighed rows.now.n rows.now.w least c rows.now.table.now standings.old }
    ensures { AllWeighed rows.now.n rows.now.w least (c + 1) rows.now.table.now standings.new }
{
    let counts = found::row_times(rows, c);
    for k in 0..rows.n {
        let next = Counted {
            row: c,
            times: usize::from(counts[k]),
        };
        weigh(rows, least, k, next, &mut standings[k]);
    }
}

pub fn find(rows: &Rows, least: usize) -> [Standing; MOST_COLUMNS]
    requires { 1 ≤ least }
    ensures { AllSettled rows.now.n rows.now.w least rows.now.table.now result }
{
    let nothing = Counted { row: 0, times: 0 };
    let mut standings = [Standing {
        leads: nothing,
        settled: false,
    }; MOST_COLUMNS];
    for c in 0..rows.n {
        weigh_row(rows, least, c, &mut standings);
        if standings[..rows.n].iter().all(|standing| standing.settled) {
            return standings;
        }
    }
    standings
}
