// Byte planes worked on side by side: a row has a byte of each plane. What a register feeds back stands in such rows too, a byte of each
// check side by side.
//
// A value times a constant is two rows of its multiples, one for each half of the constant, so that a product in all planes is
// two additions. Loops over the bytes of a row compile to one step on the whole row.
#![tactic(auto)]

ghost use Rattle.std.specs.Prelude.{◌≡◌, cond, ℕ, ◌+◌, ◌*◌, ◌≤◌, ◌<◌, eqb, length, get_or};
ghost use Rattle.arrays.specs.Array.{Filled, Written};
ghost use Rattle.field.specs.Field.{plus, doubled, times};
ghost use Rattle.lanes.specs.Lanes.{row_width, multiple_rows, table_room, in_row, Multiples, Tables, TablesPut, RowTablesPut, Continued, Doublings, ProductsAdded};

// The byte planes that a row has room for, and so at least the most bytes of a value.
pub const ROW_WIDTH: usize = 8;

// A row for each multiple of a value by half a byte.
const MULTIPLE_ROWS: usize = ROW_WIDTH * 16;

// Room for both tables of a value.
pub const TABLE_ROOM: usize = 2 * MULTIPLE_ROWS;

// Where the eighth multiple stands.
const EIGHTH: usize = ROW_WIDTH * 8;

// The bits of a byte.
const BITS: usize = 8;

// A byte of each plane.
type Row = [u8; ROW_WIDTH];

fn row_at(rows: &[u8], at: usize) -> Row
    requires { at + row_width ≤ length rows.now }
    ensures { Filled row_width row_width (λ p. get_or rows.now (at + p) 0) result }
{
    let mut row = [0u8; ROW_WIDTH];
    row.copy_from_slice(&rows[at..at + ROW_WIDTH]);
    row
}

fn put_row(rows: &mut [u8], at: usize, row: Row)
    requires { at + row_width ≤ length rows.old }
    ensures { Written at row_width (λ p. get_or row p 0) rows.old rows.new }
{
    rows[at..at + ROW_WIDTH].copy_from_slice(&row);
}

fn sum(mut a: Row, b: Row) -> Row
    ensures { Filled row_width row_width (λ p. plus (get_or a p 0) (get_or b p 0)) result }
{
    for p in 0..ROW_WIDTH {
        a[p] = field::sum(a[p], b[p]);
    }
    a
}

// Row 0, which is zeros, and row 1, the value.
fn first_rows(value: &[u8]) -> [u8; MULTIPLE_ROWS]
    requires { length value.now ≡ row_width }
    ensures { Multiples 2 (λ p. get_or value.now p 0) result }
{
    let mut rows = [0u8; MULTIPLE_ROWS];
    arrays::copy(&mut rows, ROW_WIDTH, value, 0, ROW_WIDTH);
    rows
}

// The same of sixteen times the value whose multiples are lent: twice the eighth. The loop is `double_row`'s, out of another array.
fn sixteenth_rows(low: &[u8; MULTIPLE_ROWS]) -> [u8; MULTIPLE_ROWS]
    ensures { Multiples 2 (λ p. doubled (get_or low.now (in_row 8 p) 0)) result }
{
    let mut rows = [0u8; MULTIPLE_ROWS];
    for p in 0..ROW_WIDTH {
        rows[ROW_WIDTH + p] = field::double(low[EIGHTH + p]);
    }
    rows
}

// A row becomes twice a row below it. Doubled by value, as `sum` adds, a row does not compile to one step.
fn double_row(rows: &mut [u8; MULTIPLE_ROWS], j: usize, to: usize)
    requires { (j < to) × (to < 16) }
    ensures { Written (row_width * to) row_width (λ p. doubled (get_or rows.old (in_row j p) 0)) rows.old rows.new }
{
    for p in 0..ROW_WIDTH {
        rows[ROW_WIDTH * to + p] = field::double(rows[ROW_WIDTH * j + p]);
    }
}

// Row w + k becomes the sum of rows w and k.
fn add_row(rows: &mut [u8; MULTIPLE_ROWS], w: usize, k: usize)
    requires { (1 ≤ k) × (k < w) × (w + k < 16) }
    ensures { Written (row_width * (w + k)) row_width (λ p. plus (get_or rows.old (in_row w p) 0) (get_or rows.old (in_row k p) 0)) rows.old rows.new }
{
    let row = sum(row_at(rows, ROW_WIDTH * w), row_at(rows, ROW_WIDTH * k));
    put_row(rows, ROW_WIDTH * (w + k), row);
}

// Eight multiples from the first two. The rows are numbers that the compiler knows, so that no step is left to a loop.
fn to_eight(rows: &mut [u8; MULTIPLE_ROWS])
    ensures { Continued 2 8 rows.old rows.new }
{
    double_row(rows, 1, 2);
    add_row(rows, 2, 1);
    double_row(rows, 2, 4);
    add_row(rows, 4, 1);
    add_row(rows, 4, 2);
    add_row(rows, 4, 3);
}

// Sixteen multiples from the first eight.
fn to_sixteen(rows: &mut [u8; MULTIPLE_ROWS])
    ensures { Continued 8 16 rows.old rows.new }
{
    double_row(rows, 4, 8);
    add_row(rows, 8, 1);
    add_row(rows, 8, 2);
    add_row(rows, 8, 3);
    add_row(rows, 8, 4);
    add_row(rows, 8, 5);
    add_row(rows, 8, 6);
    add_row(rows, 8, 7);
}

// All sixteen multiples from the first two.
fn multiply(rows: &mut [u8; MULTIPLE_ROWS])
    ensures { Continued 2 16 rows.old rows.new }
{
    to_eight(rows);
    to_sixteen(rows);
}

// The row of bytes from a place on, and the k-th multiple added to it.
fn add_multiple(rows: &mut [u8], at: usize, multiples: &[u8; MULTIPLE_ROWS], k: usize)
    requires { (at + row_width ≤ length rows.old) × (k < 16) }
    ensures { Written at row_width (λ p. plus (get_or rows.old (at + p) 0) (get_or multiples.now (in_row k p) 0)) rows.old rows.new }
{
    let row = sum(row_at(rows, at), row_at(multiples, ROW_WIDTH * k));
    put_row(rows, at, row);
}

// The multiples of a value by the low half of a byte, and by the high half.
#[derive(Drop)]
struct Halves {
    low: [u8; MULTIPLE_ROWS],
    high: [u8; MULTIPLE_ROWS],
}

impl Halves {
    // Inlined, so that its two arrays are not copied once more.
    #[inline(always)]
    fn of(value: &[u8]) -> Self
        requires { length value.now ≡ row_width }
        ensures low { Multiples 16 (λ p. get_or value.now p 0) result.low }
        ensures high { Multiples 16 (λ p. doubled (get_or result.low (in_row 8 p) 0)) result.high }
    {
        let mut low = first_rows(value);
        multiply(&mut low);
        let mut high = sixteenth_rows(&low);
        multiply(&mut high);
        Halves { low, high }
    }
}

// To each row j the value times constant j is added, by two tables of multiples.
fn add_by_tables(value: &[u8], constants: &[u8], rows: &mut [u8])
    requires { (length value.now ≡ row_width) × (row_width * length constants.now ≤ length rows.old) }
    ensures { ProductsAdded (length constants.now) value.now constants.now rows.old rows.new }
{
    let multiples = Halves::of(value);
    for (j, constant) in constants.iter().enumerate() {
        let c = usize::from(*constant);
        add_multiple(rows, ROW_WIDTH * j, &multiples.low, c % 16);
        add_multiple(rows, ROW_WIDTH * j, &multiples.high, c / 16);
    }
}

// The value as row 1, and each row twice the one before, up to one for each bit of a byte.
fn doublings(value: &[u8]) -> [u8; MULTIPLE_ROWS]
    requires { length value.now ≡ row_width }
    ensures { Doublings 8 (λ p. get_or value.now p 0) result }
{
    let mut rows = first_rows(value);
    for k in 1..BITS {
        double_row(&mut rows, k, k + 1);
    }
    rows
}

// The row of bytes from a place on, with row k added where the bit is 1.
fn add_where(rows: &mut [u8], at: usize, doublings: &[u8; MULTIPLE_ROWS], k: usize, bit: u8)
    requires { (at + row_width ≤ length rows.old) × (k < 16) × (bit < 2) }
    ensures { Written at row_width (λ p. plus (get_or rows.old (at + p) 0) (cond (eqb bit 1) (get_or doublings.now (in_row k p) 0) 0)) rows.old rows.new }
{
    if bit != 0 {
        add_multiple(rows, at, doublings, k);
    }
}

// The row of bytes from a place on, with the value times a constant added, bit by bit.
fn add_product(doublings: &[u8; MULTIPLE_ROWS], constant: u8, rows: &mut [u8], at: usize)
    requires { at + row_width ≤ length rows.old }
    ensures { (f : ℕ → ℕ) → Doublings 8 f doublings.now → Written at row_width (λ p. plus (get_or rows.old (at + p) 0) (times (f p) constant)) rows.old rows.new }
{
    let mut left = constant;
    for k in 1..=BITS {
        add_where(rows, at, doublings, k, left % 2);
        left /= 2;
    }
}

// To each row j the value times constant j is added, by its doublings: for few constants this is less than the tables cost.
fn add_by_bits(value: &[u8], constants: &[u8], rows: &mut [u8])
    requires { (length value.now ≡ row_width) × (row_width * length constants.now ≤ length rows.old) }
    ensures { ProductsAdded (length constants.now) value.now constants.now rows.old rows.new }
{
    let doublings = doublings(value);
    for (j, constant) in constants.iter().enumerate() {
        add_product(&doublings, *constant, rows, ROW_WIDTH * j);
    }
}

// To each row j the value times constant j is added, in all planes.
pub fn add_products(value: &[u8], constants: &[u8], rows: &mut [u8])
    requires { (length value.now ≡ row_width) × (row_width * length constants.now ≤ length rows.old) }
    ensures { ProductsAdded (length constants.now) value.now constants.now rows.old rows.new }
{
    if constants.len() <= 2 {
        add_by_bits(value, constants, rows)
    } else {
        add_by_tables(value, constants, rows)
    }
}

// Both tables of a value, the low one first, written from a place on: for products with constants that come one at a time.
pub fn put_tables(value: &[u8], tables: &mut [u8], at: usize)
    requires { (length value.now ≡ row_width) × (at + table_room ≤ length tables.old) }
    ensures { TablesPut at (λ p. get_or value.now p 0) tables.old tables.new }
{
    let multiples = Halves::of(value);
    arrays::copy(tables, at, &multiples.low, 0, MULTIPLE_ROWS);
    arrays::copy(
        tables,
        at + MULTIPLE_ROWS,
        &multiples.high,
        0,
        MULTIPLE_ROWS,
    );
}

// Both tables of each row from the first named on, each pair at its row's number.
pub fn put_row_tables(rows: &[u8], first: usize, many: usize, tables: &mut [u8])
    requires { (first ≤ many) × (row_width * many ≤ length rows.now) × (table_room * many ≤ length tables.old) }
    ensures { RowTablesPut first many rows.now tables.old tables.new }
{
    for m in first..many {
        let at = ROW_WIDTH * m;
        let end = at + ROW_WIDTH;
        put_tables(&rows[at..end], tables, TABLE_ROOM * m);
    }
}

// The row of bytes from a place on, with two rows of the tables added in one step.
fn add_both(rows: &mut [u8], to: usize, tables: &[u8], low: usize, high: usize)
    requires { (to + row_width ≤ length rows.old) × (low + row_width ≤ length tables.now) × (high + row_width ≤ length tables.now) }
    ensures { Written to row_width (λ p. plus (get_or rows.old (to + p) 0) (plus (get_or tables.now (low + p) 0) (get_or tables.now (high + p) 0))) rows.old rows.new }
{
    let added = sum(row_at(tables, low), row_at(tables, high));
    let row = sum(row_at(rows, to), added);
    put_row(rows, to, row);
}

// The row of bytes from a place on, with a constant times the value added whose tables stand from `at` on.
pub fn add_from_tables(tables: &[u8], at: usize, constant: u8, rows: &mut [u8], to: usize)
    requires { (at + table_room ≤ length tables.now) × (to + row_width ≤ length rows.old) }
    ensures { (f : ℕ → ℕ) → ((p : ℕ) → f p < 256) → Tables at f tables.now → Written to row_width (λ p. plus (get_or rows.old (to + p) 0) (times (f p) constant)) rows.old rows.new }
{
    let c = usize::from(constant);
    add_both(
        rows,
        to,
        tables,
        at + ROW_WIDTH * (c % 16),
        at + MULTIPLE_ROWS + ROW_WIDTH * (c / 16),
    );
}
