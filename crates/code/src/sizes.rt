// Sizes of arrays: the most of each thing that settings allow, and the width of a row.
use lanes::{ROW_WIDTH, TABLE_ROOM};

pub const MOST_COLUMNS: usize = 32;

// The bad columns that are borne.
pub const MOST_BAD: usize = 10;

// Two check values for each bad column.
pub const MOST_CHECKS: usize = 2 * MOST_BAD;

// The generator's coefficients: one more than its roots.
pub const GENERATOR_ROOM: usize = MOST_CHECKS + 1;

// Rows that have a byte for each check, side by side as the planes are in others.
pub const FEEDBACK_ROWS: usize = 3;

// Room for what the register feeds back, and for the tables of its rows.
pub const FEEDBACK_ROOM: usize = ROW_WIDTH * FEEDBACK_ROWS;

pub const FEEDBACK_TABLES: usize = TABLE_ROOM * FEEDBACK_ROWS;

// The places of a plane: one for each column and each check.
pub const MOST_PLACES: usize = MOST_COLUMNS + MOST_CHECKS;

// Room for a plane of power sums, or for the coefficients of its locator.
pub const PLANE_ROOM: usize = 32;

// The most bytes of a value.
pub const VALUE_ROOM: usize = 8;

// Room for a value of every column, and for every check value.
pub const VECTOR_ROOM: usize = MOST_COLUMNS * VALUE_ROOM;

pub const CHECKS_ROOM: usize = MOST_CHECKS * VALUE_ROOM;

// The bytes that a plane's register moves through: one for each column, and what it feeds back behind the last.
pub const WINDOW_ROOM: usize = MOST_COLUMNS + FEEDBACK_ROOM;

// A row for each place, and one for each check.
pub const PLACE_ROWS: usize = ROW_WIDTH * MOST_PLACES;

pub const CHECK_ROWS: usize = ROW_WIDTH * MOST_CHECKS;

// A row for each coefficient of a locator.
pub const LOCATOR_ROWS: usize = ROW_WIDTH * (MOST_BAD + 1);
