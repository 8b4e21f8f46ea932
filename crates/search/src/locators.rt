// What is looked for in each plane: the roots of its locator.
ghost use Rattle.std.specs.Prelude.{◌≡◌, ◌*◌, ◌≤◌, ◌<◌, length, IfSome};
ghost use Rattle.lanes.specs.Lanes.{row_width};
ghost use Rattle.code.specs.Size.{most_bad};
ghost use Rattle.search.specs.Steps.{ShortPut, FoundPut, ShortAll, AllSought};

use code::settings::Settings;
use code::sizes::{CHECK_ROWS, LOCATOR_ROWS, VALUE_ROOM};
use field::Tables;
use field::long::LongTables;
use lanes::ROW_WIDTH;
use locator::berlekamp::locate_all;
use locator::plane::put_plane;
use locator::single::is_geometric;

// For each plane how many roots, and the coefficients in rows: a byte of each plane side by side, so that a step works on all planes.
#[derive(Clone, Copy)]
pub struct SoughtAll {
    pub roots: [u8; VALUE_ROOM],
    pub rows: [u8; LOCATOR_ROWS],
}

// The locator of power sums in geometric progression: the ratio is its one root, and where the sums are 0 it has none.
fn put_short(rows: &mut [u8; LOCATOR_ROWS], p: usize, first: u8, ratio: u8) -> u8
    requires { p < row_width }
    ensures { ShortPut p first ratio result rows.old rows.new }
{
    if first == 0 {
        rows[p] = 1;
        0
    } else {
        rows[p] = ratio;
        rows[ROW_WIDTH + p] = 1;
        1
    }
}

// A locator that was worked out. One that is longer than t is none: a polynomial without roots stands for it, and one root to find, so that
// the search goes through all places and finds nothing.
fn put_found(rows: &mut [u8; LOCATOR_ROWS], p: usize, locator: &[u8], t: usize) -> u8
    requires { (p < row_width) × (1 ≤ length locator.now) × (t ≤ most_bad) }
    ensures { FoundPut p t locator.now result rows.old rows.new }
{
    if t + 1 < locator.len() {
        rows[p] = 1;
        1
    } else {
        put_plane(rows, p, locator);
        (locator.len() - 1) as u8
    }
}

// The locators where in each plane at most one place is wrong, which shows in the power sums: they need no steps.
fn seek_short(tables: &Tables, sums: &[u8; CHECK_ROWS], settings: Settings) -> Option<SoughtAll>
    requires { 1 ≤ settings.t }
    ensures { IfSome result (λ found. ShortAll settings.w (2 * settings.t) sums.now found.roots found.rows) }
{
    let count = settings.check_count();
    let mut roots = [0u8; VALUE_ROOM];
    let mut rows = [0u8; LOCATOR_ROWS];
    for p in 0..settings.size() {
        let first = sums[p];
        let inverse = tables.inverse(first);
        let ratio = tables.product(sums[ROW_WIDTH + p], inverse);
        if !is_geometric(tables, sums, p, ratio, count) {
            return None;
        }
        roots[p] = put_short(&mut rows, p, first, ratio);
    }
    Some(SoughtAll { roots, rows })
}

// The locators of all planes worked out.
fn seek_long(tables: &Tables, sums: &[u8; CHECK_ROWS], settings: Settings) -> SoughtAll
    requires { 1 ≤ settings.t }
    ensures { AllSought settings.w (2 * settings.t) settings.t sums.now result.roots result.rows }
{
    let planes = settings.size();
    let found = locate_all(
        &LongTables::new(tables),
        sums,
        settings.check_count(),
        planes,
    );
    let mut roots = [0u8; VALUE_ROOM];
    let mut rows = [0u8; LOCATOR_ROWS];
    for (p, plane) in found[..planes].iter().enumerate() {
        roots[p] = put_found(&mut rows, p, plane.polynomial(), settings.bad());
    }
    SoughtAll { roots, rows }
}

// What is looked for in each plane. Where no plane has more than one place wrong no locator is worked out.
pub fn seek_all(tables: &Tables, sums: &[u8; CHECK_ROWS], settings: Settings) -> SoughtAll
    requires { 1 ≤ settings.t }
    ensures { AllSought settings.w (2 * settings.t) settings.t sums.now result.roots result.rows }
{
    match seek_short(tables, sums, settings) {
        Some(found) => found,
        None => seek_long(tables, sums, settings),
    }
}
