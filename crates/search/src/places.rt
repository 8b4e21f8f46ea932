// The walk through the places, columns 1 to n and then checks 1 to 2t, of all planes side by side.
//
// A turn tries one place: every plane that has roots left to find counts it, and where the place is a root, marks it and has one fewer.
// A plane with no root left is passed over: its number no longer rises and its marks no longer change. When no plane has any left the
// walk ends. Planes that a value has not look for no root.
ghost use Rattle.std.specs.Prelude.{◌≡◌, cond, ℕ, ◌+◌, ◌*◌, ◌≤◌, ◌<◌, eqb, get_or};
ghost use Rattle.lanes.specs.Lanes.{table_room};
ghost use Rattle.code.specs.Size.{most_bad, value_room, place_rows};
ghost use Rattle.errors.specs.Roots.{Fits};
ghost use Rattle.search.specs.Steps.{PlaceCounted, «root_found», RootsFound, SameValues, WalkedThrough};

use crate::Found;
use crate::locators::SoughtAll;
use code::settings::Settings;
use code::sizes::{PLACE_ROWS, VALUE_ROOM};
use errors::roots::longest;
use field::Tables;
use lanes::{ROW_WIDTH, put_row_tables};
use sums::places::{LOCATOR_TABLES, Polynomials, SHORT_LOCATOR, SHORT_TABLES, place_exponent};

// How many places a plane has tried after a turn.
fn tried_after(tried: u8, left: u8) -> u8
    requires { tried < 255 }
    ensures { result ≡ tried + cond (eqb left 0) 0 1 }
{
    if left == 0 { tried } else { tried + 1 }
}

// One place more is counted for each plane that has roots left.
fn count_place(left: &[u8; VALUE_ROOM], tried: &mut [u8; VALUE_ROOM])
    requires { (p : ℕ) → p < value_room → get_or tried.old p 0 < 255 }
    ensures { PlaceCounted left.now tried.old tried.new }
{
    for p in 0..VALUE_ROOM {
        tried[p] = tried_after(tried[p], left[p]);
    }
}

// 1 where a plane finds a root, by how many it has left and the value of its polynomial here.
#[tactic(auto, unfolding(crate::specs::Steps::root_found))]
fn root_found(left: u8, here: u8) -> u8
    ensures { (result ≡ root_found left here) × (result ≤ left) }
{
    if left != 0 && here == 0 { 1 } else { 0 }
}

// The planes that find a root, by a row of values, are marked from `at` on.
fn find_roots(
    values: &[u8; ROW_WIDTH],
    left: &mut [u8; VALUE_ROOM],
    marks: &mut [u8; PLACE_ROWS],
    at: usize,
)
    requires { at + value_room ≤ place_rows }
    ensures { RootsFound value_room at values.now left.old left.new marks.old marks.new }
{
    for p in 0..VALUE_ROOM {
        let found = root_found(left[p], values[p]);
        marks[at + p] = found;
        left[p] -= found;
    }
}

// The places tried one after the other.
fn try_places(
    tables: &Tables,
    polynomials: &Polynomials,
    roots: [u8; VALUE_ROOM],
    settings: Settings,
) -> Found
    requires { Fits settings.t polynomials.now.rows.now roots × SameValues polynomials.now.many polynomials.now.rows.now roots }
    ensures { WalkedThrough settings.n settings.t polynomials.now.rows.now roots result }
{
    let n = settings.columns();
    let count = settings.check_count();
    let places = n + count;
    let mut left = roots;
    let mut tried = [0u8; VALUE_ROOM];
    let mut rows = [0u8; PLACE_ROWS];
    let mut turns = 0;
    for j in 0..places {
        if arrays::is_zero(&left) {
            break;
        }
        let values = polynomials.values(&tables.powers, place_exponent(n, count, j));
        count_place(&left, &mut tried);
        find_roots(&values, &mut left, &mut rows, ROW_WIDTH * j);
        turns += 1;
    }
    Found {
        left,
        tried,
        rows,
        turns,
    }
}

// The same by tables of multiples that are made in so much room.
fn walk_in<const ROOM: usize>(
    tables: &Tables,
    many: usize,
    sought: &SoughtAll,
    settings: Settings,
) -> Found
    requires le_many { (1 ≤ many) × (many ≤ most_bad + 1) × (table_room * many ≤ ROOM) × (ROOM ≤ LOCATOR_TABLES) }
    requires fits { Fits settings.t sought.now.rows sought.now.roots × SameValues many sought.now.rows sought.now.roots }
    ensures { WalkedThrough settings.n settings.t sought.now.rows sought.now.roots result }
{
    let mut multiples = [0u8; ROOM];
    put_row_tables(&sought.rows, 1, many, &mut multiples);
    let polynomials = Polynomials {
        rows: &sought.rows,
        multiples: &multiples,
        many,
    };
    try_places(tables, &polynomials, sought.roots, settings)
}

// The walk for the roots of the polynomials in rows. Most repairs concern one or two places, and an array for all tables would take
// longer to clear than they take to walk to.
pub fn walk(tables: &Tables, sought: &SoughtAll, settings: Settings) -> Found
    requires { Fits settings.t sought.now.rows sought.now.roots }
    ensures { WalkedThrough settings.n settings.t sought.now.rows sought.now.roots result }
{
    let many = longest(sought.roots) + 1;
    if many <= SHORT_LOCATOR {
        walk_in::<SHORT_TABLES>(tables, many, sought, settings)
    } else {
        walk_in::<LOCATOR_TABLES>(tables, many, sought, settings)
    }
}
