// The search of all planes for their wrong places: what is looked for in each, and the walk through the places in order.
#![tactic(auto)]

mod locators;
mod places;

ghost use Rattle.std.specs.Prelude.{◌≤◌};
ghost use Rattle.code.specs.Settings.{settings as «settings_of»};
ghost use Rattle.search.specs.Planes.{Decoded};

use code::settings::Settings;
use code::sizes::{CHECK_ROWS, PLACE_ROWS, VALUE_ROOM};
use field::Tables;

// What the search found. For each plane: how many of the roots looked for are left, none where a codeword is near, and how many places
// were tried. In rows, one for each place, what is found there: a 1 for each plane that has a root, and in the end its weighted error. And
// how many turns it took: as many as the plane that tried most. The bytes of all planes stand side by side, so that a step works on all.
#[derive(Clone, Copy)]
pub struct Found {
    pub left: [u8; VALUE_ROOM],
    pub tried: [u8; VALUE_ROOM],
    pub rows: [u8; PLACE_ROWS],
    pub turns: usize,
}

// The errors of all planes at their places, columns 1 to n and then checks 1 to 2t, by the difference of check values: those of a codeword
// in the planes that have no root left.
pub fn decode(tables: &Tables, difference: &[u8; CHECK_ROWS], settings: Settings) -> Found
    requires { 1 ≤ settings.t }
    ensures { Decoded settings.w (settings_of settings.n settings.t settings.w) difference.now result.left result.tried result.rows result.turns }
{
    let sums = sums::rows::syndromes(tables, difference, settings.check_count());
    let sought = locators::seek_all(tables, &sums, settings);
    let mut found = places::walk(tables, &sought, settings);
    errors::weighted::put_found_errors(
        tables,
        &sought.rows,
        &sums,
        sought.roots,
        found.left,
        settings.columns(),
        settings.bad(),
        found.turns,
        &mut found.rows,
    );
    found
}
