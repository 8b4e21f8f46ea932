// The columns' errors, their weights divided out, added to the vector.
ghost use Rattle.std.specs.Prelude.{◌≡◌, ◌+◌, ◌*◌, ◌≤◌, length, get_or};
ghost use Rattle.arrays.specs.Array.{in_front, Filled};
ghost use Rattle.field.specs.Field.{plus, times, power};
ghost use Rattle.code.specs.Size.{most_columns};
ghost use Rattle.lanes.specs.Lanes.{row_width};
ghost use Rattle.code.specs.Polynomial.{first_exponent};
ghost use Rattle.code.specs.Vector.{cut, glued};
ghost use Rattle.repair.specs.Difference.{plus_values};
ghost use Rattle.repair.specs.Steps.Columns.{column_errors};

use code::settings::Settings;
use code::sizes::{MOST_COLUMNS, PLACE_ROWS};
use field::Tables;
use lanes::ROW_WIDTH;
use sums::places::{first_logarithm, progression};

// What divides a column's weight out of its error: powers of the first root, 2 to its logarithm.
fn inverse_weights(tables: &Tables) -> [u8; MOST_COLUMNS]
    ensures { Filled most_columns most_columns (λ k. power 2 (first_exponent + k * first_exponent)) result }
{
    let first = first_logarithm(&tables.logarithms);
    let mut constants = [0u8; MOST_COLUMNS];
    progression(&tables.powers, first, first, &mut constants);
    constants
}

// A value with its errors added, each times a constant; most values have none.
fn add_errors(tables: &Tables, constant: u8, value: &[u8], errors: &[u8], output: &mut [u8])
    requires { (length value.now ≡ length output.old) × (length output.old ≤ row_width) × (length errors.now ≡ row_width) }
    ensures { Filled (length output.old) (length output.old) (λ p. plus (get_or value.now p 0) (times constant (get_or errors.now p 0))) output.new }
{
    if arrays::is_zero(&errors[..ROW_WIDTH]) {
        arrays::copy(output, 0, value, 0, value.len());
        return;
    }
    for p in 0..output.len() {
        output[p] = field::sum(value[p], tables.product(constant, errors[p]));
    }
}

// The vector with the columns' errors added, in front of the output.
pub fn apply_errors(
    tables: &Tables,
    vector: &[u8],
    weighted: &[u8; PLACE_ROWS],
    settings: Settings,
    output: &mut [u8],
)
    requires { (length vector.now ≡ settings.n * settings.w) × (settings.n * settings.w ≤ length output.old) }
    ensures { output.new ≡ in_front (glued (plus_values (cut settings.n settings.w vector.now) (column_errors settings.n 0 settings.w weighted.now))) output.old }
{
    let constants = inverse_weights(tables);
    let size = settings.size();
    for k in 0..settings.columns() {
        let at = k * size;
        let end = at + size;
        let row = ROW_WIDTH * k;
        let row_end = row + ROW_WIDTH;
        add_errors(
            tables,
            constants[k],
            &vector[at..end],
            &weighted[row..row_end],
            &mut output[at..end],
        );
    }
}
