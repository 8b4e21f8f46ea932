// The generator, and what the register that divides by it feeds back.
ghost use Rattle.std.specs.Prelude.{◌≡◌, ◌∷◌, ℕ, ◌≤◌, length, get_or};
ghost use Rattle.arrays.specs.Array.{Filled};
ghost use Rattle.field.specs.Field.{plus, times};
ghost use Rattle.code.specs.Size.{most_checks, generator_room};
ghost use Rattle.code.specs.Polynomial.{Roots, generator as «generator-of»};
ghost use Rattle.code.specs.Steps.Windows.{FeedbackOf};

use crate::sizes::{FEEDBACK_ROOM, GENERATOR_ROOM, MOST_CHECKS};
use field::Tables;

// The polynomial becomes its product by (x + c), from the new highest coefficient on. Past its coefficients the array holds zeros.
fn times_factor(tables: &Tables, c: u8, polynomial: &mut [u8; GENERATOR_ROOM], many: usize)
    requires { (many ≤ most_checks) × (length polynomial.old ≡ generator_room) × ((i : ℕ) → many ≤ i → get_or polynomial.old i 0 ≡ 0) }
    ensures { Filled generator_room generator_room (λ i. plus (get_or (0 ∷ polynomial.old) i 0) (times c (get_or polynomial.old i 0))) polynomial.new }
{
    for i in (0..many).rev() {
        let below = polynomial[i];
        let here = polynomial[i + 1];
        polynomial[i + 1] = field::sum(below, tables.product(c, here));
    }
    polynomial[0] = tables.product(c, polynomial[0]);
}

// The generator's coefficients, zeros behind them: the generator for one root fewer, times one more factor; for no roots it is 1.
pub fn generator(tables: &Tables, roots: &[u8; MOST_CHECKS], many: usize) -> [u8; GENERATOR_ROOM]
    requires { Roots roots.now × (many ≤ most_checks) }
    ensures { Filled generator_room generator_room (λ i. get_or (generator-of many) i 0) result }
{
    if many == 0 {
        let mut coefficients = [0u8; GENERATOR_ROOM];
        coefficients[0] = 1;
        return coefficients;
    }
    let mut coefficients = generator(tables, roots, many - 1);
    times_factor(tables, roots[many - 1], &mut coefficients, many);
    coefficients
}

// The generator over its lowest coefficient, without that one: what the register feeds back. Zeros stand behind it.
pub fn feedback(
    tables: &Tables,
    generator: &[u8; GENERATOR_ROOM],
    many: usize,
) -> [u8; FEEDBACK_ROOM]
    requires { many ≤ most_checks }
    ensures { FeedbackOf many generator.now result }
{
    let lowest = tables.inverse(generator[0]);
    let mut rest = [0u8; FEEDBACK_ROOM];
    for (j, coefficient) in generator[1..many + 1].iter().enumerate() {
        rest[j] = tables.product(*coefficient, lowest);
    }
    rest
}
