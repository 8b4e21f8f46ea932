// The Reed-Solomon code over byte planes: check values.
#![tactic(auto)]

mod division;
mod generator;
pub mod roots;
pub mod settings;
pub mod sizes;
mod storing;

ghost use Rattle.std.specs.Prelude.{◌≡◌, ◌*◌, ◌≤◌, length};
ghost use Rattle.refusal.specs.Number.{answer_of};
ghost use Rattle.code.specs.Settings.{settings as «settings_of»};
ghost use Rattle.code.specs.Entry.{ChecksSays, ChecksPut};

use crate::settings::Settings;
use field::Tables;
use refusal::Refusal;

// The check values of a vector of n values, in the first 2t·w bytes of the output. Settings that are not allowed and other lengths are
// refused.
pub fn check_values(n: u32, t: u32, w: u32, vector: &[u8], output: &mut [u8]) -> Result<(), Refusal>
    ensures { ChecksSays n t w vector.now (answer_of result) output.old output.new }
{
    let settings = Settings::new(n, t, w)?;
    let columns = settings.columns();
    let count = settings.check_count();
    let size = settings.size();
    if vector.len() != columns * size || output.len() < count * size {
        return Err(Refusal::Lengths);
    }
    put_checks(settings, vector, output);
    Ok(())
}

// The same where the lengths are known to be right.
pub fn put_checks(settings: Settings, vector: &[u8], output: &mut [u8])
    requires { (length vector.now ≡ settings.n * settings.w) × (2 * settings.t * settings.w ≤ length output.old) }
    ensures { ChecksPut (settings_of settings.n settings.t settings.w) vector.now output.old output.new }
{
    let n = settings.columns();
    let size = settings.size();
    let count = settings.check_count();
    let tables = Tables::new();
    let generator = generator::generator(&tables, &roots::roots(), count);
    let feedback = generator::feedback(&tables, &generator, count);
    let windows = division::divide(&feedback, count, vector, n, size);
    storing::store(&windows, n, count, size, output);
}
