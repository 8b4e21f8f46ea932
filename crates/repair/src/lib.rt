// Repair of a vector by check values: in each byte plane the one codeword within t places, or none.
#![tactic(auto)]

pub mod again;
mod changed;
mod columns;

ghost use Rattle.std.specs.Prelude.{◌≡◌, ◌*◌, ◌≤◌, length, IfOk};
ghost use Rattle.refusal.specs.Number.{answer_of};
ghost use Rattle.code.specs.Settings.{settings as «settings_of»};
ghost use Rattle.repair.specs.Entry.{repair_refusal, none_tried, RepairSays, RepairByAs, RepairBySays};

use code::settings::Settings;
use code::sizes::{CHECKS_ROOM, VALUE_ROOM};
use field::Tables;
use refusal::Refusal;

// The answer where some plane has no codeword near.
const NONE: u32 = 256;

// A struct of numbers, since the C interface has it so, and the definitions of what the calls say read its fields.
//
// What repair answers: 0, or 256 for "none", or the refusal 1, 2, 3 or 18; how many of the n + 2t places it changed, which is 0 for
// "none" and for a refusal; and for each byte plane, how many of its places, columns 1 to n and then checks 1 to 2t, its search tried: up
// to the last wrong one, 0 where none is wrong, and all n + 2t where the plane has no codeword near. These are all 0 for a refusal, and 0
// behind the planes that a value has.
#[repr(C)]
#[derive(Clone, Copy)]
pub struct RepairAnswer {
    pub answer: u32,
    pub changed: u32,
    pub tried: [u8; VALUE_ROOM],
}

// The vector repaired by the check values received, in the first n·w bytes of the output.
pub fn repair(
    n: u32,
    t: u32,
    w: u32,
    vector: &[u8],
    checks: &[u8],
    output: &mut [u8],
) -> RepairAnswer
    ensures { RepairSays n t w vector.now checks.now result.answer result.changed result.tried output.old output.new }
{
    match accepted(n, t, w, vector.len(), checks.len(), output.len()) {
        Err(refusal) => untried(refusal.number()),
        Ok(settings) => {
            let mut own = [0u8; CHECKS_ROOM];
            code::put_checks(settings, vector, &mut own);
            by_difference(settings, vector, &own[..checks.len()], checks, output)
        }
    }
}

// The same by the difference to check values worked out before, the vector's own: checks that agree cost a comparison.
pub fn repair_by(
    n: u32,
    t: u32,
    w: u32,
    vector: &[u8],
    own: &[u8],
    checks: &[u8],
    output: &mut [u8],
) -> RepairAnswer
    ensures { RepairBySays n t w vector.now own.now checks.now result.answer result.changed result.tried output.old output.new }
{
    match accepted(n, t, w, vector.len(), checks.len(), output.len()) {
        Err(refusal) => untried(refusal.number()),
        Ok(_) if own.len() != checks.len() => untried(Refusal::Lengths.number()),
        Ok(settings) => by_difference(settings, vector, own, checks, output),
    }
}

// An answer for which no place is tried, and so none changed.
#[tactic(auto, unfolding(crate::specs::Entry::none_tried))]
pub fn untried(answer: u32) -> RepairAnswer
    ensures { (result.answer ≡ answer) × (result.changed ≡ 0) × (result.tried ≡ none_tried) }
{
    RepairAnswer {
        answer,
        changed: 0,
        tried: [0u8; VALUE_ROOM],
    }
}

// The settings, where they are allowed and the lengths are theirs.
#[tactic(auto, using(std::proofs::lemmas::Bool::Decides::nat_tests, code::proofs::ValidSettings::values_fit), unfolding(crate::specs::Entry::repair_refusal, code::specs::Settings::settings, code::specs::Settings::check_count, code::specs::Settings::value_size))]
fn accepted(
    n: u32,
    t: u32,
    w: u32,
    vector: usize,
    checks: usize,
    room: usize,
) -> Result<Settings, Refusal>
    ensures answer { answer_of result ≡ repair_refusal (settings_of n t w) vector checks room }
    ensures same { IfOk result (λ s. (s.n ≡ n) × (s.t ≡ t) × (s.w ≡ w)) }
    ensures lengths { IfOk result (λ s. (vector ≡ s.n * s.w) × (checks ≡ 2 * s.t * s.w) × (s.n * s.w ≤ room)) }
{
    let settings = Settings::new(n, t, w)?;
    let size = settings.size();
    let long = settings.columns() * size;
    if vector != long || checks != settings.check_count() * size || room < long {
        return Err(Refusal::Lengths);
    }
    Ok(settings)
}

fn by_difference(
    settings: Settings,
    vector: &[u8],
    own: &[u8],
    checks: &[u8],
    output: &mut [u8],
) -> RepairAnswer
    requires vector_len { (length vector.now ≡ settings.n * settings.w) × (settings.n * settings.w ≤ length output.old) }
    requires checks_len { (length own.now ≡ 2 * settings.t * settings.w) × (length checks.now ≡ 2 * settings.t * settings.w) }
    ensures { RepairByAs 0 (settings_of settings.n settings.t settings.w) vector.now own.now checks.now result.answer result.changed result.tried output.old output.new }
{
    let difference = sums::rows::difference(own, checks, settings.check_count(), settings.size());
    if arrays::is_zero(&difference) {
        output[..vector.len()].copy_from_slice(vector);
        return untried(0);
    }
    let tables = Tables::new();
    let found = search::decode(&tables, &difference, settings);
    let tried = found.tried;
    if !arrays::is_zero(&found.left) {
        return RepairAnswer {
            answer: NONE,
            changed: 0,
            tried,
        };
    }
    columns::apply_errors(&tables, vector, &found.rows, settings, output);
    let changed = changed::count_changed(&found.rows, found.turns);
    RepairAnswer {
        answer: 0,
        changed,
        tried,
    }
}
