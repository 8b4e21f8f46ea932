// The settings of a group, checked.
ghost use Rattle.std.specs.Prelude.{◌≡◌, ◌+◌, ◌*◌, ◌≤◌, IfOk};
ghost use Rattle.refusal.specs.Number.{answer_of};
ghost use Rattle.code.specs.Settings.{settings as «settings_of», settings_refusal};
ghost use Rattle.code.specs.Size.{most_columns, most_bad, most_checks, value_room};

use crate::sizes::{MOST_COLUMNS, VALUE_ROOM};
use refusal::Refusal;

// n columns, t the bad ones borne, w the bytes of a value.
#[derive(Clone, Copy)]
pub struct Settings {
    pub n: u32,
    pub t: u32,
    pub w: u32,
    pub ghost allowed: { settings_refusal (settings_of n t w) ≡ 0 },
}

#[tactic(auto, using(std::proofs::lemmas::Bool::Decides::nat_tests), unfolding(crate::specs::Settings::settings, crate::specs::Settings::settings_refusal))]
impl Settings {
    // That n is below 3t + 1 is said without a product that could wrap.
    pub fn new(n: u32, t: u32, w: u32) -> Result<Self, Refusal>
        ensures answer { answer_of result ≡ settings_refusal (settings_of n t w) }
        ensures same { IfOk result (λ s. (s.n ≡ n) × (s.t ≡ t) × (s.w ≡ w)) }
    {
        if n < 1 || n > MOST_COLUMNS as u32 {
            return Err(Refusal::Columns);
        }
        if (n - 1) / 3 < t {
            return Err(Refusal::Bad);
        }
        if w < 1 || w > VALUE_ROOM as u32 {
            return Err(Refusal::Width);
        }
        Ok(Settings { n, t, w })
    }

    pub fn columns(self) -> usize
        ensures value { result ≡ self.n }
        ensures bounds { (1 ≤ result) × (result ≤ most_columns) }
    {
        self.n as usize
    }

    pub fn bad(self) -> usize
        ensures value { result ≡ self.t }
        ensures bounds { (result ≤ most_bad) × (3 * result + 1 ≤ self.n) }
    {
        self.t as usize
    }

    // The bytes of a value.
    pub fn size(self) -> usize
        ensures value { result ≡ self.w }
        ensures bounds { (1 ≤ result) × (result ≤ value_room) }
    {
        self.w as usize
    }

    pub fn check_count(self) -> usize
        ensures value { result ≡ 2 * self.t }
        ensures bounds { result ≤ most_checks }
    {
        2 * self.bad()
    }
}
