// A vector with its check values.
ghost use Rattle.std.specs.Prelude.{◌≡◌, true, ◌*◌, ◌≤◌, length, take};
ghost use Rattle.code.specs.Settings.{settings as «settings_of», check_count, value_size};
ghost use Rattle.code.specs.Size.{vector_room, checks_room};
ghost use Rattle.code.specs.Vector.{has_checks};
ghost use Rattle.code.specs.Entry.{values_in};
ghost use Rattle.record.specs.Frame.{checks_in};

use code::settings::Settings;
use code::sizes::{CHECKS_ROOM, VECTOR_ROOM};
use record::frames;

// The check values of a vector that stands in the front of an array.
pub fn put_checks(settings: Settings, values: &[u8], operand: &mut [u8])
    requires { (length values.now ≡ vector_room) × (length operand.old ≡ check_count (settings_of settings.n settings.t settings.w) * value_size (settings_of settings.n settings.t settings.w)) }
    ensures { has_checks (settings_of settings.n settings.t settings.w) (values_in (settings_of settings.n settings.t settings.w) settings.n values.now) (checks_in (settings_of settings.n settings.t settings.w) operand.new) ≡ true }
{
    let end = record::vector_size(settings);
    code::put_checks(settings, &values[..end], operand);
}

// A vector and its check values, both from the front of their array on.
#[derive(Clone, Copy)]
pub struct Coded {
    pub settings: Settings,
    pub vector: [u8; VECTOR_ROOM],
    pub checks: [u8; CHECKS_ROOM],
    pub ghost checked: { has_checks (settings_of settings.n settings.t settings.w) (values_in (settings_of settings.n settings.t settings.w) settings.n vector) (checks_in (settings_of settings.n settings.t settings.w) (take (check_count (settings_of settings.n settings.t settings.w) * value_size (settings_of settings.n settings.t settings.w)) checks)) ≡ true },
}

impl Coded {
    ghost use Rattle.rounds.specs.Steps.Senders.{coded_settings, coded_vector, checks_size};

    pub fn new(settings: Settings, vector: [u8; VECTOR_ROOM]) -> Self
        ensures { (coded_settings result ≡ settings_of settings.n settings.t settings.w) × (coded_vector result ≡ values_in (settings_of settings.n settings.t settings.w) settings.n vector) }
    {
        let mut checks = [0u8; CHECKS_ROOM];
        let end = frames::operand_size(settings.t, settings.w, 2);
        put_checks(settings, &vector, &mut checks[..end]);
        Coded {
            settings,
            vector,
            checks,
        }
    }

    // The bytes of its check values.
    pub fn checks_size(&self) -> usize
        ensures { (result ≡ checks_size (coded_settings self.now)) × (result ≤ checks_room) }
    {
        frames::operand_size(self.settings.t, self.settings.w, 2)
    }
}
