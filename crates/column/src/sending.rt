// Writing the frame of a round.
ghost use Rattle.std.specs.Prelude.{◌≡◌, [], ◌∷◌, length};
ghost use Rattle.record.specs.Frame.{operand_size};
ghost use Rattle.record.specs.Refusal.{first_of, record_refusal, round_refusal};
ghost use Rattle.record.specs.Steps.Checked.{SettingsAre};
ghost use Rattle.column.specs.Call.{Operand};
ghost use Rattle.record.specs.View.{settings_of, who_in, found_in};

use code::settings::Settings;
use record::{Findings, Identity};
use rounds::{closing, coded};

// The operand of the round: the own value, the checks of V, the checks of Y.
pub fn put_operand(
    who: &Identity,
    settings: Settings,
    round: u32,
    found: &Findings,
    operand: &mut [u8],
)
    requires fine { (first_of (record_refusal (who_in who.now) ∷ round_refusal round ∷ []) ≡ 0) × SettingsAre who.now.n who.now.t who.now.w settings }
    requires long { length operand.old ≡ operand_size (settings_of who.now) round }
    ensures { Operand round (who_in who.now) (found_in (settings_of who.now) round found.now) operand.new }
{
    if round == 1 {
        operand.copy_from_slice(&who.own[..settings.size()]);
        return;
    }
    let vector = closing::checked_copy(round, found);
    coded::put_checks(settings, &vector, operand);
}
