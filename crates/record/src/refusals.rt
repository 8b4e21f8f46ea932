// Where a call is turned down before its frame or buffer is looked at.
ghost use Rattle.std.specs.Prelude.{◌≡◌, [], ◌∷◌, IfOk};
ghost use Rattle.refusal.specs.Number.{answer_of};
ghost use Rattle.code.specs.Settings.{settings, settings_refusal};
ghost use Rattle.record.specs.Refusal.{first_of, number_refusal, round_refusal, slot_refusal, unfinished_refusal, open_refusal, record_refusal};
ghost use Rattle.record.specs.View.{who_in};
ghost use Rattle.record.specs.Steps.Checked.{SettingsAre};

use crate::Identity;
use code::settings::Settings;
use refusal::Refusal;

// The group and the own number in it.
#[tactic(auto, using(std::proofs::lemmas::Bool::Decides::nat_tests), unfolding(crate::specs::Refusal::first_of, crate::specs::Refusal::number_refusal, crate::specs::Refusal::line))]
fn check_group(n: u32, t: u32, w: u32, number: u32) -> Result<Settings, Refusal>
    ensures answer { answer_of result ≡ first_of (settings_refusal (settings n t w) ∷ number_refusal n number ∷ []) }
    ensures same { IfOk result (λ s. SettingsAre n t w s) }
{
    let settings = Settings::new(n, t, w)?;
    if number < 1 || n < number {
        return Err(Refusal::Number);
    }
    Ok(settings)
}

// Opening.
#[tactic(auto, using(std::proofs::lemmas::Bool::Decides::nat_tests, crate::proofs::Tests::open_tests), unfolding(crate::specs::Refusal::first_of, crate::specs::Refusal::line))]
pub fn check_open(n: u32, t: u32, w: u32, number: u32, own: &[u8]) -> Result<(), Refusal>
    ensures { answer_of result ≡ open_refusal (settings n t w) number own.now }
{
    let settings = check_group(n, t, w, number)?;
    if own.len() != settings.size() {
        return Err(Refusal::OwnLength);
    }
    if arrays::is_zero(own) {
        return Err(Refusal::OwnBlank);
    }
    Ok(())
}

// The record, again at each call.
#[tactic(auto, using(std::proofs::lemmas::Bool::Decides::nat_tests, crate::proofs::Tests::record_tests), unfolding(crate::specs::Refusal::first_of, crate::specs::Refusal::line))]
fn check_record(who: &Identity) -> Result<Settings, Refusal>
    ensures answer { answer_of result ≡ record_refusal (who_in who.now) }
    ensures same { IfOk result (λ s. SettingsAre who.now.n who.now.t who.now.w s) }
{
    let settings = check_group(who.n, who.t, who.w, who.number)?;
    if arrays::is_zero(&who.own[..settings.size()]) {
        return Err(Refusal::OwnBlank);
    }
    Ok(settings)
}

// Taking, sending and closing: the record, and the round.
#[tactic(auto, using(std::proofs::lemmas::Bool::Decides::nat_tests), unfolding(crate::specs::Refusal::first_of, crate::specs::Refusal::round_refusal, crate::specs::Refusal::line))]
pub fn check_close(who: &Identity, round: u32) -> Result<Settings, Refusal>
    ensures answer { answer_of result ≡ first_of (record_refusal (who_in who.now) ∷ round_refusal round ∷ []) }
    ensures same { IfOk result (λ s. SettingsAre who.now.n who.now.t who.now.w s) }
{
    let settings = check_record(who)?;
    if round < 1 || 3 < round {
        return Err(Refusal::Round);
    }
    Ok(settings)
}

// Taking, before the frame is looked at: as for closing, and the slot.
#[tactic(auto, using(std::proofs::lemmas::Bool::Decides::nat_tests), unfolding(crate::specs::Refusal::first_of, crate::specs::Refusal::slot_refusal, crate::specs::Refusal::line))]
pub fn check_slot(who: &Identity, round: u32, slot: u32) -> Result<Settings, Refusal>
    ensures answer { answer_of result ≡ first_of (record_refusal (who_in who.now) ∷ round_refusal round ∷ slot_refusal who.now.n who.now.number slot ∷ []) }
    ensures same { IfOk result (λ s. SettingsAre who.now.n who.now.t who.now.w s) }
{
    let settings = check_close(who, round)?;
    if slot < 1 || who.n < slot || slot == who.number {
        return Err(Refusal::Slot);
    }
    Ok(settings)
}

// Asking for the result: the record, and that its rounds are closed.
#[tactic(auto, using(std::proofs::lemmas::Bool::Decides::nat_tests), unfolding(crate::specs::Refusal::first_of, crate::specs::Refusal::unfinished_refusal, crate::specs::Refusal::line))]
pub fn check_ask(who: &Identity, round: u32) -> Result<Settings, Refusal>
    ensures answer { answer_of result ≡ first_of (record_refusal (who_in who.now) ∷ unfinished_refusal round ∷ []) }
    ensures same { IfOk result (λ s. SettingsAre who.now.n who.now.t who.now.w s) }
{
    let settings = check_record(who)?;
    if round != 4 {
        return Err(Refusal::Unfinished);
    }
    Ok(settings)
}
