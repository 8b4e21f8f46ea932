// A bench file, command by command.
ghost use Rattle.std.specs.Prelude.{◌≡◌, ◌≤◌, length, drop, IfOk};
ghost use Rattle.refusal.specs.Number.{answer_of};
ghost use Rattle.bench_file.specs.Scenario.{only_settings};
ghost use Rattle.bench_file.specs.File.{group_in, group_refusal, commands_from, parse_file};
ghost use Rattle.bench_file.specs.Steps.Places.{Located};
ghost use Rattle.bench_file.specs.Steps.Reading.{ParsedAs};

use crate::commands::byte_at;
use crate::places::Places;
use crate::reader;
use code::settings::Settings;
use refusal::Refusal;

// The longest file that is read.
pub const LONGEST_FILE: usize = 65536;

// The group command: its settings, where it is not turned down.
#[tactic(auto, using(std::proofs::lemmas::Bool::Decides::nat_tests), unfolding(crate::specs::File::group_refusal, crate::specs::File::group_in, crate::specs::Command::command_in, record::specs::Refusal::first_of))]
fn group(file: &[u8]) -> Result<Places, Refusal>
    ensures answer { answer_of result ≡ group_refusal file.now }
    ensures located { IfOk result (λ places. Located file.now places (only_settings (group_in file.now))) }
{
    let command = byte_at(file, 0);
    if command != 1 || file.len() < 4 {
        return Err(Refusal::Form);
    }
    let settings = Settings::new(byte_at(file, 1), byte_at(file, 2), byte_at(file, 3))?;
    Ok(Places::only_settings(settings.n, settings.t, settings.w))
}

// The commands behind the group's; a file without an end command is cut short.
fn parse_commands(file: &[u8], group: Places) -> Result<Places, Refusal>
    requires { (4 ≤ length file.now) × Located file.now group (only_settings (group_in file.now)) }
    ensures { ParsedAs (commands_from (length file.now) (only_settings (group_in file.now)) (drop 4 file.now)) file.now result }
{
    let mut places = group;
    let mut at = 4;
    while let Some(next) = reader::step_from(file, at, &mut places)? {
        at = next;
    }
    Ok(places)
}

// A whole file: one that is too long is refused before any command is read.
#[tactic(auto, using(crate::proofs::WholeFile::Commands::parsed_long))]
pub fn parse(file: &[u8]) -> Result<Places, Refusal>
    ensures { ParsedAs (parse_file file.now) file.now result }
{
    if LONGEST_FILE < file.len() {
        return Err(Refusal::Form);
    }
    let places = group(file)?;
    parse_commands(file, places)
}
