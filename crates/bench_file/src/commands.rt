// The commands behind the group's: their lengths, their faults, and what they say.
ghost use Rattle.std.specs.Prelude.{◌≡◌, true, List, ℕ, ◌+◌, ◌≤◌, ◌<◌, ◌^◌, length, get_or, drop, IfOk};
ghost use Rattle.code.specs.Size.{most_columns, checks_room};
ghost use Rattle.refusal.specs.Number.{answer_of};
ghost use Rattle.bench_file.specs.Scenario.{Scenario};
ghost use Rattle.bench_file.specs.Command.{head_size, body_size, command_size, form_fault, is_column, column_refusal, message_refusal, checks_round_refusal, operand_refusal, command_refusal, after_command};
ghost use Rattle.bench_file.specs.Steps.Places.{group_of, MessageRange, Located};
ghost use Rattle.bench_file.specs.Steps.CommandAt.{code_of, Says, Begins, InRange, value_fault, Accepted, Stepped};

use crate::places::Places;
use code::settings::Settings;
use record::frames;
use refusal::Refusal;

// The byte at a place; 0 past the end.
pub fn byte_at(file: &[u8], at: usize) -> u32
    ensures { (result ≡ get_or file.now at 0) × (result < 256) }
{
    u32::from(file.get(at).copied().unwrap_or(0))
}

// A command with its operands in front of the value or the check values: an own value, a value and check values of a bad column's message,
// and the end.
#[derive(Clone, Copy)]
pub enum Command {
    Own { column: u32 },
    Value { from: u32, to: u32 },
    Checks { round: u32, from: u32, to: u32 },
    End,
}

// The command that begins at a place; none, it is unknown.
fn command_at(file: &[u8], at: usize) -> Option<Command>
    requires { at ≤ length file.now }
    ensures { Begins (drop at file.now) result }
{
    let first = byte_at(file, at + 1);
    let second = byte_at(file, at + 2);
    let third = byte_at(file, at + 3);
    match byte_at(file, at) {
        4 => Some(Command::Own { column: first }),
        2 => Some(Command::Value {
            from: first,
            to: second,
        }),
        3 => Some(Command::Checks {
            round: first,
            from: second,
            to: third,
        }),
        15 => Some(Command::End),
        _ => None,
    }
}

impl Command {
    // The bytes in front of a command's value or check values.
    #[tactic(auto, unfolding(crate::specs::Command::head_size))]
    fn head_size(self) -> usize
        ensures value { result ≡ head_size (code_of self) }
        ensures small { (1 ≤ result) × (result ≤ 4) }
    {
        match self {
            Command::Own { .. } => 2,
            Command::Value { .. } => 3,
            Command::Checks { .. } => 4,
            Command::End => 1,
        }
    }

    // The bytes of its value or check values; n plays no part.
    #[tactic(auto, using(crate::proofs::OneCommand::Faults::operand_alike, crate::proofs::OneCommand::Faults::small_settings), unfolding(crate::specs::Command::body_size))]
    fn body_size(self, settings: Settings) -> usize
        ensures value { result ≡ body_size (group_of settings) (code_of self) }
        ensures small { result ≤ checks_room }
    {
        match self {
            Command::Own { .. } | Command::Value { .. } => frames::operand_size(
                settings.t, settings.w, 1,
            ),
            Command::Checks { .. } => frames::operand_size(settings.t, settings.w, 2),
            Command::End => 0,
        }
    }

    #[tactic(auto, unfolding(crate::specs::Command::command_size))]
    fn size(self, settings: Settings) -> usize
        ensures value { result ≡ command_size (group_of settings) (code_of self) }
        ensures small { (1 ≤ result) × (result ≤ 4 + checks_room) }
    {
        self.head_size() + self.body_size(settings)
    }

    // The form, of a known command with so many bytes left: out of order, cut short, bytes after the end.
    #[tactic(auto, using(std::proofs::lemmas::Bool::Decides::nat_tests), unfolding(crate::specs::Command::form_fault, crate::specs::Command::is_known))]
    fn check_form(self, left: usize, settings: Settings, late: bool) -> Result<(), Refusal>
        ensures answer { answer_of result ≡ form_fault (group_of settings) late (code_of self) left }
        ensures fits { IfOk result (λ _. command_size (group_of settings) (code_of self) ≤ left) }
    {
        if matches!(self, Command::Own { .. }) && late {
            return Err(Refusal::Form);
        }
        if left < self.size(settings) {
            return Err(Refusal::Form);
        }
        if matches!(self, Command::End) && 1 < left {
            return Err(Refusal::Form);
        }
        Ok(())
    }

    // The operands.
    fn check_operand(self, places: &Places) -> Result<(), Refusal>
        ensures answer { (file : List ℕ) (f : Scenario) (bs : List ℕ) → Located file places.now f → Says bs self → answer_of result ≡ operand_refusal f bs }
        ensures inside { IfOk result (λ _. InRange self) }
    {
        match self {
            Command::Own { column } => check_column(places, column),
            Command::Value { from, to } => check_message(places, 1, from, to),
            Command::Checks { round, from, to } => {
                check_round(round)?;
                check_message(places, round, from, to)
            }
            Command::End => Ok(()),
        }
    }

    // An own value: it is not blank.
    fn check_value(self, file: &[u8], at: usize, settings: Settings) -> Result<(), Refusal>
        requires { at + command_size (group_of settings) (code_of self) ≤ length file.now }
        ensures { answer_of result ≡ value_fault file.now at (code_of self) settings.w }
    {
        if let Command::Own { .. } = self {
            let start = at + 2;
            let end = start + settings.size();
            if arrays::is_zero(&file[start..end]) {
                return Err(Refusal::OwnBlank);
            }
        }
        Ok(())
    }

    // The places after a command that is not turned down.
    fn put(self, at: usize, places: &mut Places)
        requires { InRange self × (at + 4 < 2 ^ 64) }
        ensures { (file : List ℕ) (f : Scenario) → Accepted file f at self places.old → Located file places.new (after_command f (drop at file)) }
    {
        let body = at + self.head_size();
        match self {
            Command::Own { column } => places.put_own(column, body),
            Command::Value { from, to } => places.put_message(1, from, to, body),
            Command::Checks { round, from, to } => places.put_message(round, from, to, body),
            Command::End => {}
        }
    }
}

#[tactic(auto, using(std::proofs::lemmas::Bool::Decides::nat_tests), unfolding(crate::specs::Command::is_column))]
fn is_column(n: u32, column: u32) -> bool
    ensures value { result ≡ is_column n column }
    ensures inside { result ≡ true → (1 ≤ column) × (column ≤ n) }
{
    1 <= column && column <= n
}

// An own value: its column is one of 1 to n, and not owned yet.
fn check_column(places: &Places, column: u32) -> Result<(), Refusal>
    ensures answer { (file : List ℕ) (f : Scenario) → Located file places.now f → answer_of result ≡ column_refusal f column }
    ensures inside { IfOk result (λ _. (1 ≤ column) × (column ≤ most_columns)) }
{
    if !is_column(places.settings.n, column) {
        return Err(Refusal::Operand);
    }
    if places.is_good(column) {
        return Err(Refusal::Operand);
    }
    Ok(())
}

// A message: its columns are of 1 to n, it is from a bad one to a good one, and the first of its round.
fn check_message(places: &Places, round: u32, from: u32, to: u32) -> Result<(), Refusal>
    requires { (1 ≤ round) × (round ≤ 3) }
    ensures answer { (file : List ℕ) (f : Scenario) → Located file places.now f → answer_of result ≡ message_refusal f round from to }
    ensures inside { IfOk result (λ _. MessageRange round from to) }
{
    if !is_column(places.settings.n, from) {
        return Err(Refusal::Operand);
    }
    if !is_column(places.settings.n, to) {
        return Err(Refusal::Operand);
    }
    if places.is_good(from) {
        return Err(Refusal::Operand);
    }
    if !places.is_good(to) {
        return Err(Refusal::Operand);
    }
    if places.message(round, from, to).is_some() {
        return Err(Refusal::Operand);
    }
    Ok(())
}

// Checks are of rounds 2 and 3.
#[tactic(auto, using(std::proofs::lemmas::Bool::Decides::nat_tests), unfolding(crate::specs::Command::checks_round_refusal))]
fn check_round(round: u32) -> Result<(), Refusal>
    ensures answer { answer_of result ≡ checks_round_refusal 3 round }
    ensures inside { IfOk result (λ _. (2 ≤ round) × (round ≤ 3)) }
{
    if round == 2 || round == 3 {
        return Ok(());
    }
    Err(Refusal::Operand)
}

// The command at a place, where it is not turned down: by its form, then its operands, then its value.
fn checked(file: &[u8], at: usize, places: &Places) -> Result<Command, Refusal>
    requires { at ≤ length file.now }
    ensures answer { (f : Scenario) → Located file.now places.now f → answer_of result ≡ command_refusal f (drop at file.now) }
    ensures says { IfOk result (λ command. Says (drop at file.now) command × InRange command × (at + command_size (group_of places.now.settings) (code_of command) ≤ length file.now)) }
{
    let Some(command) = command_at(file, at) else {
        return Err(Refusal::Form);
    };
    command.check_form(file.len() - at, places.settings, places.late)?;
    command.check_operand(places)?;
    command.check_value(file, at, places.settings)?;
    Ok(command)
}

// One command read: the place behind it, and nothing at the end.
pub fn step(file: &[u8], at: usize, places: &mut Places) -> Result<Option<usize>, Refusal>
    requires { at ≤ length file.now }
    ensures { (f : Scenario) → Located file.now places.old f → Stepped f file.now at result places.new }
{
    let command = checked(file, at, places)?;
    if let Command::End = command {
        return Ok(None);
    }
    let next = at + command.size(places.settings);
    command.put(at, places);
    Ok(Some(next))
}
