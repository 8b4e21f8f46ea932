// Frames: their lengths, and where one is turned down.
ghost use Rattle.std.specs.Prelude.{◌≡◌, [], ◌∷◌, ◌≤◌, length, IfOk, MatchOption};
ghost use Rattle.refusal.specs.Number.{answer_of};
ghost use Rattle.arrays.specs.Array.{in_front};
ghost use Rattle.code.specs.Settings.{settings as «settings_of»};
ghost use Rattle.code.specs.Size.{most_columns, value_room, checks_room};
ghost use Rattle.record.specs.Frame.{header_size, operand_size, frame_size, longest_frame, command_round, round_in, header};
ghost use Rattle.record.specs.Refusal.{frame_refusal};
ghost use Rattle.record.specs.Steps.Due.{there_by};

use crate::{HEADER, Identity};
use code::settings::Settings;
use refusal::Refusal;

// The round that a command belongs to, if it is a known one.
#[tactic(auto, unfolding(crate::specs::Frame::command_round, crate::specs::Frame::command))]
pub fn command_round(command: u8) -> Option<u32>
    ensures { MatchOption result (command_round command ≡ 0) (λ m. (m ≡ command_round command) × (1 ≤ m) × (m ≤ 3)) }
{
    match command {
        0x11 => Some(1),
        0x22 => Some(2),
        0x33 => Some(3),
        _ => None,
    }
}

// The bytes of a round's operand: a value, or 2t check values. How many columns there are has no part in it.
pub fn operand_size(t: u32, w: u32, round: u32) -> usize
    requires { (t ≤ 10) × (w ≤ value_room) }
    ensures { (result ≡ operand_size (settings_of 0 t w) round) × (result ≤ checks_room) }
{
    if round == 1 {
        return w as usize;
    }
    (2 * t * w) as usize
}

// The whole length of a round's frame, with the header.
pub fn frame_size(settings: Settings, round: u32) -> usize
    ensures { (result ≡ frame_size (settings_of settings.n settings.t settings.w) round) × (result ≤ longest_frame) }
{
    HEADER + operand_size(settings.t, settings.w, round)
}

// Which frames a column awaits of a sender: the column's round, and whether the sender's frame of that round, and of the one that follows,
// is there already.
#[derive(Clone, Copy)]
pub struct Due {
    pub round: u32,
    pub taken: bool,
    pub early: bool,
}

// A frame that came in a slot: its round.
#[tactic(auto, using(std::proofs::lemmas::Bool::Decides::nat_tests, crate::proofs::FrameRefusal::frame_tests), unfolding(crate::specs::Frame::round_in, crate::specs::Steps::Due::there_by))]
pub fn check_frame(
    who: &Identity,
    settings: Settings,
    slot: u32,
    due: Due,
    frame: &[u8],
) -> Result<u32, Refusal>
    ensures answer { answer_of result ≡ frame_refusal (settings_of settings.n settings.t settings.w) who.now.run due.round slot (there_by due.round due.taken due.early (round_in frame.now)) frame.now }
    ensures same { IfOk result (λ m. m ≡ round_in frame.now) }
{
    if frame.len() < HEADER {
        return Err(Refusal::Header);
    }
    let Some(sent) = command_round(frame[0]) else {
        return Err(Refusal::Command);
    };
    if frame.len() != frame_size(settings, sent) {
        return Err(Refusal::FrameLength);
    }
    let sender = u32::from(frame[1]);
    if sender != slot {
        return Err(Refusal::Sender);
    }
    if u16::from_be_bytes([frame[2], frame[3]]) != who.run {
        return Err(Refusal::Run);
    }
    if sent < due.round || due.round + 1 < sent {
        return Err(Refusal::OtherRound);
    }
    let there = if sent == due.round {
        due.taken
    } else {
        due.early
    };
    if there {
        return Err(Refusal::Repeated);
    }
    Ok(sent)
}

// Command, sender, and the run number, high byte first.
pub fn put_header(round: u32, number: u32, run: u16, buffer: &mut [u8])
    requires { (round ≤ 3) × (number ≤ most_columns) × (header_size ≤ length buffer.old) }
    ensures { buffer.new ≡ in_front (header round number run) buffer.old }
{
    buffer[0] = (0x11 * round) as u8;
    buffer[1] = number as u8;
    buffer[2..HEADER].copy_from_slice(&run.to_be_bytes());
}
