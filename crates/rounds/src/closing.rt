// Closing a round: V, Y, values and confidences.
ghost use Rattle.std.specs.Prelude.{◌≡◌, cond, ◌≤◌, length, take};
ghost use Rattle.code.specs.Size.{value_room};
ghost use Rattle.counting.specs.Stored.{Stores};
ghost use Rattle.counting.specs.Steps.Table.{rows_in, Shaped};
ghost use Rattle.record.specs.Refusal.{record_refusal, close_refusal};
ghost use Rattle.rounds.specs.Exchange.{value_or_blank, heard_vector};
ghost use Rattle.record.specs.View.{settings_of, who_in, frame_in, inbox, view};
ghost use Rattle.record.specs.Steps.Checked.{SettingsAre};
ghost use Rattle.rounds.specs.Steps.Senders.{coded_settings, coded_vector, BlankRows};
ghost use Rattle.rounds.specs.Steps.Closing.{TableTold, Finds, checked_in};

use crate::coded::Coded;
use crate::senders;
use code::settings::Settings;
use code::sizes::{MOST_COLUMNS, VALUE_ROOM, VECTOR_ROOM};
use counting::table::{Rows, Table};
use counting::{tally, vector};
use record::{Column, Findings, HEADER, Identity, Slot};

// V at a slot, which may be the column's own: the value taken, or blank for a missing frame.
fn heard_at(who: &Identity, mine: bool, slot: &Slot) -> [u8; VALUE_ROOM]
    requires { who.now.w ≤ value_room }
    ensures { take who.now.w result ≡ cond mine (take who.now.w who.now.own) (value_or_blank (settings_of who.now) (frame_in who.now.w slot.now)) }
{
    if mine {
        return who.own;
    }
    let mut value = [0u8; VALUE_ROOM];
    // The C interface needs the flag.
    if slot.taken != 0 {
        arrays::copy(&mut value, 0, &slot.bytes, HEADER, who.w as usize);
    }
    value
}

// V.
fn heard(who: &Identity, settings: Settings, slots: &[Slot; MOST_COLUMNS]) -> [u8; VECTOR_ROOM]
    requires { SettingsAre who.now.n who.now.t who.now.w settings }
    ensures { Stores (settings_of who.now) (heard_vector (inbox who.now 1 slots.now)) result }
{
    let n = settings.columns();
    let w = settings.size();
    let number = who.number as usize;
    let mut vector = [0u8; VECTOR_ROOM];
    for (k, slot) in slots[..n].iter().enumerate() {
        let value = heard_at(who, k + 1 == number, slot);
        vector::put_value(&mut vector, k, &value[..w]);
    }
    vector
}

// The vector whose checks go round: V in round two, Y in round three.
#[tactic(auto, unfolding(crate::specs::Steps::Closing::checked_in))]
pub fn checked(round: u32, found: &Findings) -> &[u8; VECTOR_ROOM]
    ensures { result.now ≡ checked_in round found.now }
{
    if round == 2 {
        &found.heard
    } else {
        &found.agreed
    }
}

// The same as a copy: where a pointer into the record went further, the edge would keep a copy of all of it.
#[tactic(auto, unfolding(crate::specs::Steps::Closing::checked_in))]
pub fn checked_copy(round: u32, found: &Findings) -> [u8; VECTOR_ROOM]
    ensures { result ≡ checked_in round found.now }
{
    if round == 2 {
        found.heard
    } else {
        found.agreed
    }
}

// The table of rounds two and three, X or Z, from V or Y, put over blanks; what it tells of each sender goes to the front of an array.
fn put_table(
    who: &Identity,
    own: &Coded,
    round: u32,
    slots: &[Slot; MOST_COLUMNS],
    table: &mut Table,
    told: &mut [u8],
)
    requires inside { (record_refusal (who_in who.now) ≡ 0) × (coded_settings own.now ≡ settings_of who.now) × (2 ≤ round) }
    requires room { (who.now.n ≤ length told.old) × Shaped table.old × BlankRows (settings_of who.now) table.old }
    ensures { TableTold (inbox who.now round slots.now) (coded_vector own.now) (rows_in who.now.n who.now.w table.new) told.old told.new }
{
    senders::put_table(own, who.number as usize, slots, table, told);
}

// What the column has found when its round is closed.
pub fn found_after(column: &Column) -> Findings
    requires { close_refusal (view column.now) ≡ 0 }
    ensures { Finds column.now result }
{
    let who = &column.who;
    found_by(column, Settings::new(who.n, who.t, who.w).unwrap())
}

// The same by the column's settings.
fn found_by(column: &Column, settings: Settings) -> Findings
    requires { (close_refusal (view column.now) ≡ 0) × SettingsAre column.now.who.n column.now.who.t column.now.who.w settings }
    ensures { Finds column.now result }
{
    let who = &column.who;
    let mut found = column.found;
    if column.round == 1 {
        let vector = heard(who, settings, &column.slots);
        found.heard = vector;
        return found;
    }
    let own = Coded::new(settings, checked_copy(column.round, &column.found));
    let mut told = [0u8; MOST_COLUMNS];
    let mut table = [[[0u8; MOST_COLUMNS]; MOST_COLUMNS]; VALUE_ROOM];
    put_table(
        who,
        &own,
        column.round,
        &column.slots,
        &mut table,
        &mut told,
    );
    let rows = Rows {
        table: &table,
        n: settings.columns(),
        w: settings.size(),
    };
    let t = settings.bad();
    if column.round == 2 {
        let agreed = tally::agreed(&rows, t);
        found.agreed = agreed;
        found.told_two = told;
        return found;
    }
    let held = tally::held(&rows, t);
    let values = held.values;
    let confidences = held.confidences;
    found.values = values;
    found.confidences = confidences;
    found.told_three = told;
    found
}

#[cfg(test)]
mod tests {
    use super::*;
    use std::test::Fail;

    // V's bytes in round two and Y's in round three, lent and copied.
    #[test]
    fn checked_by_round() -> Result<(), Fail> {
        let mut found = record::empty().found;
        for byte in 0..=u8::MAX {
            found.heard[usize::from(byte)] = byte;
            found.agreed[usize::from(byte)] = u8::MAX - byte;
        }
        for (round, vector) in [(2, found.heard), (3, found.agreed)] {
            if *checked(round, &found) != vector {
                Err("another vector is lent")?;
            }
            if checked_copy(round, &found) != vector {
                Err("another vector is copied")?;
            }
        }
        Ok(())
    }
}
