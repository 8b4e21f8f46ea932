// The table of a round: for each sender the own vector, repaired by the checks that came in its frame.
ghost use Rattle.std.specs.Prelude.{◌≡◌, ◌≤◌, ◌<◌, length};
ghost use Rattle.code.specs.Size.{checks_room};
ghost use Rattle.grading.specs.Value.{blanks};
ghost use Rattle.counting.specs.Steps.Table.{Shaped};
ghost use Rattle.record.specs.Record.{told_missing};
ghost use Rattle.rounds.specs.Steps.Senders.{coded_settings, coded_vector, checks_size, told_of, RepairedAgain, SlotRepaired, row_of, LastRow, EmptyRow, SlotPut, BlankRows, SlotsTold};

use crate::coded::Coded;
use code::sizes::{CHECKS_ROOM, MOST_COLUMNS, VECTOR_ROOM};
use counting::filling;
use counting::table::Table;
use record::{HEADER, Slot, TOLD_MISSING, TOLD_NONE};
use repair::RepairAnswer;
use repair::again::repair_again;

// What a repair tells of a sender: how many places were changed, or the mark of "none".
fn told_by(answer: RepairAnswer) -> u8
    requires { answer.changed < told_missing }
    ensures { result ≡ told_of answer }
{
    if answer.answer != 0 {
        return TOLD_NONE;
    }
    answer.changed as u8
}

// The row of a sender by the checks that came, written over blanks, which "none" leaves. The checks of the last repair give no answer,
// and leave the row alone.
fn by_checks(own: &Coded, checks: &[u8], last_checks: &[u8], row: &mut [u8]) -> Option<RepairAnswer>
    requires { (length checks.now ≡ checks_size (coded_settings own.now)) × EmptyRow (coded_settings own.now) row.old }
    ensures { RepairedAgain (coded_settings own.now) (coded_vector own.now) checks.now last_checks.now result row.old row.new }
{
    let settings = own.settings;
    let size = record::vector_size(settings);
    repair_again(
        settings.n,
        settings.t,
        settings.w,
        &own.vector[..size],
        &own.checks[..own.checks_size()],
        checks,
        last_checks,
        &mut row[..size],
    )
}

// The same of a slot's frame, whose checks are the last ones from then on.
fn repaired(
    own: &Coded,
    slot: &Slot,
    last_checks: &mut [u8],
    row: &mut [u8],
) -> Option<RepairAnswer>
    requires { (length last_checks.old ≡ checks_room) × EmptyRow (coded_settings own.now) row.old }
    ensures { SlotRepaired (coded_settings own.now) (coded_vector own.now) slot.now last_checks.old last_checks.new result row.old row.new }
{
    let size = own.checks_size();
    let checks = &slot.bytes[HEADER..HEADER + size];
    let answer = by_checks(own, checks, &last_checks[..size], row)?;
    last_checks[..size].copy_from_slice(checks);
    Some(answer)
}

// The last repair: its checks, in front of their array, its answer, and the row of the table that it gave.
#[derive(Clone, Copy)]
pub struct Last {
    pub checks: [u8; CHECKS_ROOM],
    pub answer: RepairAnswer,
    pub at: usize,
}

// Row i of a table, put over blanks, which a missing frame leaves, and what it tells. The checks of the last repair give its row again.
// The array lent for a row is blanks again after it was written.
fn put_slot(
    own: &Coded,
    slot: &Slot,
    i: usize,
    last: &mut Last,
    row: &mut [u8; VECTOR_ROOM],
    table: &mut Table,
) -> u8
    requires i_lt_n { (i < own.now.settings.n) × (last.old.at < own.now.settings.n) × (last.old.at ≡ i → ⊥) × LastRow (coded_settings own.now) (coded_vector own.now) last.old table.old }
    requires empty_row { EmptyRow (coded_settings own.now) row.old × Shaped table.old × (row_of (coded_settings own.now) table.old i ≡ blanks (coded_settings own.now)) }
    ensures { SlotPut (coded_settings own.now) (coded_vector own.now) slot.now i last.old last.new result row.new table.old table.new }
{
    if slot.taken == 0 {
        return TOLD_MISSING;
    }
    let Some(answer) = repaired(own, slot, &mut last.checks, row) else {
        filling::copy_row(table, i, last.at, own.settings.size());
        return told_by(last.answer);
    };
    filling::put_row(table, i, row, own.settings.columns(), own.settings.size());
    *row = [0u8; VECTOR_ROOM];
    last.answer = answer;
    last.at = i;
    told_by(answer)
}

// The table of a column with this number, put over blanks; what it tells of each sender goes to the front of an array. The own row goes
// in first: it is what the own checks give.
pub fn put_table(
    own: &Coded,
    number: usize,
    slots: &[Slot; MOST_COLUMNS],
    table: &mut Table,
    told: &mut [u8],
)
    requires in_range { (1 ≤ number) × (number ≤ own.now.settings.n) × (own.now.settings.n ≤ length told.old) }
    requires shaped { Shaped table.old × BlankRows (coded_settings own.now) table.old }
    ensures { SlotsTold (coded_settings own.now) (coded_vector own.now) number slots.now table.new told.old told.new }
{
    let n = own.settings.columns();
    filling::put_row(table, number - 1, &own.vector, n, own.settings.size());
    told[number - 1] = 0;
    let checks = own.checks;
    let mut last = Last {
        checks,
        answer: repair::untried(0),
        at: number - 1,
    };
    let mut row = [0u8; VECTOR_ROOM];
    for (i, slot) in slots[..n].iter().enumerate() {
        if i + 1 != number {
            told[i] = put_slot(own, slot, i, &mut last, &mut row, table);
        }
    }
}
