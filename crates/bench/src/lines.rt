// The lines that the bench prints.
ghost use Rattle.std.specs.Prelude.{◌≡◌, true, cond, List, [], ◌∷◌, ◌++◌, ℕ, ◌+◌, ◌*◌, ◌≤◌, ◌<◌, length};
ghost use Rattle.code.specs.Settings.{settings as «settings_of»};
ghost use Rattle.code.specs.Size.{most_columns};
ghost use Rattle.grading.specs.Held.{held_as, held_in};
ghost use Rattle.record.specs.View.{view};
ghost use Rattle.refusal.specs.Number.{number_of};
ghost use Rattle.bench_file.specs.Scenario.{Scenario, is_good};
ghost use Rattle.bench_file.specs.Steps.Places.{group_of, Located};
ghost use Rattle.bench.specs.Listing.{joined, value_text, held_text, holdings_text, column_line, group_line, column_lines, listing, refused_line};
ghost use Rattle.bench.specs.Entry.{line_room, listing_room};
ghost use Rattle.bench.specs.Steps.Finished.{Finished, AllFinished, record_of};

use crate::printing::Text;
use bench_file::places::Places;
use code::settings::Settings;
use code::sizes::{MOST_COLUMNS, VECTOR_ROOM};
use record::Column;
use refusal::Refusal;

// Bytes joined by a point.
fn put_joined(text: &mut Text, bytes: &[u8])
    requires { length text.old + length (joined bytes.now) ≤ listing_room }
    ensures { text.new ≡ text.old ++ joined bytes.now }
{
    if bytes.is_empty() {
        return;
    }
    text.put_decimal(u32::from(bytes[0]));
    for i in 1..bytes.len() {
        text.put_marked(b'.', u32::from(bytes[i]));
    }
}

// A value; a blank one as "-".
fn put_value(text: &mut Text, value: &[u8])
    requires { length text.old + length (value_text value.now) ≤ listing_room }
    ensures { text.new ≡ text.old ++ value_text value.now }
{
    if arrays::is_zero(value) {
        text.put_byte(b'-');
        return;
    }
    put_joined(text, value);
}

// Behind a space value/confidence.
fn put_held(text: &mut Text, value: &[u8], confidence: u8)
    requires { length text.old + length (32 ∷ held_text (held_as value.now confidence)) ≤ listing_room }
    ensures { text.new ≡ text.old ++ (32 ∷ held_text (held_as value.now confidence)) }
{
    text.put_byte(b' ');
    put_value(text, value);
    text.put_marked(b'/', u32::from(confidence));
}

// Value/confidence of all columns.
fn put_holdings(
    text: &mut Text,
    settings: Settings,
    values: &[u8; VECTOR_ROOM],
    confidences: &[u8; MOST_COLUMNS],
)
    requires { length text.old + length (holdings_text (held_in (group_of settings) values.now confidences.now)) ≤ listing_room }
    ensures { text.new ≡ text.old ++ holdings_text (held_in (group_of settings) values.now confidences.now) }
{
    let n = settings.columns();
    let w = settings.size();
    for j in 0..n {
        let start = j * w;
        put_held(text, &values[start..start + w], confidences[j]);
    }
}

// The line of a good column.
fn put_line(
    text: &mut Text,
    number: u32,
    settings: Settings,
    values: &[u8; VECTOR_ROOM],
    confidences: &[u8; MOST_COLUMNS],
)
    requires { (number < 1000) × (length text.old + length (column_line number (held_in (group_of settings) values.now confidences.now)) ≤ listing_room) }
    ensures { text.new ≡ text.old ++ column_line number (held_in (group_of settings) values.now confidences.now) }
{
    text.put_decimal(number);
    put_holdings(text, settings, values, confidences);
    text.put_byte(b'\n');
}

// The line of a column that has finished, where it is a good one.
fn put_column(text: &mut Text, places: &Places, number: u32, column: &Column)
    requires { (1 ≤ number) × (number ≤ most_columns) × (length text.old + line_room ≤ listing_room) }
    ensures by_index { (file : List ℕ) (f : Scenario) → Located file places.now f → (is_good f number ≡ true → Finished f.settings column.now) → text.new ≡ text.old ++ cond (is_good f number) (column_line number (view column.now).found.held) [] }
    ensures within { length text.new ≤ length text.old + line_room }
{
    if !places.is_good(number) {
        return;
    }
    if let Ok(verdict) = column::result(column) {
        put_line(
            text,
            number,
            places.settings,
            &verdict.values,
            &verdict.confidences,
        );
    }
}

// The lines of all good columns.
fn put_columns(text: &mut Text, places: &Places, columns: &[Column; MOST_COLUMNS])
    requires { length text.old + most_columns * line_room ≤ listing_room }
    ensures { (file : List ℕ) (f : Scenario) → Located file places.now f → AllFinished f columns.now → text.new ≡ text.old ++ column_lines f (λ k. (record_of columns.now k).found.held) places.now.settings.n 1 }
{
    for number in 1..places.settings.n + 1 {
        put_column(text, places, number, &columns[(number - 1) as usize]);
    }
}

// The settings.
fn put_group(text: &mut Text, settings: Settings)
    requires { text.old ≡ [] }
    ensures put { text.new ≡ group_line (group_of settings) }
    ensures within { length text.new ≤ 14 }
{
    text.put_bytes(b"group ");
    text.put_decimal(settings.n);
    text.put_marked(b' ', settings.t);
    text.put_marked(b' ', settings.w);
    text.put_byte(b'\n');
}

// The settings, and a line for each good column.
pub fn listing(places: &Places, columns: &[Column; MOST_COLUMNS]) -> Text
    ensures { (file : List ℕ) (f : Scenario) → Located file places.now f → AllFinished f columns.now → result ≡ listing f (λ k. (record_of columns.now k).found.held) }
{
    let mut text = Text::new();
    put_group(&mut text, places.settings);
    put_columns(&mut text, places, columns);
    text
}

// "refused N".
pub fn refused(refusal: Refusal) -> Text
    ensures { result ≡ refused_line (number_of refusal) }
{
    let mut text = Text::new();
    text.put_bytes(b"refused ");
    text.put_decimal(refusal.number());
    text.put_byte(b'\n');
    text
}
