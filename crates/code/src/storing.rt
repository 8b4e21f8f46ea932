// Bytes of all planes' windows as values, one after the other.
ghost use Rattle.std.specs.Prelude.{◌*◌, ◌≤◌, ◌<◌, length};
ghost use Rattle.arrays.specs.Array.{Filled};
ghost use Rattle.code.specs.Size.{most_columns, most_checks, value_room, window_room};
ghost use Rattle.code.specs.Steps.Windows.{byte_in, Stored};

use crate::division::Windows;

// The byte at one place of each plane's window, as a value.
fn put_value(windows: &Windows, i: usize, value: &mut [u8])
    requires { (i < window_room) × (length value.old ≤ value_room) }
    ensures { Filled (length value.old) (length value.old) (λ p. byte_in p i windows.now) value.new }
{
    for (p, byte) in value.iter_mut().enumerate() {
        *byte = windows[p][i];
    }
}

// The checks, which stand behind the columns, the last first, as values at the output's start.
pub fn store(windows: &Windows, n: usize, count: usize, size: usize, output: &mut [u8])
    requires { (n ≤ most_columns) × (count ≤ most_checks) × (size ≤ value_room) × (count * size ≤ length output.old) }
    ensures { Stored count n count size windows.now output.old output.new }
{
    // By place: of what `chunks_exact_mut` lends a proof knows no bytes afterwards.
    for c in 0..count {
        let at = c * size;
        let i = n + count - 1 - c;
        put_value(windows, i, &mut output[at..at + size]);
    }
}
