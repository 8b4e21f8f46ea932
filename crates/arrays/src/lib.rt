// Bytes copied, bytes gathered from rows, and the test for zeros.
#![tactic(auto)]

ghost use Rattle.std.specs.Prelude.{◌≡◌, ◌+◌, ◌*◌, ◌≤◌, ◌<◌, length, get_or};
ghost use Rattle.arrays.specs.Array.{Written, all_zero};

// The widths that the machine moves in one step: a word, and half a word. Values of eight and of four bytes have them, and another number
// is a call of memmove.
const WORD: usize = 8;

const HALF_WORD: usize = 4;

// A copy that compiles to one step where the caller names the number.
fn copy_bytes(to: &mut [u8], at: usize, from: &[u8], start: usize, many: usize)
    requires { (at + many ≤ length to.old) × (start + many ≤ length from.now) }
    ensures { Written at many (λ p. get_or from.now (start + p) 0) to.old to.new }
{
    to[at..at + many].copy_from_slice(&from[start..start + many]);
}

// So many bytes from a place on go to a place of another array.
pub fn copy(to: &mut [u8], at: usize, from: &[u8], start: usize, many: usize)
    requires { (at + many ≤ length to.old) × (start + many ≤ length from.now) }
    ensures { Written at many (λ p. get_or from.now (start + p) 0) to.old to.new }
{
    match many {
        WORD => copy_bytes(to, at, from, start, WORD),
        HALF_WORD => copy_bytes(to, at, from, start, HALF_WORD),
        _ => copy_bytes(to, at, from, start, many),
    }
}

// Byte p of each of so many rows, which are `width` bytes each, goes to the front of another array.
pub fn gather(to: &mut [u8], rows: &[u8], width: usize, p: usize, many: usize)
    requires { (many ≤ length to.old) × (p < width) × (width * many ≤ length rows.now) }
    ensures { Written 0 many (λ j. get_or rows.now (width * j + p) 0) to.old to.new }
{
    for j in 0..many {
        to[j] = rows[width * j + p];
    }
}

// Whether every byte is 0. No byte is passed over, so that a step takes in many.
pub fn is_zero(bytes: &[u8]) -> bool
    ensures { result ≡ all_zero bytes.now }
{
    let mut any = 0;
    for byte in bytes {
        any |= *byte;
    }
    any == 0
}
