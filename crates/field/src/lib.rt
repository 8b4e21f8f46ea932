// The field of 256 elements: products and inverses by two constant tables.
//
// Every contract holds for all bytes. A loop makes the tables once, and asks them.
#![tactic(auto)]

pub mod long;
mod tables;

ghost use Rattle.std.specs.Prelude.{◌≡◌, ◌<◌};
ghost use Rattle.field.specs.Field.{plus, doubled, times, power, inverse as «inverse-of»};

pub use tables::Tables;

pub fn sum(a: u8, b: u8) -> u8
    ensures { result ≡ plus a b }
{
    a ^ b
}

// Twice a byte: where the shift loses x^8, x^7 + x^2 + x + 1 comes in for it.
pub fn double(a: u8) -> u8
    ensures { result ≡ doubled a }
{
    if a < 128 { 2 * a } else { 2 * (a - 128) ^ 135 }
}

// The exponent below 255 of the same power of 2. No branch is left of it where it is compiled.
pub fn reduced(exponent: usize) -> usize
    requires { exponent < 510 }
    ensures { (result < 255) × (power 2 result ≡ power 2 exponent) }
{
    if exponent < 255 {
        exponent
    } else {
        exponent - 255
    }
}

pub fn product(a: u8, b: u8) -> u8
    ensures { result ≡ times a b }
{
    Tables::new().product(a, b)
}

pub fn inverse(a: u8) -> u8
    ensures { result ≡ inverse-of a }
{
    Tables::new().inverse(a)
}
