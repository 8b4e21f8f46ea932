// Longer tables for a loop of many products: powers of 2 twice over and then zeros, so that exponents add without a remainder, and for 0
// an exponent of its own, so that no factor is tested.
ghost use Rattle.std.specs.Prelude.{◌≡◌, ◌≤◌, ◌<◌};
ghost use Rattle.std.proofs.Props.{props};
ghost use Rattle.field.specs.Field.{times, power};
ghost use Rattle.field.specs.Table.{Powers, Logarithms};
ghost use Rattle.field.specs.Exponents.{no_exponent, ExponentOf, ExponentOf-prop, LongPowers, LongLogarithms};

use crate::Tables;

// The exponent of 0.
const NO_EXPONENT: u16 = 510;

// Up to twice the exponent of 0. A constant calls no function, so that it is cast.
pub const LONG_POWERS: usize = 2 * NO_EXPONENT as usize + 1;

// Both longer tables.
#[derive(Clone, Copy)]
pub struct LongTables {
    pub powers: [u8; LONG_POWERS],
    pub logarithms: [u16; 256],
    pub ghost right: { LongPowers powers × LongLogarithms logarithms } by { Prim.hlevel (props, ExponentOf-prop) },
}

impl LongTables {
    pub fn new(tables: &Tables) -> Self {
        LongTables {
            powers: long_powers(&tables.powers),
            logarithms: long_logarithms(&tables.logarithms),
        }
    }

    pub fn exponent_of(&self, a: u8) -> usize
        ensures { ExponentOf a result × (result ≤ no_exponent) }
    {
        exponent_of(&self.logarithms, a)
    }

    // A byte times a power of 2.
    pub fn raised(&self, exponent: usize, b: u8) -> u8
        requires { exponent < 255 }
        ensures { result ≡ times (power 2 exponent) b }
    {
        self.powers[exponent + self.exponent_of(b)]
    }

    pub fn product(&self, a: u8, b: u8) -> u8
        ensures { result ≡ times a b }
    {
        self.powers[self.exponent_of(a) + self.exponent_of(b)]
    }
}

// The functions below ask for the one table that they read, and can be called by whoever has no other.

// The powers of 2 twice over, and then zeros.
pub fn long_powers(powers: &[u8; 255]) -> [u8; LONG_POWERS]
    requires { Powers powers.now }
    ensures { LongPowers result }
{
    let mut long = [0u8; LONG_POWERS];
    arrays::copy(&mut long, 0, powers, 0, 255);
    arrays::copy(&mut long, 255, powers, 0, 255);
    long
}

// An exponent of each byte.
pub fn long_logarithms(logarithms: &[u8; 256]) -> [u16; 256]
    requires { Logarithms logarithms.now }
    ensures { LongLogarithms result }
{
    let mut long = [NO_EXPONENT; 256];
    for a in 1..256 {
        long[a] = u16::from(logarithms[a]);
    }
    long
}

// The exponent of a byte.
pub fn exponent_of(logarithms: &[u16; 256], a: u8) -> usize
    requires { LongLogarithms logarithms.now }
    ensures { ExponentOf a result × (result ≤ no_exponent) }
{
    usize::from(logarithms[usize::from(a)])
}
