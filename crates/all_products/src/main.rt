// Compares the compiled product of two bytes with one that uses no table, over all 65,536 pairs, and prints how many agree.
#![tactic(auto)]

ghost use Rattle.std.specs.Prelude.{◌≤◌};

use std::io;

// The product by shift and add, with nothing of the field's crate.
fn shift_and_add(a: u8, b: u8) -> u8 {
    let mut product = 0;
    let mut shifted = a;
    for bit in 0u8..8 {
        if b >> bit & 1 == 1 {
            product ^= shifted;
        }
        let carry = if shifted < 128 { 0 } else { 135 };
        shifted = shifted % 128 * 2 ^ carry;
    }
    product
}

// How many products with the first factor a agree. Two loops in place of one over all pairs: in that one the field's tables would be made
// anew for each product.
fn agreeing(a: u8) -> usize
    ensures { result ≤ 256 }
{
    let mut count = 0;
    for b in 0..=u8::MAX {
        count += usize::from(field::product(a, b) == shift_and_add(a, b));
    }
    count
}

fn all_agreeing() -> usize
    ensures { result ≤ 65536 }
{
    let mut count = 0;
    for a in 0..=u8::MAX {
        count += agreeing(a);
    }
    count
}

fn main(rt: HostRuntime) -> io::Result<()> {
    println!(rt; "{} of 65536 products agree", all_agreeing())
}
