// Text as it is printed: bytes and numbers put behind one another.
ghost use Rattle.std.specs.Prelude.{◌≡◌, List, ℕ, [], ◌∷◌, ◌++◌, ◌+◌, ◌≤◌, ◌<◌, length, take};
ghost use Rattle.arrays.specs.Array.{in_front};
ghost use Rattle.bench.specs.Listing.{digit, decimal};
ghost use Rattle.bench.specs.Entry.{listing_room};

use crate::LISTING_ROOM;
use std::marker::Model;

// A text, with room for every listing.
#[derive(Drop)]
pub struct Text {
    bytes: [u8; LISTING_ROOM],
    size: usize,
}

// Clauses see the list of the bytes.
impl Model for Text {
    ghost Value = { List ℕ };

    ghost view = { λ t. take t.size t.bytes };

    ghost invariant = { λ t. t.size ≤ listing_room };
}

impl Text {
    pub fn new() -> Self
        ensures { result ≡ [] }
    {
        Text {
            bytes: [0; LISTING_ROOM],
            size: 0,
        }
    }

    pub fn put_byte(&mut self, byte: u8)
        requires { length self.old < listing_room }
        ensures { self.new ≡ self.old ++ byte ∷ [] }
    {
        self.bytes[self.size] = byte;
        self.size += 1;
    }

    pub fn put_bytes(&mut self, bytes: &[u8])
        requires { length self.old + length bytes.now ≤ listing_room }
        ensures { self.new ≡ self.old ++ bytes.now }
    {
        for byte in bytes {
            self.put_byte(*byte);
        }
    }

    #[tactic(auto, unfolding(crate::specs::Listing::digit))]
    fn put_digit(&mut self, number: u32)
        requires { (number < 10) × (length self.old < listing_room) }
        ensures { self.new ≡ self.old ++ digit number }
    {
        self.put_byte(b'0' + number as u8);
    }

    // A number below 1000 in decimal. Its digits are put one by one: formatting needs an allocator or a writer, and here is neither.
    pub fn put_decimal(&mut self, number: u32)
        requires { (number < 1000) × (length self.old + length (decimal number) ≤ listing_room) }
        ensures { self.new ≡ self.old ++ decimal number }
    {
        if number < 10 {
            self.put_digit(number);
            return;
        }
        if number < 100 {
            self.put_digit(number / 10);
            self.put_digit(number % 10);
            return;
        }
        self.put_digit(number / 100);
        self.put_digit(number / 10 % 10);
        self.put_digit(number % 10);
    }

    // A byte, and a number behind it.
    pub fn put_marked(&mut self, mark: u8, number: u32)
        requires { (number < 1000) × (length self.old + length (mark ∷ decimal number) ≤ listing_room) }
        ensures { self.new ≡ self.old ++ (mark ∷ decimal number) }
    {
        self.put_byte(mark);
        self.put_decimal(number);
    }

    // Copies the text to the front of an output, and says how long it is.
    pub fn copy_to(&self, output: &mut [u8]) -> usize
        requires { listing_room ≤ length output.old }
        ensures { (output.new ≡ in_front self.now output.old) × (result ≡ length self.now) }
    {
        output[..self.size].copy_from_slice(&self.bytes[..self.size]);
        self.size
    }
}
