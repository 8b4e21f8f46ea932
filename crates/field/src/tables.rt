// The field's two constant tables, each with the rule that holds over the whole of it.
//
// A function that names a constant table copies it at each call: a loop makes both once and lends them down.
ghost use Rattle.std.specs.Prelude.{◌≡◌, ◌≤◌, ◌<◌};
ghost use Rattle.field.specs.Field.{times, power, inverse as «inverse-of»};
ghost use Rattle.field.specs.Table.{Powers, Logarithms};

use crate::reduced;

// The powers of 2, all 255 of them, each entry twice the one before.
const POWERS: [u8; 255] = [
    1, 2, 4, 8, 16, 32, 64, 128, 135, 137, 149, 173, 221, 61, 122, 244, 111, 222, 59, 118, 236, 95,
    190, 251, 113, 226, 67, 134, 139, 145, 165, 205, 29, 58, 116, 232, 87, 174, 219, 49, 98, 196,
    15, 30, 60, 120, 240, 103, 206, 27, 54, 108, 216, 55, 110, 220, 63, 126, 252, 127, 254, 123,
    246, 107, 214, 43, 86, 172, 223, 57, 114, 228, 79, 158, 187, 241, 101, 202, 19, 38, 76, 152,
    183, 233, 85, 170, 211, 33, 66, 132, 143, 153, 181, 237, 93, 186, 243, 97, 194, 3, 6, 12, 24,
    48, 96, 192, 7, 14, 28, 56, 112, 224, 71, 142, 155, 177, 229, 77, 154, 179, 225, 69, 138, 147,
    161, 197, 13, 26, 52, 104, 208, 39, 78, 156, 191, 249, 117, 234, 83, 166, 203, 17, 34, 68, 136,
    151, 169, 213, 45, 90, 180, 239, 89, 178, 227, 65, 130, 131, 129, 133, 141, 157, 189, 253, 125,
    250, 115, 230, 75, 150, 171, 209, 37, 74, 148, 175, 217, 53, 106, 212, 47, 94, 188, 255, 121,
    242, 99, 198, 11, 22, 44, 88, 176, 231, 73, 146, 163, 193, 5, 10, 20, 40, 80, 160, 199, 9, 18,
    36, 72, 144, 167, 201, 21, 42, 84, 168, 215, 41, 82, 164, 207, 25, 50, 100, 200, 23, 46, 92,
    184, 247, 105, 210, 35, 70, 140, 159, 185, 245, 109, 218, 51, 102, 204, 31, 62, 124, 248, 119,
    238, 91, 182, 235, 81, 162, 195,
];

// At each byte but 0, the exponent of the power of 2 that it is.
const LOGARITHMS: [u8; 256] = [
    0, 0, 1, 99, 2, 198, 100, 106, 3, 205, 199, 188, 101, 126, 107, 42, 4, 141, 206, 78, 200, 212,
    189, 225, 102, 221, 127, 49, 108, 32, 43, 243, 5, 87, 142, 232, 207, 172, 79, 131, 201, 217,
    213, 65, 190, 148, 226, 180, 103, 39, 222, 240, 128, 177, 50, 53, 109, 69, 33, 18, 44, 13, 244,
    56, 6, 155, 88, 26, 143, 121, 233, 112, 208, 194, 173, 168, 80, 117, 132, 72, 202, 252, 218,
    138, 214, 84, 66, 36, 191, 152, 149, 249, 227, 94, 181, 21, 104, 97, 40, 186, 223, 76, 241, 47,
    129, 230, 178, 63, 51, 238, 54, 16, 110, 24, 70, 166, 34, 136, 19, 247, 45, 184, 14, 61, 245,
    164, 57, 59, 7, 158, 156, 157, 89, 159, 27, 8, 144, 9, 122, 28, 234, 160, 113, 90, 209, 29,
    195, 123, 174, 10, 169, 145, 81, 91, 118, 114, 133, 161, 73, 235, 203, 124, 253, 196, 219, 30,
    139, 210, 215, 146, 85, 170, 67, 11, 37, 175, 192, 115, 153, 119, 150, 92, 250, 82, 228, 236,
    95, 74, 182, 162, 22, 134, 105, 197, 98, 254, 41, 125, 187, 204, 224, 211, 77, 140, 242, 31,
    48, 220, 130, 171, 231, 86, 179, 147, 64, 216, 52, 176, 239, 38, 55, 12, 17, 68, 111, 120, 25,
    154, 71, 116, 167, 193, 35, 83, 137, 251, 20, 93, 248, 151, 46, 75, 185, 96, 15, 237, 62, 229,
    246, 135, 165, 23, 58, 163, 60, 183,
];

// Both tables.
#[derive(Clone, Copy)]
pub struct Tables {
    pub powers: [u8; 255],
    pub logarithms: [u8; 256],
    pub ghost right: { Powers powers × Logarithms logarithms },
}

impl Tables {
    pub fn new() -> Self {
        Tables {
            powers: POWERS,
            logarithms: LOGARITHMS,
        }
    }

    // The exponent of a byte but 0, as a power of 2.
    fn exponent_of(&self, a: u8) -> usize
        requires { 1 ≤ a }
        ensures { (result < 255) × (power 2 result ≡ a) }
    {
        usize::from(self.logarithms[usize::from(a)])
    }

    pub fn product(&self, a: u8, b: u8) -> u8
        ensures { result ≡ times a b }
    {
        if a == 0 || b == 0 {
            return 0;
        }
        self.powers[reduced(self.exponent_of(a) + self.exponent_of(b))]
    }

    // The byte whose product with a is 1. Of 0, which has none, it is 0.
    pub fn inverse(&self, a: u8) -> u8
        ensures { result ≡ inverse-of a }
    {
        if a <= 1 {
            return a;
        }
        self.powers[255 - self.exponent_of(a)]
    }
}
