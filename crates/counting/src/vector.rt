// Vectors: values one after the other, w bytes each, from the front of an array on.
ghost use Rattle.std.specs.Prelude.{◌≡◌, ◌*◌, ◌≤◌, ◌<◌, length, get_or};
ghost use Rattle.arrays.specs.Array.{Written};
ghost use Rattle.code.specs.Size.{most_columns, value_room, vector_room};

use code::sizes::VECTOR_ROOM;

// Value k becomes the value lent.
pub fn put_value(vector: &mut [u8; VECTOR_ROOM], k: usize, value: &[u8])
    requires { (k < most_columns) × (length value.now ≤ value_room) × (length vector.old ≡ vector_room) }
    ensures { Written (k * length value.now) (length value.now) (λ p. get_or value.now p 0) vector.old vector.new }
{
    let many = value.len();
    arrays::copy(vector, k * many, value, 0, many);
}
