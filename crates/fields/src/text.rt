// Text of fields, with its place.
ghost use Rattle.std.specs.Prelude.{◌+◌, ◌^◌, ◌<◌, length};

use lexical::fault::Place;

// Fields with commas between them, and the place of their first byte.
#[derive(Clone, Copy)]
pub struct FieldText<'a> {
    pub bytes: &'a [u8],
    pub at: Place,
    // so that every column in it is a number of 64 bits
    ghost fits: { at.column + length bytes.now < 2 ^ 64 },
}
