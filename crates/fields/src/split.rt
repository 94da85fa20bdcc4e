// The value of a line in fields.
ghost use Rattle.std.specs.Prelude.{◌≤◌, [], ◌∷◌, take, MatchResult};
ghost use Rattle.lexical.specs.Bytes.{pieces, comma};
ghost use Rattle.fields.specs.Splits.{AllStand, FirstField, Miscounts, OneField};

use crate::field::{Field, field_at};
use crate::text::FieldText;
use lexical::bytes::cut_at;
use lexical::fault::{LineFault, Place};

impl<'a> FieldText<'a> {
    // The first field, and the text behind its comma or none.
    fn first(self) -> (Field<'a>, Option<FieldText<'a>>)
        ensures { FirstField self.entry result.0 result.1 }
    {
        match cut_at(self.bytes, b',') {
            None => (field_at(self.bytes, self.at), None),
            Some((field, bytes)) => {
                let at = Place {
                    line: self.at.line,
                    column: self.at.column + (field.len() + 1),
                };
                (field_at(field, self.at), Some(FieldText { bytes, at }))
            }
        }
    }

    // Its fields, of which there have to be so many, in the first of four places.
    // not as `Result<[Field; N], _>`: there is no proof yet of an array of references whose length is a parameter, or in an enum
    pub fn fields(
        self,
        many: usize,
    ) -> Result<(Field<'a>, Field<'a>, Field<'a>, Field<'a>), LineFault>
        requires { many ≤ 4 }
        ensures { MatchResult result (λ p. AllStand self.entry.at (pieces comma self.entry.bytes.now) (take many (p.0 ∷ p.1 ∷ p.2 ∷ p.3 ∷ []))) (λ e. Miscounts many self.entry.bytes.now self.entry.at e) }
    {
        let blank = field_at(b"", self.at);
        let mut fields = [blank; 4];
        let mut left = Some(self);
        // by an index: a `&mut` to a field, which borrows, has no proof yet; by `let else`: behind `ok_or` the invariant stayed open
        for i in 0..many {
            let Some(text) = left else {
                return Err(LineFault::FieldCount(self.at));
            };
            (fields[i], left) = text.first();
        }
        let [x, y, z, w] = fields;
        match left {
            None => Ok((x, y, z, w)),
            Some(_) => Err(LineFault::FieldCount(self.at)),
        }
    }
}

// A value of one field.
// bytes and place apart: one field asks nothing of its column
pub fn one_field<'a>(value: &'a [u8], at: Place) -> Result<Field<'a>, LineFault>
    ensures { MatchResult result (λ t. OneField value.now at t) (λ e. Miscounts 1 value.now at e) }
{
    match cut_at(value, b',') {
        None => Ok(field_at(value, at)),
        Some(_) => Err(LineFault::FieldCount(at)),
    }
}
