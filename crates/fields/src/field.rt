// A field of a line, and what it says.
ghost use Rattle.std.specs.Prelude.{◌≡◌, ℕ, List, pos, negsuc, ◌≤ℤ◌, IfOk};
ghost use Rattle.lexical.specs.Faults.{place};
ghost use Rattle.lexical.specs.Numbers.{integer_of};
ghost use Rattle.lexical.specs.Tokens.{token_column};
ghost use Rattle.lexical.specs.Fields.{reference as reference_field, optional, relation as relation_field, strictness as strictness_field, lettered as lettered_by, label as label_field};
ghost use Rattle.fields.specs.Splits.{IsField, Stands};

use crate::number::integer_at;
use crate::numeral::Numeral;
pub use crate::split::one_field;
use lexical::fault::{LineFault, NumberFault, Place, SequenceFault};
use lexical::token::{Token, token_of};
use parts::part::{Label, Relation};

// A token and its line. Anyone may make one, so what it says is promised of the field that it is (`IsField`), and asked of
// nobody. Bounds stand singly, with no range type: each is asked of by itself.
#[derive(Clone, Copy)]
pub struct Field<'a> {
    pub token: Token<'a>,
    pub line: usize,
}

// The field of these bytes at a place.
pub(crate) fn field_at<'a>(bytes: &'a [u8], at: Place) -> Field<'a>
    ensures { Stands at bytes.now result }
{
    Field {
        token: token_of(bytes, at.column),
        line: at.line,
    }
}

// Behind the letters t, s and r stands the number of a trigger or a channel.
fn lettered(word: &[u8], at: Place, triggers: u8, channels: u8) -> Result<Label, SequenceFault>
    ensures { result ≡ lettered_by triggers channels at word.now }
{
    let [letter, digits @ ..] = word else {
        return Err(LineFault::UnknownWord(at).into());
    };
    let number = field_at(digits, at);
    match *letter {
        b't' => Ok(Label::Trigger(number.reference(triggers as usize)?)),
        b's' => Ok(Label::Send(number.reference(channels as usize)?)),
        b'r' => Ok(Label::Receive(number.reference(channels as usize)?)),
        _ => Err(LineFault::UnknownWord(at).into()),
    }
}

impl<'a> Field<'a> {
    // Where it stands.
    fn place(self) -> Place
        ensures { result ≡ place self.entry.line (token_column self.entry.token) }
    {
        Place {
            line: self.line,
            column: self.token.column(),
        }
    }

    // A number from `low` to `high`, which are numbers of 32 bits.
    fn integer(self, low: i64, high: i64) -> Result<i64, NumberFault>
        requires least { (negsuc 2147483647 ≤ℤ low) × (low ≤ℤ pos 4294967295) }
        requires greatest { (negsuc 2147483647 ≤ℤ high) × (high ≤ℤ pos 4294967295) }
        ensures read { (field : List ℕ) (line column : ℕ) → IsField field line column self.entry → result ≡ integer_of low high (place line column) field }
        ensures within { IfOk result (λ z. (low ≤ℤ z) × (z ≤ℤ high)) }
    {
        match self.token {
            Token::Number(text, _) => integer_at(text, self.place(), low, high),
            _ => Err(NumberFault::Misspelt(self.place())),
        }
    }

    // A number from `low` to `high`.
    pub fn number<T: Numeral>(self, low: T, high: T) -> Result<T, NumberFault>
        ensures read { (field : List ℕ) (line column : ℕ) → IsField field line column self.entry → result ≡ T.read low high (place line column) field }
        ensures within { IfOk result (λ x. (T.value low ≤ℤ T.value x) × (T.value x ≤ℤ T.value high)) }
    {
        let least = low.wide();
        let greatest = high.wide();
        let z = self.integer(least, greatest)?;
        Ok(T::narrow(z, low, high))
    }

    // The number of something that is there, of so many.
    pub fn reference(self, many: usize) -> Result<u8, SequenceFault>
        ensures { (field : List ℕ) (line column : ℕ) → IsField field line column self.entry → result ≡ (reference_field many).parse (place line column) field }
    {
        let n = self.number(0u8, 255)?;
        if n as usize >= many {
            return Err(SequenceFault::NothingThere(self.place()));
        }
        Ok(n)
    }

    // A dash for none, or the number of something that is there.
    pub fn optional_reference(self, many: usize) -> Result<Option<u8>, SequenceFault>
        ensures { (field : List ℕ) (line column : ℕ) → IsField field line column self.entry → result ≡ (optional (reference_field many)).parse (place line column) field }
    {
        match self.token {
            Token::Dash(_) => Ok(None),
            _ => Ok(Some(self.reference(many)?)),
        }
    }

    // lt, le, eq, ge or gt.
    #[tactic(auto, using(crate::proofs::Words::no_relation))]
    pub fn relation(self) -> Result<Relation, SequenceFault>
        ensures { (field : List ℕ) (line column : ℕ) → IsField field line column self.entry → result ≡ relation_field.parse (place line column) field }
    {
        let unknown = LineFault::UnknownWord(self.place()).into();
        match self.token {
            Token::Word(b"lt", _) => Ok(Relation::Lt),
            Token::Word(b"le", _) => Ok(Relation::Le),
            Token::Word(b"eq", _) => Ok(Relation::Eq),
            Token::Word(b"ge", _) => Ok(Relation::Ge),
            Token::Word(b"gt", _) => Ok(Relation::Gt),
            _ => Err(unknown),
        }
    }

    // An invariant's relation: lt is strict, le is not.
    #[tactic(auto, using(crate::proofs::Words::no_strictness))]
    pub fn strictness(self) -> Result<bool, SequenceFault>
        ensures { (field : List ℕ) (line column : ℕ) → IsField field line column self.entry → result ≡ strictness_field.parse (place line column) field }
    {
        let unknown = LineFault::UnknownWord(self.place()).into();
        match self.token {
            Token::Word(b"lt", _) => Ok(true),
            Token::Word(b"le", _) => Ok(false),
            _ => Err(unknown),
        }
    }

    // A dash, or t, s or r and a number.
    pub fn label(self, triggers: u8, channels: u8) -> Result<Label, SequenceFault>
        ensures { (field : List ℕ) (line column : ℕ) → IsField field line column self.entry → result ≡ (label_field triggers channels).parse (place line column) field }
    {
        match self.token {
            Token::Dash(_) => Ok(Label::Internal),
            Token::Word(word, _) => lettered(word, self.place(), triggers, channels),
            _ => Err(LineFault::UnknownWord(self.place()).into()),
        }
    }
}
