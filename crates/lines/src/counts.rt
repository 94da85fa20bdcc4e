// The key and the value of a line, and the five lines of counts. A line's number stands beside it: who cuts the text counts.
ghost use Rattle.std.specs.Prelude.{◌≡◌, ◌≤◌, length, IfOk, Ok, Err, MatchResult};
ghost use Rattle.lexical.specs.Bytes.{pieces, newline};
ghost use Rattle.lexical.specs.Fields.{on};
ghost use Rattle.lexical.specs.Tokens.{KeyAt, token_bytes};
ghost use Rattle.grammar.specs.Reading.{key_and_value, value_place, counted as CountedOf, count_line, read_counts};

use fields::split::one_field;
use fields::text::FieldText;
use lexical::bytes::cut_at;
use lexical::fault::{LineFault, Place, SequenceFault};
use lexical::key::{Key, key_named};
use lexical::token::Token;
use parts::part::Counts;

// The key of a line, of 1 to 8 bytes before the first `=`, and the value behind it.
pub fn key_and_value<'a>(
    line: &'a [u8],
    number: usize,
) -> Result<(Token<'a>, FieldText<'a>), SequenceFault>
    ensures parted { MatchResult result (λ p. key_and_value number line.now ≡ Ok (token_bytes p.0, p.1.bytes.now)) (λ e. key_and_value number line.now ≡ Err e) }
    ensures placed { IfOk result (λ p. p.1.at ≡ value_place number (token_bytes p.0)) }
    ensures keyed { IfOk result (λ p. KeyAt 1 p.0) }
    ensures short { IfOk result (λ p. length (token_bytes p.0) ≤ 8) }
{
    match cut_at(line, b'=') {
        Some((key, bytes)) if 1 <= key.len() && key.len() <= 8 => {
            let key = Token::Key(key, 1);
            let at = value_place(key, number);
            Ok((key, FieldText { bytes, at }))
        }
        _ => Err(LineFault::Malformed(Place::line_start(number)).into()),
    }
}

// Where the value behind a key stands, in a line with this number.
pub fn value_place(key: Token, number: usize) -> Place
    requires key_at { KeyAt 1 key }
    requires key_len_bound { length (token_bytes key) ≤ 40960 }
    ensures { result ≡ value_place number (token_bytes key.entry) }
{
    Place {
        line: number,
        column: key.column() + key.bytes().len() + 1,
    }
}

// The number on a line that has to have this key.
fn counted(key: Key, low: u32, high: u32, number: usize, line: &[u8]) -> Result<u32, SequenceFault>
    ensures read { result ≡ on (key_and_value number line.now) (CountedOf key low high number) }
    ensures within { IfOk result (λ n. n ≤ high) }
{
    let (name, value) = key_and_value(line, number)?;
    if key_named(name.bytes()) != Some(key) {
        return Err(LineFault::KeyNotAllowed(Place::line_start(number)).into());
    }
    let x = one_field(value.bytes, value.at)?;
    Ok(x.number(low, high)?)
}

// The number on the first line, which has to have this key, and the text behind that line.
pub fn count_line<'a>(
    key: Key,
    low: u32,
    high: u32,
    number: usize,
    text: &'a [u8],
) -> Result<(u32, &'a [u8]), SequenceFault>
    ensures read { MatchResult result (λ p. count_line key low high number (pieces newline text.now) ≡ Ok (p.0, pieces newline p.1.now)) (λ e. count_line key low high number (pieces newline text.now) ≡ Err e) }
    ensures within { IfOk result (λ p. p.0 ≤ high) }
{
    let start = Place::line_start(number);
    let (line, rest) = cut_at(text, b'\n').ok_or(LineFault::Malformed(start))?;
    Ok((counted(key, low, high, number, line)?, rest))
}

// The counts on the first five lines, and the text behind them.
pub fn read_counts<'a>(text: &'a [u8]) -> Result<(Counts, &'a [u8]), SequenceFault>
    ensures { MatchResult result (λ p. read_counts (pieces newline text.now) ≡ Ok (p.0, pieces newline p.1.now)) (λ e. read_counts (pieces newline text.now) ≡ Err e) }
{
    let (_, second) = count_line(Key::Form, 1, 1, 1, text)?;
    let (automata, third) = count_line(Key::Autos, 1, 8, 2, second)?;
    let (clocks, fourth) = count_line(Key::Clocks, 0, 16, 3, third)?;
    let (triggers, fifth) = count_line(Key::Triggers, 0, 16, 4, fourth)?;
    let (channels, rest) = count_line(Key::Chans, 0, 8, 5, fifth)?;
    let counts = Counts {
        automata: automata as u8,
        clocks: clocks as u8,
        triggers: triggers as u8,
        channels: channels as u8,
    };
    Ok((counts, rest))
}
