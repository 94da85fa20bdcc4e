// Text cut at a byte.
ghost use Rattle.std.specs.Prelude.{◌≡◌, Some, None, MatchOption};
ghost use Rattle.lexical.specs.Bytes.{cut};

// What stands before and behind the first of a byte; none where there is none.
pub fn cut_at<'a>(text: &'a [u8], byte: u8) -> Option<(&'a [u8], &'a [u8])>
    ensures { MatchOption result (cut byte text.now ≡ None) (λ p. cut byte text.now ≡ Some (p.0.now, p.1.now)) }
{
    // a loop: `position` takes nearly twice the time on a long text
    for (i, b) in text.iter().enumerate() {
        if *b == byte {
            return Some((&text[..i], &text[i + 1..]));
        }
    }
    None
}
