// Bytes for a caller's buffer, written or only counted, and numbers as text.
#![tactic(auto)]

ghost use Rattle.std.specs.Prelude.{◌≡◌, ℕ, List, [], length, ok_or, decimal, nat_le};
ghost use Rattle.std.specs.Fmt.{signed_decimal};
ghost use Rattle.lexical.specs.Faults.{short_report};
ghost use Rattle.output.specs.Giving.{Gives, Counted, Written, Added};

use lexical::fault::Report;

// The answer to a buffer that is too short.
#[derive(Clone, Copy)]
pub struct OutputShort;

impl OutputShort {
    pub fn report(self) -> Report
        ensures { result ≡ short_report }
    {
        Report {
            cause: 12,
            layer: 4,
            line: 0,
            column: 0,
        }
    }
}

// Takes bytes, one after another. Once some do not fit it is short, and takes no more.
pub trait Sink {
    // over a buffer that began as the first list it was given the second
    ghost holds: { Self → List ℕ → List ℕ → Type 0 };

    // the buffer that it writes to
    ghost lender: { Self → ℕ };

    fn put(&mut self, bytes: &[u8])
        ensures { Gives holds lender self.old bytes.now self.new };
}

// Counts what a buffer would take, and writes nothing.
#[derive(Clone, Copy)]
pub struct Tally {
    // none once more was given than fits
    left: Option<usize>,
}

impl Tally {
    pub fn new(room: usize) -> Tally
        ensures { (start : List ℕ) → length start ≡ room → Counted result.left start [] }
    {
        Tally { left: Some(room) }
    }

    // Whether all that was given fits.
    pub fn fits(&self) -> bool
        ensures { (start given : List ℕ) → Counted self.now.left start given → result ≡ nat_le (length given) (length start) }
    {
        self.left.is_some()
    }
}

impl Sink for Tally {
    ghost holds = { λ t start given. Counted t.left start given };

    ghost lender = { λ _. 0 };

    fn put(&mut self, bytes: &[u8]) {
        self.left = self.left.and_then(|left| left.checked_sub(bytes.len()));
    }
}

// Writes to the front of a caller's buffer, the length beside it: nothing is allocated.
#[derive(Drop)]
pub struct Out<'a> {
    buf: &'a mut [u8],
    // none once more was given than fits
    len: Option<usize>,
}

impl<'a> Out<'a> {
    pub fn new(buf: &'a mut [u8]) -> Out<'a>
        ensures holds { Written result.len result.buf.now buf.old [] }
        ensures lender { result.buf.ghost_name ≡ buf.entry.ghost_name }
    {
        Out { buf, len: Some(0) }
    }

    // Writes all of the bytes behind those that are there, or none where they do not fit.
    pub fn add(&mut self, bytes: &[u8]) -> Result<(), OutputShort>
        ensures added { Added self.old.len self.old.buf.now bytes.now self.new.len self.new.buf.now result }
        ensures lender { self.new.buf.ghost_name ≡ self.old.buf.ghost_name }
    {
        let at = self.end()?;
        let room = self.buf.len();
        let end = at
            .checked_add(bytes.len())
            .filter(|end| *end <= room)
            .ok_or(OutputShort)?;
        // not by `get_mut`, which says nothing of the rest of the buffer once its part is written
        self.buf[at..end].copy_from_slice(bytes);
        self.len = Some(end);
        Ok(())
    }

    // How many bytes were written, or that more was given than fits.
    pub fn end(&self) -> Result<usize, OutputShort>
        ensures { result ≡ ok_or self.now.len record {} }
    {
        self.len.ok_or(OutputShort)
    }
}

impl<'a> Sink for Out<'a> {
    ghost holds = { λ o start given. Written o.len o.buf.now start given };

    ghost lender = { λ o. o.buf.ghost_name };

    #[tactic(auto, using(crate::proofs::Room::written_more))]
    fn put(&mut self, bytes: &[u8]) {
        if self.add(bytes).is_err() {
            self.len = None;
        }
    }
}

// A number's decimal digits, each given by itself: a buffer that is too short takes those that fit.
pub fn put_natural<S: Sink>(out: &mut S, n: u32)
    ensures { Gives S.Sink.holds S.Sink.lender out.old (decimal n) out.new }
{
    if n >= 10 {
        put_natural(out, n / 10);
    }
    out.put(&[b'0' + (n % 10) as u8]);
}

// The same with a minus sign before those below 0.
pub fn put_integer<S: Sink>(out: &mut S, z: i32)
    ensures { Gives S.Sink.holds S.Sink.lender out.old (signed_decimal z) out.new }
{
    if z < 0 {
        out.put(b"-");
    }
    put_natural(out, z.unsigned_abs());
}
