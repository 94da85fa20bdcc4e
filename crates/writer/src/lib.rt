// A sequence as text, in the caller's buffer.
#![tactic(auto)]

ghost use Rattle.std.specs.Prelude.{◌≡◌, ℕ, List, [], ◌∷◌, ◌++◌, decimal};
ghost use Rattle.std.specs.List.{flat_map};
ghost use Rattle.std.specs.Fmt.{signed_decimal};
ghost use Rattle.lexical.specs.Bytes.{comma, equals, newline};
ghost use Rattle.lexical.specs.Fields.{printed_or_dash, relation_word, strictness_word, label_text};
ghost use Rattle.output.specs.Giving.{Gives};
ghost use Rattle.grammar.specs.Lines.{Item, text_of};
ghost use Rattle.grammar.specs.Writing.{count_items, variable_item, assignment_item, invariant_item, condition_item, reset_item, task_items, location_items, edge_items, items_of, written};
ghost use Rattle.sequence.specs.Whole.{plan};
ghost use Rattle.writer.specs.Places.{place_items};
ghost use Rattle.writer.specs.Outcome.{Writes};

use output::{Out, OutputShort, Sink, Tally, put_integer, put_natural};
use parts::part::{
    Assignment, Condition, Counts, Edge, Invariant, Label, Location, Relation, Reset, Task,
    Variable,
};
use sequence::whole::Sequence;

// A part that is written as lines.
trait Lines {
    ghost items: { Self → List Item };

    fn write<S: Sink>(&self, out: &mut S)
        ensures { Gives S.Sink.holds S.Sink.lender out.old (text_of (items self.now)) out.new };
}

// What a line says in one field, or in several with commas between them.
trait Field {
    ghost text: { Self → List ℕ };

    fn put<S: Sink>(&self, out: &mut S)
        ensures { Gives S.Sink.holds S.Sink.lender out.old (text self.now) out.new };
}

impl Field for u8 {
    ghost text = { decimal };

    fn put<S: Sink>(&self, out: &mut S) {
        put_natural(out, *self as u32);
    }
}

impl Field for u32 {
    ghost text = { decimal };

    fn put<S: Sink>(&self, out: &mut S) {
        put_natural(out, *self);
    }
}

impl Field for i16 {
    ghost text = { signed_decimal };

    fn put<S: Sink>(&self, out: &mut S) {
        put_integer(out, *self as i32);
    }
}

impl Field for i32 {
    ghost text = { signed_decimal };

    fn put<S: Sink>(&self, out: &mut S) {
        put_integer(out, *self);
    }
}

// A dash for none.
impl<T: Field> Field for Option<T> {
    ghost text = { printed_or_dash T.Field.text };

    fn put<S: Sink>(&self, out: &mut S) {
        match self {
            None => out.put(b"-"),
            Some(field) => field.put(out),
        }
    }
}

impl Field for Relation {
    ghost text = { relation_word };

    fn put<S: Sink>(&self, out: &mut S) {
        out.put(match *self {
            Relation::Lt => b"lt",
            Relation::Le => b"le",
            Relation::Eq => b"eq",
            Relation::Ge => b"ge",
            Relation::Gt => b"gt",
        });
    }
}

// A dash, or a letter and a number.
impl Field for Label {
    ghost text = { label_text };

    fn put<S: Sink>(&self, out: &mut S) {
        match *self {
            Label::Internal => out.put(b"-"),
            Label::Trigger(n) => put_lettered(out, b"t", n),
            Label::Send(n) => put_lettered(out, b"s", n),
            Label::Receive(n) => put_lettered(out, b"r", n),
        }
    }
}

// A letter and a number.
fn put_lettered<S: Sink>(out: &mut S, letter: &[u8], n: u8)
    ensures { Gives S.Sink.holds S.Sink.lender out.old (letter.now ++ decimal n) out.new }
{
    out.put(letter);
    n.put(out);
}

// Two fields. Of more, the second is a pair again.
impl<A: Field, B: Field> Field for (A, B) {
    ghost text = { λ f. A.Field.text f.0 ++ (comma ∷ B.Field.text f.1) };

    fn put<S: Sink>(&self, out: &mut S) {
        self.0.put(out);
        out.put(b",");
        self.1.put(out);
    }
}

// A key with its fields.
fn put_line<F: Field, S: Sink>(out: &mut S, key: &[u8], fields: &F)
    ensures { Gives S.Sink.holds S.Sink.lender out.old ((key.now ++ (equals ∷ F.text fields.now)) ++ (newline ∷ [])) out.new }
{
    out.put(key);
    out.put(b"=");
    fields.put(out);
    out.put(b"\n");
}

// An invariant's relation of its clock to its bound.
fn strictness(strict: bool) -> Relation
    ensures { relation_word result ≡ strictness_word strict }
{
    if strict { Relation::Lt } else { Relation::Le }
}

impl Lines for Counts {
    ghost items = { count_items };

    fn write<S: Sink>(&self, out: &mut S) {
        put_line(out, b"form", &1u8);
        put_line(out, b"autos", &self.automata);
        put_line(out, b"clocks", &self.clocks);
        put_line(out, b"triggers", &self.triggers);
        put_line(out, b"chans", &self.channels);
    }
}

impl Lines for Variable {
    ghost items = { λ v. variable_item v ∷ [] };

    fn write<S: Sink>(&self, out: &mut S) {
        put_line(out, b"var", &(self.low, (self.high, self.start)));
    }
}

impl Lines for Assignment {
    ghost items = { λ a. assignment_item a ∷ [] };

    fn write<S: Sink>(&self, out: &mut S) {
        put_line(out, b"set", &(self.target, (self.source, self.constant)));
    }
}

impl Lines for Invariant {
    ghost items = { λ i. invariant_item i ∷ [] };

    fn write<S: Sink>(&self, out: &mut S) {
        put_line(
            out,
            b"inv",
            &(self.clock, (strictness(self.strict), self.bound)),
        );
    }
}

impl Lines for Reset {
    ghost items = { λ r. reset_item r ∷ [] };

    fn write<S: Sink>(&self, out: &mut S) {
        put_line(out, b"zero", &self.clock);
    }
}

impl Lines for Condition {
    ghost items = { λ c. condition_item c ∷ [] };

    fn write<S: Sink>(&self, out: &mut S) {
        match *self {
            Condition::Clock(clock, relation, k) => put_line(out, b"clk", &(clock, (relation, k))),
            Condition::Difference(first, second, relation, k) => put_line(
                out,
                b"dif",
                &(first, (second, (relation, k))),
            ),
            Condition::Variable(variable, relation, k) => put_line(
                out,
                b"val",
                &(variable, (relation, k)),
            ),
        }
    }
}

impl<T: Lines> Lines for Option<T> {
    ghost items = { λ o. place_items T.Lines.items o };

    fn write<S: Sink>(&self, out: &mut S) {
        if let Some(part) = self {
            part.write(out);
        }
    }
}

// Parts in a row.
fn write_all<T: Lines, S: Sink>(out: &mut S, parts: &[T])
    ensures { Gives S.Sink.holds S.Sink.lender out.old (text_of (flat_map T.Lines.items parts.now)) out.new }
{
    for part in parts {
        part.write(out);
    }
}

impl Lines for Task {
    ghost items = { task_items };

    #[tactic(auto, using(crate::proofs::Pieces::in_a_row))]
    fn write<S: Sink>(&self, out: &mut S) {
        put_line(out, b"task", &(self.cost, (self.deadline, self.priority)));
        write_all(out, &self.assignments);
    }
}

impl Lines for Location {
    ghost items = { location_items };

    #[tactic(auto, using(crate::proofs::Pieces::in_a_row))]
    fn write<S: Sink>(&self, out: &mut S) {
        put_line(out, b"loc", &(self.automaton, self.task));
        write_all(out, &self.invariants);
    }
}

impl Lines for Edge {
    ghost items = { edge_items };

    #[tactic(auto, using(crate::proofs::Pieces::in_a_row))]
    fn write<S: Sink>(&self, out: &mut S) {
        put_line(out, b"edge", &(self.from, (self.to, self.label)));
        write_all(out, &self.guard);
        write_all(out, &self.resets);
        write_all(out, &self.assignments);
    }
}

impl Lines for Sequence {
    ghost items = { λ s. items_of (plan s) };

    fn write<S: Sink>(&self, out: &mut S) {
        self.counts().write(out);
        write_all(out, self.variables());
        write_all(out, self.tasks());
        write_all(out, self.locations());
        write_all(out, self.edges());
        put_line(out, b"edges", &(self.edges().len() as u32));
    }
}

// Writes the text of a sequence to the front of a buffer and says how long it is. Where it does not fit, the buffer stays as it is.
pub fn write_sequence(sequence: &Sequence, out: &mut [u8]) -> Result<usize, OutputShort>
    ensures { Writes (written (plan sequence.now)) out.old out.new result }
{
    let mut tally = Tally::new(out.len());
    sequence.write(&mut tally);
    if !tally.fits() {
        return Err(OutputShort);
    }
    let mut text = Out::new(out);
    sequence.write(&mut text);
    text.end()
}
