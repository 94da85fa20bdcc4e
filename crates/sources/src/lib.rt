// The triggers to come: what a source means, and the sources.
// A table gives the caller's records, a tray what was put into it, and a pair what two sources give, as one.
#![tactic(auto)]

ghost use Rattle.std.specs.Prelude.{◌≡◌, List, [], nat_le, nat_lt};
ghost use Rattle.precedence.specs.Sorted.{in_order};
ghost use Rattle.sources.specs.declared.trigger.Trigger.{Trigger};
ghost use Rattle.sources.specs.Faults.{table_fault_number, put_fault_number};
ghost use Rattle.sources.specs.Lists.{last_tick, earlier, first, rest, all_within, TriggerList};
ghost use Rattle.sources.specs.Merging.{merge, right_next, Merged, MergeKeepsBoth};
ghost use Rattle.sources.specs.Members.{merge_valid};
ghost use Rattle.sources.specs.Tables.{table_list, Checked, Tabled};
ghost use Rattle.sources.specs.Trays.{tray_list, Puts};
ghost use Rattle.std.proofs.Common.{rules};

mod fault;
pub mod table;
pub mod tray;
pub mod trigger;

use precedence::bounded::BoundedList;
use precedence::{Keyed, OwnOrder, Ranked};
use table::Table;
use tray::Tray;
use trigger::{PutFault, TableFault, Tick, Trigger};

const LAST_TICK: u32 = 1_000_000_000;

// A source stands for a list: the triggers that are still to come, the next one first.
pub trait Source {
    ghost list: { Self → List Trigger };

    // its ticks never fall, and none is over 1,000,000,000
    ghost valid: { (s : Self) → TriggerList (list s) };

    // The first trigger, or none. The list stays as it is.
    fn next(&self) -> Option<Trigger>
        ensures { result ≡ first (list self.now) };

    // Removes the first trigger, if there is one.
    fn remove(&mut self)
        ensures { list self.new ≡ rest (list self.old) };
}

impl TableFault {
    pub fn number(self) -> u8
        ensures { result ≡ table_fault_number self }
    {
        self as u8
    }
}

impl PutFault {
    pub fn number(self) -> u8
        ensures { result ≡ put_fault_number self }
    {
        self as u8
    }
}

fn is_within(tick: u32) -> bool
    ensures { result ≡ nat_le tick last_tick }
{
    tick <= LAST_TICK
}

fn ticks_within(rows: &[Trigger]) -> bool
    ensures { result ≡ all_within rows.now }
{
    rows.iter().all(|row| is_within(row.tick))
}

fn ticks_in_order(rows: &[Trigger]) -> bool
    ensures { result ≡ in_order earlier rows.now }
{
    rows.is_sorted_by(|a, b| a.tick <= b.tick)
}

impl<'a> Table<'a> {
    // Whether records make a table. A tick that is over counts before one that falls; equal ticks do not fall.
    pub fn check(rows: &[Trigger]) -> Result<(), TableFault>
        ensures { Checked rows.now result }
    {
        if !ticks_within(rows) {
            Err(TableFault::TickOver)
        } else if !ticks_in_order(rows) {
            Err(TableFault::TickFalls)
        } else {
            Ok(())
        }
    }

    // The table that gives the records, or nothing where they do not pass the check.
    pub fn new(rows: &'a [Trigger]) -> Table<'a>
        ensures { Tabled rows.now (table_list result) }
    {
        match Table::check(rows) {
            Ok(()) => Table { rows },
            Err(_) => Table { rows: &[] },
        }
    }
}

impl Source for Table<'_> {
    ghost list = { table_list };

    ghost valid = { λ t. record { ordered = t.ordered; within = t.within } };

    fn next(&self) -> Option<Trigger> {
        self.rows.first().copied()
    }

    fn remove(&mut self) {
        if let [_, rest @ ..] = self.rows {
            self.rows = rest;
        }
    }
}

impl Ranked for Tick {
    ghost ahead = { λ a b. nat_lt a.0 b.0 };

    ghost ranked = { Prim.search rules };

    fn is_ahead(&self, other: &Tick) -> bool {
        self.0 < other.0
    }
}

impl Keyed<Tick> for Trigger {
    ghost key = { λ t. record { 0 = t.tick } };

    fn order_key(&self) -> Tick {
        Tick(self.tick)
    }
}

impl Tray {
    pub fn new() -> Self
        ensures { tray_list result ≡ [] }
    {
        Tray {
            triggers: BoundedList::empty(Trigger { tick: 0, number: 0 }),
        }
    }

    // Puts a trigger behind those of the same or an earlier tick and before all later ones. A refused put changes nothing.
    pub fn put(&mut self, tick: u32, number: u8) -> Result<(), PutFault>
        ensures { Puts (record { tick = tick; number = number }) self.old self.new result }
    {
        if !is_within(tick) {
            return Err(PutFault::TickOver);
        }
        self.triggers
            .insert(&OwnOrder, Trigger { tick, number })
            .map_err(|_| PutFault::Full)
    }
}

impl Source for Tray {
    ghost list = { tray_list };

    ghost valid = { λ t. record { ordered = t.ordered; within = t.within } };

    fn next(&self) -> Option<Trigger> {
        self.triggers.first()
    }

    fn remove(&mut self) {
        let _ = self.triggers.remove_first();
    }
}

// Two sources as one: it gives by tick, the left one's trigger first on equal ticks.
#[derive(Drop)]
pub struct Pair<L, R> {
    pub left: L,
    pub right: R,
}

// Whether the right side of a pair gives next, by what each side has first.
fn right_is_next(left: Option<Trigger>, right: Option<Trigger>) -> bool
    ensures { result ≡ right_next left right }
{
    match (left, right) {
        (Some(a), Some(b)) => b.tick < a.tick,
        (None, Some(_)) => true,
        (_, None) => false,
    }
}

impl<L: Source, R: Source> Pair<L, R> {
    pub fn new(left: L, right: R) -> Self
        ensures left { result.left ≡ left }
        ensures right { result.right ≡ right }
        ensures merged { Merged earlier (L.Source.list left) (R.Source.list right) (merge earlier (L.Source.list result.left) (R.Source.list result.right)) }
    {
        Pair { left, right }
    }
}

impl<L: Source, R: Source> Source for Pair<L, R> {
    ghost list = { λ p. merge earlier (L.Source.list p.left) (R.Source.list p.right) };

    ghost valid = { λ p. merge_valid (L.Source.list p.left) (R.Source.list p.right) (L.Source.valid p.left) (R.Source.valid p.right) };

    fn next(&self) -> Option<Trigger> {
        let left = self.left.next();
        let right = self.right.next();
        if right_is_next(left, right) {
            right
        } else {
            left
        }
    }

    fn remove(&mut self) {
        if right_is_next(self.left.next(), self.right.next()) {
            self.right.remove();
        } else {
            self.left.remove();
        }
    }
}

// The merge of two lists holds both, each in its own order. Of lists in order it is in order, the left one first on equal ticks.
pub fn merge_keeps_both()
    ensures { MergeKeepsBoth }
{}
