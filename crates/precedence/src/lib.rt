// Which of two records goes before the other, and the one insertion that keeps records in that order.
#![tactic(auto)]

ghost use Rattle.std.specs.Prelude.{◌≡◌, ◌≤◌, Bool, ◌∷◌, ◌++◌, length, take, drop};
ghost use Rattle.precedence.specs.Laws.{WeakOrder};
ghost use Rattle.precedence.specs.Sorted.{by_key, put};
ghost use Rattle.precedence.specs.Insertion.{Inserts};
ghost use Rattle.std.proofs.Common.{rules};

pub mod bounded;

// A policy value that says which of two keys goes before the other.
// Keys that it does not tell apart are of equal rank.
pub trait Precedence<K> {
    // whether the first key goes before the second
    ghost before: { Self → K → K → Bool };

    fn goes_before(&self, a: &K, b: &K) -> bool
        ensures { result ≡ before self.now a.now b.now };

    ghost lawful: { (o : Self) → WeakOrder (before o) };
}

// A kind of record that has an order of its own, the same in every policy. Not `Ord`: only which goes ahead is asked, and two
// records may be of equal rank.
pub trait Ranked {
    // whether the first record goes before the second
    ghost ahead: { Self → Self → Bool };

    fn is_ahead(&self, other: &Self) -> bool
        ensures { result ≡ ahead self.now other.now };

    ghost ranked: { WeakOrder ahead };
}

// The policy that leaves the decision to the records' own order.
#[derive(Clone, Copy)]
pub struct OwnOrder;

impl<K: Ranked> Precedence<K> for OwnOrder {
    ghost before = { λ _ a b. K.Ranked.ahead a b };

    ghost lawful = { Prim.search rules };

    fn goes_before(&self, a: &K, b: &K) -> bool {
        a.is_ahead(b)
    }
}

// A record that is ordered by a key, which is all that a policy gets to see of it.
pub trait Keyed<K> {
    ghost key: { Self → K };

    fn order_key(&self) -> K
        ensures { result ≡ key self.now };
}

// The place of `x` in `row`: behind every record that stands in front of the first one that `x` goes before.
fn place<K: Drop, T: Keyed<K>, O: Precedence<K>>(order: &O, row: &[T], x: &T) -> usize
    ensures within { result ≤ length row.now }
    ensures there { take result row.now ++ (x.now ∷ drop result row.now) ≡ put (by_key T.Keyed.key (O.Precedence.before order.now)) x.now row.now }
{
    let key = x.order_key();
    row.iter()
        .position(|y| order.goes_before(&key, &y.order_key()))
        .unwrap_or(row.len())
}

// Puts `x` among the first `len` records of `row`, behind those that it does not go before.
// Where `row` has no place left for it, `x` is handed back and `row` stays as it was.
// The length stands beside the slice, since any slice may be kept in order, not only that of a `BoundedList`.
pub fn insert<K: Drop, T: Keyed<K> + Copy, O: Precedence<K>>(
    order: &O,
    row: &mut [T],
    len: usize,
    x: T,
) -> Result<(), T>
    ensures { Inserts (by_key T.Keyed.key (O.Precedence.before order.now)) x len row.old row.new result }
{
    if len >= row.len() {
        return Err(x);
    }
    let i = place(order, &row[0..len], &x);
    row.copy_within(i..len, i + 1);
    row[i] = x;
    Ok(())
}
