// Examples of the sources: tables, trays and pairs.
#![tactic(auto)]

use sources::table::Table;
use sources::tray::Tray;
use sources::trigger::{PutFault, TableFault, Trigger};
use sources::{Pair, Source};
use std::array;

const LAST: u32 = 1_000_000_000;

fn at(tick: u32, number: u8) -> Trigger {
    Trigger { tick, number }
}

// Whether a source gives these triggers, in this order, and nothing more.
fn gives<S: Source + Drop>(mut source: S, triggers: &[Trigger]) -> bool {
    for trigger in triggers {
        if source.next() != Some(*trigger) {
            return false;
        }
        source.remove();
    }
    source.next().is_none()
}

// A tray with triggers put into it in this order; what is refused is left out.
fn tray_of(triggers: &[Trigger]) -> Tray {
    let mut tray = Tray::new();
    for t in triggers {
        let _ = tray.put(t.tick, t.number);
    }
    tray
}

// A tray with 32 triggers of one tick, numbered from 0.
fn full_tray(tick: u32) -> Tray {
    let mut tray = Tray::new();
    for number in 0u8..32 {
        let _ = tray.put(tick, number);
    }
    tray
}

// The triggers of `full_tray`.
fn row_of_32(tick: u32) -> [Trigger; 32] {
    array::from_fn(|n| at(tick, n as u8))
}

#[cfg(test)]
mod tests {
    use super::*;

    #[test]
    fn empty_sources(rt: HostRuntime) {
        let mut tray = Tray::new();
        tray.remove();
        assert!(rt; gives(tray, &[]));
        assert_eq!(rt; Table::check(&[]), Ok(()));
        let mut pair = Pair::new(Table::new(&[]), Tray::new());
        pair.remove();
        assert!(rt; gives(pair, &[]));
    }

    #[test]
    fn table_gives_its_records(rt: HostRuntime) {
        let rows = [at(0, 9), at(4, 2), at(4, 1), at(LAST, 255)];
        assert_eq!(rt; Table::check(&rows), Ok(()));
        assert!(rt; gives(Table::new(&rows), &rows));
    }

    #[test]
    fn tick_over_in_a_table(rt: HostRuntime) {
        let rows = [at(1, 0), at(LAST + 1, 0)];
        assert_eq!(rt; Table::check(&rows), Err(TableFault::TickOver));
        assert!(rt; gives(Table::new(&rows), &[]));
        assert_eq!(rt;
            Table::check(&[at(u32::MAX, 0), at(1, 0)]),
            Err(TableFault::TickOver)
        );
        assert_eq!(rt;
            Table::check(&[at(5, 0), at(1, 0), at(LAST + 1, 0)]),
            Err(TableFault::TickOver)
        );
        assert_eq!(rt; TableFault::TickOver.number(), 13);
    }

    #[test]
    fn falling_ticks(rt: HostRuntime) {
        let first = [at(3, 0), at(2, 0), at(4, 0), at(5, 0)];
        let middle = [at(1, 0), at(3, 0), at(2, 0), at(5, 0)];
        let last = [at(1, 0), at(3, 0), at(5, 0), at(4, 0)];
        assert_eq!(rt; Table::check(&first), Err(TableFault::TickFalls));
        assert_eq!(rt; Table::check(&middle), Err(TableFault::TickFalls));
        assert_eq!(rt; Table::check(&last), Err(TableFault::TickFalls));
        assert!(rt; gives(Table::new(&last), &[]));
        assert_eq!(rt; TableFault::TickFalls.number(), 14);
    }

    #[test]
    fn tray_gives_by_tick_and_then_as_put(rt: HostRuntime) {
        let tray = tray_of(&[at(5, 1), at(2, 9), at(5, 0), at(0, 3), at(2, 8)]);
        assert!(rt; gives(tray, &[at(0, 3), at(2, 9), at(2, 8), at(5, 1), at(5, 0)]));
    }

    #[test]
    fn tick_over_at_a_put(rt: HostRuntime) {
        let mut tray = Tray::new();
        assert_eq!(rt; tray.put(LAST, 7), Ok(()));
        assert_eq!(rt; tray.put(LAST + 1, 8), Err(PutFault::TickOver));
        assert!(rt; gives(tray, &[at(LAST, 7)]));
        assert_eq!(rt; PutFault::TickOver.number(), 13);
    }

    #[test]
    fn tray_of_32_is_full(rt: HostRuntime) {
        let mut tray = full_tray(6);
        assert_eq!(rt; tray.put(1, 99), Err(PutFault::Full));
        assert_eq!(rt; tray.put(LAST + 1, 99), Err(PutFault::TickOver));
        assert!(rt; gives(tray, &row_of_32(6)));
        assert_eq!(rt; PutFault::Full.number(), 18);
    }

    #[test]
    fn removing_frees_a_place(rt: HostRuntime) {
        let mut tray = full_tray(6);
        tray.remove();
        assert_eq!(rt; tray.put(1, 99), Ok(()));
        assert_eq!(rt; tray.put(1, 98), Err(PutFault::Full));
        assert!(rt; tray.next() == Some(at(1, 99)));
    }

    #[test]
    fn equal_ticks_left_first(rt: HostRuntime) {
        let rows = [at(1, 0), at(4, 1), at(4, 2)];
        let tray = tray_of(&[at(4, 3), at(1, 4), at(4, 5)]);
        assert!(rt;
            gives(
                Pair::new(Table::new(&rows), tray),
                &[at(1, 0), at(1, 4), at(4, 1), at(4, 2), at(4, 3), at(4, 5)]
            )
        );
        assert!(rt;
            gives(
                Pair::new(tray, Table::new(&rows)),
                &[at(1, 4), at(1, 0), at(4, 3), at(4, 5), at(4, 1), at(4, 2)]
            )
        );
    }

    #[test]
    fn one_side_empty(rt: HostRuntime) {
        let rows = [at(1, 0), at(4, 1)];
        assert!(rt; gives(Pair::new(Table::new(&rows), Tray::new()), &rows));
        assert!(rt; gives(Pair::new(Tray::new(), Table::new(&rows)), &rows));
    }

    #[test]
    fn nested_pairs(rt: HostRuntime) {
        let a = [at(2, 1), at(7, 1)];
        let b = [at(2, 2), at(3, 2)];
        let c = tray_of(&[at(3, 3), at(2, 3), at(0, 3)]);
        let all = [
            at(0, 3),
            at(2, 1),
            at(2, 2),
            at(2, 3),
            at(3, 2),
            at(3, 3),
            at(7, 1),
        ];
        assert!(rt;
            gives(
                Pair::new(Pair::new(Table::new(&a), Table::new(&b)), c),
                &all
            )
        );
        assert!(rt;
            gives(
                Pair::new(Table::new(&a), Pair::new(Table::new(&b), c)),
                &all
            )
        );
    }
}
