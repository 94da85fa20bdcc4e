// Reads the records of a table and the triggers put into a tray, and prints what the pair of the two gives.
#![tactic(auto)]

use sources::table::Table;
use sources::tray::Tray;
use sources::trigger::{PutFault, Trigger};
use sources::{Pair, Source};
use std::error::Error;
use std::{fmt, io};

// Why a line of the input cannot be used.
#[derive(Clone, Copy)]
enum Fault {
    Key,
    Fields,
    Tick,
    Number,
    Put(PutFault),
}

impl fmt::Display for Fault {
    fn fmt<W: fmt::Write>(&self, f: &mut fmt::Formatter<W>) -> fmt::Result {
        match *self {
            Fault::Key => write!(f, "expected trig=tick,number or put=tick,number"),
            Fault::Fields => write!(f, "expected two fields: tick,number"),
            Fault::Tick => write!(f, "the tick is not a number"),
            Fault::Number => write!(f, "the number is not one from 0 to 255"),
            Fault::Put(fault) => write!(f, "{}, {}", fault.number(), fault),
        }
    }
}

impl From<PutFault> for Fault {
    fn from(fault: PutFault) -> Fault {
        Fault::Put(fault)
    }
}

fn read_trigger(text: &str) -> Result<Trigger, Fault> {
    let mut fields = text.split(',');
    let (Some(tick), Some(number), None) = (fields.next(), fields.next(), fields.next()) else {
        return Err(Fault::Fields);
    };
    let tick = tick.parse::<u32>().map_err(|_| Fault::Tick)?;
    let number = number.parse::<u8>().map_err(|_| Fault::Number)?;
    Ok(Trigger { tick, number })
}

// Takes one line of the input: puts its trigger into the tray, or answers it as the table's next record.
fn read_line(tray: &mut Tray, line: &str) -> Result<Option<Trigger>, Fault> {
    if let Some(text) = line.strip_prefix("trig=") {
        return Ok(Some(read_trigger(text)?));
    }
    let text = line.strip_prefix("put=").ok_or(Fault::Key)?;
    let Trigger { tick, number } = read_trigger(text)?;
    tray.put(tick, number)?;
    Ok(None)
}

// Why the input gives no triggers: the first line that cannot be used, or a failed read, or a want of memory.
#[derive(Drop)]
enum InputError {
    Bad(usize, Fault),
    Other(anyhow::Error),
}

impl<E: Error> From<E> for InputError {
    fn from(e: E) -> InputError {
        InputError::Other(e.into())
    }
}

// What the input gives.
#[derive(Drop)]
struct Triggers {
    rows: Vec<Trigger>,
    tray: Tray,
}

fn read_input(rt: &HostRuntime) -> Result<Triggers, InputError> {
    let mut rows = Vec::new(rt.alloc());
    let mut tray = Tray::new();
    for (i, line) in rt.lines(rt.alloc()).enumerate() {
        let line = line?;
        let n = i.saturating_add(1);
        let row = read_line(&mut tray, line.as_str()).map_err(|f| InputError::Bad(n, f))?;
        if let Some(row) = row {
            rows.push(row)?;
        }
    }
    Ok(Triggers { rows, tray })
}

// Prints all that a pair gives, with the side that each trigger comes from.
fn print_merged<L: Source, R: Source>(rt: &HostRuntime, pair: &mut Pair<L, R>) -> io::Result<()> {
    while let Some(trigger) = pair.next() {
        let side = if pair.left.next() == Some(trigger) {
            "table"
        } else {
            "tray"
        };
        let Trigger { tick, number } = trigger;
        println!(rt; "{tick},{number} {side}")?;
        pair.remove();
    }
    Ok(())
}

// Prints the table and the tray as one list, or why the records make no table.
fn print_triggers(rt: &HostRuntime, triggers: Triggers) -> io::Result<()> {
    let rows = triggers.rows.as_slice();
    match Table::check(rows) {
        Ok(()) => print_merged(rt, &mut Pair::new(Table::new(rows), triggers.tray)),
        Err(fault) => println!(rt; "refused: table: {}, {}", fault.number(), fault),
    }
}

fn main(rt: HostRuntime) -> anyhow::Result<()> {
    match read_input(&rt) {
        Ok(triggers) => print_triggers(&rt, triggers)?,
        Err(InputError::Bad(line, fault)) => println!(rt; "refused: line {line}: {fault}")?,
        Err(InputError::Other(e)) => return Err(e),
    }
    Ok(())
}
