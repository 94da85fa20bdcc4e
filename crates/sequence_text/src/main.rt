// Reads a sequence text from standard input, prints what it holds and writes it back, or prints the refusal.
#![tactic(auto)]

use reader::read_sequence;
use sequence::memory::Memory;
use sequence::whole::Sequence;
use std::io;
use std::io::{Read, Write};
use writer::write_sequence;

// No sequence's text is longer.
const LONGEST_TEXT: usize = 40_960;

// How many there are of each kind.
fn print_counts(rt: &HostRuntime, sequence: &Sequence) -> io::Result<()> {
    let counts = sequence.counts();
    let automata = counts.automata;
    let locations = sequence.locations().len();
    let edges = sequence.edges().len();
    let clocks = counts.clocks;
    let variables = sequence.variables().len();
    let tasks = sequence.tasks().len();
    let triggers = counts.triggers;
    let channels = counts.channels;
    println!(rt; "automata {automata}, locations {locations}, edges {edges}, clocks {clocks}")?;
    println!(rt; "variables {variables}, tasks {tasks}, triggers {triggers}, channels {channels}")
}

// The sequence's text, as it is written.
fn print_text(rt: &HostRuntime, sequence: &Sequence, out: &mut [u8]) -> io::Result<()> {
    match write_sequence(sequence, out) {
        Ok(length) => {
            println!(rt; "its text, {length} bytes:")?;
            if let Some(text) = out.get(..length) {
                rt.stdout().write_all(text)?;
            }
            Ok(())
        }
        Err(short) => println!(rt; "{}", short.report()),
    }
}

fn main(rt: HostRuntime) -> anyhow::Result<()> {
    let mut text = Vec::new(rt.alloc());
    rt.stdin().read_to_end(&mut text)?;
    let memory = Memory::new(rt.alloc())?;
    match read_sequence(memory, &text) {
        Ok((sequence, rest)) => {
            print_counts(&rt, &sequence)?;
            let behind = rest.len();
            println!(rt; "behind it {behind} bytes")?;
            let mut out = vec![in rt.alloc(); 0u8; LONGEST_TEXT]?;
            print_text(&rt, &sequence, &mut out)?;
        }
        Err(refusal) => println!(rt; "{}", refusal.fault.report())?,
    }
    Ok(())
}
