// Reads sequence texts, one to a line of standard input, and prints for each how many of its bytes are a sequence, or the refusal.
// In a line `/` stands for a newline and `%` with two digits from 0 to f for a byte.
#![tactic(auto)]

ghost use Rattle.std.specs.Prelude.{◌<◌};

use reader::read_sequence;
use sequence::memory::Memory;
use sequence::whole::Sequence;
use std::alloc::AllocError;
use writer::write_sequence;

// What a hexadecimal digit says; any other byte counts as 0. The library's `to_digit` takes capital letters too.
fn digit(b: u8) -> u8
    ensures { result < 16 }
{
    match b {
        b'0'..=b'9' => b - b'0',
        b'a'..=b'f' => b - b'a' + 10,
        _ => 0,
    }
}

// The bytes that a line stands for.
fn decode(line: &[u8], text: &mut Vec<u8>) -> Result<(), AllocError> {
    text.clear();
    let mut left = line;
    loop {
        let (byte, behind) = match left {
            [] => return Ok(()),
            [b'%', high, low, behind @ ..] => (digit(*high) * 16 + digit(*low), behind),
            [b'/', behind @ ..] => (b'\n', behind),
            [byte, behind @ ..] => (*byte, behind),
        };
        text.push(byte)?;
        left = behind;
    }
}

// Whether the sequence is written back as it was read.
fn is_written_back(sequence: &Sequence, text: &[u8], out: &mut [u8]) -> bool {
    write_sequence(sequence, out).is_ok_and(|length| length == text.len()) && out.starts_with(text)
}

fn try_text(rt: &HostRuntime, text: &[u8], out: &mut [u8]) -> anyhow::Result<()> {
    match read_sequence(Memory::new(rt.alloc())?, text) {
        Ok((sequence, rest)) => {
            let length = text.len().saturating_sub(rest.len());
            if is_written_back(&sequence, &text[..length], out) {
                println!(rt; "read {length}")?;
            } else {
                println!(rt; "read {length} and not written back")?;
            }
        }
        Err(refusal) => println!(rt; "{}", refusal.fault.report())?,
    }
    Ok(())
}

fn main(rt: HostRuntime) -> anyhow::Result<()> {
    let mut text = Vec::new(rt.alloc());
    let mut out = vec![in rt.alloc(); 0u8; 40_960]?;
    for line in rt.lines(rt.alloc()) {
        let line = line?;
        decode(line.as_bytes(), &mut text)?;
        try_text(&rt, &text, &mut out)?;
    }
    Ok(())
}
