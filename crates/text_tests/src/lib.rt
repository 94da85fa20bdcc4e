// Refusals that need more than a line of input: texts that are too long, and outputs that are too short.
#![tactic(auto)]

use lexical::fault::Report;
use reader::read_sequence;
use sequence::memory::Memory;
use sequence::whole::Sequence;
use std::alloc::{AllocError, Global};
use writer::write_sequence;

const TEXT: &[u8] = b"form=1\nautos=1\nclocks=0\ntriggers=0\nchans=0\nloc=0,-\nedges=0\n";

// The refusal of a text, or none where it is read.
fn refusal(heap: Global, text: &[u8]) -> Result<Option<Report>, AllocError> {
    Ok(
        read_sequence(Memory::new(heap)?, text)
            .err()
            .map(|refusal| refusal.fault.report()),
    )
}

// The sequence of the text above.
fn sequence(heap: Global) -> Result<Option<Sequence>, AllocError> {
    Ok(
        read_sequence(Memory::new(heap)?, TEXT)
            .ok()
            .map(|read| read.0),
    )
}

#[cfg(test)]
mod tests {
    use super::*;
    use std::test::Fail;

    #[test]
    fn too_long_by_one_and_by_more(rt: HostRuntime) -> Result<(), Fail> {
        let heap = rt.alloc();
        for (many, cause) in [(40_960, 2), (40_961, 1), (50_000, 1)] {
            let text = vec![in heap; b'x'; many]?;
            let report = refusal(heap, &text)?.ok_or("read")?;
            assert_eq!(rt; report.cause, cause, "of {many} bytes");
            if cause == 1 {
                assert_eq!(rt; (report.layer, report.line, report.column), (3, 0, 0));
            }
        }
        Ok(())
    }

    #[test]
    fn an_output_that_is_too_short_stays(rt: HostRuntime) -> Result<(), Fail> {
        let heap = rt.alloc();
        let sequence = sequence(heap)?.ok_or("not read")?;
        for many in [0, 1, TEXT.len() - 1] {
            let mut out = vec![in heap; b'?'; many]?;
            let short = write_sequence(&sequence, &mut out).err().ok_or("written")?;
            let report = short.report();
            assert_eq!(rt; (report.cause, report.layer), (12, 4));
            assert_eq!(rt; (report.line, report.column), (0, 0));
            assert!(rt; out.iter().all(|b| *b == b'?'));
        }
        Ok(())
    }

    #[test]
    fn an_output_that_is_long_enough(rt: HostRuntime) -> Result<(), Fail> {
        let heap = rt.alloc();
        let sequence = sequence(heap)?.ok_or("not read")?;
        for more in [0, 1, 40] {
            let mut out = vec![in heap; b'?'; TEXT.len() + more]?;
            let written = write_sequence(&sequence, &mut out).ok().ok_or("refused")?;
            assert_eq!(rt; written, TEXT.len());
            assert!(rt; out.starts_with(TEXT));
            assert!(rt; out.iter().skip(written).all(|b| *b == b'?'));
        }
        Ok(())
    }
}
