// Whole ticks, event by event: a sequence text, the triggers to come, and the lines that are made.
#![tactic(auto)]

use events::perform::perform;
use jobs::Fp;
use jobs::job::JobKey;
use moves::engine::Engine;
use reader::read_sequence;
use runs::event::Event;
use sequence::memory::Memory;
use sources::table::Table;
use sources::trigger::Trigger;
use std::alloc::{AllocError, Global};
use std::fmt::Write;

// More than the events of any run here.
const MOST_EVENTS: usize = 1000;

// The lines that a sequence makes under fixed priorities before a tick, each with a blank behind it.
fn lines(
    heap: Global,
    text: &[u8],
    triggers: &[Trigger],
    until: u32,
) -> Result<String, AllocError> {
    let mut out = String::new(heap);
    let Ok((sequence, _)) = read_sequence(Memory::new(heap)?, text) else {
        write!(out, "refused")?;
        return Ok(out);
    };
    let mut engine = Engine::new(sequence);
    let mut source = Table::new(triggers);
    for _ in 0..MOST_EVENTS {
        if engine.core.now >= until {
            break;
        }
        match perform(&mut engine, &Fp, &mut source) {
            Some(Event::Made(line)) => write!(out, "{line} ")?,
            Some(_) => {}
            None => break,
        }
    }
    Ok(out)
}

// Automaton 0 releases a job with each of its first steps, as many as are asked for; then 1 sends to 2, and both release.
fn releases(heap: Global, first: u8) -> Result<String, AllocError> {
    let mut text = String::new(heap);
    write!(
        text,
        "form=1\nautos=3\nclocks=0\ntriggers=0\nchans=1\nvar=0,99,0\ntask=1,1000,1\n"
    )?;
    write!(text, "loc=0,0\nloc=1,0\nloc=2,0\n")?;
    write!(text, "edge=0,0,-\nval=0,lt,{first}\nset=0,0,1\n")?;
    write!(
        text,
        "edge=1,1,s0\nval=0,eq,{first}\nset=0,0,1\nedge=2,2,r0\nedges=3\n"
    )?;
    let out = lines(heap, text.as_bytes(), &[], 1)?;
    let mut last = String::new(heap);
    let mut many = 0u8;
    for line in out.split(' ') {
        if line.starts_with("edge=0,0,-") {
            many = many.saturating_add(1);
        } else if !line.is_empty() {
            write!(last, "{line} ")?;
        }
    }
    let mut answer = String::new(heap);
    write!(answer, "{many} releases, then {last}")?;
    Ok(answer)
}

#[cfg(test)]
mod tests {
    use super::*;
    use std::test::Fail;

    #[test]
    fn sixty_four_steps_in_a_tick(rt: HostRuntime) -> Result<(), Fail> {
        let text =
            b"form=1\nautos=1\nclocks=0\ntriggers=0\nchans=0\nloc=0,-\nedge=0,0,-\nedges=1\n";
        let out = lines(rt.alloc(), text, &[], 1)?;
        let edges = out.split(' ').filter(|line| *line == "edge=0,0,-").count();
        assert_eq!(rt; edges, 64);
        assert!(rt; out.ends_with("edge=0,0,- end=0,6,0 "));
        Ok(())
    }

    #[test]
    fn two_releases_at_the_last_places(rt: HostRuntime) -> Result<(), Fail> {
        let heap = rt.alloc();
        assert_eq!(rt;
            releases(heap, 30)?.as_str(),
            "30 releases, then edge=0,1,2 "
        );
        assert_eq!(rt;
            releases(heap, 31)?.as_str(),
            "31 releases, then end=0,5,1 "
        );
        assert_eq!(rt;
            releases(heap, 32)?.as_str(),
            "32 releases, then end=0,5,1 "
        );
        assert_eq!(rt;
            releases(heap, 33)?.as_str(),
            "32 releases, then end=0,5,0 "
        );
        Ok(())
    }

    // The sender's assignments run first, whichever of the two is found: 1, then 1 + 2, and the invariant tells.
    #[test]
    fn sender_first_whoever_is_found(rt: HostRuntime) -> Result<(), Fail> {
        let head =
            "form=1\nautos=2\nclocks=0\ntriggers=0\nchans=1\nvar=0,9,0\nloc=0,-\nloc=0,-\nloc=1,-\nloc=1,-\n";
        let sender = "edge=0,1,s0\nset=0,-,1\nedge=2,3,r0\nset=0,0,2\n";
        let receiver = "edge=0,1,r0\nset=0,0,2\nedge=2,3,s0\nset=0,-,1\n";
        let three = "edge=1,1,-\nval=0,eq,3\nset=0,-,0\nedges=3\n";
        let heap = rt.alloc();
        let mut text = String::new(heap);
        write!(text, "{head}{sender}{three}")?;
        assert_eq!(rt;
            lines(heap, text.as_bytes(), &[], 1)?.as_str(),
            "edge=0,0,1 edge=0,2,- "
        );
        let mut text = String::new(heap);
        write!(text, "{head}{receiver}{three}")?;
        assert_eq!(rt;
            lines(heap, text.as_bytes(), &[], 1)?.as_str(),
            "edge=0,0,1 edge=0,2,- "
        );
        Ok(())
    }

    // Of two fitting partners the lower one is taken, and one of the same automaton is none.
    #[test]
    fn the_lowest_partner_of_another_automaton(rt: HostRuntime) -> Result<(), Fail> {
        let text =
            b"form=1\nautos=3\nclocks=0\ntriggers=0\nchans=1\nloc=0,-\nloc=0,-\nloc=1,-\nloc=1,-\nloc=2,-\nloc=2,-\n\
edge=0,1,s0\nedge=0,1,r0\nedge=4,5,r0\nedge=2,3,r0\nedges=4\n";
        assert_eq!(rt; lines(rt.alloc(), text, &[], 1)?.as_str(), "edge=0,0,2 ");
        Ok(())
    }

    // A trigger is taken in its tick, or missed at its end; one that is present already, or unknown, is missed when it comes.
    #[test]
    fn triggers_taken_and_missed(rt: HostRuntime) -> Result<(), Fail> {
        let text =
            b"form=1\nautos=1\nclocks=0\ntriggers=2\nchans=0\nloc=0,-\nloc=0,-\nedge=0,1,t0\nedges=1\n";
        let triggers = [
            Trigger { tick: 1, number: 1 },
            Trigger { tick: 2, number: 0 },
            Trigger { tick: 2, number: 0 },
            Trigger { tick: 2, number: 2 },
            Trigger { tick: 3, number: 0 },
        ];
        let out = lines(rt.alloc(), text, &triggers, 5)?;
        assert_eq!(rt;
            out.as_str(),
            "miss=1,1 miss=2,0 miss=2,2 edge=2,0,- miss=3,0 "
        );
        Ok(())
    }

    // A job is done once it has worked C ticks, and what it assigns opens an edge in the same tick.
    #[test]
    fn done_after_its_ticks(rt: HostRuntime) -> Result<(), Fail> {
        let text =
            b"form=1\nautos=1\nclocks=0\ntriggers=0\nchans=0\nvar=0,1,0\ntask=3,3,0\nset=0,-,1\nloc=0,-\nloc=0,0\n\
edge=0,1,-\nedge=1,0,-\nval=0,eq,1\nset=0,-,0\nedges=2\n";
        let out = lines(rt.alloc(), text, &[], 4)?;
        assert_eq!(rt;
            out.as_str(),
            "edge=0,0,- done=3,0,0 edge=3,1,- edge=3,0,- "
        );
        Ok(())
    }

    // Of two jobs with one tick each and a deadline of one tick, the second is late at the second tick behind its release.
    #[test]
    fn late_behind_the_deadline(rt: HostRuntime) -> Result<(), Fail> {
        let text =
            b"form=1\nautos=2\nclocks=0\ntriggers=0\nchans=0\ntask=1,1,0\nloc=0,-\nloc=0,0\nloc=1,-\nloc=1,0\n\
edge=0,1,-\nedge=2,3,-\nedges=2\n";
        let out = lines(rt.alloc(), text, &[], 4)?;
        assert_eq!(rt; out.as_str(), "edge=0,0,- edge=0,1,- done=1,0,0 end=2,1,1 ");
        Ok(())
    }

    // A refused step ends the run: its edge, and an assignment of a done job its number; an invariant the automaton.
    #[test]
    fn ends_of_a_run(rt: HostRuntime) -> Result<(), Fail> {
        let heap = rt.alloc();
        let edge =
            b"form=1\nautos=1\nclocks=0\ntriggers=0\nchans=0\nvar=0,1,0\nloc=0,-\nedge=0,0,-\nset=0,0,1\nedges=1\n";
        assert_eq!(rt;
            lines(heap, edge, &[], 1)?.as_str(),
            "edge=0,0,- end=0,3,0 "
        );
        let task =
            b"form=1\nautos=1\nclocks=0\ntriggers=0\nchans=0\nvar=0,1,0\ntask=1,9,0\nset=0,-,2\nloc=0,-\nloc=0,0\nedge=0,1,-\nedges=1\n";
        assert_eq!(rt;
            lines(heap, task, &[], 3)?.as_str(),
            "edge=0,0,- end=1,4,0 "
        );
        let stay =
            b"form=1\nautos=2\nclocks=1\ntriggers=0\nchans=0\nloc=0,-\nloc=1,-\ninv=0,lt,2\nedges=0\n";
        assert_eq!(rt; lines(heap, stay, &[], 3)?.as_str(), "end=1,2,1 ");
        Ok(())
    }
}
