// Examples of orders and of the ready queue.
#![tactic(auto)]

use jobs::job::{Job, JobKey, OrderName, Policy, UnknownOrder};
use jobs::{Ed, Fc, Fp, Hold, Order};
use precedence::{Keyed, Precedence};
use ready_queue::queue::{QueueFull, ReadyQueue};

// A job of a priority, released at a tick, with cost 3 and a deadline.
fn job(number: u32, priority: u8, release: u32, deadline: u32) -> Job {
    Job::released(number, 0, 3, deadline, priority, release)
}

fn first_number(queue: &ReadyQueue) -> Option<u32> {
    queue.first().map(|j| j.number)
}

fn put<O: Order>(queue: &mut ReadyQueue, order: &O, j: Job) -> bool {
    queue.release(order, j).is_ok()
}

// The first goes before the second, and not the other way round.
fn ahead<O: Order>(order: &O, a: &Job, b: &Job) -> bool {
    let x: JobKey = a.order_key();
    let y: JobKey = b.order_key();
    order.goes_before(&x, &y) && !order.goes_before(&y, &x)
}

#[cfg(test)]
mod tests {
    use super::*;
    use std::test::Fail;

    #[test]
    fn ties_go_to_the_smaller_number(rt: HostRuntime) {
        let a = job(4, 7, 0, 9);
        let b = job(5, 7, 0, 9);
        assert!(rt; ahead(&Fp, &a, &b));
        assert!(rt; ahead(&Ed, &a, &b));
        assert!(rt; ahead(&Fc, &a, &b));
    }

    #[test]
    fn equal_deadlines(rt: HostRuntime) {
        assert!(rt; ahead(&Ed, &job(1, 0, 3, 7), &job(2, 9, 4, 6)));
        assert!(rt; ahead(&Ed, &job(2, 0, 3, 6), &job(1, 9, 4, 6)));
        assert!(rt; ahead(&Ed, &job(1, 0, 1, u32::MAX), &job(2, 0, u32::MAX, u32::MAX)));
        assert!(rt;
            ahead(
                &Ed,
                &job(1, 0, u32::MAX, u32::MAX),
                &job(2, 0, u32::MAX, u32::MAX)
            )
        );
    }

    #[test]
    fn preempt_resume_count(rt: HostRuntime) -> Result<(), Fail> {
        let mut queue = ReadyQueue::new();
        assert!(rt; put(&mut queue, &Fp, job(0, 1, 0, 20)));
        let _ = queue.serve();
        assert!(rt; put(&mut queue, &Fp, job(1, 9, 1, 5)));
        assert_eq!(rt; first_number(&queue), Some(1));
        let _ = queue.serve();
        let _ = queue.serve();
        let _ = queue.serve();
        assert_eq!(rt; queue.first().ok_or("empty")?.remaining, 0);
        assert_eq!(rt; queue.remove_first().ok_or("empty")?.number, 1);
        let resumed = queue.first().ok_or("empty")?;
        assert_eq!(rt; resumed.number, 0);
        assert_eq!(rt; resumed.remaining, 2);
        assert!(rt; resumed.started);
        Ok(())
    }

    #[test]
    fn hold_keeps_the_started_job(rt: HostRuntime) {
        let mut queue = ReadyQueue::new();
        let order = Hold(Fp);
        let key: JobKey = job(0, 1, 0, 20).order_key();
        assert!(rt; !key.started);
        assert!(rt; put(&mut queue, &order, job(0, 1, 0, 20)));
        let _ = queue.serve();
        assert!(rt; put(&mut queue, &order, job(1, 9, 1, 5)));
        assert!(rt; put(&mut queue, &order, job(2, 3, 1, 5)));
        assert_eq!(rt; first_number(&queue), Some(0));
        let _ = queue.remove_first();
        assert_eq!(rt; first_number(&queue), Some(1));
    }

    #[test]
    fn a_full_queue_hands_the_job_back(rt: HostRuntime) -> Result<(), Fail> {
        let mut queue = ReadyQueue::new();
        for n in 0..32u32 {
            assert!(rt; put(&mut queue, &Fc, job(n, 0, n, 9)));
        }
        assert_eq!(rt; queue.len(), 32);
        let QueueFull(j) = queue
            .release(&Fc, job(77, 0, 0, 9))
            .err()
            .ok_or("a 33rd job was taken")?;
        assert_eq!(rt; j.number, 77);
        assert_eq!(rt; queue.len(), 32);
        assert_eq!(rt; queue.get(31).ok_or("short")?.number, 31);
        assert!(rt; queue.get(32).is_none());
        Ok(())
    }

    #[test]
    fn late_is_behind_the_deadline(rt: HostRuntime) -> Result<(), Fail> {
        let mut queue = ReadyQueue::new();
        assert!(rt; put(&mut queue, &Fp, job(0, 9, 6, 100)));
        assert!(rt; put(&mut queue, &Fp, job(1, 1, 6, 5)));
        assert!(rt; queue.first_late(11).is_none());
        assert_eq!(rt; queue.first_late(12).ok_or("not late")?.number, 1);
        assert!(rt; !job(0, 0, u32::MAX, 0).is_late(0));
        Ok(())
    }

    #[test]
    fn words_of_orders(rt: HostRuntime) {
        assert_eq!(rt; OrderName::try_from(b"fp".as_slice()), Ok(OrderName::Fp));
        assert_eq!(rt; OrderName::try_from(b"ed".as_slice()), Ok(OrderName::Ed));
        assert_eq!(rt; OrderName::try_from(b"fc".as_slice()), Ok(OrderName::Fc));
        assert_eq!(rt; OrderName::try_from(b"f".as_slice()), Err(UnknownOrder));
        assert_eq!(rt; OrderName::try_from(b"fpp".as_slice()), Err(UnknownOrder));
        assert_eq!(rt; OrderName::Ed.word(), "ed");
        let held = Policy {
            name: OrderName::Fp,
            hold: true,
        };
        let old = job(0, 1, 0, 9).worked().order_key();
        let new = job(1, 9, 0, 9).order_key();
        assert!(rt; held.goes_before(&old, &new));
        assert!(rt; OrderName::Fp.goes_before(&new, &old));
    }
}
