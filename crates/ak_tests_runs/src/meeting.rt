//! Hands whose works wait for one another: only two threads that run at once can do them.

use crate::works::serve;
use ak_labor::labor::{Labor, Plain};
use ak_labor::work::{Outcome, Work, WorkKind};
use std::hint;
use std::sync::atomic::{AtomicU64, Ordering};
use std::test::*;

/// For how many turns a work waits for the other.
const TURNS: u32 = 200_000_000;

/// How often either work was begun, and how often one waited in vain.
#[derive(Drop)]
struct Meeting {
    first: AtomicU64,
    second: AtomicU64,
    missed: AtomicU64,
}

impl Meeting {
    fn make() -> Meeting {
        Meeting {
            first: AtomicU64::new(0),
            second: AtomicU64::new(0),
            missed: AtomicU64::new(0),
        }
    }

    // Begins a work, and waits until the other is begun.
    fn meet(&self, own: &AtomicU64, other: &AtomicU64) {
        own.fetch_add(1, Ordering::SeqCst);
        for _ in 0..TURNS {
            if other.load(Ordering::SeqCst) > 0 {
                return;
            }
            hint::spin_loop();
        }
        self.missed.fetch_add(1, Ordering::SeqCst);
    }
}

/// A hand that computes, and at `mix 1` and `mix 2` waits for the other of the two.
#[derive(Drop)]
struct Meeter<'a> {
    meeting: &'a Meeting,
    plain: Plain,
}

impl<'a> Labor for Meeter<'a> {
    ghost carried = { λ hand. hand.plain };

    fn carry(&mut self, work: &Work) -> Outcome {
        let meeting = self.meeting;
        match (work.kind, work.num) {
            (WorkKind::Mix, 1) => meeting.meet(&meeting.first, &meeting.second),
            (WorkKind::Mix, 2) => meeting.meet(&meeting.second, &meeting.first),
            _ => {}
        }
        self.plain.carry(work)
    }
}

#[test]
fn two_threads_meet(rt: HostRuntime) -> Result<(), Fail> {
    let alloc = rt.alloc();
    let meeting = Meeting::make();
    let hands = vec![in alloc;
        Meeter {
            meeting: &meeting,
            plain: Plain::make()
        },
        Meeter {
            meeting: &meeting,
            plain: Plain::make()
        },
    ]?;
    let works = [
        Work {
            kind: WorkKind::Mix,
            num: 1,
        },
        Work {
            kind: WorkKind::Mix,
            num: 2,
        },
    ];
    let served = serve(&rt, alloc, 2, hands, &works)?;
    assert_eq!(rt; served.arrived.len(), 2);
    assert_eq!(rt; meeting.missed.load(Ordering::SeqCst), 0);
    assert_eq!(rt; meeting.first.load(Ordering::SeqCst), 1);
    assert_eq!(rt; meeting.second.load(Ordering::SeqCst), 1);
    Ok(())
}
