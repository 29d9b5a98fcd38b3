//! The two queues of jobs.

use ak_base::list::NoMemory;
use ak_base::number::{Ctx, MonNo};
use ak_rings::rings::Rings;

#[test]
fn one_of_each_priority_runs_in_a_cycle(rt: HostRuntime) -> Result<(), NoMemory> {
    let mon = MonNo::new(0);
    let mut rings = Rings::make(rt.alloc(), 1);
    rings.reserve(3)?;
    let first = rings.push(Ctx { mon, low: true }, 'a');
    let second = rings.push(Ctx { mon, low: false }, 'b');
    let third = rings.push(Ctx { mon, low: false }, 'c');
    assert_eq!(rt;
        (first.number(), second.number(), third.number()),
        (0, 1, 2)
    );
    assert_eq!(rt; rings.pick().map(|job| job.frame), Some('b'));
    assert_eq!(rt; rings.pick().map(|job| job.frame), Some('a'));
    assert!(rt; !rings.can_pick() && !rings.is_empty());
    assert!(rt; rings.pick().is_none());
    rings.reset();
    assert!(rt; rings.can_pick());
    assert_eq!(rt; rings.pick().map(|job| job.frame), Some('c'));
    assert!(rt; !rings.can_pick() && rings.is_empty());
    Ok(())
}
