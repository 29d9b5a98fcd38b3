//! Throttles.

use ak_base::list::NoMemory;
use ak_base::number::{BodyNo, IvarNo};
use ak_throttle::answer::{EnqueueRefused, Enqueued};
use ak_throttle::throttle::Throttle;

#[test]
fn second_body_waits(rt: HostRuntime) -> Result<(), NoMemory> {
    let mut throttle = Throttle::make(rt.alloc(), 1, false);
    assert!(rt; matches!(throttle.enqueue('a'), Ok(Enqueued::Start { body: 'a', .. })));
    assert!(rt; matches!(throttle.enqueue('b'), Ok(Enqueued::Waits { .. })));
    assert!(rt; !throttle.done_when(IvarNo::new(9))?);
    assert!(rt; throttle.next_done().is_none() && throttle.next_dropped().is_none());
    Ok(())
}

#[test]
fn waiting_body_starts_when_one_ends(rt: HostRuntime) -> Result<(), NoMemory> {
    let mut throttle = Throttle::make(rt.alloc(), 1, true);
    if throttle.enqueue('a').is_err() || throttle.enqueue('b').is_err() {
        return Err(NoMemory {});
    }
    let started = throttle.ended(BodyNo::new(0));
    assert_eq!(rt; started.map(|(_, body)| body), Some('b'));
    assert!(rt; !throttle.is_dead());
    Ok(())
}

#[test]
fn failure_drops_the_waiting_body(rt: HostRuntime) -> Result<(), NoMemory> {
    let mut throttle = Throttle::make(rt.alloc(), 1, true);
    if throttle.enqueue('a').is_err() || throttle.enqueue('b').is_err() {
        return Err(NoMemory {});
    }
    assert!(rt; throttle.failed(BodyNo::new(0)).is_none() && throttle.is_dead());
    assert_eq!(rt; throttle.next_dropped(), Some('b'));
    assert!(rt; matches!(throttle.enqueue('c'), Err(EnqueueRefused::Dead('c'))));
    Ok(())
}
