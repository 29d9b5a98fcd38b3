//! The clock.

use ak_base::list::NoMemory;
use ak_base::number::IvarNo;
use ak_clock::alarm::AfterRefused;
use ak_clock::clock::Clock;

#[test]
fn alarms_are_due_by_time_and_number(rt: HostRuntime) -> Result<(), NoMemory> {
    let mut clock = Clock::make(rt.alloc());
    assert!(rt; clock.after(IvarNo::new(0), 5).is_ok());
    clock.yield_next(IvarNo::new(3))?;
    assert_eq!(rt; clock.tick(5), Ok(()));
    assert_eq!(rt; clock.due(), Some(IvarNo::new(0)));
    assert_eq!(rt; clock.next_yield(), Some(IvarNo::new(3)));
    assert!(rt; !clock.any_due() && !clock.any_yield());
    Ok(())
}

#[test]
fn aborted_alarm_is_never_due(rt: HostRuntime) -> Result<(), AfterRefused> {
    let mut clock = Clock::make(rt.alloc());
    let alarm = clock.after(IvarNo::new(4), 0)?;
    assert_eq!(rt; clock.abort(alarm), Some(IvarNo::new(4)));
    assert_eq!(rt; clock.abort(alarm), None);
    assert_eq!(rt; clock.due(), None);
    Ok(())
}
