//! Groups and guards.

use ak_base::list::NoMemory;
use ak_base::number::RegNo;
use ak_choice::groups::Groups;

#[test]
fn group_is_decided_once(rt: HostRuntime) -> Result<(), NoMemory> {
    let mut groups = Groups::make(rt.alloc());
    let guard = groups.begin(0)?;
    let all = groups.begin(2)?;
    assert!(rt; groups.decide(guard) && !groups.decide(guard) && groups.undecided(all));
    Ok(())
}

#[test]
fn part_keeps_its_number(rt: HostRuntime) -> Result<(), NoMemory> {
    let mut groups = Groups::make(rt.alloc());
    let all = groups.begin(2)?;
    assert!(rt; !groups.set_part(all, 1, 5) && groups.set_part(all, 0, -3));
    assert!(rt; groups.part(all, 0) == Some(-3) && groups.part(all, 2).is_none());
    Ok(())
}

#[test]
fn oldest_note_is_taken_first(rt: HostRuntime) -> Result<(), NoMemory> {
    let mut groups = Groups::make(rt.alloc());
    let group = groups.begin(0)?;
    groups.note(group, RegNo::new(4))?;
    groups.note(group, RegNo::new(2))?;
    assert_eq!(rt; groups.next_note(group), Some(RegNo::new(4)));
    assert_eq!(rt; groups.next_note(group), Some(RegNo::new(2)));
    assert!(rt; groups.next_note(group).is_none());
    Ok(())
}
