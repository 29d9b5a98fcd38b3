//! The tree of monitors.

use ak_base::list::NoMemory;
use ak_base::number::{Ctx, IvarNo, MonNo};
use ak_monitor::route::Route;
use ak_monitor::tree::Tree;

/// The way of an error: how many monitors it passed, and which one caught it.
fn route(passed: u32, caught: Option<MonNo>) -> Route {
    Route { passed, caught }
}

#[test]
fn nearest_detached_monitor_catches(rt: HostRuntime) -> Result<(), NoMemory> {
    let mut tree = Tree::<char>::make(rt.alloc())?;
    let a = tree.child(MonNo::new(0))?;
    let b = tree.child(a)?;
    let c = tree.child(b)?;
    assert_eq!(rt; tree.parent(c), Some(b));
    assert_eq!(rt; tree.route(c), route(4, None));
    tree.detach(b);
    assert_eq!(rt; tree.route(c), route(2, Some(b)));
    Ok(())
}

#[test]
fn handlers_and_next_errors_go_oldest_first(rt: HostRuntime) -> Result<(), NoMemory> {
    let mon = MonNo::new(0);
    let ctx = Ctx { mon, low: true };
    let mut tree = Tree::make(rt.alloc())?;
    tree.on_error(mon, ctx, 'x')?;
    assert!(rt; tree.handler(mon, 0) == Some((ctx, &'x')) && tree.handler(mon, 1).is_none());
    tree.next_error(mon, IvarNo::new(7))?;
    tree.next_error(mon, IvarNo::new(3))?;
    assert_eq!(rt; tree.take_next(mon), Some(IvarNo::new(7)));
    assert_eq!(rt; tree.take_next(mon), Some(IvarNo::new(3)));
    assert!(rt; tree.take_next(mon).is_none());
    Ok(())
}
