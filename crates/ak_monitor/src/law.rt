//! Laws of the tree of monitors. Each function has an empty body: its contract is the law.

ghost use Rattle.std.specs.Prelude.{ℕ, ◌≡◌, ◌<◌, List, length, true};
ghost use Rattle.ak_monitor.specs.Monitors.{Monitor, path, route, with_detached};
ghost use Rattle.ak_monitor.specs.Trees.{IsTree};
ghost use Rattle.ak_monitor.specs.Ways.{is_detached, IsWay};

/// An error goes from its monitor to the nearest detached one of the path, or past all of them. The handlers may be of
/// any type `H`.
#[tactic(auto, using(crate::proofs::Paths::is_way))]
pub fn nearest_detached_monitor_catches<H>()
    ensures { (monitors : List (Monitor H)) (m : ℕ) → IsWay monitors (path monitors m) (route monitors m) }
{}

/// A detached monitor catches an error that was raised in itself. The handlers may be of any type `H`.
#[tactic(auto, using(crate::proofs::Paths::caught_at_once))]
pub fn detached_monitor_catches_its_own<H>()
    ensures { (monitors : List (Monitor H)) (m : ℕ) → m < length monitors
        → route (with_detached m monitors) m ≡ record { passed = 1; caught = Some m } }
{}
