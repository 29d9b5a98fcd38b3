//! The monitors of a run, and the way of an error up from one of them.

ghost use Rattle.std.specs.Prelude.{◌≡◌, ◌+◌, ◌-◌, ◌<◌, ◌≤◌, ◌^◌, ◌==◌, ◌||◌, [], ◌∷◌, length, slice_get, Some, None, OnOk, OnErr, IfOk, IfSome, MatchOption, if◌then◌else◌};
ghost use Rattle.ak_base.specs.Lists.{first_of};
ghost use Rattle.ak_monitor.specs.Monitors as plain;
ghost use Rattle.ak_monitor.specs.Ways.{IsWay, is_detached};

use crate::node::Node;
use crate::route::Route;
use ak_base::list::NoMemory;
use ak_base::number::{Ctx, IvarNo, MonNo};
use std::alloc::{AllocError, Global};
use std::collections::VecDeque;
use std::marker::Model;

/// The monitors of a run: each but the root, 0, lies below an older one. Contracts see the list of them, each with its
/// parent, whether it is detached, its handlers and the deferreds that wait for its next error (after `Monitor` of
/// Async; that a path begins with the monitor in which the error was raised is own).
#[derive(Debug, Drop)]
pub struct Tree<H> {
    monitors: Vec<Node<H>>,
    alloc: Global,
}

impl<H> Model for Tree<H> {
    ghost use Rattle.std.specs.Prelude.{List};
    ghost use Rattle.ak_monitor.specs.Monitors.{Monitor};
    ghost use Rattle.ak_monitor.specs.Trees.{IsTree};

    ghost Value = { List (Monitor H) };

    ghost view = { λ t. t.monitors.items };

    ghost invariant = { λ t. IsTree t.monitors.items };
}

impl<H> Tree<H> {
    /// The root alone.
    ///
    /// # Errors
    ///
    /// `NoMemory`.
    pub fn make(alloc: Global) -> Result<Tree<H>, NoMemory>
    where
        H: Drop,
        ensures { IfOk result (λ t. t ≡ plain.root_alone) }
    {
        let mut monitors = Vec::new(alloc);
        monitors.push(Node::new(alloc, MonNo::new(0)))?;
        Ok(Tree { monitors, alloc })
    }

    /// Puts a monitor below one that exists, and gives its number: how many monitors there were.
    ///
    /// # Errors
    ///
    /// `NoMemory`, also where no number of 32 bits is left. The monitors are then as before.
    pub fn child(&mut self, parent: MonNo) -> Result<MonNo, NoMemory>
    where
        H: Drop,
        requires exists { parent < length self.old }
        ensures number { IfOk result (λ m. m ≡ length self.old) }
        ensures ok { OnOk result (self.new ≡ plain.with_child parent self.old) }
        ensures err { OnErr result (self.new ≡ self.old) }
    {
        if self.monitors.len() >= u32::MAX as usize {
            return Err(AllocError);
        }
        let m = MonNo::new(self.monitors.len() as u32);
        self.monitors.push(Node::new(self.alloc, parent))?;
        Ok(m)
    }

    /// The root alone again: the other monitors are gone. It takes no memory.
    pub fn reset(&mut self)
    where
        H: Drop,
        ensures { self.new ≡ plain.root_alone }
    {
        self.monitors.truncate(1);
        self.monitors[0] = Node::new(self.alloc, MonNo::new(0));
    }

    /// The parent of a monitor that exists: `None` exactly for the root, 0.
    pub fn parent(&self, m: MonNo) -> Option<MonNo>
        requires { m < length self.now }
        ensures parent { result ≡ plain.parent_of m self.now }
        ensures older { IfSome result (λ p. p < m) }
        ensures path { MatchOption result (plain.path self.now m ≡ m ∷ []) (λ p. plain.path self.now m ≡ m ∷ plain.path self.now p) }
    {
        if m.number() == 0 {
            None
        } else {
            Some(self.above(m))
        }
    }

    /// Detaches a monitor that exists: errors that reach it go no further.
    pub fn detach(&mut self, m: MonNo)
        requires { m < length self.old }
        ensures { self.new ≡ plain.with_detached m self.old }
    {
        self.monitors[m.number() as usize].detach();
    }

    /// Attaches a monitor that exists: it is detached no longer, and errors that reach it go on.
    pub fn attach(&mut self, m: MonNo)
        requires { m < length self.old }
        ensures { self.new ≡ plain.with_attached m self.old }
    {
        self.monitors[m.number() as usize].attach();
    }

    /// Gives a monitor that exists one more handler, behind the others, in the context `ctx`.
    ///
    /// # Errors
    ///
    /// `NoMemory`. The monitors are then as before, and the handler is lost.
    pub fn on_error(&mut self, m: MonNo, ctx: Ctx, h: H) -> Result<(), NoMemory>
    where
        H: Drop,
        requires { m < length self.old }
        ensures ok { OnOk result (self.new ≡ plain.with_handler m ctx h self.old) }
        ensures err { OnErr result (self.new ≡ self.old) }
    {
        self.monitors[m.number() as usize].add_handler(ctx, h)?;
        Ok(())
    }

    /// Has a deferred wait for the next error of a monitor that exists, behind the others.
    ///
    /// # Errors
    ///
    /// `NoMemory`. The monitors are then as before.
    pub fn next_error(&mut self, m: MonNo, i: IvarNo) -> Result<(), NoMemory>
        requires { m < length self.old }
        ensures ok { OnOk result (self.new ≡ plain.with_next_error m i self.old) }
        ensures err { OnErr result (self.new ≡ self.old) }
    {
        self.monitors[m.number() as usize].add_next_error(i)?;
        Ok(())
    }

    /// The way of an error from a monitor that exists: up its path to the nearest detached monitor, or past all of them.
    pub fn route(&self, m: MonNo) -> Route
        requires { m < length self.now }
        ensures route { result ≡ plain.route self.now m }
        ensures way { IsWay self.now (plain.path self.now m) result }
    {
        let _ = &self.monitors;
        let mut at = m;
        let mut passed: u32 = 1;
        while !self.is_end(at) {
            at = self.above(at);
            passed += 1;
        }
        self.route_at(at, passed)
    }

    /// Takes the oldest deferred that waits for the next error of a monitor that exists: `None` exactly where none
    /// waits, and nothing changes then.
    pub fn take_next(&mut self, m: MonNo) -> Option<IvarNo>
        requires { m < length self.old }
        ensures front { result ≡ first_of (plain.monitor_in self.old m).next_errors }
        ensures rest { self.new ≡ plain.next_error_taken m self.old }
    {
        self.monitors[m.number() as usize].take_next_error()
    }

    /// Takes all deferreds that wait for the next error of a monitor that exists, the oldest first; none waits any more.
    /// It takes no memory.
    pub fn take_next_errors(&mut self, m: MonNo) -> VecDeque<IvarNo>
        requires { m < length self.old }
        ensures all { result.items ≡ (plain.monitor_in self.old m).next_errors }
        ensures none { self.new ≡ plain.without_next_errors m self.old }
    {
        self.monitors[m.number() as usize].take_next_errors(self.alloc)
    }

    /// The handlers of a monitor that exists, oldest first, each with its context.
    pub fn handlers(&self, m: MonNo) -> &[(Ctx, H)]
        requires { m < length self.now }
        ensures { result.now ≡ (plain.monitor_in self.now m).handlers }
    {
        self.monitors[m.number() as usize].handlers()
    }

    /// Lends the `k`-th handler from 0 of a monitor that exists, in order of registration, with its context: `None`
    /// exactly past the last.
    pub fn handler(&self, m: MonNo, k: u32) -> Option<(Ctx, &H)>
        requires { m < length self.now }
        ensures { MatchOption result (length (plain.monitor_in self.now m).handlers ≤ k) (λ h. slice_get (plain.monitor_in self.now m).handlers k ≡ Some (h.0, h.1.now)) }
    {
        match self.monitors[m.number() as usize]
            .handlers()
            .get(k as usize)
        {
            Some(handler) => Some((handler.0, &handler.1)),
            None => None,
        }
    }

    // Whether a path ends at a monitor for an error: it is detached, or the root.
    fn is_end(&self, m: MonNo) -> bool
        requires { m < length self.now }
        ensures { result ≡ ((m == 0) || is_detached self.now m) }
    {
        m.number() == 0 || self.monitors[m.number() as usize].is_detached()
    }

    // The parent of a monitor that is not the root.
    #[tactic(auto, using(crate::proofs::Paths::path_above))]
    fn above(&self, m: MonNo) -> MonNo
        requires exists { m < length self.now }
        requires below { 0 < m }
        ensures parent { result ≡ (plain.monitor_in self.now m).parent }
        ensures older { result < m }
        ensures path { plain.path self.now m ≡ m ∷ plain.path self.now result }
    {
        self.monitors[m.number() as usize].parent()
    }

    // The way that ends at a monitor, past so many.
    fn route_at(&self, m: MonNo, passed: u32) -> Route
        requires { m < length self.now }
        ensures { result ≡ record { passed = passed; caught = if is_detached self.now m then Some m else None } }
    {
        let caught = if self.monitors[m.number() as usize].is_detached() {
            Some(m)
        } else {
            None
        };
        Route { passed, caught }
    }
}
