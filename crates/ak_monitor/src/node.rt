//! One monitor of the tree.

ghost use Rattle.std.specs.Prelude.{◌≡◌, ◌∷◌, ◌++◌, [], OnOk, OnErr, true, false};
ghost use Rattle.ak_base.specs.Lists.{first_of, rest_of};
ghost use Rattle.ak_monitor.specs.Monitors.{fresh_monitor};

use ak_base::list::NoMemory;
use ak_base::number::{Ctx, IvarNo, MonNo};
use std::alloc::Global;
use std::collections::VecDeque;
use std::marker::Model;
use std::mem;

/// A monitor: its parent, whether it is detached, its handlers, each with the context of its registration, and the
/// deferreds that wait for its next error, both oldest first.
#[derive(Debug, Drop)]
pub struct Node<H> {
    parent: MonNo,
    detached: bool,
    handlers: Vec<(Ctx, H)>,
    next_errors: VecDeque<IvarNo>,
}

impl<H> Model for Node<H> {
    ghost use Rattle.ak_monitor.specs.Monitors.{Monitor};

    ghost Value = { Monitor H };

    ghost view = { λ n. record {
      parent = n.parent;
      detached = n.detached;
      handlers = n.handlers.items;
      next_errors = n.next_errors.items;
    } };
}

impl<H> Node<H> {
    /// A monitor that nobody has touched. It takes no memory.
    pub fn new(alloc: Global, parent: MonNo) -> Node<H>
        ensures { result ≡ fresh_monitor parent }
    {
        Node {
            parent,
            detached: false,
            handlers: Vec::new(alloc),
            next_errors: VecDeque::new(alloc),
        }
    }

    /// The parent's number; the root's is its own.
    pub fn parent(&self) -> MonNo
        ensures { result ≡ self.now.parent }
    {
        self.parent
    }

    /// Whether it is detached.
    pub fn is_detached(&self) -> bool
        ensures { result ≡ self.now.detached }
    {
        self.detached
    }

    /// Detaches it.
    pub fn detach(&mut self)
        ensures { self.new ≡ record self.old { detached = true } }
    {
        self.detached = true;
    }

    /// Attaches it: it is detached no longer.
    pub fn attach(&mut self)
        ensures { self.new ≡ record self.old { detached = false } }
    {
        self.detached = false;
    }

    /// Puts a handler last. After want of memory nothing has changed and the handler is lost.
    pub fn add_handler(&mut self, ctx: Ctx, h: H) -> Result<(), NoMemory>
    where
        H: Drop,
        ensures ok { OnOk result (self.new ≡ record self.old { handlers = self.old.handlers ++ (ctx, h) ∷ [] }) }
        ensures err { OnErr result (self.new ≡ self.old) }
    {
        self.handlers.push((ctx, h))?;
        Ok(())
    }

    /// Puts a deferred last. After want of memory nothing has changed.
    pub fn add_next_error(&mut self, i: IvarNo) -> Result<(), NoMemory>
        ensures ok { OnOk result (self.new ≡ record self.old { next_errors = self.old.next_errors ++ i ∷ [] }) }
        ensures err { OnErr result (self.new ≡ self.old) }
    {
        self.next_errors.push_back(i)?;
        Ok(())
    }

    /// Takes the oldest deferred: `None` exactly where none waits, and nothing changes then.
    pub fn take_next_error(&mut self) -> Option<IvarNo>
        ensures front { result ≡ first_of self.old.next_errors }
        ensures rest { self.new ≡ record self.old { next_errors = rest_of self.old.next_errors } }
    {
        self.next_errors.pop_front()
    }

    /// Takes all deferreds, the oldest first; none waits any more. It takes no memory.
    pub fn take_next_errors(&mut self, alloc: Global) -> VecDeque<IvarNo>
        ensures all { result.items ≡ self.old.next_errors }
        ensures none { self.new ≡ record self.old { next_errors = [] } }
    {
        mem::replace(&mut self.next_errors, VecDeque::new(alloc))
    }

    /// The handlers, oldest first.
    pub fn handlers(&self) -> &[(Ctx, H)]
        ensures { result.now ≡ self.now.handlers }
    {
        self.handlers.as_slice()
    }
}
