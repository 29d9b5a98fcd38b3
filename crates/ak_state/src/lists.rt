//! The lists of the state beside ivars and jobs.

ghost use Rattle.std.specs.Prelude.{◌≡◌, IfOk};
ghost use Rattle.ak_state.specs.Seen.{no_lists};

use crate::helpers::Helpers;
use crate::outstanding::Works;
use crate::requests::Requests;
use ak_base::list::{Items, NoMemory};
use ak_choice::groups::Groups;
use ak_clock::clock::Clock;
use ak_machine::held::{Handler, Purpose};
use ak_monitor::tree::Tree;
use ak_streams::pipes::Pipes;
use ak_streams::throttles::Throttles;
use std::alloc::Global;

/// What waits for errors, for decisions, for bodies, for numbers and for a time, with the numbers that it was given; the works,
/// the helpers and the requests; and how many askers are left. Own.
#[derive(Debug, Drop)]
pub struct Lists {
    pub monitors: Tree<Handler>,
    pub groups: Groups,
    pub purposes: Items<Purpose>,
    pub throttles: Throttles,
    pub pipes: Pipes,
    pub clock: Clock,
    pub works: Works,
    pub helpers: Helpers,
    pub requests: Requests,
    pub left: u32,
}

impl Lists {
    /// The root monitor alone, the clock at 0, and so many askers.
    pub fn make(alloc: Global, askers: u32) -> Result<Lists, NoMemory>
        ensures { IfOk result (λ l. l ≡ no_lists askers) }
    {
        Ok(Lists {
            monitors: Tree::make(alloc)?,
            groups: Groups::make(alloc),
            purposes: Items::make(alloc),
            throttles: Throttles::make(alloc),
            pipes: Pipes::make(alloc),
            clock: Clock::make(alloc),
            works: Works::make(alloc),
            helpers: Helpers::make(alloc),
            requests: Requests::make(alloc),
            left: askers,
        })
    }

    /// The root monitor alone again, and the clock at 0. It takes no memory.
    pub fn reset(&mut self, alloc: Global, askers: u32)
        ensures { self.new ≡ no_lists askers }
    {
        self.monitors.reset();
        self.groups = Groups::make(alloc);
        self.purposes = Items::make(alloc);
        self.throttles = Throttles::make(alloc);
        self.pipes = Pipes::make(alloc);
        self.clock = Clock::make(alloc);
        self.works = Works::make(alloc);
        self.helpers = Helpers::make(alloc);
        self.requests = Requests::make(alloc);
        self.left = askers;
    }
}
