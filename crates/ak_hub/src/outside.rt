//! Those who ask from outside of a run, each by a pass of its own.

ghost use Rattle.std.specs.Prelude.{ℕ, ℤ, List, ◌≡◌, ◌<◌, ◌+◌, []};
ghost use Rattle.ak_hub.specs.Hubs.{IsPassOf};
ghost use Rattle.ak_hub.specs.Outsides.{HasActed};

use crate::hub::{Hub, HubPass};
use ak_base::list::Items;
use ak_base::number::{AskerNo, Num, RequestNo};
use std::alloc::Global;
use std::sync::Wait;

/// What an asker was told: its requests that have answers, with these, in the order of the answers.
pub type Told = Items<(RequestNo, Num)>;

/// What each asker was told, from asker 0 on.
pub type Tolds = Items<Told>;

/// What an asker leaves: its pass, what it was told, and whether memory was wanting.
#[derive(Drop)]
pub struct Acted {
    pub pass: HubPass,
    pub told: Told,
    pub short: bool,
}

/// Those who ask from outside. Each asker has a plan, the numbers that it is to ask with. After Async's `Thread_safe`.
pub trait Outside: Sync {
    /// The numbers that an asker is to ask with, in order.
    ghost plan: { Self → ℕ → List ℤ };

    /// Asker `asker` asks by its pass, which has given nothing yet, and hears its answers, until it has ended or meets a close.
    /// It asks with the first numbers of its plan, and with all of them where it has ended and memory was not wanting.
    ///
    /// The pass comes back with its number and its spare numbers. What the asker was told is the answers to its requests, in
    /// order, as the pass has seen them. Where memory is wanting it may stop early, and says so. It may wait, and no proof
    /// says that it returns.
    fn act<R: Wait>(&self, rt: &R, alloc: Global, hub: &Hub, pass: HubPass, asker: AskerNo) -> Acted
        requires exists { asker < hub.now.askers }
        requires pass { IsPassOf hub.now (33 + asker) pass }
        requires fresh { pass.mine ≡ [] }
        ensures acted { HasActed hub.now asker (plan self.now asker) pass result.pass
            result.told result.short };
}
