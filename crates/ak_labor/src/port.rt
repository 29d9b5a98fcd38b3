//! The scheduler's way to the pool.

ghost use Rattle.std.specs.Prelude.{List, ℕ, ◌≡◌, ◌≤◌, ◌<◌, ◌-◌, ◌^◌, ◌⊎◌, [], ◌∷◌, ◌++◌, length, true, Some, OnOk, OnErr, IfOk};
ghost use Rattle.std.specs.List.{filter_map, list_any};
ghost use Rattle.ak_labor.specs.declared.ask.Ask.{Ask};
ghost use Rattle.ak_labor.specs.Calls.{Reply, Drained, Granted, Done, IsAsked, IsOpen, IsFault};
ghost use Rattle.ak_labor.specs.Waits.{outstanding, handed_by, helper_in, Arrive, Serves, HasCome, IsAnswerable, CanWait, HasWaited, IsServedBy, is_drained};

use crate::ask::Ask;
use crate::work::{Arrivals, Work};
use ak_base::number::{HelperNo, Num, RequestNo, WorkNo};
use std::alloc::AllocError;

/// Why a call of a port failed: by the port's own fault, or for want of memory.
#[derive(Debug, Drop)]
pub enum PortError<F> {
    Fault(F),
    NoMemory,
}

impl<F: Drop> From<AllocError> for PortError<F> {
    ghost use Rattle.std.specs.Prelude.{◌≡◌};
    ghost use Rattle.ak_labor.specs.declared.port.PortError.TheVariants.{NoMemory};

    ghost from_gives = { λ _ e. e ≡ NoMemory };

    fn from(_error: AllocError) -> PortError<F> {
        PortError::NoMemory
    }
}

/// A pool as its scheduler sees it. Own; after the outline of Async's thread pool.
///
/// Each call asks the pool once and gets its reply. After the port's own fault the call stands in the list of calls
/// and has no reply; after want of memory it was not made. The numbers of threads and askers never change.
pub trait Port {
    type Fault: Drop;

    /// How many threads the pool has.
    ghost threads: { Self → ℕ };
    /// How many askers there are outside.
    ghost askers: { Self → ℕ };
    /// The calls that were made, oldest first.
    ghost asked: { Self → List Ask };
    /// The replies to them, oldest first.
    ghost replies: { Self → List Reply };
    /// A number that never grows: each drain behind a wait that brings nothing makes it smaller.
    ghost turns: { Self → ℕ };
    /// For each wait, oldest first, how many calls were made before it.
    ghost waits: { Self → List ℕ };

    /// Fetches the finished works and the new requests: `into` holds the reply and nothing else. Nothing is known of
    /// `into` after an error.
    fn drain(&mut self, into: &mut Arrivals) -> Result<(), PortError<Self::Fault>>
        requires { IsOpen (asked self.old) (replies self.old) }
        ensures asked { IsAsked Ask.Drain (λ _. Drained into.new)
            (asked self.old) (asked self.new) (replies self.old) (replies self.new) result }
        ensures arrive { OnOk result
            (Arrive (outstanding (asked self.old) (replies self.old)) into.new.works) }
        ensures serves { OnOk result
            (Serves (askers self.old) (asked self.old) (replies self.old) into.new) }
        ensures woken { OnOk result (HasWaited (asked self.old) (waits self.old)
            → HasCome (askers self.old) (replies self.old) into.new ⊎ (turns self.new < turns self.old)) }
        ensures threads { threads self.new ≡ threads self.old }
        ensures askers { askers self.new ≡ askers self.old }
        ensures turns { turns self.new ≤ turns self.old }
        ensures waits { waits self.new ≡ waits self.old };

    /// Hands in a work, for any thread or for the thread of a helper that is granted and not ended, and gives its number:
    /// how many were handed in before, which are fewer than 4,294,967,295.
    fn submit(
        &mut self,
        work: Work,
        helper: Option<HelperNo>,
    ) -> Result<WorkNo, PortError<Self::Fault>>
        requires open { IsOpen (asked self.old) (replies self.old) }
        requires numbers { length (filter_map handed_by (asked self.old)) < 2 ^ 32 - 1 }
        requires served { IsServedBy (asked self.old) (replies self.old) helper }
        ensures number { IfOk result (λ id. id ≡ length (filter_map handed_by (asked self.old))) }
        ensures asked { IsAsked
            (Ask.Submit (length (filter_map handed_by (asked self.old))) work helper)
            (λ _. Done) (asked self.old) (asked self.new) (replies self.old) (replies self.new) result }
        ensures threads { threads self.new ≡ threads self.old }
        ensures askers { askers self.new ≡ askers self.old }
        ensures turns { turns self.new ≤ turns self.old }
        ensures waits { waits self.new ≡ waits self.old };

    /// Asks for a helper, under the number of how many were asked for before, which are fewer than 4,294,967,295:
    /// whether it is granted.
    fn helper(&mut self) -> Result<bool, PortError<Self::Fault>>
        requires open { IsOpen (asked self.old) (replies self.old) }
        requires numbers { length (filter_map helper_in (asked self.old)) < 2 ^ 32 - 1 }
        ensures asked { IsAsked (Ask.HelperNew (length (filter_map helper_in (asked self.old))))
            (λ granted. Granted granted) (asked self.old) (asked self.new) (replies self.old) (replies self.new) result }
        ensures threads { threads self.new ≡ threads self.old }
        ensures askers { askers self.new ≡ askers self.old }
        ensures turns { turns self.new ≤ turns self.old }
        ensures waits { waits self.new ≡ waits self.old };

    /// Ends a helper that is granted and not ended.
    fn end_helper(&mut self, no: HelperNo) -> Result<(), PortError<Self::Fault>>
        requires open { IsOpen (asked self.old) (replies self.old) }
        requires active { IsServedBy (asked self.old) (replies self.old) (Some no) }
        ensures asked { IsAsked (Ask.HelperEnd no) (λ _. Done)
            (asked self.old) (asked self.new) (replies self.old) (replies self.new) result }
        ensures threads { threads self.new ≡ threads self.old }
        ensures askers { askers self.new ≡ askers self.old }
        ensures turns { turns self.new ≤ turns self.old }
        ensures waits { waits self.new ≡ waits self.old };

    /// Answers a request that a drain has brought.
    fn answer(&mut self, no: RequestNo, num: Num) -> Result<(), PortError<Self::Fault>>
        requires open { IsOpen (asked self.old) (replies self.old) }
        requires waits_for_it { IsAnswerable (asked self.old) (replies self.old) no }
        ensures asked { IsAsked (Ask.Answer no num) (λ _. Done)
            (asked self.old) (asked self.new) (replies self.old) (replies self.new) result }
        ensures threads { threads self.new ≡ threads self.old }
        ensures askers { askers self.new ≡ askers self.old }
        ensures turns { turns self.new ≤ turns self.old }
        ensures waits { waits self.new ≡ waits self.old };

    /// Asks nothing more.
    fn close(&mut self) -> Result<(), PortError<Self::Fault>>
        requires { IsOpen (asked self.old) (replies self.old) }
        ensures asked { IsAsked Ask.Close (λ _. Done)
            (asked self.old) (asked self.new) (replies self.old) (replies self.new) result }
        ensures threads { threads self.new ≡ threads self.old }
        ensures askers { askers self.new ≡ askers self.old }
        ensures turns { turns self.new ≤ turns self.old }
        ensures waits { waits self.new ≡ waits self.old };

    /// Waits until a finished work or a request can be fetched, or an asker has ended. It is no call of the pool, and
    /// never answers a fault.
    fn wait(&mut self) -> Result<(), PortError<Self::Fault>>
        requires open { IsOpen (asked self.old) (replies self.old) }
        requires drained { list_any is_drained (replies self.old) ≡ true }
        requires some { CanWait (threads self.old) (askers self.old) (asked self.old)
            (replies self.old) }
        ensures no_fault { IsFault result → ⊥ }
        ensures ok { OnOk result (waits self.new ≡ waits self.old ++ length (asked self.old) ∷ []) }
        ensures err { OnErr result (waits self.new ≡ waits self.old) }
        ensures asked { asked self.new ≡ asked self.old }
        ensures replies { replies self.new ≡ replies self.old }
        ensures threads { threads self.new ≡ threads self.old }
        ensures askers { askers self.new ≡ askers self.old }
        ensures turns { turns self.new ≤ turns self.old };
}
