//! The helpers of a run.

ghost use Rattle.std.specs.Prelude.{◌≡◌, ◌<◌, ◌-◌, ◌^◌, [], ◌∷◌, ◌++◌, true, false, length, count_by, slice_index_or, slice_set, OnOk, OnErr, IfOk};
ghost use Rattle.ak_machine.specs.Works.{is_active};
ghost use Rattle.ak_state.specs.Helpers.{refused, ended};

use ak_base::list::NoMemory;
use ak_base::number::HelperNo;
use ak_machine::held::HelperState;
use std::alloc::{AllocError, Global};
use std::marker::Model;

/// The helpers that were asked for, each granted or refused, in order of their numbers, and how many are granted and have not ended.
/// Contracts see the list. Own.
#[derive(Debug, Drop)]
pub struct Helpers {
    helpers: Vec<HelperState>,
    active: usize,
}

impl Model for Helpers {
    ghost use Rattle.std.specs.Prelude.{List, ◌≡◌, count_by};
    ghost use Rattle.ak_machine.specs.Works.{is_active};
    ghost use Rattle.ak_machine.specs.declared.held.HelperState.{HelperState};

    ghost Value = { List HelperState };

    ghost view = { λ h. h.helpers.items };

    ghost invariant = { λ h. h.active ≡ count_by is_active h.helpers.items };
}

impl Helpers {
    /// No helper was asked for. It takes no memory.
    pub fn make(alloc: Global) -> Helpers
        ensures { result ≡ [] }
    {
        Helpers {
            helpers: Vec::new(alloc),
            active: 0,
        }
    }

    /// The number of the next helper.
    ///
    /// # Errors
    ///
    /// `NoMemory`, also where no number is left.
    pub fn next(&self) -> Result<HelperNo, NoMemory>
        ensures number { IfOk result (λ no. no ≡ length self.now) }
        ensures few { OnOk result (length self.now < 2 ^ 32 - 1) }
    {
        match u32::try_from(self.helpers.len()) {
            Ok(no) if no < u32::MAX => Ok(HelperNo::new(no)),
            _ => Err(AllocError),
        }
    }

    /// One more helper, granted or refused.
    ///
    /// # Errors
    ///
    /// `NoMemory`. Nothing has changed.
    pub fn push(&mut self, granted: bool) -> Result<(), NoMemory>
        ensures ok { OnOk result (self.new
            ≡ self.old ++ record { granted = granted; ended = false } ∷ []) }
        ensures err { OnErr result (self.new ≡ self.old) }
    {
        self.helpers.push(HelperState {
            granted,
            ended: false,
        })?;
        if granted {
            self.active += 1;
        }
        Ok(())
    }

    /// Whether a helper is granted and has not ended; one that was not asked for is not.
    pub fn is_active(&self, no: HelperNo) -> bool
        ensures { result ≡ is_active (slice_index_or self.now no refused) }
    {
        match self.helpers.get(no.number() as usize) {
            Some(helper) => helper.granted && !helper.ended,
            None => false,
        }
    }

    /// Ends a helper that is granted and has not ended.
    pub fn end(&mut self, no: HelperNo)
        requires { is_active (slice_index_or self.old no refused) ≡ true }
        ensures { self.new ≡ slice_set self.old no (ended (slice_index_or self.old no refused)) }
    {
        match self.helpers.get_mut(no.number() as usize) {
            Some(helper) => helper.ended = true,
            None => unreachable!(),
        }
        self.active -= 1;
    }

    /// How many helpers are granted and have not ended.
    pub fn active(&self) -> usize
        ensures { result ≡ count_by is_active self.now }
    {
        self.active
    }
}
