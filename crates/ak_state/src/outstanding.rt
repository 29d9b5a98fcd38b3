//! The works that are out.

ghost use Rattle.std.specs.Prelude.{◌≡◌, ◌<◌, ◌≤◌, ◌-◌, ◌+◌, ◌^◌, ◌∷◌, ◌++◌, not, find, filter, OnOk, OnErr, IfOk};
ghost use Rattle.std.specs.List.{list_all};
ghost use Rattle.ak_base.specs.Lists.{is_empty_list};
ghost use Rattle.ak_machine.specs.Cycle.{is_work, is_other_work, is_general};
ghost use Rattle.ak_state.specs.Works.{no_works, with_work, helped_by};

use ak_base::list::NoMemory;
use ak_base::number::{Ctx, HelperNo, IvarNo, WorkNo};
use ak_machine::held::Outstanding;
use std::alloc::{AllocError, Global};
use std::collections::BTreeMap;
use std::marker::Model;

/// The works that have not arrived, under their numbers; how many of them are for a helper; and the number of the next one.
/// Contracts see the list of works, in order of their numbers, and the next number. To hand a work in and to take one cost
/// O(log n) where n are out. Own.
#[derive(Debug, Drop)]
pub struct Works {
    out: BTreeMap<u32, Outstanding>,
    helped: usize,
    next: u32,
}

impl Model for Works {
    ghost use Rattle.std.specs.Map.{values_of};
    ghost use Rattle.ak_state.specs.Works.{WorksOut, AreKept};

    ghost Value = { WorksOut };

    ghost view = { λ w. record { out = values_of w.out.entries; next = w.next } };

    ghost invariant = { λ w. AreKept w.next w.helped w.out.entries };
}

impl Works {
    /// No work was handed in. It takes no memory.
    pub fn make(alloc: Global) -> Works
        ensures { result ≡ no_works }
    {
        Works {
            out: BTreeMap::new(alloc),
            helped: 0,
            next: 0,
        }
    }

    /// One more work is out: its number is how many there were before.
    ///
    /// # Errors
    ///
    /// `NoMemory`, also where no number is left. Nothing has changed.
    pub fn push(
        &mut self,
        to: IvarNo,
        ctx: Ctx,
        helper: Option<HelperNo>,
    ) -> Result<WorkNo, NoMemory>
        ensures number { IfOk result (λ no. no ≡ self.old.next) }
        ensures few { OnOk result (self.old.next < 2 ^ 32 - 1) }
        ensures ok { OnOk result (self.new ≡ with_work to ctx helper self.old) }
        ensures err { OnErr result (self.new ≡ self.old) }
    {
        if self.next == u32::MAX {
            return Err(AllocError);
        }
        let number = WorkNo::new(self.next);
        let helped = with_one(self.helped, &helper);
        self.out.insert(
            self.next,
            Outstanding {
                number,
                to,
                ctx,
                helper,
            },
        )?;
        self.helped = helped;
        self.next += 1;
        Ok(number)
    }

    /// Takes a work that has arrived: `None` exactly where it is not out, and nothing changes then.
    pub fn take(&mut self, no: WorkNo) -> Option<Outstanding>
        ensures work { result ≡ find (is_work no) self.old.out }
        ensures rest { self.new ≡ record self.old {
          out =
              filter (is_other_work no) self.old.out;
        } }
    {
        let work = self.out.remove(&no.number())?;
        self.helped = without_one(self.helped, &work.helper);
        Some(work)
    }

    /// Whether none is out.
    pub fn is_empty(&self) -> bool
        ensures { result ≡ is_empty_list self.now.out }
    {
        self.out.is_empty()
    }

    /// Whether all that are out are for no helper.
    pub fn all_general(&self) -> bool
        ensures { result ≡ list_all is_general self.now.out }
    {
        self.helped == 0
    }
}

/// One work more, perhaps for a helper: so many are for helpers.
fn with_one(helped: usize, helper: &Option<HelperNo>) -> usize
    requires { helped < 2 ^ 32 }
    ensures { result ≡ helped_by helper.now + helped }
{
    match helper {
        Some(_) => helped + 1,
        None => helped,
    }
}

/// The same with one work less.
fn without_one(helped: usize, helper: &Option<HelperNo>) -> usize
    requires { helped_by helper.now ≤ helped }
    ensures { helped_by helper.now + result ≡ helped }
{
    match helper {
        Some(_) => helped - 1,
        None => helped,
    }
}
