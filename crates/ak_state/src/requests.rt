//! The requests from outside.

ghost use Rattle.std.specs.Prelude.{◌≡◌, [], ◌∷◌, ◌++◌, false, count_by, slice_index_or, slice_set, OnOk, OnErr};
ghost use Rattle.ak_machine.specs.Works.{is_unanswered};
ghost use Rattle.ak_state.specs.Requests.{absent, answered};

use ak_base::list::NoMemory;
use ak_base::number::{IvarNo, RequestNo};
use ak_machine::held::Requested;
use std::alloc::Global;
use std::marker::Model;

/// The requests that have come, in order of their numbers, and how many of them have no answer. Contracts see the list. Own.
#[derive(Debug, Drop)]
pub struct Requests {
    requests: Vec<Requested>,
    unanswered: usize,
}

impl Model for Requests {
    ghost use Rattle.std.specs.Prelude.{List, ◌≡◌, count_by};
    ghost use Rattle.ak_machine.specs.Works.{is_unanswered};
    ghost use Rattle.ak_machine.specs.declared.held.Requested.{Requested};

    ghost Value = { List Requested };

    ghost view = { λ r. r.requests.items };

    ghost invariant = { λ r. r.unanswered ≡ count_by is_unanswered r.requests.items };
}

impl Requests {
    /// No request has come. It takes no memory.
    pub fn make(alloc: Global) -> Requests
        ensures { result ≡ [] }
    {
        Requests {
            requests: Vec::new(alloc),
            unanswered: 0,
        }
    }

    /// One more request, which has no answer, with the deferred of its answer.
    ///
    /// # Errors
    ///
    /// `NoMemory`. Nothing has changed.
    pub fn push(&mut self, no: RequestNo, to: IvarNo) -> Result<(), NoMemory>
        ensures ok { OnOk result (self.new
            ≡ self.old ++ record { number = no; to = to; answered = false } ∷ []) }
        ensures err { OnErr result (self.new ≡ self.old) }
    {
        self.requests.push(Requested {
            number: no,
            to,
            answered: false,
        })?;
        self.unanswered += 1;
        Ok(())
    }

    /// A request has its answer; one that has not come is left alone.
    pub fn answer(&mut self, no: RequestNo)
        ensures { self.new
            ≡ slice_set self.old no (answered (slice_index_or self.old no (absent no))) }
    {
        if let Some(request) = self.requests.get_mut(no.number() as usize) {
            if !request.answered {
                self.unanswered -= 1;
            }
            request.answered = true;
        }
    }

    /// How many have no answer.
    pub fn unanswered(&self) -> usize
        ensures { result ≡ count_by is_unanswered self.now }
    {
        self.unanswered
    }
}
