//! What a pool keeps of its askers and their requests beside its history.

ghost use Rattle.std.specs.Prelude.{◌≡◌, ◌<◌, ◌≤◌, ◌+◌, ◌^◌, ◌++◌, Some, None, OnOk, OnErr, IfOk, length, map, slice_get};
ghost use Rattle.ak_base.specs.Lists.{is_empty_list};
ghost use Rattle.ak_pool.specs.Judged.{Says};
ghost use Rattle.ak_pool.specs.Askers.{nothing_asked, asker_at, made_at, with_request, with_answer, with_end, all_fetched, unfetched_of, left_of, IsFree, IsUnanswered, AreTied, due_of, pair_of};

use ak_base::list::{Items, NoMemory};
use ak_base::number::{AskerNo, Num, RequestNo};
use ak_history::event::RequestIds;
use ak_labor::work::Arrivals;
use std::alloc::Global;
use std::marker::Model;

/// A request that was made, with its answer once it has one.
#[derive(Clone, Copy, Debug)]
pub struct Made {
    pub no: RequestNo,
    pub asker: AskerNo,
    pub num: Num,
    pub answer: Option<Num>,
}

/// An asker: the request for whose answer it waits, and whether it has ended.
#[derive(Clone, Copy, Debug)]
pub struct Asker {
    pub waits_for: Option<RequestNo>,
    pub ended: bool,
}

/// The askers, the requests that were made, how many of these were fetched, and whether an asker has ended since the last
/// drain.
#[derive(Debug, Drop)]
pub struct Requests {
    alloc: Global,
    askers: Vec<Asker>,
    made: Vec<Made>,
    fetched: usize,
    untold: bool,
    due: usize,
}

impl Model for Requests {
    ghost use Rattle.ak_pool.specs.Askers.{RequestsState};

    ghost Value = { RequestsState };

    ghost use Rattle.ak_pool.specs.Kept.{requests_of, AreKept};

    ghost view = { requests_of };

    ghost invariant = { AreKept };
}

impl Requests {
    /// So many askers, which have asked nothing.
    pub fn make(alloc: Global, askers: u32) -> Result<Requests, NoMemory>
        ensures { IfOk result (λ r. r ≡ nothing_asked askers) }
    {
        let rows = idle_askers(alloc, askers)?;
        Ok(Requests {
            alloc,
            askers: rows,
            made: Vec::new(alloc),
            fetched: 0,
            untold: false,
            due: askers as usize,
        })
    }

    /// How many events are still to come of the askers: their ends, and the answers for which they wait.
    pub fn due(&self) -> usize
        ensures { result ≡ due_of self.now }
    {
        self.due
    }

    /// How many requests were made.
    pub fn made(&self) -> usize
        ensures made { result ≡ length self.now.made }
        ensures small { result < 2 ^ 63 }
    {
        self.made.len()
    }

    /// Whether the asker has not ended and waits for no answer.
    pub fn is_free(&self, asker: AskerNo) -> bool
        ensures { Says result (IsFree self.now asker) }
    {
        match self.asker(asker) {
            None => false,
            Some(asker) => !asker.ended && asker.waits_for.is_none(),
        }
    }

    /// Whether the request was fetched and is not answered.
    pub fn is_unanswered(&self, no: RequestNo) -> bool
        ensures { Says result (IsUnanswered self.now no) }
    {
        let place = no.number() as usize;
        place < self.fetched && self.made[place].answer.is_none()
    }

    /// The request for whose answer the asker waits.
    pub fn waiting(&self, asker: AskerNo) -> Option<RequestNo>
        ensures { result ≡ (asker_at self.now asker).waits_for }
    {
        match self.askers.get(asker.number() as usize) {
            None => None,
            Some(asker) => asker.waits_for,
        }
    }

    /// Whether the asker has ended.
    pub fn ended(&self, asker: AskerNo) -> bool
        ensures { result ≡ (asker_at self.now asker).ended }
    {
        match self.askers.get(asker.number() as usize) {
            None => false,
            Some(asker) => asker.ended,
        }
    }

    // The asker, if there is one of that number.
    fn asker(&self, asker: AskerNo) -> Option<Asker>
        ensures { result ≡ slice_get self.now.askers asker }
    {
        self.askers.get(asker.number() as usize).copied()
    }

    /// The answer to a request.
    pub fn answer_of(&self, no: RequestNo) -> Option<Num>
        ensures { result ≡ (made_at self.now no).answer }
    {
        match self.made.get(no.number() as usize) {
            None => None,
            Some(made) => made.answer,
        }
    }

    /// The requests that were not fetched.
    pub fn unfetched(&self) -> &[Made]
        ensures { result.now ≡ unfetched_of self.now }
    {
        &self.made[self.fetched..]
    }

    /// Whether an asker has ended since the last drain.
    pub fn has_untold_end(&self) -> bool
        ensures { result ≡ self.now.untold }
    {
        self.untold
    }

    /// How many askers have not ended.
    pub fn left(&self) -> u32
        ensures { result ≡ left_of self.now }
    {
        self.askers.iter().filter(|asker| !asker.ended).count() as u32
    }

    /// The numbers of the requests that were not fetched.
    pub fn unfetched_ids(&self) -> Result<RequestIds, NoMemory>
        ensures { IfOk result (λ ids. ids ≡ map (λ made. made.no) (unfetched_of self.now)) }
    {
        let ids: Vec<RequestNo> = self
            .unfetched()
            .iter()
            .map(|made| made.no)
            .collect(self.alloc)?;
        Ok(Items::from_vec(ids))
    }

    /// Puts the requests that were not fetched behind those of `into`, and how many askers have not ended.
    pub fn copy_unfetched(&self, into: &mut Arrivals) -> Result<(), NoMemory>
        ensures { OnOk result (into.new ≡ record into.old {
          requests = into.old.requests ++ map pair_of (unfetched_of self.now);
          left = left_of self.now;
        }) }
    {
        for made in self.unfetched() {
            into.push_request(made.no, made.num)?;
        }
        into.set_left(self.left());
        Ok(())
    }

    /// The asker, which waits for no answer, makes a request, and gives its number.
    pub fn request(&mut self, asker: AskerNo, num: Num) -> Result<RequestNo, NoMemory>
        requires { IsFree self.old asker }
        ensures number { IfOk result (λ no. no ≡ length self.old.made) }
        ensures ok { OnOk result (self.new ≡ with_request asker num self.old) }
        ensures due { OnOk result (due_of self.new ≡ due_of self.old + 1) }
        ensures err { OnErr result (self.new ≡ self.old) }
    {
        let no = RequestNo::new(self.made.len() as u64);
        self.made.push(Made {
            no,
            asker,
            num,
            answer: None,
        })?;
        self.askers[asker.number() as usize].waits_for = Some(no);
        self.due += 1;
        Ok(no)
    }

    /// A request gets its answer, for which its asker waits.
    pub fn answer(&mut self, no: RequestNo, num: Num)
        requires unanswered { IsUnanswered self.old no }
        requires tied { AreTied self.old }
        ensures requests { self.new ≡ with_answer no num self.old }
        ensures due { due_of self.new + 1 ≡ due_of self.old }
    {
        let place = no.number() as usize;
        let asker = self.made[place].asker;
        self.made[place].answer = Some(num);
        self.askers[asker.number() as usize].waits_for = None;
        self.due -= 1;
    }

    /// The asker, which waits for no answer, ends.
    pub fn end(&mut self, asker: AskerNo)
        requires { IsFree self.old asker }
        ensures requests { self.new ≡ with_end asker self.old }
        ensures due { due_of self.new + 1 ≡ due_of self.old }
    {
        self.askers[asker.number() as usize].ended = true;
        self.untold = true;
        self.due -= 1;
    }

    /// Every request and every end is fetched.
    pub fn fetch(&mut self)
        ensures requests { self.new ≡ all_fetched self.old }
        ensures due { due_of self.new ≡ due_of self.old }
    {
        self.fetched = self.made.len();
        self.untold = false;
    }
}

// So many askers that have asked nothing.
fn idle_askers(alloc: Global, askers: u32) -> Result<Vec<Asker>, NoMemory>
    ensures { IfOk result (λ rows. rows.items ≡ (nothing_asked askers).askers) }
{
    let mut rows = Vec::with_capacity(alloc, askers as usize)?;
    for _ in 0..askers {
        rows.push_reserved(Asker {
            waits_for: None,
            ended: false,
        });
    }
    Ok(rows)
}
