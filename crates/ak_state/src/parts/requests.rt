//! Requests from outside in the state.

ghost use Rattle.std.specs.Prelude.{◌≡◌, [], length, OnOk, IfOk};
ghost use Rattle.ak_cells.specs.Names.{name_in};
ghost use Rattle.ak_machine.specs.Cycle.{request_arrived, is_quiet, at_root as root_context};
ghost use Rattle.ak_machine.specs.Works.{with_request, answered};
ghost use Rattle.ak_state.specs.Requests.{with_answer_out, with_answered};
ghost use Rattle.ak_state.specs.Seen.{doing};

use crate::parts::Parts;
use ak_base::list::{Items, NoMemory};
use ak_base::number::{Ctx, IvarNo, MonNo, Num, RequestNo};
use ak_frames::frame::{Frame, Ret, Task};
use ak_frames::value::{Vals, Value};
use ak_trace::entry::Entry;

impl Parts {
    /// A request comes: its answer goes out from a fresh deferred, to which the call of the procedure returns.
    pub fn arrive_request(&mut self, ask: usize, no: RequestNo, num: Num) -> Result<(), NoMemory>
        ensures { OnOk result (self.new ≡ doing (request_arrived ask no num) self.old) }
    {
        let to = self.await_answer(no, num)?;
        let mut vals = self.no_vals();
        vals.push(Value::Num(num))?;
        let frame = Frame::Call {
            proc: ask,
            vals,
            ret: Ret::To(to),
        };
        self.enqueue(at_root(), Task { frame, value: None })
    }

    /// A request gets its answer.
    pub fn answer_out(&mut self, no: RequestNo, num: Num) -> Result<(), NoMemory>
        ensures { OnOk result (self.new ≡ doing (answered no num) self.old) }
    {
        self.mark_answered(no);
        self.note(Entry::Answer { no, num })
    }

    /// Whether every asker that is left waits for an answer.
    pub fn is_quiet(&self) -> bool
        ensures { result ≡ is_quiet self.now.plain }
    {
        self.lists.requests.unanswered() == self.lists.left as usize
    }

    /// A request comes, and its answer waits for a fresh deferred.
    fn await_answer(&mut self, no: RequestNo, num: Num) -> Result<IvarNo, NoMemory>
        ensures result { IfOk result (λ i. i ≡ length self.old.plain.cells.ivars) }
        ensures own { IfOk result (λ i. name_in self.old.names i ≡ i) }
        ensures waits { OnOk result (self.new ≡ doing (with_answer_out no num) self.old) }
    {
        let result = self.fresh()?;
        self.keep_request(no, result)?;
        self.note(Entry::Request { no, num, result })?;
        self.register(result, at_root(), Frame::AnswerOut { request: no })?;
        Ok(result)
    }

    /// No values, in a list that takes no memory.
    pub fn no_vals(&self) -> Vals
        ensures { result ≡ [] }
    {
        Items::make(self.alloc)
    }

    /// One more request, which has no answer, with the deferred of its answer.
    fn keep_request(&mut self, no: RequestNo, to: IvarNo) -> Result<(), NoMemory>
        ensures { OnOk result (self.new
            ≡ doing (with_request no (name_in self.old.names to)) self.old) }
    {
        self.lists.requests.push(no, to)?;
        Ok(())
    }

    /// A request has its answer.
    fn mark_answered(&mut self, no: RequestNo)
        ensures { self.new ≡ doing (with_answered no) self.old }
    {
        self.lists.requests.answer(no);
    }
}

/// The root monitor, at normal priority.
fn at_root() -> Ctx
    ensures { result ≡ root_context }
{
    Ctx {
        mon: MonNo::new(0),
        low: false,
    }
}
