//! One request of an asker after the other, each with its answer, and the asker's end.

ghost use Rattle.std.specs.Prelude.{◌≡◌, ◌<◌, ◌≤◌, ◌+◌};
ghost use Rattle.std.specs.Vec.{vec_len, vec_capacity};
ghost use Rattle.ak_askers.specs.Plans.{IsAtPlan, StepsOn, Finishes};

use ak_base::list::Items;
use ak_base::number::{AskerNo, Num, RequestNo};
use ak_hub::asking::RequestRefused;
use ak_hub::hub::{Hub, HubPass};
use ak_hub::outside::Acted;
use std::sync::Wait;

/// How a request went.
#[derive(Clone, Copy, PartialEq, Eq, Debug)]
pub enum Step {
    /// It was made, and has its answer.
    Told,
    /// The pool was closed.
    Closed,
    /// Want of memory: it was not made.
    Short,
}

/// Asks with a number, waits for the answer, and puts it last in what the asker was told. So far the asker has an answer to each of its
/// requests, and has not ended. It may wait, and no proof says that it returns.
pub fn ask<R: Wait>(
    rt: &R,
    hub: &Hub,
    pass: &mut HubPass,
    asker: AskerNo,
    num: Num,
    told: &mut Vec<(RequestNo, Num)>,
) -> Step
    requires exists { asker < hub.now.askers }
    requires asking { IsAtPlan hub.now asker pass.old told.old.items }
    requires room { vec_len told.old < vec_capacity told.old }
    ensures step { StepsOn hub.now asker num pass.old told.old.items pass.new told.new.items result }
    ensures one { vec_len told.new ≤ vec_len told.old + 1 }
    ensures room { vec_capacity told.new ≡ vec_capacity told.old }
{
    match hub.request(rt, pass, asker, num) {
        Ok(no) => match hub.answer_or_wait(rt, pass, no) {
            Some(answer) => {
                told.push_reserved((no, answer));
                Step::Told
            }
            None => Step::Closed,
        },
        Err(RequestRefused::NoMemory) => Step::Short,
        Err(RequestRefused::Closed) => Step::Closed,
        Err(RequestRefused::Ended) => unreachable!(),
        Err(RequestRefused::Waiting { .. }) => unreachable!(),
    }
}

/// The asker ends, where the pool was not closed, and leaves what it was told; `short` says that memory was wanting. It has an answer to
/// each of its requests, and has not ended.
pub fn finish<R: Wait>(
    rt: &R,
    hub: &Hub,
    mut pass: HubPass,
    asker: AskerNo,
    told: Vec<(RequestNo, Num)>,
    short: bool,
) -> Acted
    requires exists { asker < hub.now.askers }
    requires asking { IsAtPlan hub.now asker pass told.items }
    ensures acted { Finishes hub.now asker pass told.items result.pass result.told result.short }
    ensures short { result.short ≡ short }
{
    hub.end_asker(rt, &mut pass, asker);
    Acted {
        pass,
        told: Items::from_vec(told),
        short,
    }
}
