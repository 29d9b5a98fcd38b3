//! Askers that ask so often, by numbers that go on by one.

ghost use Rattle.std.specs.Prelude.{◌≡◌, ◌+◌, ◌*◌, pos};

use crate::asking::{Step, ask, finish};
use ak_base::list::Items;
use ak_base::number::{AskerNo, Num};
use ak_hub::hub::{Hub, HubPass};
use ak_hub::outside::{Acted, Outside};
use std::alloc::Global;
use std::sync::Wait;

/// Each asker asks `each` times: asker a with the numbers 1,000 a, 1,000 a + 1 and so on. It waits for each answer before it asks
/// again, and ends after the last, or where memory is wanting. Own; after Async's `Thread_safe`.
#[derive(Clone, Copy, PartialEq, Eq, Debug)]
pub struct Repeat {
    pub each: u32,
}

// The number with which an asker asks at a place of its plan.
fn planned_number(asker: AskerNo, place: u32) -> Num
    ensures { result ≡ pos (asker * 1000 + place) }
{
    i64::from(asker.number()) * 1000 + i64::from(place)
}

impl Outside for Repeat {
    ghost use Rattle.ak_askers.specs.Plans.{planned};

    ghost plan = { λ r asker. planned asker r.each };

    fn act<R: Wait>(
        &self,
        rt: &R,
        alloc: Global,
        hub: &Hub,
        mut pass: HubPass,
        asker: AskerNo,
    ) -> Acted {
        let Ok(mut told) = Vec::with_capacity(alloc, self.each as usize) else {
            return finish(rt, hub, pass, asker, Vec::new(alloc), true);
        };
        for place in 0..self.each {
            let num = planned_number(asker, place);
            match ask(rt, hub, &mut pass, asker, num, &mut told) {
                Step::Told => {}
                Step::Closed => {
                    return Acted {
                        pass,
                        told: Items::from_vec(told),
                        short: false,
                    };
                }
                Step::Short => return finish(rt, hub, pass, asker, told, true),
            }
        }
        finish(rt, hub, pass, asker, told, false)
    }
}
