//! Values of a job.

use ak_base::list::Items;
use ak_base::number::{EventNo, HelperNo, IvarNo, MonNo, Num, PipeNo, ThrottleNo};

/// A number, or the name of a thing: an ivar that may be filled, a deferred that may be waited for, a monitor, a
/// pipe, a throttle, an alarm or a helper.
#[derive(Clone, Copy, PartialEq, Eq, Debug)]
pub enum Value {
    Num(Num),
    Ivar(IvarNo),
    Def(IvarNo),
    Mon(MonNo),
    Pipe(PipeNo),
    Thr(ThrottleNo),
    Event(EventNo),
    Helper(HelperNo),
}

/// The values of a frame or of a running procedure, in order.
pub type Vals = Items<Value>;
