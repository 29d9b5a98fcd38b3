//! Monitors: to draw, to detach and to attach, and what waits for their errors.

ghost use Rattle.std.specs.Prelude.{◌≡◌, ◌<◌, length, OnOk, IfOk};
ghost use Rattle.ak_cells.specs.Names.{name_in};
ghost use Rattle.ak_machine.specs.Mapped.{handler_mapped};
ghost use Rattle.ak_machine.specs.Monitors.{with_monitor, detach, attach, handled_by, next_error_awaited};
ghost use Rattle.ak_state.specs.Seen.{doing};

use crate::parts::Parts;
use ak_base::list::NoMemory;
use ak_base::number::{Ctx, IvarNo, MonNo};
use ak_machine::held::Handler;
use ak_trace::entry::Entry;

impl Parts {
    /// A fresh monitor below another, and its number.
    pub fn monitor(&mut self, parent: MonNo) -> Result<MonNo, NoMemory>
        requires { parent < length self.old.plain.monitors }
        ensures number { IfOk result (λ m. m ≡ length self.old.plain.monitors) }
        ensures fresh { OnOk result (self.new ≡ doing (with_monitor parent) self.old) }
    {
        let mon = self.lists.monitors.child(parent)?;
        self.trace.push(Entry::Monitor { mon, parent })?;
        Ok(mon)
    }

    /// A monitor is detached.
    pub fn detach(&mut self, mon: MonNo) -> Result<(), NoMemory>
        requires { mon < length self.old.plain.monitors }
        ensures { OnOk result (self.new ≡ doing (detach mon) self.old) }
    {
        self.lists.monitors.detach(mon);
        self.trace.push(Entry::Detach { mon })?;
        Ok(())
    }

    /// A monitor is detached no longer.
    pub fn attach(&mut self, mon: MonNo) -> Result<(), NoMemory>
        requires { mon < length self.old.plain.monitors }
        ensures { OnOk result (self.new ≡ doing (attach mon) self.old) }
    {
        self.lists.monitors.attach(mon);
        self.trace.push(Entry::Attach { mon })?;
        Ok(())
    }

    /// One more handler of a monitor, in a context.
    pub fn on_error(&mut self, mon: MonNo, ctx: Ctx, handler: Handler) -> Result<(), NoMemory>
        requires { mon < length self.old.plain.monitors }
        ensures { OnOk result (self.new ≡ doing
            (handled_by mon ctx (handler_mapped (name_in self.old.names) handler)) self.old) }
    {
        self.lists.monitors.on_error(mon, ctx, handler)?;
        Ok(())
    }

    /// A deferred waits for the next error of a monitor.
    pub fn await_error(&mut self, mon: MonNo, i: IvarNo) -> Result<(), NoMemory>
        requires { mon < length self.old.plain.monitors }
        ensures { OnOk result (self.new ≡ doing
            (next_error_awaited mon (name_in self.old.names i)) self.old) }
    {
        self.lists.monitors.next_error(mon, i)?;
        Ok(())
    }
}
