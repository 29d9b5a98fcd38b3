//! The script of a source, beside a text that was written by hand.

use ak_base::list::Items;
use ak_let::source::{Atom, Fun, Line, Source};
use ak_let_script::script::script_of;
use std::alloc::AllocError;
use std::rt::HostRuntime;

// A function that calls another and awaits its number.
const WRITTEN: &str = "proc main
ivar v0
sched p1 v0
end
proc p1 v0:ivar
ivar v1
sched p3 7 v1
upon v1 p2 v0
end
proc p2 v0:num v1:ivar
if v0 print v0
offer v1 0
end
proc p3 v0:num v1:ivar
offer v1 v0
ret 0
offer v1 0
end
";

#[test]
fn source_with_an_await(rt: HostRuntime) -> Result<(), AllocError> {
    let alloc = rt.alloc();
    let mut lines = Items::make(alloc);
    let mut args = Items::make(alloc);
    args.push(Atom::Given(7))?;
    lines.push(Line::Await { function: 1, args })?;
    lines.push(Line::Print {
        when: Some(Atom::Known(0)),
        value: Atom::Known(0),
    })?;
    let mut funs = Items::make(alloc);
    funs.push(Fun { params: 0, lines })?;
    let mut lines = Items::make(alloc);
    lines.push(Line::Return {
        when: None,
        value: Atom::Known(0),
    })?;
    funs.push(Fun { params: 1, lines })?;
    let source = Source { funs, main: 0 };
    let text = script_of(alloc, &source)?;
    assert!(&rt; text.as_slice() == WRITTEN.as_bytes());
    Ok(())
}
