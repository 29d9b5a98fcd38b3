//! Texts of the let dialect, and their scripts. These were made from the table of docs/LET.md by another program.

use ak_base::list::NoMemory;
use ak_let_script::compile::compile;
use ak_let_syntax::refusal::LetRefused;
use std::alloc::Global;

// Lines that are told with `; ` between them.
pub fn lines(alloc: Global, text: &str) -> Result<Vec<u8>, NoMemory> {
    let mut bytes = Vec::new(alloc);
    for line in text.split("; ") {
        bytes.extend_from_slice(line.as_bytes())?;
        bytes.push(b'\n')?;
    }
    Ok(bytes)
}

// Whether the text is compiled to the script.
fn gives(alloc: Global, text: &str, script: &str) -> Result<bool, LetRefused> {
    let compiled = compile(alloc, lines(alloc, text)?.as_slice())?;
    let wanted = lines(alloc, script)?;
    Ok(compiled.as_slice() == wanted.as_slice())
}

#[test]
fn function_that_awaits_itself(rt: HostRuntime) -> Result<(), LetRefused> {
    let text =
        "fun main; await x = factorial 5; print x; end; fun factorial n; let small = n < 2; when small return 1; let m = n - 1; await fewer = factorial m; let all = n * fewer; return all; end";
    let script =
        "proc main; ivar v0; sched p1 v0; end; proc p1 v0:ivar; ivar v1; sched p3 5 v1; upon v1 p2 v0; end; proc p2 v0:num v1:ivar; print v0; offer v1 0; end; proc p3 v0:num v1:ivar; set v2 v0 < 2; if v2 offer v1 1; if v2 ret 0; set v3 v0 - 1; ivar v4; sched p3 v3 v4; upon v4 p4 v3 v2 v0 v1; end; proc p4 v0:num v1:num v2:num v3:num v4:ivar; set v5 v3 * v0; offer v4 v5; ret 0; offer v4 0; end";
    assert!(rt; gives(rt.alloc(), text, script)?);
    Ok(())
}

#[test]
fn work_and_a_try(rt: HostRuntime) -> Result<(), LetRefused> {
    let text =
        "fun main; await x = sq 3; print x; try y = bad 1 else fix; print y; end; fun sq n; await r = work square n; return r; end; fun bad n; let z = n / 0; return z; end; fun fix e; return e; end";
    let script =
        "proc main; ivar v0; sched p1 v0; end; proc p1 v0:ivar; ivar v1; sched p4 3 v1; upon v1 p2 v0; end; proc p2 v0:num v1:ivar; print v0; ivar v2; monitor v3; detach v3; onerror v3 p7 v2; within v3 p6 1 v2; upon v2 p3 v0 v1; end; proc p3 v0:num v1:num v2:ivar; print v0; offer v2 0; end; proc p4 v0:num v1:ivar; work v2 square v0; upon v2 p5 v0 v1; end; proc p5 v0:num v1:num v2:ivar; offer v2 v0; ret 0; offer v2 0; end; proc p6 v0:num v1:ivar; set v2 v0 / 0; offer v1 v2; ret 0; offer v1 0; end; proc p7 v0:num v1:ivar; offer v1 v0; ret 0; offer v1 0; end";
    assert!(rt; gives(rt.alloc(), text, script)?);
    Ok(())
}

#[test]
fn second_function_is_main(rt: HostRuntime) -> Result<(), LetRefused> {
    let text =
        "fun f a b; when b print a; when a raise -3; let c = 9223372036854775807; return c; end; fun main; await x = f 0 1; end";
    let script =
        "proc main; ivar v0; sched p2 v0; end; proc p1 v0:num v1:num v2:ivar; if v1 print v0; if v0 raise -3; offer v2 9223372036854775807; ret 0; offer v2 0; end; proc p2 v0:ivar; ivar v1; sched p1 0 1 v1; upon v1 p3 v0; end; proc p3 v0:num v1:ivar; offer v1 0; end";
    assert!(rt; gives(rt.alloc(), text, script)?);
    Ok(())
}
