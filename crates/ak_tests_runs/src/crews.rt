//! A whole run by a crew.

use ak_crew::crew::crew;
use ak_labor::config::Config;
use ak_labor::labor::plain_hands;
use ak_program::program::Program;
use ak_syntax::parse::parse;
use ak_valid::validate::validate;
use std::alloc::Global;
use std::test::*;

// The program of a script, where it has no fault.
fn program_of(alloc: Global, script: &[u8]) -> Option<Program> {
    let Ok(script) = parse(alloc, script) else {
        return None;
    };
    validate(alloc, script).ok()
}

#[test]
fn a_crew_runs_a_print(rt: HostRuntime) -> Result<(), Fail> {
    let alloc = rt.alloc();
    let Some(program) = program_of(alloc, b"proc main\nprint 7\nend\n") else {
        assert!(rt; false);
        return Ok(());
    };
    let config = Config {
        threads: 4,
        limit: 500,
        jobs: 100,
        askers: 0,
    };
    let hands = plain_hands(alloc, 32)?;
    let ran = crew(&rt, alloc, program, config, hands)?;
    // enq 0 normal, cycle, job 0, print 7, end idle; and drain, drain, close
    assert_eq!(rt; ran.trace.len(), 5);
    assert_eq!(rt; ran.history.len(), 3);
    assert_eq!(rt; ran.hands.len(), 32);
    Ok(())
}
