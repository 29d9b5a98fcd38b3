//! Runs whose errors go up the monitors.

use crate::commands::{Case, first_wrong};
use ak_base::list::NoMemory;
use ak_top::status::Status;

const RUNS: [Case; 9] = [
    Case {
        name: "the nearest detached monitor catches",
        words: &["run"],
        script: "proc main; monitor a; within a B; end; proc B; monitor b; detach b; within b C; end; proc C; monitor c; nexterr e c; upon e O; within c D; end; proc D; raise 5; end; proc O v:num; print v; end",
        status: Status::Done,
        output: "enq 0 normal; cycle; job 0; monitor 1 0; enq 1 normal; job 1; monitor 2 1; detach 2; enq 2 normal; job 2; monitor 3 2; enq 3 normal; job 3; error 5 3; caught 2; fill 0 5; enq 4 normal; job 4; print 5; end idle; %pool; idle 6; close",
    },
    Case {
        name: "a handler that raises",
        words: &["run"],
        script: "proc main; monitor m; detach m; onerror m H; within m D; end; proc H e:num; raise 6; end; proc D; raise 5; end",
        status: Status::Unhandled { num: 6 },
        output: "enq 0 normal; cycle; job 0; monitor 1 0; detach 1; enq 1 normal; job 1; error 5 1; caught 1; enq 2 normal; job 2; error 6 0; unhandled 6; end unhandled; %pool; idle 3; close",
    },
    Case {
        name: "next errors of a path, the oldest first",
        words: &["run"],
        script: "proc main; monitor z; nexterr q z; upon q O 5; within z A; end; proc A; monitor a; detach a; detach a; nexterr r a; nexterr s a; within a B r s; end; proc B r:def s:def; monitor b; nexterr t b; nexterr u b; upon r O 1; upon s O 2; upon t O 3; upon u O 4; within b R; end; proc R; raise 5; end; proc O v:num w:num; print w; print v; end",
        status: Status::Done,
        output: "enq 0 normal; cycle; job 0; monitor 1 0; enq 1 normal; job 1; monitor 2 1; detach 2; detach 2; enq 2 normal; job 2; monitor 3 2; enq 3 normal; job 3; error 5 3; caught 2; fill 3 5; enq 4 normal; fill 4 5; enq 5 normal; fill 1 5; enq 6 normal; fill 2 5; enq 7 normal; job 4; print 3; print 5; job 5; print 4; print 5; job 6; print 1; print 5; job 7; print 2; print 5; end idle; %pool; idle 9; close",
    },
    Case {
        name: "handlers below the monitor that caught do not act",
        words: &["run"],
        script: "proc main; monitor m; detach m; within m A; end; proc A; monitor k; onerror k O 1; within k R; end; proc R; raise 5; end; proc O v:num w:num; print w; print v; end",
        status: Status::Done,
        output: "enq 0 normal; cycle; job 0; monitor 1 0; detach 1; enq 1 normal; job 1; monitor 2 1; enq 2 normal; job 2; error 5 2; caught 1; end idle; %pool; idle 4; close",
    },
    Case {
        name: "a try takes its first error",
        words: &["run"],
        script: "proc main; try r B else K; upon r O; end; proc B; sched X; raise 4; end; proc X; raise 3; end; proc K e:num; ret e; end; proc O v:num; print v; end",
        status: Status::Done,
        output: "enq 0 normal; cycle; job 0; monitor 1 0; detach 1; enq 1 normal; job 1; enq 2 normal; error 4 1; caught 1; enq 3 normal; job 2; error 3 1; caught 1; rest 3; job 3; fill 0 4; enq 4 normal; job 4; print 4; end idle; %pool; idle 6; close",
    },
    Case {
        name: "a later error goes up, where it is raised",
        words: &["run"],
        script: "async 2; proc main; try r B else K rest raise; upon r O; end; proc B; sched X; raise 4; end; proc X; raise 3; end; proc K e:num; ret e; end; proc O v:num; print v; end",
        status: Status::Unhandled { num: 3 },
        output: "enq 0 normal; cycle; job 0; monitor 1 0; detach 1; enq 1 normal; job 1; enq 2 normal; error 4 1; caught 1; attach 1; enq 3 normal; job 2; error 3 1; unhandled 3; end unhandled; %pool; idle 3; close",
    },
    Case {
        name: "an error behind the number goes up, where it is raised",
        words: &["run"],
        script: "async 2; proc main; monitor m; detach m; onerror m H; within m T; end; proc T; try r B else K rest raise; upon r O; end; proc B; sched X; ret 8; end; proc X; raise 3; end; proc K e:num; ret e; end; proc H e:num; print e; end; proc O v:num; print v; end",
        status: Status::Done,
        output: "enq 0 normal; cycle; job 0; monitor 1 0; detach 1; enq 1 normal; job 1; monitor 2 1; detach 2; enq 2 normal; job 2; enq 3 normal; attach 2; fill 0 8; enq 4 normal; job 3; error 3 2; caught 1; enq 5 normal; job 4; print 8; job 5; print 3; end idle; %pool; idle 7; close",
    },
    Case {
        name: "a try that an error decides before its body returns",
        words: &["run"],
        script: "proc main; try r B else K; upon r O; end; proc B; monitor c; send c 5; ret 2; end; proc K e:num; ret e; end; proc O v:num; print v; end",
        status: Status::Done,
        output: "enq 0 normal; cycle; job 0; monitor 1 0; detach 1; enq 1 normal; job 1; monitor 2 1; error 5 2; caught 1; enq 2 normal; job 2; fill 0 5; enq 3 normal; job 3; print 5; end idle; %pool; idle 5; close",
    },
    Case {
        name: "a try in a try",
        words: &["run"],
        script: "proc main; try r A else K; upon r O; end; proc A; try s B else L; ret s; end; proc B; raise 3; end; proc L e:num; raise 4; end; proc K e:num; ret e; end; proc O v:num; print v; end",
        status: Status::Done,
        output: "enq 0 normal; cycle; job 0; monitor 1 0; detach 1; enq 1 normal; job 1; monitor 2 1; detach 2; enq 2 normal; job 2; error 3 2; caught 2; enq 3 normal; job 3; error 4 1; caught 1; enq 4 normal; job 4; fill 0 4; enq 5 normal; job 5; print 4; end idle; %pool; idle 7; close",
    },
];

#[test]
fn errors_go_as_the_language_says(rt: HostRuntime) -> Result<(), NoMemory> {
    assert_eq!(rt; first_wrong(&rt, rt.alloc(), &RUNS)?, None);
    Ok(())
}
