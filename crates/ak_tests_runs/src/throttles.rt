//! Runs with throttles.

use crate::commands::{Case, first_wrong};
use ak_base::list::NoMemory;
use ak_top::status::Status;

const RUNS: [Case; 11] = [
    Case {
        name: "a failure that stops a throttle of two",
        words: &["run"],
        script: "proc main; throttle t 2 stop; monitor m; detach m; onerror m H; within m E t; end; proc E t:thr; enqueue a t X; enqueue b t Y; enqueue c t Y; enqueue d t Y; upon b O; yield y; upon y Z t; end; proc X; raise 9; end; proc Y; yield y; ret y; end; proc Z v:num t:thr; enqueue a t Y; end; proc H e:num; print e; end; proc O v:num; print v; end",
        status: Status::Done,
        output: "enq 0 normal; cycle; job 0; monitor 1 0; detach 1; enq 1 normal; job 1; monitor 2 1; detach 2; enq 2 normal; monitor 3 1; detach 3; enq 3 normal; job 2; error 9 2; caught 2; enq 4 normal; job 3; job 4; enq 5 normal; enq 6 normal; error 9 1; caught 1; enq 7 normal; job 5; error -6 1; caught 1; enq 8 normal; job 6; error -6 1; caught 1; enq 9 normal; job 7; print 9; job 8; print -6; job 9; print -6; cycle; fill 4 0; enq 10 normal; fill 5 0; enq 11 normal; job 10; error -5 1; caught 1; enq 12 normal; job 11; fill 1 0; enq 13 normal; job 12; print -5; job 13; print 0; end idle; %pool; idle 16; close",
    },
    Case {
        name: "two bodies, one after the other, and a deferred for their end",
        words: &["run"],
        script: "proc main; throttle t 1 go; enqueue a t B; enqueue b t B; tdone d t; upon d O; end; proc B; print 1; ret 2; end; proc O v:num; print v; end",
        status: Status::Done,
        output: "enq 0 normal; cycle; job 0; monitor 1 0; detach 1; enq 1 normal; job 1; print 1; fill 0 2; monitor 2 0; detach 2; enq 2 normal; job 2; print 1; fill 1 2; fill 2 0; enq 3 normal; job 3; print 0; end idle; %pool; idle 5; close",
    },
    Case {
        name: "a body for a dead throttle, and one between an error and its failing job",
        words: &["run"],
        script: "proc main; throttle t 1 stop; monitor m; detach m; within m E t; end; proc E t:thr; enqueue a t R t; yield y; upon y Z t; end; proc R t:thr; sched N t; raise 9; end; proc N t:thr; enqueue c t B; end; proc B; end; proc Z v:num t:thr; monitor m; within m W t; sched V; end; proc W t:thr; enqueue b t B; end; proc V; ivar i; fill i 2; end",
        status: Status::Done,
        output: "enq 0 normal; cycle; job 0; monitor 1 0; detach 1; enq 1 normal; job 1; monitor 2 1; detach 2; enq 2 normal; job 2; enq 3 normal; error 9 2; caught 2; enq 4 normal; job 3; job 4; enq 5 normal; error 9 1; caught 1; job 5; error -6 2; caught 2; rest -6; cycle; fill 1 0; enq 6 normal; job 6; monitor 3 1; enq 7 normal; enq 8 normal; job 7; error -5 3; caught 1; job 8; fill 3 2; end idle; %pool; idle 11; close",
    },
    Case {
        name: "a failure that stops a throttle drops the bodies that wait, front first",
        words: &["run"],
        script: "proc main; throttle t 1 stop; monitor m; detach m; onerror m O 9; within m E t; end; proc E t:thr; enqueue a t R; low L t; tdone z t; enqueue b t B; tdone c t; upon c O 1; upon z O 2; upon b O 3; end; proc L t:thr; enqueue d t B; end; proc R; yield y; upon y X; ret y; end; proc X v:num; raise 4; end; proc B; print 5; ret 1; end; proc O v:num w:num; print w; print v; end",
        status: Status::Done,
        output: "enq 0 normal; cycle; job 0; monitor 1 0; detach 1; enq 1 normal; job 1; monitor 2 1; detach 2; enq 2 normal; enq 3 low; job 2; job 3; cycle; fill 4 0; enq 4 normal; enq 5 normal; job 4; error 4 2; caught 2; enq 6 normal; job 5; job 6; enq 7 normal; enq 8 low; fill 1 0; enq 9 normal; fill 3 0; enq 10 normal; error 4 1; caught 1; enq 11 normal; job 7; error -6 1; caught 1; enq 12 normal; job 9; print 2; print 0; job 10; print 1; print 0; job 11; print 9; print 4; job 12; print 9; print -6; job 8; error -6 1; caught 1; enq 13 normal; job 13; print 9; print -6; end idle; %pool; idle 16; close",
    },
    Case {
        name: "after an end and a failure one body starts for each",
        words: &["run"],
        script: "proc main; throttle t 2 go; monitor m; detach m; monitor z; low L t m; end; proc L t:thr m:mon; within m E t; end; proc E t:thr; enqueue a t R; enqueue b t B; enqueue c t N; enqueue d t N; enqueue e t N; yield y; upon y F t; end; proc R; raise 5; end; proc B; yield y; ret y; end; proc N; never r; ret r; end; proc F v:num t:thr; yield y; upon y G t; end; proc G v:num t:thr; enqueue c t B; print 1; end",
        status: Status::Done,
        output: "enq 0 normal; cycle; job 0; monitor 1 0; detach 1; monitor 2 0; enq 1 low; job 1; enq 2 low; job 2; monitor 3 1; detach 3; enq 3 low; monitor 4 1; detach 4; enq 4 low; job 3; error 5 3; caught 3; enq 5 low; job 4; job 5; monitor 5 1; detach 5; enq 6 low; error 5 1; caught 1; job 6; cycle; fill 5 0; enq 7 low; fill 6 0; enq 8 low; job 7; job 8; fill 1 0; monitor 6 1; detach 6; enq 9 low; job 9; cycle; fill 8 0; enq 10 low; job 10; print 1; end idle; %pool; idle 14; close",
    },
    Case {
        name: "a deferred that waits for the bodies before it",
        words: &["run"],
        script: "proc main; throttle t 2 go; enqueue a t N; tdone c t; enqueue b t B; enqueue e t B; tdone d t; enqueue f t V; enqueue g t B; upon c O 1; upon d O 2; end; proc N; yield y; ret y; end; proc B; ret 1; end; proc V; never n; ret n; end; proc O v:num w:num; print w; print v; end",
        status: Status::Done,
        output: "enq 0 normal; cycle; job 0; monitor 1 0; detach 1; enq 1 normal; monitor 2 0; detach 2; enq 2 normal; job 1; job 2; fill 2 1; monitor 3 0; detach 3; enq 3 normal; job 3; fill 3 1; monitor 4 0; detach 4; enq 4 normal; job 4; cycle; fill 7 0; enq 5 normal; job 5; fill 0 0; monitor 5 0; detach 5; enq 6 normal; fill 1 0; enq 7 normal; fill 4 0; enq 8 normal; job 6; fill 6 1; job 7; print 1; print 0; job 8; print 2; print 0; end idle; %pool; idle 11; close",
    },
    Case {
        name: "the error of a body in the context of its enqueue",
        words: &["run"],
        script: "proc main; throttle t 1 go; monitor m; detach m; onerror m O; within m E t; low W t m; end; proc W t:thr m:mon; within m E t; end; proc E t:thr; enqueue a t R; end; proc R; raise 4; end; proc O v:num; print v; end",
        status: Status::Done,
        output: "enq 0 normal; cycle; job 0; monitor 1 0; detach 1; enq 1 normal; enq 2 low; job 1; monitor 2 1; detach 2; enq 3 normal; job 3; error 4 2; caught 2; enq 4 normal; job 4; error 4 1; caught 1; enq 5 normal; job 5; print 4; job 2; enq 6 low; job 6; monitor 3 1; detach 3; enq 7 low; job 7; error 4 3; caught 3; enq 8 low; job 8; error 4 1; caught 1; enq 9 normal; job 9; print 4; end idle; %pool; idle 11; close",
    },
    Case {
        name: "a body fails once",
        words: &["run"],
        script: "proc main; throttle t 1 go; monitor m; detach m; within m E t; end; proc E t:thr; enqueue a t R; enqueue b t B; upon a O; upon b O; end; proc R; monitor c; sched X; send c 5; send c 6; ret 7; end; proc X; raise 8; end; proc B; ret 1; end; proc O v:num; print v; end",
        status: Status::Done,
        output: "enq 0 normal; cycle; job 0; monitor 1 0; detach 1; enq 1 normal; job 1; monitor 2 1; detach 2; enq 2 normal; job 2; monitor 3 2; enq 3 normal; error 5 3; caught 2; enq 4 normal; error 6 3; caught 2; rest 6; job 3; error 8 2; caught 2; rest 8; job 4; monitor 4 1; detach 4; enq 5 normal; error 5 1; caught 1; job 5; fill 1 1; enq 6 normal; job 6; print 1; end idle; %pool; idle 8; close",
    },
    Case {
        name: "an error after the end of a body",
        words: &["run"],
        script: "proc main; throttle t 1 stop; enqueue a t R; enqueue b t B; upon b O; end; proc R; sched X; ret 3; end; proc X; raise 8; end; proc B; ret 1; end; proc O v:num; print v; end",
        status: Status::Done,
        output: "enq 0 normal; cycle; job 0; monitor 1 0; detach 1; enq 1 normal; job 1; enq 2 normal; fill 0 3; monitor 2 0; detach 2; enq 3 normal; job 2; error 8 1; caught 1; rest 8; job 3; fill 1 1; enq 4 normal; job 4; print 1; end idle; %pool; idle 6; close",
    },
    Case {
        name: "a body that is decided and returns a deferred then",
        words: &["run"],
        script: "proc main; throttle t 1 go; monitor m; detach m; within m E t; end; proc E t:thr; enqueue a t R; upon a O; end; proc R; monitor c; send c 5; yield y; ret y; end; proc O v:num; print v; end",
        status: Status::Done,
        output: "enq 0 normal; cycle; job 0; monitor 1 0; detach 1; enq 1 normal; job 1; monitor 2 1; detach 2; enq 2 normal; job 2; monitor 3 2; error 5 3; caught 2; enq 3 normal; job 3; error 5 1; caught 1; cycle; fill 1 0; end idle; %pool; idle 6; close",
    },
    Case {
        name: "a connection renames results of bodies and marks",
        words: &["run"],
        script: "proc main; ivar g; ivar k; ivar i; throttle t 1 go; bind a g P t k; bind b g Q t i; bind c g M t; bind e g I i; upon a O 1; upon b O 2; upon c O 3; fill g 0; sched F k; end; proc P v:num t:thr k:ivar; enqueue r t W k; ret r; end; proc Q v:num t:thr i:ivar; enqueue r t B i; ret r; end; proc M v:num t:thr; tdone r t; ret r; end; proc I v:num i:ivar; ret i; end; proc W k:def; ret k; end; proc B i:ivar; fill i 6; end; proc F k:ivar; fill k 5; end; proc O v:num w:num; print w; print v; end",
        status: Status::Done,
        output: "enq 0 normal; cycle; job 0; fill 0 0; enq 1 normal; enq 2 normal; enq 3 normal; enq 4 normal; enq 5 normal; job 1; monitor 1 0; detach 1; enq 6 normal; join 3 7; job 2; join 4 8; job 3; join 5 9; job 4; join 6 2; job 5; fill 1 5; job 6; enq 7 normal; job 7; fill 3 5; enq 8 normal; monitor 2 0; detach 2; enq 9 normal; job 8; print 1; print 5; job 9; fill 6 6; fill 4 0; enq 10 normal; fill 5 0; enq 11 normal; job 10; print 2; print 0; job 11; print 3; print 0; end idle; %pool; idle 13; close",
    },
];

#[test]
fn throttles_run_as_the_language_says(rt: HostRuntime) -> Result<(), NoMemory> {
    assert_eq!(rt; first_wrong(&rt, rt.alloc(), &RUNS)?, None);
    Ok(())
}
