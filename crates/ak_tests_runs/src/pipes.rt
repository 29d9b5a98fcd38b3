//! Runs with pipes.

use crate::commands::{Case, first_wrong};
use ak_base::list::NoMemory;
use ak_top::status::Status;

const RUNS: [Case; 11] = [
    Case {
        name: "pushback, a flush, and the end of a pipe",
        words: &["run"],
        script: "proc main; pipe p 0; write a p 7; upon a O 1; flushed f p; upon f O 2; rd x p G else H; put p 8; close p; rd y p G else H; rd z p G else H; end; proc G v:num; print v; end; proc H; print -100; end; proc O v:num w:num; print w; end",
        status: Status::Done,
        output: "enq 0 normal; cycle; job 0; fill 0 0; enq 1 normal; fill 1 0; enq 2 normal; enq 3 normal; enq 4 normal; enq 5 normal; job 1; print 1; job 2; print 2; job 3; print 7; fill 2 0; job 4; print 8; fill 3 0; job 5; print -100; fill 4 0; end idle; %pool; idle 7; close",
    },
    Case {
        name: "a reader that leaves",
        words: &["run"],
        script: "proc main; pipe p 0; write a p 1; flushed f p; upon f O; closeread p; write b p 2; end; proc O v:num; print v; end",
        status: Status::Unhandled { num: -4 },
        output: "enq 0 normal; cycle; job 0; fill 0 0; fill 1 1; enq 1 normal; error -4 0; unhandled -4; end unhandled; %pool; idle 1; close",
    },
    Case {
        name: "a number for a read that waits, a flush, and the end of a pipe",
        words: &["run"],
        script: "proc main; pipe p 1; rd a p G else H; rd b p G else H; put p 4; flushed f p; upon f O; close p; close p; put p 5; end; proc G v:num; print v; end; proc H; print -100; end; proc O v:num; print v; end",
        status: Status::Unhandled { num: -4 },
        output: "enq 0 normal; cycle; job 0; enq 1 normal; fill 2 0; enq 2 normal; enq 3 normal; error -4 0; unhandled -4; end unhandled; %pool; idle 1; close",
    },
    Case {
        name: "a read of an item: pushbacks, then flushes, then its call",
        words: &["run"],
        script: "proc main; pipe p 0; write a p 1; flushed f p; flushed e p; write b p 2; flushed g p; upon a O 1; upon b O 2; upon e O 5; upon f O 3; upon g O 4; rd x p G else H; print 9; rd y p G else H; end; proc G v:num; ret v; end; proc H; end; proc O v:num w:num; print w; print v; end",
        status: Status::Done,
        output: "enq 0 normal; cycle; job 0; fill 1 0; enq 1 normal; fill 2 0; enq 2 normal; enq 3 normal; print 9; fill 0 0; enq 4 normal; fill 3 0; enq 5 normal; fill 4 0; enq 6 normal; enq 7 normal; job 1; print 3; print 0; job 2; print 5; print 0; job 3; fill 5 1; job 4; print 1; print 0; job 5; print 2; print 0; job 6; print 4; print 0; job 7; fill 6 2; end idle; %pool; idle 9; close",
    },
    Case {
        name: "items of a closed pipe are read, and then its reads learn of the end",
        words: &["run"],
        script: "proc main; pipe p 0; put p 7; close p; rd x p G else H 1; low A p; monitor m; detach m; monitor z; within m B p; end; proc A p:pipe; rd x p G else H 2; upon x O; end; proc B p:pipe; rd x p G else R; end; proc G v:num; print v; end; proc H n:num; print n; ret n; end; proc R; raise 5; end; proc O v:num; print v; end",
        status: Status::Done,
        output: "enq 0 normal; cycle; job 0; enq 1 normal; enq 2 low; monitor 1 0; detach 1; monitor 2 0; enq 3 normal; job 1; print 7; fill 0 0; job 3; enq 4 normal; job 4; error 5 1; caught 1; job 2; enq 5 low; job 5; print 2; fill 2 2; enq 6 low; job 6; print 2; end idle; %pool; idle 8; close",
    },
    Case {
        name: "a write and a put to a closed pipe",
        words: &["run"],
        script: "proc main; pipe p 5; close p; monitor m; detach m; within m A p; within m B p; sched C p; end; proc A p:pipe; write a p 1; print 1; end; proc B p:pipe; put p 1; print 2; end; proc C p:pipe; flushed f p; rd x p D else E; end; proc D v:num; print v; end; proc E; print 3; end",
        status: Status::Done,
        output: "enq 0 normal; cycle; job 0; monitor 1 0; detach 1; enq 1 normal; enq 2 normal; enq 3 normal; job 1; error -4 1; caught 1; job 2; error -4 1; caught 1; job 3; fill 0 0; enq 4 normal; job 4; print 3; fill 1 0; end idle; %pool; idle 6; close",
    },
    Case {
        name: "a close of the reader with items, pushbacks and flushes",
        words: &["run"],
        script: "proc main; pipe p 0; write a p 1; flushed f p; write b p 2; flushed g p; closeread p; print 9; closeread p; flushed h p; rd x p G else H; pipe q 0; rd y q G else H; rd z q G else H; closeread q; write c p 3; end; proc G v:num; end; proc H; print 4; end",
        status: Status::Unhandled { num: -4 },
        output: "enq 0 normal; cycle; job 0; fill 0 0; fill 2 0; fill 1 1; fill 3 1; print 9; fill 4 1; enq 1 normal; enq 2 normal; enq 3 normal; error -4 0; unhandled -4; end unhandled; %pool; idle 1; close",
    },
    Case {
        name: "a connection renames pushbacks, flushes and results of reads",
        words: &["run"],
        script: "proc main; ivar g; pipe p 0; pipe q 0; pipe s 0; bind a g W p; bind b g F p; bind c g R q; bind d g R s; upon a O 1; upon b O 2; upon c O 3; upon d O 4; fill g 0; sched X p q s; end; proc W v:num p:pipe; write r p 7; ret r; end; proc F v:num p:pipe; flushed r p; ret r; end; proc R v:num p:pipe; rd r p G else H; ret r; end; proc G v:num; ret v; end; proc H; ret 9; end; proc X p:pipe q:pipe s:pipe; rd x p G else H; put q 5; close s; end; proc O v:num w:num; print w; print v; end",
        status: Status::Done,
        output: "enq 0 normal; cycle; job 0; fill 0 0; enq 1 normal; enq 2 normal; enq 3 normal; enq 4 normal; enq 5 normal; job 1; join 1 5; job 2; join 2 6; job 3; join 3 7; job 4; join 4 8; job 5; fill 1 0; enq 6 normal; fill 2 0; enq 7 normal; enq 8 normal; enq 9 normal; enq 10 normal; job 6; print 1; print 0; job 7; print 2; print 0; job 8; fill 9 7; job 9; fill 3 5; enq 11 normal; job 10; fill 4 9; enq 12 normal; job 11; print 3; print 5; job 12; print 4; print 9; end idle; %pool; idle 14; close",
    },
    Case {
        name: "things go by their names",
        words: &["run"],
        script: "proc main; pipe p 0; pipe q 1; pipe o 2; throttle t 1 go; throttle u 2 go; throttle v 3 go; event e r 5; event f s 5; write a p 1; write b q 2; write k q 3; rd x p O else H; enqueue c t N 1; enqueue d t N 2; enqueue g u N 3; enqueue h u N 4; enqueue i u N 5; abort e; upon r O; end; proc N n:num; print n; never r; ret r; end; proc H; end; proc O v:num; print v; end",
        status: Status::Done,
        output: "enq 0 normal; cycle; job 0; fill 3 0; fill 2 0; enq 1 normal; monitor 1 0; detach 1; enq 2 normal; monitor 2 0; detach 2; enq 3 normal; monitor 3 0; detach 3; enq 4 normal; fill 0 1; enq 5 normal; job 1; print 1; fill 5 0; job 2; print 1; job 3; print 3; job 4; print 4; job 5; print 1; end idle; %pool; idle 7; close",
    },
    Case {
        name: "reads that wait take numbers in order",
        words: &["run"],
        script: "proc main; pipe p 0; monitor m; detach m; within m A p; low A p; yield y; upon y F p; end; proc A p:pipe; rd x p R else H; upon x O 5; end; proc F v:num p:pipe; write a p 3; put p 4; upon a O 1; end; proc R v:num; set z v - 3; if z raise v; unless z raise 8; end; proc H; end; proc O v:num w:num; print w; print v; end",
        status: Status::Unhandled { num: 4 },
        output: "enq 0 normal; cycle; job 0; monitor 1 0; detach 1; enq 1 normal; enq 2 low; job 1; job 2; cycle; fill 0 0; enq 3 normal; job 3; enq 4 normal; fill 3 0; enq 5 low; enq 6 normal; job 4; error 8 1; caught 1; job 6; print 1; print 0; job 5; error 4 0; unhandled 4; end unhandled; %pool; idle 8; close",
    },
    Case {
        name: "a close ends the reads that wait",
        words: &["run"],
        script: "proc main; pipe p 0; rd w p G else H 0; monitor m; detach m; within m A p 1; low A p 2; yield y; upon y F p; end; proc A p:pipe n:num; rd x p G else H n; upon x O; end; proc F v:num p:pipe; close p; close p; print 6; end; proc G v:num; end; proc H n:num; if n raise n; end; proc O v:num; print v; end",
        status: Status::Unhandled { num: 2 },
        output: "enq 0 normal; cycle; job 0; monitor 1 0; detach 1; enq 1 normal; enq 2 low; job 1; job 2; cycle; fill 1 0; enq 3 normal; job 3; enq 4 normal; enq 5 normal; enq 6 low; print 6; job 4; fill 0 0; job 5; error 1 1; caught 1; job 6; error 2 0; unhandled 2; end unhandled; %pool; idle 8; close",
    },
];

#[test]
fn pipes_run_as_the_language_says(rt: HostRuntime) -> Result<(), NoMemory> {
    assert_eq!(rt; first_wrong(&rt, rt.alloc(), &RUNS)?, None);
    Ok(())
}
