//! Runs over many cycles.

use crate::commands::{Case, first_wrong};
use ak_base::list::NoMemory;
use ak_top::status::Status;

const RUNS: [Case; 5] = [
    Case {
        name: "a result that is renamed while its job waits",
        words: &["run"],
        script: "proc main; ivar i; yield y; bind r y P i; upon r O; end; proc P v:num i:ivar; fill i 1; bind s i Z; ret s; end; proc Z v:num; ret 4; end; proc O v:num; print v; end",
        status: Status::Done,
        output: "enq 0 normal; cycle; job 0; cycle; fill 1 0; enq 1 normal; job 1; fill 0 1; enq 2 normal; join 2 3; job 2; fill 2 4; enq 3 normal; job 3; print 4; end idle; %pool; idle 6; close",
    },
    Case {
        name: "the limit of jobs counts over cycles",
        words: &["run", "--jobs", "3", "--limit", "1"],
        script: "proc main; low O 1; yield y; upon y O; sched O 2; end; proc O v:num; print v; end",
        status: Status::Jobs,
        output: "enq 0 normal; cycle; job 0; enq 1 low; enq 2 normal; job 1; print 1; cycle; fill 0 0; enq 3 normal; job 2; print 2; cycle; end jobs; %pool; idle 6; close",
    },
    Case {
        name: "each old name stands for the one deferred",
        words: &["run"],
        script: "proc main; ivar i; ivar j; ivar g; bind a g P i; bind b g P j; fill g 0; yield y; upon y X i j a b; end; proc P v:num x:ivar; ret x; end; proc X v:num i:ivar j:ivar a:def b:def; upon a O 1; upon i O 2; upon b O 3; fill j 4; upon j O 5; fill i 6; upon a O 7; fill i 8; end; proc O v:num w:num; print w; print v; end",
        status: Status::Unhandled { num: -3 },
        output: "enq 0 normal; cycle; job 0; fill 2 0; enq 1 normal; enq 2 normal; job 1; join 3 0; job 2; join 4 1; cycle; fill 5 0; enq 3 normal; job 3; fill 4 4; enq 4 normal; enq 5 normal; fill 3 6; enq 6 normal; enq 7 normal; enq 8 normal; error -3 0; unhandled -3; end unhandled; %pool; idle 5; close",
    },
    Case {
        name: "procedures that call themselves behind yields",
        words: &["run"],
        script: "proc P1 v:num n:num; set k n % 5; set m k - 1; set over m < 0; if over ret k; yield y; bind r y P1 m; ret r; end; proc Show v:num; print v; end; proc P2 v:num n:num; set k n % 4; set m k - 1; set over m < 0; if over ret k; yield y; bind r y P2 m; ret r; end; proc Give v:num; ret v; end; proc Top; low P2 2 -3; monitor m1; monitor m2; detach m2; onerror m2 Show; onerror m2 Give; nexterr d3 m2; nexterr d4 m2; within m2 Give 0; within m2 Show 9; set n5 1 <= -1; upon d4 P1 n5; bind d6 d4 Three 7 -3; yield d7; bind d8 d7 Show2 7; bind d9 d8 P2 1; upon d6 Show2 n5; yield d10; bind d11 d10 P1 12; end; proc Slow; yield y; bind r y Give; ret r; end; proc Three v:num w:num x:num; set s v + w; set t s * x; ret t; end; proc Show2 v:num w:num; print v; print w; end; proc main; monitor g; detach g; within g Top; within g Slow; end",
        status: Status::Done,
        output: "enq 0 normal; cycle; job 0; monitor 1 0; detach 1; enq 1 normal; enq 2 normal; job 1; enq 3 low; monitor 2 1; monitor 3 1; detach 3; enq 4 normal; enq 5 normal; job 2; job 4; job 5; print 9; job 3; cycle; fill 3 0; enq 6 normal; fill 6 0; enq 7 normal; fill 8 0; enq 8 normal; job 6; print 0; print 7; fill 4 0; enq 9 normal; job 7; join 7 11; job 8; fill 9 0; job 9; join 5 13; cycle; fill 10 0; enq 10 normal; fill 12 0; enq 11 normal; job 10; join 7 15; job 11; fill 5 0; cycle; fill 14 0; enq 12 normal; job 12; fill 7 0; end idle; %pool; idle 17; close",
    },
    Case {
        name: "yields among monitors and low jobs",
        words: &["run"],
        script: "proc Two; sched Fails; raise 8; end; proc Fails; raise 7; end; proc Give v:num; ret v; end; proc Show v:num; print v; end; proc SlowFail; yield y; upon y FailsBy; ret y; end; proc P4 v0:num; never d1; ret d1; end; proc Show2 v:num w:num; print v; print w; end; proc Top; monitor m1; detach m1; onerror m1 P4; nexterr d2 m1; unless 3 upon d2 Err m1; within m1 FailsBy 2; within m1 Err 12 m1; send m1 1; upon d2 FailsBy; monitor m3; detach m3; onerror m3 Give; nexterr d4 m3; upon d4 Show2 1; within m3 Show2 -3 5; if 7 within m3 Show2 2 2; send m1 2; low Two; sched SlowFail; low P0 12 9; if 3 sched P0 1 12; sched Show2 12 9; ret d4; end; proc Err v:num m:mon; send m v; ret v; end; proc main; monitor g; detach g; onerror g Show; nexterr x g; upon x Show; within g Top; end; proc FailsBy v:num; raise v; end; proc P0 v0:num v1:num; if v1 sched Give v1; monitor m1; ret v1; end",
        status: Status::Done,
        output: "enq 0 normal; cycle; job 0; monitor 1 0; detach 1; enq 1 normal; job 1; monitor 2 1; detach 2; enq 2 normal; enq 3 normal; error 1 2; caught 2; fill 1 1; enq 4 normal; enq 5 normal; monitor 3 1; detach 3; enq 6 normal; enq 7 normal; error 2 2; caught 2; enq 8 normal; enq 9 low; enq 10 normal; enq 11 low; enq 12 normal; enq 13 normal; job 2; error 2 2; caught 2; enq 14 normal; job 3; error 12 2; caught 2; enq 15 normal; job 4; job 5; error 1 1; caught 1; fill 0 1; enq 16 normal; enq 17 normal; job 6; print -3; print 5; job 7; print 2; print 2; job 8; job 10; job 12; enq 18 normal; monitor 4 1; job 13; print 12; print 9; job 14; job 15; job 16; print 1; job 17; print 1; job 18; job 9; enq 19 normal; error 8 1; caught 1; enq 20 normal; job 19; error 7 1; caught 1; enq 21 normal; job 20; print 8; job 21; print 7; job 11; enq 22 normal; monitor 5 1; job 22; cycle; fill 5 0; enq 23 normal; job 23; error 0 1; caught 1; enq 24 normal; job 24; print 0; end idle; %pool; idle 27; close",
    },
];

#[test]
fn cycles_begin_as_the_language_says(rt: HostRuntime) -> Result<(), NoMemory> {
    assert_eq!(rt; first_wrong(&rt, rt.alloc(), &RUNS)?, None);
    Ok(())
}
