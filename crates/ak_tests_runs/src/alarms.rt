//! Runs with alarms.

use crate::commands::{Case, first_wrong};
use ak_base::list::NoMemory;
use ak_top::status::Status;

const RUNS: [Case; 8] = [
    Case {
        name: "alarms of one time, of which one is aborted, and a tick that would go back",
        words: &["run"],
        script: "proc main; after p 5; event e q 5; event f s 5; upon p O 1; upon q O 2; upon s O 3; abort e; tick 5; tick 0; monitor m; detach m; within m T; end; proc T; tick -1; end; proc O v:num w:num; print w; print v; end",
        status: Status::Done,
        output: "enq 0 normal; cycle; job 0; fill 1 1; enq 1 normal; monitor 1 0; detach 1; enq 2 normal; job 1; print 2; print 1; job 2; error -9 1; caught 1; cycle; fill 0 0; enq 3 normal; fill 2 0; enq 4 normal; job 3; print 1; print 0; job 4; print 3; print 0; end idle; %pool; idle 7; close",
    },
    Case {
        name: "alarms that are due, one in the past among them, and one whose time does not come",
        words: &["run"],
        script: "proc main; after a 3; after b 4; event e c 2; after d -1; upon a O 1; upon b O 2; upon c O 3; upon d O 4; tick 2; tick 0; yield y; upon y T; end; proc T v:num; tick 1; print 9; end; proc O v:num w:num; print w; print v; end",
        status: Status::Done,
        output: "enq 0 normal; cycle; job 0; cycle; fill 4 0; enq 1 normal; fill 3 0; enq 2 normal; fill 2 0; enq 3 normal; job 1; print 9; job 2; print 4; print 0; job 3; print 3; print 0; cycle; fill 0 0; enq 4 normal; job 4; print 1; print 0; end idle; %pool; idle 8; close",
    },
    Case {
        name: "yields come before alarms, and alarms by time and number",
        words: &["run"],
        script: "proc main; after a 2; after b 1; yield y; after c 2; yield z; upon a O 1; upon b O 2; upon c O 3; upon y O 4; upon z O 5; tick 2; after d 0; upon d O 6; end; proc O v:num w:num; print w; print v; end",
        status: Status::Done,
        output: "enq 0 normal; cycle; job 0; cycle; fill 2 0; enq 1 normal; fill 4 0; enq 2 normal; fill 1 0; enq 3 normal; fill 0 0; enq 4 normal; fill 3 0; enq 5 normal; fill 5 0; enq 6 normal; job 1; print 4; print 0; job 2; print 5; print 0; job 3; print 2; print 0; job 4; print 1; print 0; job 5; print 3; print 0; job 6; print 6; print 0; end idle; %pool; idle 9; close",
    },
    Case {
        name: "a connection renames a yield, an alarm and an alarm that is aborted",
        words: &["run"],
        script: "proc main; ivar g; bind a g P; bind b g Q; bind c g R; upon a O 1; upon b O 2; upon c O 3; fill g 0; end; proc P v:num; yield r; ret r; end; proc Q v:num; after r 0; ret r; end; proc R v:num; event e r 5; sched X e; ret r; end; proc X e:event; abort e; end; proc O v:num w:num; print w; print v; end",
        status: Status::Done,
        output: "enq 0 normal; cycle; job 0; fill 0 0; enq 1 normal; enq 2 normal; enq 3 normal; job 1; join 1 4; job 2; join 2 5; job 3; enq 4 normal; join 3 6; job 4; fill 3 1; enq 5 normal; job 5; print 3; print 1; cycle; fill 1 0; enq 6 normal; fill 2 0; enq 7 normal; job 6; print 1; print 0; job 7; print 2; print 0; end idle; %pool; idle 10; close",
    },
    Case {
        name: "the clock at the greatest time, and negative",
        words: &["run"],
        script: "proc main; monitor m; detach m; tick 9223372036854775807; within m A; within m B; within m C; within m D; sched E; end; proc A; tick 1; end; proc B; tick -1; end; proc C; after r 1; end; proc D; event e r 1; end; proc E; ivar i; event e r 0; abort e; event f s 0; abort f; fill i 2; end",
        status: Status::Done,
        output: "enq 0 normal; cycle; job 0; monitor 1 0; detach 1; enq 1 normal; enq 2 normal; enq 3 normal; enq 4 normal; enq 5 normal; job 1; error -1 1; caught 1; job 2; error -9 1; caught 1; job 3; error -1 1; caught 1; job 4; error -1 1; caught 1; job 5; fill 1 1; fill 2 1; fill 0 2; end idle; %pool; idle 7; close",
    },
    Case {
        name: "an alarm that is aborted twice",
        words: &["run"],
        script: "proc P3 v0:num v1:num v2:num v3:num v4:event; monitor m1; ret v0; end; proc main; monitor g; detach g; onerror g Show; nexterr x g; upon x Show; within g Top; within g Top; end; proc P2 v0:num v1:num; set n1 12 != 5; end; proc P0; if 3 print 4; ret 9; end; proc FailsBy v:num; raise v; end; proc Show v:num; print v; end; proc Top; event e1 d2 5; upon d2 P3 0 5 12 e1; abort e1; abort e1; upon d2 FailsBy; if 1 print 2; print 0; upon d2 Show; upon d2 FailsBy; upon d2 P2 4; set n3 9 < 1; upon d2 FailsBy; low P0; ret d2; end",
        status: Status::Done,
        output: "enq 0 normal; cycle; job 0; monitor 1 0; detach 1; enq 1 normal; enq 2 normal; job 1; fill 1 1; enq 3 normal; enq 4 normal; print 2; print 0; enq 5 normal; enq 6 normal; enq 7 normal; enq 8 normal; enq 9 low; job 2; fill 2 1; enq 10 normal; enq 11 normal; print 2; print 0; enq 12 normal; enq 13 normal; enq 14 normal; enq 15 normal; enq 16 low; job 3; monitor 2 1; job 4; error 1 1; caught 1; fill 0 1; enq 17 normal; enq 18 normal; job 5; print 1; job 6; error 1 1; caught 1; enq 19 normal; job 7; job 8; error 1 1; caught 1; enq 20 normal; job 10; monitor 3 1; job 11; error 1 1; caught 1; enq 21 normal; job 12; print 1; job 13; error 1 1; caught 1; enq 22 normal; job 14; job 15; error 1 1; caught 1; enq 23 normal; job 17; print 1; job 18; print 1; job 19; print 1; job 20; print 1; job 21; print 1; job 22; print 1; job 23; print 1; job 9; print 4; job 16; print 4; end idle; %pool; idle 25; close",
    },
    Case {
        name: "alarms behind yields, and procedures that set them",
        words: &["run"],
        script: "proc Show2 v:num w:num; print v; print w; end; proc P1 v:num n:num; set k n % 6; set m k - 1; set over m < 0; if over ret k; yield y; bind r y P1 m; ret r; end; proc Late v:num; after r 1; tick 1; ret r; end; proc main; event e1 d2 2; after d3 2; event e4 d5 2; tick 2; upon d2 Late; upon d5 Pass d5; abort e4; sched Show2 5 3; monitor m6; monitor m7; detach m7; if 3037000500 onerror m7 P0; unless -1 onerror m7 Give; nexterr d8 m7; nexterr d9 m7; within m7 Give 0; within m7 Self; upon d8 P1 3; end; proc Self; monitor c; send c 5; ret 2; end; proc Give v:num; ret v; end; proc P0 v0:num; set k v0 % 4; set m k - 1; set go 0 < m; event e1 d2 5; if 9223372036854775807 tick 0; if go sched P0 m; end; proc Pass v:num x:def; ret x; end",
        status: Status::Done,
        output: "enq 0 normal; cycle; job 0; fill 2 1; enq 1 normal; enq 2 normal; monitor 1 0; monitor 2 0; detach 2; enq 3 normal; enq 4 normal; job 1; job 2; print 5; print 3; job 3; job 4; monitor 3 2; error 5 3; caught 2; fill 3 5; enq 5 normal; fill 4 5; enq 6 normal; job 5; job 6; cycle; fill 5 0; enq 7 normal; fill 0 0; enq 8 normal; fill 1 0; job 7; join 6 9; job 8; cycle; fill 8 0; enq 9 normal; fill 10 0; job 9; join 6 12; cycle; fill 11 0; enq 10 normal; job 10; fill 6 0; end idle; %pool; idle 15; close",
    },
    Case {
        name: "alarms in the past among yields and tries",
        words: &["run"],
        script: "proc Top; yield d1; bind d2 d1 P2 7 4; bind d3 d1 P2 1 7; upon d3 Late; yield d4; bind d5 d4 P2 -1 5; yield d6; upon d6 P2 2 3; try d7 Two2 else Show; try d8 Slow else Give; upon d8 Late; after d9 -1; upon d9 P2 4 0; upon d9 Show; end; proc P2 v0:num v1:num v2:num; after d1 -1; yield d2; tick 0; end; proc Late v:num; after r 1; tick 1; ret r; end; proc FailsBy v:num; raise v; end; proc Show v:num; print v; end; proc Slow; yield y; bind r y Give; ret r; end; proc Two2; sched Slow; sched SlowFail; raise 6; end; proc SlowFail; yield y; upon y FailsBy; ret y; end; proc Give v:num; ret v; end; proc main; monitor g; detach g; onerror g Show; nexterr x g; upon x Show; within g Top; end",
        status: Status::Done,
        output: "enq 0 normal; cycle; job 0; monitor 1 0; detach 1; enq 1 normal; job 1; monitor 2 1; detach 2; enq 2 normal; monitor 3 1; detach 3; enq 3 normal; job 2; enq 4 normal; enq 5 normal; error 6 2; caught 2; enq 6 normal; job 3; job 4; job 5; job 6; print 6; fill 7 0; cycle; fill 1 0; enq 7 normal; enq 8 normal; fill 4 0; enq 9 normal; fill 6 0; enq 10 normal; fill 10 0; enq 11 normal; fill 12 0; enq 12 normal; fill 14 0; enq 13 normal; fill 9 0; enq 14 normal; enq 15 normal; job 7; fill 2 0; job 8; fill 3 0; enq 16 normal; job 9; fill 5 0; job 10; job 11; fill 11 0; enq 17 normal; job 12; fill 13 0; job 13; error 0 2; caught 2; rest 0; job 14; job 15; print 0; job 16; job 17; fill 8 0; enq 18 normal; job 18; cycle; fill 16 0; fill 18 0; fill 20 0; fill 22 0; fill 24 0; fill 15 0; fill 17 0; fill 19 0; fill 21 0; fill 23 0; fill 25 0; fill 26 0; end idle; %pool; idle 22; close",
    },
];

#[test]
fn alarms_come_as_the_language_says(rt: HostRuntime) -> Result<(), NoMemory> {
    assert_eq!(rt; first_wrong(&rt, rt.alloc(), &RUNS)?, None);
    Ok(())
}
