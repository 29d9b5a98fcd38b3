//! Runs with `all`, `any` and `choose`.

use crate::commands::{Case, first_wrong};
use ak_base::list::NoMemory;
use ak_top::status::Status;

const RUNS: [Case; 12] = [
    Case {
        name: "a choice of two that are full takes the earlier of its list",
        words: &["run"],
        script: "proc main; ivar a; ivar b; choose r a A b B with 10; upon r O; fill b 2; fill a 1; end; proc A v:num w:num; set s v + w; ret s; end; proc B v:num w:num; set s v - w; ret s; end; proc O v:num; print v; end",
        status: Status::Done,
        output: "enq 0 normal; cycle; job 0; fill 1 2; enq 1 normal; fill 0 1; enq 2 normal; job 1; fill 2 11; enq 3 normal; job 2; job 3; print 11; end idle; %pool; idle 5; close",
    },
    Case {
        name: "all with a name twice in its list, and any of the same deferreds",
        words: &["run"],
        script: "proc main; ivar a; ivar b; all r a b a then S 100; any q b a; upon r O; upon q O; fill a 1; fill b 2; end; proc S x:num y:num z:num w:num; set s x + y; set t s + z; set u t + w; ret u; end; proc O v:num; print v; end",
        status: Status::Done,
        output: "enq 0 normal; cycle; job 0; fill 0 1; enq 1 normal; enq 2 normal; enq 3 normal; fill 1 2; enq 4 normal; enq 5 normal; job 1; job 2; job 3; fill 3 2; enq 6 normal; job 4; fill 2 104; enq 7 normal; job 5; job 6; print 2; job 7; print 104; end idle; %pool; idle 9; close",
    },
    Case {
        name: "a choice of one deferred by two names, and any beside an alarm that is aborted",
        words: &["run"],
        script: "proc P4 v0:num v1:def; set k v0 % 4; set m k - 1; set go 0 < m; low P1 v0 v1; set n2 v0 < v0; set n3 2 != 0; if go low P4 m v1; end; proc main; ivar i1; upon i1 Late; monitor m2; nexterr d3 m2; upon d3 P2; within m2 Late -1; choose d4 d3 P4 d3 P4 i1 P4 i1 P4 d3 P4 d3 P1 i1 P4 d3 P4 with i1; event e5 d6 3; upon i1 P1 d6; unless 5 abort e5; abort e5; upon i1 Give; any d7 i1 i1 d6; end; proc FailsBy v:num; raise v; end; proc Late v:num; after r 1; tick 1; ret r; end; proc Give v:num; ret v; end; proc P1 v0:num v1:def; ivar i1; end; proc P2 v0:num; set n1 7 != 9; print n1; low FailsBy n1; end",
        status: Status::Done,
        output: "enq 0 normal; cycle; job 0; monitor 1 0; enq 1 normal; fill 3 1; enq 2 normal; job 1; job 2; fill 4 1; cycle; fill 5 0; end idle; %pool; idle 5; close",
    },
    Case {
        name: "all, any and choose of an ivar that nobody fills",
        words: &["run"],
        script: "proc Three v:num w:num x:num; set s v + w; set t s * x; ret t; end; proc main; monitor g; detach g; onerror g Show; within g Top; end; proc Late v:num; after r 1; tick 1; ret r; end; proc Fails; raise 7; end; proc P5 v:num n:num; set k n % 3; set m k - 1; set over m < 0; if over ret k; after y 0; bind r y P5 m; ret r; end; proc Pass v:num x:def; ret x; end; proc Give v:num; ret v; end; proc Top; tick 1; ivar i1; try d2 P3 7 else P3; bind d3 i1 Pass i1; bind d4 i1 Three 7 1; upon i1 P5 -3; bind d5 d4 P5 1; ivar i6; all d7 i6 i6 i6 then Three; unless 4 fill i6 12; any d8 i6 i6 i6 d5; upon i6 P5 7; bind d9 i6 Late; low Give 4; sched Fails; if 0 low Late -1; sched Pass -1 i6; print 1; never d10; yield d11; any d12 i6 i6; upon d3 Pass i6; choose d13 i6 FailsBy with; upon i6 P5 9; ret 0; end; proc P3 v0:num; sched Show 1; tick 3; after d1 2; event e2 d3 5; end; proc Show v:num; print v; end; proc FailsBy v:num; raise v; end",
        status: Status::Done,
        output: "enq 0 normal; cycle; job 0; monitor 1 0; detach 1; enq 1 normal; job 1; monitor 2 1; detach 2; enq 2 normal; enq 3 low; enq 4 normal; enq 5 normal; print 1; job 2; enq 6 normal; fill 1 0; job 4; error 7 1; caught 1; enq 7 normal; job 5; job 6; print 1; job 7; print 7; job 3; cycle; fill 10 0; end idle; %pool; idle 10; close",
    },
    Case {
        name: "all among alarms and errors",
        words: &["run"],
        script: "proc main; monitor g; detach g; within g Top; end; proc Pass v:num x:def; ret x; end; proc Err v:num m:mon; send m v; ret v; end; proc Two; sched Fails; raise 8; end; proc P1 v0:num; event e1 d2 0; yield d3; ret d3; end; proc Top; event e1 d2 3; after d3 3; event e4 d5 3; tick 0; upon d5 P3 12 2 4; if -1 upon d5 P3 2 9 2; abort e4; ivar i6; all d7 i6 i6 then P3 3 1; upon i6 P1; sched FailsBy 1; event e8 d9 2; event e10 d11 3; after d12 9; abort e10; tick 2; upon d11 Pass i6; abort e1; ret -3; end; proc P3 v0:num v1:num v2:num v3:num; monitor m1; sched Err -1 m1; sched Fails; low Two; ivar i2; end; proc FailsBy v:num; raise v; end; proc Fails; raise 7; end",
        status: Status::Done,
        output: "enq 0 normal; cycle; job 0; monitor 1 0; detach 1; enq 1 normal; job 1; fill 2 1; enq 2 normal; enq 3 normal; enq 4 normal; fill 6 1; enq 5 normal; fill 0 1; job 2; monitor 2 1; enq 6 normal; enq 7 normal; enq 8 low; job 3; monitor 3 1; enq 9 normal; enq 10 normal; enq 11 low; job 4; error 1 1; caught 1; job 5; job 6; error -1 2; caught 1; job 7; error 7 1; caught 1; job 9; error -1 3; caught 1; job 10; error 7 1; caught 1; job 8; enq 12 normal; error 8 1; caught 1; job 12; error 7 1; caught 1; job 11; enq 13 normal; error 8 1; caught 1; job 13; error 7 1; caught 1; cycle; fill 5 0; end idle; %pool; idle 16; close",
    },
    Case {
        name: "choices that yields decide, and all of two that are filled",
        words: &["run"],
        script: "proc main; monitor g; detach g; onerror g Show; within g Top; end; proc Show2 v:num w:num; print v; print w; end; proc P4 v0:num; ivar i1; fill i1 v0; ivar i2; ivar i3; bind d4 i3 Show2 v0; yield d5; bind d6 d4 P0 d4; all d7 i3 i2 then Show2; fill i2 2; print 5; offer i3 1; end; proc Give v:num; ret v; end; proc Show v:num; print v; end; proc Top; set n1 12 + -3; never d2; yield d3; any d4 d3 d2 d3 d3; upon d2 FailsBy; choose d5 d4 P4 d4 Give d4 Show with; upon d5 P0 d5; event e6 d7 3; event e8 d9 0; after d10 0; abort e8; tick 2; upon d5 Show2 12; unless 2 print n1; yield d11; upon d11 Show2 3; end; proc P0 v0:num v1:def; set k v0 % 4; set m k - 1; set go 0 < m; print v0; if go low P0 m v1; end; proc FailsBy v:num; raise v; end",
        status: Status::Done,
        output: "enq 0 normal; cycle; job 0; monitor 1 0; detach 1; enq 1 normal; job 1; fill 5 1; cycle; fill 1 0; enq 2 normal; enq 3 normal; enq 4 normal; fill 7 0; enq 5 normal; fill 6 0; job 2; fill 2 0; enq 6 normal; enq 7 normal; enq 8 normal; job 3; job 4; job 5; print 0; print 3; job 6; fill 8 0; fill 9 2; enq 9 normal; print 5; fill 10 1; enq 10 normal; enq 11 normal; fill 3 0; enq 12 normal; enq 13 normal; job 7; job 8; job 9; job 10; print 1; print 0; fill 11 0; enq 14 normal; job 11; print 1; print 2; fill 14 0; job 12; print 0; job 13; print 0; print 12; job 14; print 0; fill 13 0; cycle; fill 12 0; end idle; %pool; idle 18; close",
    },
    Case {
        name: "a choice of an ivar that is full, seven times in one list",
        words: &["run"],
        script: "proc Put v:num i:ivar; offer i v; end; proc Show2 v:num w:num; print v; print w; end; proc main; monitor g; detach g; within g Top; end; proc Top; ivar i1; bind d2 i1 Put i1; bind d3 i1 Show2 2; choose d4 i1 Put with i1; any d5 i1 d2 i1; offer i1 2; yield d6; upon i1 P4; bind d7 i1 Pass i1; event e8 d9 2; event e10 d11 3; after d12 2; abort e10; tick 1; upon i1 Show2 4; end; proc Pass v:num x:def; ret x; end; proc P4 v0:num; ivar i1; bind d2 i1 Pass i1; bind d3 i1 Show2 v0; choose d4 i1 Put i1 Put i1 Put i1 Put i1 Put i1 Put i1 Put with i1; offer i1 v0; ret d3; end",
        status: Status::Done,
        output: "enq 0 normal; cycle; job 0; monitor 1 0; detach 1; enq 1 normal; job 1; fill 0 2; enq 2 normal; enq 3 normal; enq 4 normal; enq 5 normal; enq 6 normal; enq 7 normal; enq 8 normal; fill 8 1; enq 9 normal; job 2; fill 1 0; enq 10 normal; job 3; print 2; print 2; fill 2 0; job 4; fill 3 0; job 5; fill 4 2; job 6; job 7; fill 10 2; enq 11 normal; enq 12 normal; enq 13 normal; enq 14 normal; enq 15 normal; enq 16 normal; enq 17 normal; enq 18 normal; enq 19 normal; job 8; fill 6 2; job 9; print 2; print 4; job 10; job 11; fill 11 2; job 12; print 2; print 2; fill 12 0; job 13; fill 13 0; job 14; job 15; job 16; job 17; job 18; job 19; cycle; fill 5 0; end idle; %pool; idle 22; close",
    },
    Case {
        name: "choices whose procedures raise errors",
        words: &["run"],
        script: "proc Late v:num; after r 1; tick 1; ret r; end; proc Top; after d1 1; ivar i2; ivar i3; choose d4 i3 Pass i3 Pass i3 Pass with i3; if 12 fill i3 0; upon i3 Late; yield d5; upon i3 Show; upon i3 Give; event e6 d7 3; after d8 1; event e9 d10 3; tick 0; upon i3 P1 4; upon i3 Show; if 2 abort e9; yield d11; yield d12; never d13; yield d14; any d15 i3 i3 d4; upon i3 Pass i3; choose d16 i3 P1 with 9; upon d7 Give; end; proc P1 v0:num v1:num; sched FailsBy v1; set n2 v1 = v1; ret 2; end; proc Show v:num; print v; end; proc Give v:num; ret v; end; proc main; monitor g; detach g; onerror g Show; within g Top; end; proc Pass v:num x:def; ret x; end; proc FailsBy v:num; raise v; end",
        status: Status::Done,
        output: "enq 0 normal; cycle; job 0; monitor 1 0; detach 1; enq 1 normal; job 1; fill 2 0; enq 2 normal; enq 3 normal; enq 4 normal; enq 5 normal; enq 6 normal; enq 7 normal; enq 8 normal; enq 9 normal; fill 7 1; enq 10 normal; enq 11 normal; enq 12 normal; enq 13 normal; job 2; fill 3 0; enq 14 normal; job 3; job 4; job 5; job 6; print 0; job 7; job 8; enq 15 normal; job 9; print 0; job 10; fill 12 0; job 11; job 12; job 13; enq 16 normal; fill 13 2; job 14; job 15; error 4 1; caught 1; enq 17 normal; job 16; error 9 1; caught 1; enq 18 normal; job 17; print 4; job 18; print 9; cycle; fill 4 0; fill 8 0; fill 9 0; fill 11 0; fill 0 0; fill 6 0; fill 14 0; end idle; %pool; idle 21; close",
    },
    Case {
        name: "all, any and choose together",
        words: &["run"],
        script: "proc Self; monitor c; send c 5; ret 2; end; proc P0 v0:num v1:num v2:def; upon v2 Pass v2; try d1 Self2 v2 else Show; set n3 v1 + v0; end; proc main; monitor g; detach g; onerror g Show; within g Top; end; proc Self2 d:def; monitor c; send c 5; send c 6; ret d; end; proc Show v:num; print v; end; proc Top; low Show 2; sched Show 12; low Show 2; sched Self; after d1 1; ivar i2; bind d3 i2 Show; bind d4 i2 Pass i2; choose d5 i2 P0 d3 P0 with 12 i2; any d6 i2 i2; all d7 i2 i2 i2 then Three; offer i2 1; print 4; yield d8; if 1 upon i2 Show; upon d8 Show; bind d9 d7 Pass d1; ret 2; end; proc Pass v:num x:def; ret x; end; proc Three v:num w:num x:num; set s v + w; set t s * x; ret t; end",
        status: Status::Done,
        output: "enq 0 normal; cycle; job 0; monitor 1 0; detach 1; enq 1 normal; job 1; enq 2 low; enq 3 normal; enq 4 low; enq 5 normal; fill 1 1; enq 6 normal; enq 7 normal; enq 8 normal; enq 9 normal; enq 10 normal; enq 11 normal; enq 12 normal; enq 13 normal; print 4; enq 14 normal; job 3; print 12; job 5; monitor 2 1; error 5 2; caught 1; enq 15 normal; job 6; print 1; fill 2 0; enq 16 normal; job 7; fill 3 1; job 8; enq 17 normal; monitor 3 1; detach 3; enq 18 normal; fill 4 0; job 9; fill 5 1; job 10; job 11; job 12; job 13; fill 6 2; enq 19 normal; job 14; print 1; job 15; print 5; job 16; job 17; job 18; monitor 4 3; error 5 4; caught 3; enq 20 normal; error 6 4; caught 3; rest 6; job 19; join 8 0; job 20; print 5; fill 9 0; job 2; print 2; job 4; print 2; cycle; fill 7 0; enq 21 normal; job 21; print 0; end idle; %pool; idle 24; close",
    },
    Case {
        name: "connections rename deferreds and args of groups",
        words: &["run"],
        script: "proc main; ivar g; ivar i; ivar k; bind a g P i; any q i; choose s i C a D with; all u k then E i; choose w k E with i; upon q O 1; upon s O 2; fill g 0; sched F k; end; proc P v:num i:ivar; ret i; end; proc C v:num; ret 1; end; proc D v:num; ret 2; end; proc E v:num i:ivar; offer i v; end; proc F k:ivar; fill k 5; end; proc O v:num w:num; print w; print v; end",
        status: Status::Done,
        output: "enq 0 normal; cycle; job 0; fill 0 0; enq 1 normal; enq 2 normal; job 1; join 3 1; job 2; fill 2 5; enq 3 normal; enq 4 normal; job 3; fill 3 5; enq 5 normal; enq 6 normal; enq 7 normal; fill 6 0; job 4; fill 7 0; job 5; fill 4 5; enq 8 normal; job 6; fill 5 1; enq 9 normal; job 7; job 8; print 1; print 5; job 9; print 2; print 1; end idle; %pool; idle 11; close",
    },
    Case {
        name: "connections rename results of groups",
        words: &["run"],
        script: "proc main; ivar g; ivar j; bind b g A j; bind c g B j; bind d g C j; upon b O 1; upon c O 2; upon d O 3; fill g 0; sched F j; end; proc A v:num j:ivar; all r j then T; ret r; end; proc B v:num j:ivar; any r j; ret r; end; proc C v:num j:ivar; choose r j T with; ret r; end; proc T x:num; ret x; end; proc F j:ivar; fill j 5; end; proc O v:num w:num; print w; print v; end",
        status: Status::Done,
        output: "enq 0 normal; cycle; job 0; fill 0 0; enq 1 normal; enq 2 normal; enq 3 normal; enq 4 normal; job 1; join 2 5; job 2; join 3 6; job 3; join 4 7; job 4; fill 1 5; enq 5 normal; enq 6 normal; enq 7 normal; job 5; fill 2 5; enq 8 normal; job 6; fill 3 5; enq 9 normal; job 7; fill 4 5; enq 10 normal; job 8; print 1; print 5; job 9; print 2; print 5; job 10; print 3; print 5; end idle; %pool; idle 12; close",
    },
    Case {
        name: "a choice leaves no handler behind",
        words: &["run"],
        script: "proc main; ivar a; ivar b; ivar c; any r a b c; upon b O; fill b 2; yield y; upon y F a c; end; proc F v:num a:ivar c:ivar; fill a 1; fill c 3; upon c O; end; proc O v:num; print v; end",
        status: Status::Done,
        output: "enq 0 normal; cycle; job 0; fill 1 2; enq 1 normal; enq 2 normal; job 1; fill 3 2; job 2; print 2; cycle; fill 4 0; enq 3 normal; job 3; fill 0 1; fill 2 3; enq 4 normal; job 4; print 3; end idle; %pool; idle 7; close",
    },
];

#[test]
fn choices_are_taken_as_the_language_says(rt: HostRuntime) -> Result<(), NoMemory> {
    assert_eq!(rt; first_wrong(&rt, rt.alloc(), &RUNS)?, None);
    Ok(())
}
