//! Scripts that are run again over a history.

use crate::commands::{Case, first_wrong};
use ak_base::list::NoMemory;
use ak_history::event::Event;
use ak_labor::ask::Ask;
use ak_top::status::Status;
use std::test::*;

const REPLAYS: [Case; 14] = [
    Case {
        name: "a run is replayed over its history",
        words: &["replay"],
        script: "proc main; ivar i; upon i A 1; fill i 5; upon i A 2; print 0; end; proc A v:num w:num; print v; print w; end; %pool; idle 4; close",
        status: Status::Done,
        output: "enq 0 normal; cycle; job 0; fill 0 5; enq 1 normal; enq 2 normal; print 0; job 1; print 5; print 1; job 2; print 5; print 2; end idle; %pool; idle 4; close",
    },
    Case {
        name: "runs of drains in several lines, a comment, and blank lines",
        words: &["replay"],
        script: "proc main; ivar i; upon i A 1; fill i 5; upon i A 2; print 0; end; proc A v:num w:num; print v; print w; end; %pool # the pool; idle 1; ; idle 003; close # the end",
        status: Status::Done,
        output: "enq 0 normal; cycle; job 0; fill 0 5; enq 1 normal; enq 2 normal; print 0; job 1; print 5; print 1; job 2; print 5; print 2; end idle; %pool; idle 4; close",
    },
    Case {
        name: "a history with a drain too many",
        words: &["replay"],
        script: "proc main; ivar i; upon i A 1; fill i 5; upon i A 2; print 0; end; proc A v:num w:num; print v; print w; end; %pool; idle 5; close",
        status: Status::Stray {
            place: 4,
            asked: Ask::Close,
            kept: Event::Close,
        },
        output: "",
    },
    Case {
        name: "a history without its last call",
        words: &["replay"],
        script: "proc main; ivar i; upon i A 1; fill i 5; upon i A 2; print 0; end; proc A v:num w:num; print v; print w; end; %pool; idle 4",
        status: Status::Short { asked: Ask::Close },
        output: "",
    },
    Case {
        name: "a history that ends at once",
        words: &["replay"],
        script: "proc main; ivar i; upon i A 1; fill i 5; upon i A 2; print 0; end; proc A v:num w:num; print v; print w; end; %pool",
        status: Status::Short { asked: Ask::Drain },
        output: "",
    },
    Case {
        name: "no line is the pool's",
        words: &["replay"],
        script: "proc main; ivar i; upon i A 1; fill i 5; upon i A 2; print 0; end; proc A v:num w:num; print v; print w; end",
        status: Status::BadHistory { line: 12 },
        output: "",
    },
    Case {
        name: "a bad line in front of a second close",
        words: &["replay"],
        script: "proc main; ivar i; upon i A 1; fill i 5; upon i A 2; print 0; end; proc A v:num w:num; print v; print w; end; %pool; idle 0; close; close",
        status: Status::BadHistory { line: 13 },
        output: "",
    },
    Case {
        name: "an event behind the close in front of a bad line",
        words: &["replay"],
        script: "proc main; ivar i; upon i A 1; fill i 5; upon i A 2; print 0; end; proc A v:num w:num; print v; print w; end; %pool; close; close; stop",
        status: Status::BadHistory { line: 14 },
        output: "",
    },
    Case {
        name: "a second line of the pool",
        words: &["replay"],
        script: "proc main; ivar i; upon i A 1; fill i 5; upon i A 2; print 0; end; proc A v:num w:num; print v; print w; end; %pool; %pool; close",
        status: Status::BadHistory { line: 13 },
        output: "",
    },
    Case {
        name: "a thread that there is not",
        words: &["replay", "--threads", "1"],
        script: "proc main; ivar i; upon i A 1; fill i 5; upon i A 2; print 0; end; proc A v:num w:num; print v; print w; end; %pool; helper 0 granted 1; close",
        status: Status::BadHistory { line: 13 },
        output: "",
    },
    Case {
        name: "a fault of the script in front of one of the history",
        words: &["replay"],
        script: "proc main; prints 0; end; %pool; stop",
        status: Status::Refused { line: 2, kind: 1 },
        output: "",
    },
    Case {
        name: "a script without a procedure main",
        words: &["replay"],
        script: "%pool; close",
        status: Status::Refused { line: 0, kind: 5 },
        output: "",
    },
    Case {
        name: "a run that ends at the limit of jobs",
        words: &["replay", "--jobs", "2"],
        script: "proc main; ivar i; upon i A 1; fill i 5; upon i A 2; print 0; end; proc A v:num w:num; print v; print w; end; %pool; idle 3; close",
        status: Status::Jobs,
        output: "enq 0 normal; cycle; job 0; fill 0 5; enq 1 normal; enq 2 normal; print 0; job 1; print 5; print 1; end jobs; %pool; idle 3; close",
    },
    Case {
        name: "settings are words of a replay",
        words: &["replay", "--seed", "1"],
        script: "proc main; ivar i; upon i A 1; fill i 5; upon i A 2; print 0; end; proc A v:num w:num; print v; print w; end; %pool; idle 4; close",
        status: Status::Usage { place: 1 },
        output: "",
    },
];

#[test]
fn replays_are_told(rt: HostRuntime) -> Result<(), NoMemory> {
    assert_eq!(rt; first_wrong(&rt, rt.alloc(), &REPLAYS)?, None);
    Ok(())
}
