//! Scripts that are run again over a history with requests from outside.

use crate::commands::{Case, first_wrong};
use ak_base::list::NoMemory;
use ak_top::status::Status;
use std::test::*;

const REQUESTS: [Case; 6] = [
    Case {
        name: "a request is answered",
        words: &["replay", "--askers", "1"],
        script: "proc main; end; proc ask v:num; set w v + 1; ret w; end; %pool; idle 2; request 0 0 5; drain requests 0; idle 1; answered 0 6; idle 1; askerend 0; idle 1; close",
        status: Status::Done,
        output: "enq 0 normal; cycle; job 0; cycle; request 0 5 0; enq 1 normal; job 1; fill 0 6; enq 2 normal; job 2; answer 0 6; cycle; end idle; %pool; idle 2; request 0 0 5; drain requests 0; idle 1; answered 0 6; idle 1; askerend 0; idle 1; close",
    },
    Case {
        name: "a request that is never answered",
        words: &["replay", "--askers", "1"],
        script: "proc main; end; proc ask v:num; never r; ret r; end; %pool; idle 2; request 0 0 0; drain requests 0; idle 1; close",
        status: Status::Done,
        output: "enq 0 normal; cycle; job 0; cycle; request 0 0 0; enq 1 normal; job 1; join 0 1; end idle; %pool; idle 2; request 0 0 0; drain requests 0; idle 1; close",
    },
    Case {
        name: "an answer to a request that was not fetched",
        words: &["replay", "--askers", "1"],
        script: "proc main; end; proc ask v:num; set w v + 1; ret w; end; %pool; idle 2; request 0 0 5; answered 0 6",
        status: Status::BadHistory { line: 10 },
        output: "",
    },
    Case {
        name: "a script without a procedure for its askers",
        words: &["replay", "--askers", "1"],
        script: "proc main; end; %pool; stop",
        status: Status::Refused { line: 0, kind: 11 },
        output: "",
    },
    Case {
        name: "no askers need no procedure",
        words: &["replay", "--askers", "0"],
        script: "proc main; end; %pool; stop",
        status: Status::BadHistory { line: 4 },
        output: "",
    },
    Case {
        name: "a run has no askers",
        words: &["run", "--askers", "1"],
        script: "proc main; end",
        status: Status::Usage { place: 1 },
        output: "",
    },
];

#[test]
fn requests_are_told(rt: HostRuntime) -> Result<(), NoMemory> {
    assert_eq!(rt; first_wrong(&rt, rt.alloc(), &REQUESTS)?, None);
    Ok(())
}
