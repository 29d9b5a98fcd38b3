//! Scripts whose texts are right, and the first faults of their names.

use crate::case::case_of;
use ak_syntax::parse::parse;
use ak_syntax::refusal::ParseRefused;
use ak_valid::refusal::ValidRefused;
use ak_valid::validate::validate;
use std::alloc::{AllocError, Global};

/// The line of the first fault and its kind, both 0 where there is none.
fn fault_of(alloc: Global, text: &[u8]) -> Result<(u32, u8), AllocError> {
    match parse(alloc, text) {
        Ok(script) => match validate(alloc, script) {
            Ok(_program) => Ok((0, 0)),
            Err(ValidRefused::At { line, kind }) => Ok((line, kind)),
            Err(ValidRefused::NoMemory) => Err(AllocError),
        },
        Err(ParseRefused::At { line, kind }) => Ok((line, kind)),
        Err(ParseRefused::NoMemory) => Err(AllocError),
    }
}

// Rows to a line, as `case_of` reads them: `main` is there, and is bare.
const MAINS: &str = "05 
05 # nothing
00 proc main;end
05 proc a;end
05 proc a;end;proc a;end
05 proc a;print x;end
19 proc main v:num;end
27 proc a;print x;end;proc main v:num;end
36 proc main;end;proc main v:num;end";

// Names that are given twice.
const TWICE: &str = "36 proc main;ivar i;ivar i;end
36 proc main;end;proc main;end
16 proc p v:num v:num;end;proc main;end
26 proc p v:num;ivar v;end;proc main;end
26 proc main;helper h h;end
26 proc main;event e e 1;end
36 proc main;event e d 1;never e;end
00 proc main;set x 1 + 1;end;proc p;set x 1 + 1;end
00 proc main;ivar main;fill main 1;end
29 proc main;sched p 1;end;proc p;end;proc p v:num;end
66 proc main;sched p;end;proc p;end;proc p v:num;end";

// Names that are nowhere, or not yet.
const NOWHERE: &str = "27 proc main;print x;end
27 proc main;set x x + 1;end
27 proc main;print x;set x 1 + 1;end
57 proc main;set x 1 + 1;end;proc p;print x;end
27 proc main;sched p;end
00 proc main;sched p;end;proc p;end
00 proc main;sched main;end
27 proc main;sched p x;end;proc p;end
37 proc main;never d;choose r d p d q with;end;proc p v:num;end
27 proc main;try r p else q;end;proc p;end
27 proc main;unless x print 1;end
00 proc p v:num;print v;if v print 1;end;proc main;end";

// Names of another kind.
const KINDS: &str = "38 proc main;never r;fill r 1;end
00 proc main;ivar i;upon i p;end;proc p v:num;end
00 proc main;ivar i;sched p i;end;proc p d:def;end
38 proc main;never d;sched p d;end;proc p i:ivar;end
28 proc main;sched p 1;end;proc p d:def;end
38 proc main;set x 1 + 1;upon x p;end;proc p v:num;end
38 proc main;ivar i;print i;end
38 proc main;ivar i;if i print 1;end
00 proc main;never d;ret d;end
00 proc main;ivar i;ret i;end
38 proc main;monitor m;ret m;end
38 proc main;ivar m;detach m;end
38 proc main;pipe t 1;tdone r t;end
38 proc main;throttle p 1 go;put p 1;end
38 proc main;never e;abort e;end
38 proc main;never h;hdone h;end
38 proc main;monitor m;any r m;end
38 proc main;never d;upon d p;end;proc p d:def;end
00 proc p m:mon t:thr q:pipe e:event h:helper;send m 1;tdone r t;close q;abort e;hwork s h mix 1;end;proc main;end
00 proc main;helper h x;print x;hwork r h fail x;upon r p x;end;proc p v:num w:num;end";

// Counts of values, with those in front.
const COUNTS: &str = "29 proc main;sched main 1;end
39 proc main;never d;upon d p;end;proc p;end
39 proc main;never d;bind r d p 1;end;proc p v:num;end
29 proc main;low p;end;proc p v:num;end
00 proc main;never a;never b;all r a b then p 1;end;proc p x:num y:num z:num;end
49 proc main;never a;never b;all r a b then p 1;end;proc p x:num y:num;end
48 proc main;never a;never b;all r a b then p;end;proc p x:num y:def;end
39 proc main;never d;choose r d p d q with 1;end;proc p v:num w:num;end;proc q v:num;end
00 proc main;never d;choose r d p d q with 1;end;proc p v:num w:num;end;proc q v:num w:num;end
00 proc main;try r p else q;end;proc p;end;proc q e:num;end
29 proc main;try r p else q;end;proc p v:num;end;proc q e:num;end
29 proc main;try r p else p;end;proc p;end
00 proc main;pipe c 1;rd r c p else q;end;proc p v:num;end;proc q;end
39 proc main;pipe c 1;rd r c p else p;end;proc p v:num;end
49 proc main;monitor m;onerror m p;within m p;end;proc p e:num;end
00 proc main;throttle t 1 stop;enqueue r t p 1 2;end;proc p v:num w:num;end";

// Several faults: the first line, and the least kind.
const SEVERAL: &str = "36 proc main;ivar r;bind r x p;end;proc p v:num;end
37 proc main;ivar i;send i x;end
38 proc main;ivar i;sched p i 1;end;proc p v:num;end
27 proc main;print x;ivar i;ivar i;end
29 proc main;sched p 1;end;proc p;print x;end
27 proc main;sched q x;end
38 proc main;never d;sched p d d;end;proc p v:num;end";

#[test]
fn first_faults_of_names(rt: HostRuntime) -> Result<(), AllocError> {
    for rows in [MAINS, TWICE, NOWHERE, KINDS, COUNTS, SEVERAL] {
        for row in rows.split('\n') {
            let case = case_of(rt.alloc(), row)?;
            assert_eq!(rt; fault_of(rt.alloc(), &case.text)?, case.fault, "{row}");
        }
    }
    Ok(())
}

/// Whether the program of a row's text serves requests, and by which procedure.
fn ask_of(alloc: Global, row: &str) -> Result<(bool, Option<usize>), AllocError> {
    let case = case_of(alloc, row)?;
    let script = parse(alloc, &case.text).map_err(|_refused| AllocError)?;
    let program = validate(alloc, script).map_err(|_refused| AllocError)?;
    Ok((program.has_ask(), program.ask()))
}

#[test]
fn requests_are_served_by_ask(rt: HostRuntime) -> Result<(), AllocError> {
    for (row, ask) in [
        (
            "00 proc main;end;proc ask v:num;set w v + 1;ret w;end",
            Some(1),
        ),
        ("00 proc ask v:num;ret v;end;proc main;end", Some(0)),
        (
            "00 proc main;sched ask 1;end;proc b;end;proc ask n:num;end",
            Some(2),
        ),
        ("00 proc main;end;proc ask v:num w:num;end", None),
        ("00 proc main;end;proc ask;end", None),
        ("00 proc main;end;proc ask d:def;end", None),
        ("00 proc main;end;proc ask i:ivar;end", None),
        ("00 proc main;end;proc tell v:num;end", None),
        ("00 proc main;end", None),
    ] {
        assert_eq!(rt; ask_of(rt.alloc(), row)?, (ask.is_some(), ask), "{row}");
    }
    Ok(())
}

#[test]
fn main_by_its_place(rt: HostRuntime) -> Result<(), AllocError> {
    let script = parse(rt.alloc(), b"proc a\nend\nproc main\nend\n").map_err(
        |_refused| AllocError,
    )?;
    let program = validate(rt.alloc(), script).map_err(|_refused| AllocError)?;
    assert_eq!(rt; program.main(), 1);
    Ok(())
}
