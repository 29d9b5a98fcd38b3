//! Texts of scripts, and what is wrong with those that are none.

use crate::case::case_of;
use ak_syntax::parse::parse;
use ak_syntax::refusal::ParseRefused;
use std::alloc::{AllocError, Global};

/// The line of the fault and its kind, both 0 for a script.
fn fault_of(alloc: Global, text: &[u8]) -> Result<(u32, u8), AllocError> {
    match parse(alloc, text) {
        Ok(_script) => Ok((0, 0)),
        Err(ParseRefused::At { line, kind }) => Ok((line, kind)),
        Err(ParseRefused::NoMemory) => Err(AllocError),
    }
}

/// A row to a line, as `case_of` reads it.
const ROWS: &str = "00 proc main;set x a + b;end
00 proc main;set x 1 != -2;end
00 proc main;set x 1 - 2;end
21 proc main;set x a ++ b;end
21 proc main;set x a +;end
21 proc main;set 1 a + b;end
21 proc main;set x a + b c;end
24 proc main;set x 5x - 2;end
24 proc main;set x - - 2;end
00 proc main;print 7;end
21 proc main;print;end
21 proc main;print 1 2;end
21 proc main;print +1;end
24 proc main;print 5x;end
24 proc main;print -;end
24 proc main;print 1-;end
00 proc main;print -0;end
00 proc main;print 007;end
00 proc main;print 9223372036854775807;end
24 proc main;print 9223372036854775808;end
00 proc main;print -9223372036854775808;end
24 proc main;print -9223372036854775809;end
24 proc main;print 99999999999999999999;end
00 proc main;print print;end
21 proc main;print then;end
21 proc main;print a.b;end
00 proc main;raise -3;end
21 proc main;raise a b;end
00 proc main;ret a;end
21 proc main;ret;end
00 proc main;stop;end
21 proc main;stop 1;end
00 proc main;ivar i;end
21 proc main;ivar;end
21 proc main;ivar 5x;end
21 proc main;ivar else;end
00 proc main;fill i 5;end
21 proc main;fill 5 5;end
21 proc main;fill i;end
21 proc main;fill 5x 6y;end
24 proc main;fill i 6y;end
00 proc main;offer i a;end
21 proc main;offer i;end
00 proc main;upon d P;end
00 proc main;upon d P 1 2 3 4 5 6 7 8;end
23 proc main;upon d P 1 2 3 4 5 6 7 8 9;end
21 proc main;upon d P 1 2 3 4 5 6 7 8 9 !;end
23 proc main;upon d P 1 2 3 4 5 6 7 8 9x;end
24 proc main;upon d P 1 2 3 4 5 6 7 8x;end
21 proc main;upon d;end
00 proc main;bind r d P a;end
21 proc main;bind r d;end
23 proc main;bind r d P a a a a a a a a a;end
00 proc main;yield r;end
21 proc main;yield r s;end
00 proc main;never r;end
21 proc main;never 0;end
00 proc main;all r a b then P 1;end
00 proc main;all r a b c d e f g h then P 1 2 3 4 5 6 7 8;end
23 proc main;all r a b c d e f g h i then P;end
23 proc main;all r a then P 1 2 3 4 5 6 7 8 9;end
21 proc main;all r then P;end
21 proc main;all r a b P 1;end
21 proc main;all r a then;end
21 proc main;all r 5 then P;end
00 proc main;any r a;end
00 proc main;any r a b c d e f g h;end
23 proc main;any r a b c d e f g h i;end
21 proc main;any r;end
21 proc main;any r a then;end
00 proc main;choose r a A b B with 1;end
00 proc main;choose r a A with;end
21 proc main;choose r with 1;end
21 proc main;choose r a A b with;end
21 proc main;choose r a A;end
23 proc main;choose r a A a A a A a A a A a A a A a A a A with;end
23 proc main;choose r a A with 1 2 3 4 5 6 7 8 9;end
24 proc main;choose r a A with 1x;end
00 proc main;sched P;end
21 proc main;sched;end
21 proc main;sched 5;end
00 proc main;low P a;end
23 proc main;low P 1 2 3 4 5 6 7 8 9;end
21 proc main;low P a else;end
00 proc main;after r 5;end
21 proc main;after r;end
24 proc main;after r 5m;end
00 proc main;event e q 5;end
21 proc main;event e 5;end
00 proc main;abort e;end
21 proc main;abort 1;end
00 proc main;tick -1;end
21 proc main;tick x y;end
00 proc main;monitor m;end
21 proc main;monitor m n;end
00 proc main;within m P;end
21 proc main;within m;end
00 proc main;detach m;end
21 proc main;detach;end
00 proc main;onerror m H 1;end
21 proc main;onerror m;end
00 proc main;nexterr r m;end
21 proc main;nexterr r;end
00 proc main;send m 5;end
21 proc main;send m;end
00 proc main;try r P else Q;end
00 proc main;try r P 1 else Q 2;end
21 proc main;try r P Q;end
21 proc main;try r P else;end
21 proc main;try r P else Q else R;end
23 proc main;try r P 1 2 3 4 5 6 7 8 9 else Q;end
23 proc main;try r P else Q 1 2 3 4 5 6 7 8 9;end
00 proc main;throttle t 1 stop;end
00 proc main;throttle t 1000000 go;end
24 proc main;throttle t 0 go;end
24 proc main;throttle t 1000001 go;end
24 proc main;throttle t -1 go;end
24 proc main;throttle t 1x stop;end
21 proc main;throttle t x go;end
21 proc main;throttle t 1 halt;end
21 proc main;throttle t 0 halt;end
00 proc main;enqueue r t P 1;end
21 proc main;enqueue r t;end
00 proc main;tdone r t;end
21 proc main;tdone r;end
00 proc main;pipe p 0;end
00 proc main;pipe p -0;end
00 proc main;pipe p 1000000;end
24 proc main;pipe p 1000001;end
24 proc main;pipe p -1;end
21 proc main;pipe p;end
00 proc main;write r p 1;end
21 proc main;write r p;end
00 proc main;put p 1;end
21 proc main;put p;end
00 proc main;rd r p P else Q;end
21 proc main;rd r p P;end
21 proc main;rd r p else Q;end
00 proc main;close p;end
21 proc main;close;end
00 proc main;closeread p;end
21 proc main;closeread p q;end
00 proc main;flushed r p;end
21 proc main;flushed r;end
00 proc main;work r square 3;end
21 proc main;work r cube 3;end
24 proc main;work r fail 3x;end
00 proc main;helper h x;end
21 proc main;helper h;end
00 proc main;hwork r h mix 1;end
21 proc main;hwork r h mix;end
00 proc main;hdone h;end
21 proc main;hdone;end
00 proc main;if a print 1;end
00 proc main;unless 0 stop;end
21 proc main;if 1 ivar i;end
21 proc main;unless 1 event e q 5;end
21 proc main;if a if b print 1;end
21 proc main;if a;end
21 proc main;if then print 1;end
21 proc main;if 1 proc;end
24 proc main;if 5x print 1;end
21 proc main;if 5x ivar i;end
24 proc main;if 1 print 5x;end
23 proc main;unless 5x low P 1 2 3 4 5 6 7 8 9;end
21 proc main;foo;end
21 proc main;Print 1;end
21 proc main;proc A;end
00 proc main;print\t1;end
00 proc main;\tprint 1 # \x01é;end
00 proc main;# é;end
21 proc main;print 1 \x01;end
21 proc main;\x7f;end
21 proc main;print 5x é;end
00 proc main;print 1#a#\x01;end
21 proc main;print\r 1;end
00 proc main;ivar aaaaaaaaaaaaaaaaaaaaaaaaaaaaaaaa;end
21 proc main;ivar aaaaaaaaaaaaaaaaaaaaaaaaaaaaaaaaa;end
00 proc main;ivar _9;end
21 proc main;ivar 9_;end
00 
00 # no line
00 proc main;print 7;end;
00 proc main;print 7;end
00 proc main\r;print 7\r;end\r;
00 proc main\r;print 7\r;end\r
21 proc main
21 proc main;
31 proc main;print 1
31 proc main;\r
31 proc main;# c;
11 end
11 print 1
31 proc main;end;end
21 proc main;proc main;end
21 proc main;end x;end
44 # c;;proc main;print 5x;print;end
41 # c;;proc main;print;print 5x;end
51 proc main;;;end # x;\x01
00 proc main v:num w:ivar a:def b:mon c:pipe d:thr e:event f:helper;end
13 proc main a:num b:num c:num d:num e:num f:num g:num h:num i:num;end
11 proc main a:num b:num c:num d:num e:num f:num g:num h:num i;end
11 proc main a:num:num;end
11 proc main :num;end
11 proc main v:nums;end
11 proc;end
11 proc then;end
11 proc 5x;end
00 proc end;end;proc proc;end;proc print;end
24 proc main;print 99999999999999999999;end
21 proc main;if 1 ivar i;end
00 async 2;proc main;end
00 # c;;async 2 # c;proc main;end
11 async 3;proc main;end
11 async -0;proc main;end
11 async 1000001;proc main;end
21 async 2;async 2;proc main;end
31 proc main;end;async 2
21 proc main;try r P else Q rest raise;end
00 async 2;proc main;try r P else Q rest raise;end
00 async 2;proc main;try r P 1 else Q 2 rest raise;end
31 async 2;proc main;try r P else Q rest;end
31 async 2;proc main;try r P else Q rest drop;end";

#[test]
fn first_faults_of_texts(rt: HostRuntime) -> Result<(), AllocError> {
    for row in ROWS.split('\n') {
        let case = case_of(rt.alloc(), row)?;
        assert_eq!(rt; fault_of(rt.alloc(), &case.text)?, case.fault, "{row}");
    }
    Ok(())
}

/// The head, the line a number of times, and the tail.
fn repeated(
    alloc: Global,
    head: &str,
    line: &str,
    count: u32,
    tail: &str,
) -> Result<Vec<u8>, AllocError> {
    let mut text = Vec::from_slice(alloc, head.as_bytes())?;
    for _ in 0..count {
        text.extend_from_slice(line.as_bytes())?;
    }
    text.extend_from_slice(tail.as_bytes())?;
    Ok(text)
}

const MAIN: &str = "proc main\n";

const EIGHT: &str = "proc main a:num b:num c:num d:num e:num f:num g:num h:num\n";

const EVENT: &str = "event e q 5\n";

const EMPTY: &str = "proc a\nend\n";

#[test]
fn limits(rt: HostRuntime) -> Result<(), AllocError> {
    for (head, line, count, tail, fault) in [
        (MAIN, "print 1\n", 64, "end\n", (0, 0)),
        (MAIN, "print 1\n", 65, "end\n", (66, 3)),
        (MAIN, "print 1\n", 64, "print 5x\nend\n", (66, 3)),
        (MAIN, "print 1\n", 64, "print\nend\n", (66, 1)),
        (EIGHT, "ivar i\n", 56, "end\n", (0, 0)),
        (EIGHT, "ivar i\n", 57, "end\n", (58, 3)),
        (EIGHT, "ivar i\n", 55, "event e q 5\nend\n", (57, 3)),
        (MAIN, EVENT, 32, "end\n", (0, 0)),
        (MAIN, EVENT, 33, "end\n", (34, 3)),
        ("", EMPTY, 4096, "", (0, 0)),
        ("", EMPTY, 4097, "", (8193, 3)),
        ("", EMPTY, 4096, "proc a v\n", (8193, 1)),
        ("", "#", 1_048_576, "", (0, 0)),
        ("", "#", 1_048_577, "", (0, 2)),
        ("foo\n", "#", 1_048_576, "", (0, 2)),
    ] {
        let text = repeated(rt.alloc(), head, line, count, tail)?;
        assert_eq!(rt; fault_of(rt.alloc(), &text)?, fault, "{count} times {line}");
    }
    Ok(())
}
