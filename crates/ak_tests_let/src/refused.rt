//! Texts that are no source: the first line with a fault, and the least kind of its faults.

use crate::compiled::lines;
use ak_base::list::NoMemory;
use ak_let_script::compile::compile;
use ak_let_syntax::refusal::LetRefused;
use std::alloc::Global;

// What is wrong, the text, and the line and the kind of its fault.
#[derive(Drop)]
struct Case {
    name: &'static str,
    text: &'static str,
    line: u32,
    kind: u8,
}

// Whether the text is refused by this line and kind.
fn is_refused(alloc: Global, text: &[u8], line: u32, kind: u8) -> bool {
    match compile(alloc, text) {
        Err(
            LetRefused::At {
                line: at,
                kind: found,
            },
        ) => at == line && found == kind,
        _ => false,
    }
}

// The name of the first case that goes otherwise.
fn first_wrong(alloc: Global, cases: &[Case]) -> Result<Option<&'static str>, NoMemory> {
    for case in cases {
        let text = lines(alloc, case.text)?;
        if !is_refused(alloc, text.as_slice(), case.line, case.kind) {
            return Ok(Some(case.name));
        }
    }
    Ok(None)
}

const FORMS: [Case; 14] = [
    Case {
        name: "a text that ends inside a function",
        text: "fun main; print 1",
        line: 3,
        kind: 31,
    },
    Case {
        name: "a function inside a function",
        text: "fun main; fun f; end; end",
        line: 2,
        kind: 31,
    },
    Case {
        name: "a line outside of a function",
        text: "print 1",
        line: 1,
        kind: 31,
    },
    Case {
        name: "an end outside of a function",
        text: "fun main; end; end",
        line: 3,
        kind: 31,
    },
    Case {
        name: "work as a name",
        text: "fun main; let work = 1; end",
        line: 2,
        kind: 31,
    },
    Case {
        name: "work as an argument",
        text: "fun main; await x = main work; end",
        line: 2,
        kind: 31,
    },
    Case {
        name: "a word that scripts keep as a name",
        text: "fun main; let rest = 1; end",
        line: 2,
        kind: 31,
    },
    Case {
        name: "an unknown work",
        text: "fun main; await x = work cube 3; end",
        line: 2,
        kind: 31,
    },
    Case {
        name: "a try without what takes the error",
        text: "fun main; try x = main; end",
        line: 2,
        kind: 31,
    },
    Case {
        name: "a condition before a line that binds",
        text: "fun main; when 1 let x = 2; end",
        line: 2,
        kind: 31,
    },
    Case {
        name: "a byte that may not stand there",
        text: "fun main; print 1 \u{e9}; end",
        line: 2,
        kind: 31,
    },
    Case {
        name: "a number of 65 bits",
        text: "fun main; print 9223372036854775808; end",
        line: 2,
        kind: 37,
    },
    Case {
        name: "a word that only begins as a number",
        text: "fun main; print 5x; end",
        line: 2,
        kind: 37,
    },
    Case {
        name: "a line without a form, with a bad number",
        text: "fun main; let 5x = 6y; end",
        line: 2,
        kind: 31,
    },
];

const COUNTS: [Case; 6] = [
    Case {
        name: "eight parameters",
        text: "fun f a b c d e g h i; end",
        line: 1,
        kind: 36,
    },
    Case {
        name: "an eighth local",
        text: "fun f a b c d e g h; let i = 1; end",
        line: 2,
        kind: 36,
    },
    Case {
        name: "an eighth binding, of a name that was bound before",
        text: "fun f a b c d e g h; let a = 1; end",
        line: 2,
        kind: 36,
    },
    Case {
        name: "an eighth local beside a bad number",
        text: "fun f a b c d e g h; let i = 5x; end",
        line: 2,
        kind: 36,
    },
    Case {
        name: "a sixteenth line",
        text: "fun main; print 1; print 2; print 3; print 4; print 5; print 6; print 7; print 8; print 9; print 10; print 11; print 12; print 13; print 14; print 15; print 16; end",
        line: 17,
        kind: 36,
    },
    Case {
        name: "a fault of the grammar behind one of names",
        text: "fun main; print x; end; fun f; print 5x; end",
        line: 5,
        kind: 37,
    },
];

const NAMES: [Case; 14] = [
    Case {
        name: "no function",
        text: "",
        line: 0,
        kind: 32,
    },
    Case {
        name: "no main, and an unknown name",
        text: "fun f; print x; end",
        line: 0,
        kind: 32,
    },
    Case {
        name: "a function named twice",
        text: "fun main; end; fun main; end",
        line: 3,
        kind: 33,
    },
    Case {
        name: "a parameter named twice",
        text: "fun main; end; fun f a a; end",
        line: 3,
        kind: 33,
    },
    Case {
        name: "a parameter bound again",
        text: "fun main; end; fun f a; let a = 1; end",
        line: 4,
        kind: 33,
    },
    Case {
        name: "a local bound twice, by one that is unknown",
        text: "fun main; let x = 1; let x = y; end",
        line: 3,
        kind: 33,
    },
    Case {
        name: "a local on the line that binds it",
        text: "fun main; let x = x; end",
        line: 2,
        kind: 34,
    },
    Case {
        name: "a local of another function",
        text: "fun main; end; fun f a; end; fun g; print a; end",
        line: 6,
        kind: 34,
    },
    Case {
        name: "an unknown function",
        text: "fun main; await x = sq 3; end",
        line: 2,
        kind: 34,
    },
    Case {
        name: "nothing known takes the error, and an argument is missing",
        text: "fun main; try x = f else g; end; fun f a; end",
        line: 2,
        kind: 34,
    },
    Case {
        name: "an argument too many",
        text: "fun main; await x = f 1; end; fun f; end",
        line: 2,
        kind: 35,
    },
    Case {
        name: "nine arguments",
        text: "fun main; await x = f 1 2 3 4 5 6 7 8 9; end; fun f; end",
        line: 2,
        kind: 35,
    },
    Case {
        name: "two parameters for an error",
        text: "fun main; try x = f else g; end; fun f; end; fun g a b; end",
        line: 2,
        kind: 35,
    },
    Case {
        name: "main with a parameter",
        text: "fun f; end; fun main n; end",
        line: 3,
        kind: 35,
    },
];

#[test]
fn texts_without_a_form_are_refused(rt: HostRuntime) -> Result<(), NoMemory> {
    assert_eq!(rt; first_wrong(rt.alloc(), &FORMS)?, None);
    Ok(())
}

#[test]
fn counts_over_their_limit_are_refused(rt: HostRuntime) -> Result<(), NoMemory> {
    assert_eq!(rt; first_wrong(rt.alloc(), &COUNTS)?, None);
    Ok(())
}

#[test]
fn faults_of_names_are_refused(rt: HostRuntime) -> Result<(), NoMemory> {
    assert_eq!(rt; first_wrong(rt.alloc(), &NAMES)?, None);
    Ok(())
}

#[test]
fn more_functions_than_the_limit_are_refused(rt: HostRuntime) -> Result<(), NoMemory> {
    let alloc = rt.alloc();
    let mut text = lines(alloc, "fun main; end")?;
    for k in 1..128u32 {
        let function = format!(in alloc; "fun f{k}\nend\n")?;
        text.extend_from_slice(function.as_bytes())?;
    }
    assert!(rt; compile(alloc, text.as_slice()).is_ok());
    text.extend_from_slice(b"fun last\nend\n")?;
    assert!(rt; is_refused(alloc, text.as_slice(), 257, 36));
    Ok(())
}
