//! Numbers as they are written and read, works, and the words of a row.

use ak_base::number::{No, OfWork};
use ak_labor::labor::{Labor, Plain};
use ak_labor::work::{Outcome, Work, WorkKind};
use ak_row::line::counts;
use ak_row::row::Row;
use ak_row::word::{count, kind, long, signed, thing};
use ak_text::decimal::{write_num, write_u64};
use ak_text::text::lines;
use std::test::Fail;

#[test]
fn numbers_are_written_plainly(rt: HostRuntime) {
    let mut out = [0; 20];
    for (n, text) in [
        (0, "0"),
        (-7, "-7"),
        (100, "100"),
        (i64::MAX, "9223372036854775807"),
        (i64::MIN, "-9223372036854775808"),
    ] {
        let len = write_num(n, &mut out);
        assert_eq!(rt; &out[..len], text.as_bytes(), "{n}");
    }
    let len = write_u64(u64::MAX, &mut out);
    assert_eq!(rt; &out[..len], b"18446744073709551615".as_slice());
}

#[test]
fn plain_gives_the_values(rt: HostRuntime) -> Result<(), Fail> {
    let rows = [
        (WorkKind::Square, 3, Outcome::Good(9)),
        (
            WorkKind::Square,
            3_037_000_499,
            Outcome::Good(9_223_372_030_926_249_001),
        ),
        (WorkKind::Square, 3_037_000_500, Outcome::Bad(-8)),
        (WorkKind::Square, i64::MIN, Outcome::Bad(-8)),
        (WorkKind::Mix, 0, Outcome::Good(0)),
        (WorkKind::Mix, 1, Outcome::Good(1_817_669_548)),
        (WorkKind::Mix, -1, Outcome::Bad(-8)),
        (WorkKind::Mix, 1_000_001, Outcome::Bad(-8)),
        (WorkKind::Fail, -7, Outcome::Bad(-7)),
    ];
    for (kind, num, outcome) in rows {
        let mut hand = Plain::make();
        assert_eq!(rt; hand.carry(&Work { kind, num }), outcome, "{kind:?} {num}");
    }
    Ok(())
}

#[test]
fn words_at_the_edges_of_their_ranges(rt: HostRuntime) {
    for (word, number) in [
        ("0", Some(0)),
        ("-0", Some(0)),
        ("007", Some(7)),
        ("4294967295", Some(u32::MAX)),
        ("4294967296", None),
        ("-1", None),
        ("+1", None),
        ("1x", None),
        ("-", None),
    ] {
        assert_eq!(rt; thing(word.as_bytes()), number, "{word}");
    }
    for (word, number) in [
        ("18446744073709551615", Some(u64::MAX)),
        ("18446744073709551616", None),
        ("4294967296", Some(4294967296)),
    ] {
        assert_eq!(rt; long(word.as_bytes()), number, "{word}");
    }
    for (word, number) in [
        ("0", None),
        ("1", Some(1)),
        ("01000000", Some(1_000_000)),
        ("1000001", None),
        ("4294967296", None),
    ] {
        assert_eq!(rt; count(word.as_bytes()), number, "{word}");
    }
    for (word, number) in [
        ("9223372036854775807", Some(i64::MAX)),
        ("9223372036854775808", None),
        ("-9223372036854775808", Some(i64::MIN)),
        ("-9223372036854775809", None),
    ] {
        assert_eq!(rt; signed(word.as_bytes()), number, "{word}");
    }
    assert_eq!(rt; kind(b"mix"), Some(WorkKind::Mix));
    assert_eq!(rt; kind(b"Mix"), None);
}

// The number of a work and its outcome, as all words of a line.
fn arrival(row: &mut Row) -> Option<(No<OfWork>, Outcome)> {
    let work = row.number()?;
    let outcome = row.outcome()?;
    row.end()?;
    Some((work, outcome))
}

#[test]
fn words_are_taken_in_order(rt: HostRuntime) {
    let text = b"3 good -4\n 3\tbad 5 # x\n\n#\xff\n3 good\n3 good 4 5\n3 well 4\n3 good \xff4";
    let mut read = lines(text).filter(|line| counts(line)).map(|line| (
        line.number(),
        Row::of(&line).and_then(|mut row| arrival(&mut row)),
    ));
    let three = No::new(3);
    for (line, found) in [
        (1, Some((three, Outcome::Good(-4)))),
        (2, Some((three, Outcome::Bad(5)))),
        (5, None),
        (6, None),
        (7, None),
        (8, None),
    ] {
        assert_eq!(rt; read.next(), Some((line, found)), "line {line}");
    }
    assert_eq!(rt; read.next(), None);
}
