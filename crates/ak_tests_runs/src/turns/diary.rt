//! A diary, in which each pass writes lines under its own number, and number 0 alone writes headings.
ghost use Rattle.std.specs.Prelude.{◌≡◌, ◌<◌, [], ◌∷◌, ◌++◌, length, IsTrue, true, false, MatchBool};
ghost use Rattle.ak_turn.specs.Seen.{IsIdleOf};

use ak_base::list::Items;
use ak_turn::guarded::Guarded;
use ak_turn::lock::{Pass, Turn};
use std::alloc::{AllocError, Global};
use std::sync::Wait;
use std::test::*;
use std::thread;
use std::thread::Threads;

/// A line: who wrote it, its place among the writer's own, and whether it is a heading.
#[derive(Clone, Copy, Drop)]
struct Line {
    by: u32,
    place: u32,
    heading: bool,
}

/// The lines so far, and for how many writers the diary is.
#[derive(Drop)]
struct Diary {
    lines: Items<Line>,
    writers: usize,
}

impl Guarded for Diary {
    ghost use Rattle.std.specs.Prelude.{◌≡◌, length, IsTrue};

    type Event = Line;

    ghost log = { λ d. d.lines };

    ghost may = { λ n line. (line.by ≡ n) × (IsTrue line.heading → n ≡ 0) };

    ghost fits = { λ d numbers. d.writers ≡ length numbers };

    fn length(&self) -> u64 {
        self.lines.len() as u64
    }
}

// Writes a line, and says whether there was memory for it.
fn write<R: Wait>(rt: &R, turn: &Turn<Diary>, pass: &mut Pass<Diary>, line: Line) -> bool
    requires turn { IsIdleOf turn.now pass.old }
    requires line { (line.by ≡ pass.old.number) × (IsTrue line.heading → pass.old.number ≡ 0) }
    ensures turn { IsIdleOf turn.now pass.new × (pass.new.number ≡ pass.old.number)
        × (pass.new.spare ≡ pass.old.spare) }
    ensures mine { MatchBool result (pass.new.mine ≡ pass.old.mine ++ line ∷ [])
        (pass.new.mine ≡ pass.old.mine) }
{
    let mut held = turn.enter(rt, pass);
    let written = held.value_mut().lines.push(line).is_ok();
    turn.leave(pass, held);
    written
}

// Writes as many lines, and gives the pass back.
fn write_all<R: Wait>(
    rt: &R,
    turn: &Turn<Diary>,
    mut pass: Pass<Diary>,
    by: u32,
    lines: u32,
) -> Pass<Diary>
    requires { IsIdleOf turn.now pass × (pass.number ≡ by) }
    ensures { IsIdleOf turn.now result × (result.spare ≡ pass.spare) }
{
    for place in 0..lines {
        write(
            rt,
            turn,
            &mut pass,
            Line {
                by,
                place,
                heading: false,
            },
        );
    }
    pass
}

// Two threads write as many lines each.
fn write_both<R: Threads + Wait + Sync>(
    rt: &R,
    turn: &Turn<Diary>,
    one: (Pass<Diary>, u32),
    other: (Pass<Diary>, u32),
    lines: u32,
) -> (Pass<Diary>, Pass<Diary>)
    requires one { IsIdleOf turn.now one.0 × (one.0.number ≡ one.1) }
    requires other { IsIdleOf turn.now other.0 × (other.0.number ≡ other.1) }
    ensures one { IsIdleOf turn.now result.0 × (result.0.spare ≡ one.0.spare) }
    ensures other { IsIdleOf turn.now result.1 × (result.1.spare ≡ other.0.spare) }
{
    thread::join(
        rt,
        move || -> Pass<Diary>
            requires { IsIdleOf turn.now one.0 × (one.0.number ≡ one.1) }
            ensures { IsIdleOf turn.entry.now result × (result.spare ≡ one.0.spare) }
        {
            let (pass, by) = one;
            write_all(rt, turn, pass, by, lines)
        },
        move || -> Pass<Diary>
            requires { IsIdleOf turn.now other.0 × (other.0.number ≡ other.1) }
            ensures { IsIdleOf turn.entry.now result × (result.spare ≡ other.0.spare) }
        {
            let (pass, by) = other;
            write_all(rt, turn, pass, by, lines)
        },
    )
}

// Four threads write as many lines each; the lines of the diary then.
fn write_four<R: Threads + Wait + Sync>(
    rt: &R,
    alloc: Global,
    lines: u32,
) -> Result<Vec<Line>, AllocError> {
    let diary = Diary {
        lines: Items::make(alloc),
        writers: 4,
    };
    let Ok((turn, mut zero)) = Turn::make(alloc, diary, &[0, 1, 2, 3]) else {
        return Err(AllocError);
    };
    let one = turn.pass(&mut zero);
    let two = turn.pass(&mut zero);
    let three = turn.pass(&mut zero);
    let shared = &turn;
    let ((zero, one), (two, three)) = thread::join(
        rt,
        move || -> (Pass<Diary>, Pass<Diary>)
            requires { IsIdleOf shared.now zero × (zero.number ≡ 0) × IsIdleOf shared.now one
                × (one.number ≡ 1) }
            ensures { IsIdleOf shared.entry.now result.0 × IsIdleOf shared.entry.now result.1 }
        { write_both(rt, shared, (zero, 0), (one, 1), lines) },
        move || -> (Pass<Diary>, Pass<Diary>)
            requires { IsIdleOf shared.now two × (two.number ≡ 2) × IsIdleOf shared.now three
                × (three.number ≡ 3) }
            ensures { IsIdleOf shared.entry.now result.0 × IsIdleOf shared.entry.now result.1 }
        { write_both(rt, shared, (two, 2), (three, 3), lines) },
    );
    let passes = vec![in alloc; zero, one, two, three]?;
    match turn.dissolve(passes) {
        Ok(Diary { lines, writers: _ }) => Ok(lines.into_vec()),
        Err(_) => Err(AllocError),
    }
}

#[test]
fn four_threads_write_in_their_own_order(rt: HostRuntime) -> Result<(), Fail> {
    let lines = write_four(&rt, rt.alloc(), 10_000)?;
    assert_eq!(rt; lines.len(), 40_000);
    let mut places = [0u32; 4];
    for line in lines.iter() {
        let by = line.by as usize;
        assert!(rt; by < 4 && places[by] == line.place);
        places[by] = line.place.wrapping_add(1);
    }
    assert_eq!(rt; places, [10_000; 4]);
    Ok(())
}

#[test]
fn number_0_writes_a_heading(rt: HostRuntime) -> Result<(), Fail> {
    let alloc = rt.alloc();
    let diary = Diary {
        lines: Items::make(alloc),
        writers: 1,
    };
    let Ok((turn, mut zero)) = Turn::make(alloc, diary, &[0]) else {
        return Err(AllocError)?;
    };
    let heading = Line {
        by: 0,
        place: 0,
        heading: true,
    };
    assert!(rt; write(&rt, &turn, &mut zero, heading));
    let Ok(diary) = turn.dissolve(vec![in alloc; zero]?) else {
        return Err(AllocError)?;
    };
    assert_eq!(rt; diary.lines.len(), 1);
    assert!(rt; diary.lines.get(0).is_some_and(|line| line.heading));
    Ok(())
}
