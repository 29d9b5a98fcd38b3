//! Random calls, and the story of four ivars.

ghost use Rattle.std.specs.Prelude.{◌≡◌, ◌<◌};

use crate::call::{Answer, Call, Method, Wake, any_call};
use crate::linked::{answer, drawn, woken};
use crate::plain::Plain;
use ak_base::list::NoMemory;
use ak_cells::registration::Connected;
use ak_cells::steps::Steps;
use rand_pcg::Pcg32;
use std::alloc::Global;
use std::marker::Brand;
use std::process::Abort;
use std::sync::ledger::{Blank, Ledger};

/// The first of so many random calls on so many ivars that the two bodies answer differently, or that wakes others.
fn first_difference<L: Ledger>(
    alloc: Global,
    random: &mut Pcg32,
    ivars: u32,
    calls: u32,
    blank: Blank,
) -> Result<Option<Call>, NoMemory>
    requires ivars { 0 < ivars }
    requires name { blank.name ≡ L.name }
    requires parts { blank.parts ≡ L.parts }
    requires some { 0 < blank.parts }
{
    let mut steps = Steps::<L>::new(blank);
    let mut linked = drawn(alloc, ivars)?;
    let mut plain = Plain::new(alloc, ivars)?;
    for _ in 0..calls {
        let call = any_call(random, ivars);
        let answered = answer(&mut linked, call, &mut steps)?;
        let wakes = woken(alloc, &mut linked)?;
        if answered != plain.answer(call)? || wakes != plain.woken {
            return Ok(Some(call));
        }
    }
    Ok(None)
}

#[test]
fn plain_cells_answer_alike(rt: HostRuntime) -> Result<(), NoMemory> {
    let mut random = Pcg32::new(42, 54);
    for ivars in [1, 2, 4, 8, 16, 32, 64] {
        for story in 0..10 {
            let difference = first_difference::<Brand>(
                rt.alloc(),
                &mut random,
                ivars,
                100,
                Blank::new(1),
            )?;
            assert_eq!(rt; difference, None, "in story {story} of {ivars} ivars");
        }
    }
    Ok(())
}

/// The first call of a story that is answered otherwise than told, or that wakes others.
fn first_wrong<L: Ledger>(
    rt: &impl Abort,
    alloc: Global,
    story: &[(Call, Answer, &[Wake])],
    blank: Blank,
) -> Result<Option<Call>, NoMemory>
    requires name { blank.name ≡ L.name }
    requires parts { blank.parts ≡ L.parts }
    requires some { 0 < blank.parts }
{
    let mut steps = Steps::<L>::new(blank);
    let mut cells = drawn(alloc, 4)?;
    for (call, told, wakes) in story {
        assert!(rt; call.ivar < 4 && call.right < 4);
        let answered = answer(&mut cells, *call, &mut steps)?;
        let woke = woken(alloc, &mut cells)?;
        if answered != *told || woke.as_slice() != *wakes {
            return Ok(Some(*call));
        }
    }
    Ok(None)
}

// A call with its ivar, its right side and its number.
fn call(method: Method, ivar: u32, right: u32, number: u32) -> Call {
    Call {
        method,
        ivar,
        right,
        number,
    }
}

#[test]
fn four_ivars_are_connected(rt: HostRuntime) -> Result<(), NoMemory> {
    use Answer::{Connected as Met, Filled, Name, Unregistered, Waits};
    use Method::{Connect, Fill, Register, Unregister};
    let story: [(Call, Answer, &[Wake]); 13] = [
        (call(Register, 0, 0, 10), Waits(0), &[]),
        (call(Register, 1, 0, 11), Waits(1), &[]),
        (call(Register, 2, 0, 12), Waits(2), &[]),
        (call(Connect, 1, 0, 0), Met(Connected::Joined), &[]),
        (call(Connect, 2, 1, 0), Met(Connected::Joined), &[]),
        (call(Method::Name, 0, 0, 0), Name(2), &[]),
        (call(Register, 0, 0, 13), Waits(3), &[]),
        (call(Unregister, 0, 0, 1), Unregistered(Some(11)), &[]),
        (call(Unregister, 0, 0, 1), Unregistered(None), &[]),
        (
            call(Fill, 0, 0, 5),
            Filled(true),
            &[(5, 10), (5, 12), (5, 13)],
        ),
        (call(Connect, 2, 0, 0), Met(Connected::Same), &[]),
        (call(Connect, 3, 0, 0), Met(Connected::Filled(5)), &[]),
        (call(Connect, 3, 1, 0), Met(Connected::ResultFull), &[]),
    ];
    let wrong = first_wrong::<Brand>(&rt, rt.alloc(), &story, Blank::new(1))?;
    assert_eq!(rt; wrong, None);
    Ok(())
}
