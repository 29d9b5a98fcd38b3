//! Works that go through a hub: a scheduler hands them in and fetches them, and its threads carry them by hands.

ghost use Rattle.std.specs.Prelude.{◌≡◌, ◌≤◌, ◌+◌, ◌<◌, ◌-◌, ◌^◌, [], length, count_by, OnOk};
ghost use Rattle.std.specs.Thread.{IsSync};
ghost use Rattle.ak_history.specs.Events.{is_submit};
ghost use Rattle.ak_pool.specs.Pools.{IsOpen};
ghost use Rattle.ak_hub.specs.Calls.{SomeOutstanding};
ghost use Rattle.ak_hub.specs.Hubs.{IsPassOf, IsGivenBack, IsFreshZero, seen_by};
ghost use Rattle.ak_crew.specs.Crews.{AreUnused};
ghost use Rattle.ak_crew.specs.Workers.{AreAtRest};

use ak_base::list::NoMemory;
use ak_base::number::WorkNo;
use ak_crew::crew::make_passes;
use ak_crew::worker::work_all;
use ak_history::event::History;
use ak_hub::hub::{Hub, HubPass};
use ak_labor::labor::{Labor, plain_hands};
use ak_labor::work::{Arrivals, Outcome, Work, WorkKind};
use std::alloc::{AllocError, Global};
use std::sync::Wait;
use std::test::*;
use std::thread::{Threads, join};

/// What works leave: what was fetched of them, the history, and how many hands came back.
#[derive(Drop)]
pub struct Served {
    pub arrived: Vec<(WorkNo, Outcome)>,
    pub history: History,
    pub hands: usize,
}

/// Hands in one work more, for any thread, which is then outstanding.
pub fn hand_in<R: Wait>(
    rt: &R,
    hub: &Hub,
    pass: &mut HubPass,
    work: Work,
) -> Result<WorkNo, NoMemory>
    requires pass { IsPassOf hub.now 0 pass.old }
    requires open { IsOpen (seen_by pass.old) }
    requires few { count_by is_submit (seen_by pass.old) < 2 ^ 32 - 1 }
    ensures pass { IsGivenBack hub.now 0 pass.old pass.new }
    ensures open { IsOpen (seen_by pass.new) }
    ensures few { count_by is_submit (seen_by pass.new)
        ≤ count_by is_submit (seen_by pass.old) + 1 }
    ensures some { OnOk result (SomeOutstanding hub.now.askers (seen_by pass.new)) }
{
    match hub.submit(rt, pass, work, None) {
        Ok(id) => Ok(id),
        Err(_) => Err(AllocError),
    }
}

/// Fetches the finished works.
pub fn fetch<R: Wait>(
    rt: &R,
    hub: &Hub,
    pass: &mut HubPass,
    fetched: &mut Arrivals,
) -> Result<(), NoMemory>
    requires pass { IsPassOf hub.now 0 pass.old }
    requires open { IsOpen (seen_by pass.old) }
    ensures pass { IsGivenBack hub.now 0 pass.old pass.new }
    ensures open { IsOpen (seen_by pass.new) }
    ensures same { count_by is_submit (seen_by pass.new) ≡ count_by is_submit (seen_by pass.old) }
{
    match hub.drain(rt, pass, fetched) {
        Ok(()) => Ok(()),
        Err(_) => Err(AllocError),
    }
}

// Puts the works that were fetched behind the others.
fn put_behind(arrived: &mut Vec<(WorkNo, Outcome)>, fetched: &Arrivals) -> Result<(), NoMemory> {
    for place in 0..fetched.len() {
        if let Some(pair) = fetched.get(place) {
            arrived.push(*pair)?;
        }
    }
    Ok(())
}

// Waits until a work is finished, and fetches the finished works.
fn fetch_some<R: Wait>(
    rt: &R,
    hub: &Hub,
    pass: &mut HubPass,
    fetched: &mut Arrivals,
) -> Result<(), NoMemory>
    requires pass { IsPassOf hub.now 0 pass.old }
    requires open { IsOpen (seen_by pass.old) }
    requires some { SomeOutstanding hub.now.askers (seen_by pass.old) }
    ensures pass { IsGivenBack hub.now 0 pass.old pass.new }
    ensures open { IsOpen (seen_by pass.new) }
    ensures same { count_by is_submit (seen_by pass.new) ≡ count_by is_submit (seen_by pass.old) }
{
    hub.wait_owed(rt, pass);
    fetch(rt, hub, pass, fetched)
}

// Hands in each work, waits behind every other one, and fetches all.
fn hand_in_all<R: Wait>(
    rt: &R,
    alloc: Global,
    hub: &Hub,
    pass: &mut HubPass,
    works: &[Work],
) -> Result<Vec<(WorkNo, Outcome)>, NoMemory>
    requires pass { IsFreshZero hub.now pass.old }
    requires few { length works.now < 2 ^ 32 - 1 }
    ensures pass { IsGivenBack hub.now 0 pass.old pass.new }
    ensures open { IsOpen (seen_by pass.new) }
{
    let mut arrived = Vec::with_capacity(alloc, works.len())?;
    for place in 0..works.len() {
        hand_in(rt, hub, pass, works[place])?;
        if place % 2 == 1 {
            let mut fetched = Arrivals::make(alloc);
            fetch_some(rt, hub, pass, &mut fetched)?;
            put_behind(&mut arrived, &fetched)?;
        }
    }
    for _ in rt.forever() {
        if arrived.len() >= works.len() {
            return Ok(arrived);
        }
        let mut fetched = Arrivals::make(alloc);
        fetch(rt, hub, pass, &mut fetched)?;
        put_behind(&mut arrived, &fetched)?;
    }
    unreachable!()
}

// The same, and closes the pool then.
fn schedule<R: Wait>(
    rt: &R,
    alloc: Global,
    hub: &Hub,
    mut pass: HubPass,
    works: &[Work],
) -> (Result<Vec<(WorkNo, Outcome)>, NoMemory>, HubPass)
    requires pass { IsFreshZero hub.now pass }
    requires few { length works.now < 2 ^ 32 - 1 }
    ensures { IsPassOf hub.now 0 result.1 }
{
    let answer = hand_in_all(rt, alloc, hub, &mut pass, works);
    hub.close(rt, &mut pass);
    (answer, pass)
}

// The scheduler and the threads side by side.
fn serve_all<L: Labor + Drop, R: Threads + Wait + Sync>(
    rt: &R,
    alloc: Global,
    hub: &Hub,
    zero: HubPass,
    hands: Vec<L>,
    passes: Vec<HubPass>,
    works: &[Work],
) -> (
    (Vec<L>, Vec<HubPass>),
    (Result<Vec<(WorkNo, Outcome)>, NoMemory>, HubPass),
)
    requires zero { IsFreshZero hub.now zero }
    requires few { length works.now < 2 ^ 32 - 1 }
    requires count { (length passes.items ≤ hub.now.threads) × (hub.now.threads ≤ 32) }
    requires rest { AreAtRest L.carried hub.now 0 hands.items passes.items }
    ensures rest { AreAtRest L.carried hub.now 0 result.0.0.items result.0.1.items }
    ensures zero { IsPassOf hub.now 0 result.1.1 }
{
    join(
        rt,
        move || -> (Vec<L>, Vec<HubPass>)
            requires { IsSync R.row × (length passes.items ≤ hub.now.threads)
                × (hub.now.threads ≤ 32) × AreAtRest L.carried hub.now 0 hands.items passes.items }
            ensures { AreAtRest L.carried hub.entry.now 0 result.0.items result.1.items }
        { work_all(rt, hub, hands, passes) },
        move || -> (Result<Vec<(WorkNo, Outcome)>, NoMemory>, HubPass)
            requires { IsFreshZero hub.now zero × (length works.now < 2 ^ 32 - 1) }
            ensures { IsPassOf hub.entry.now 0 result.1 }
        { schedule(rt, alloc, hub, zero, works) },
    )
}

/// What the works leave that go through a hub of so many threads, each with the hand at its place.
pub fn serve<L: Labor + Drop, R: Threads + Wait + Sync>(
    rt: &R,
    alloc: Global,
    threads: u32,
    hands: Vec<L>,
    works: &[Work],
) -> Result<Served, NoMemory>
    requires threads { (1 ≤ threads) × (threads ≤ 32) }
    requires hands { AreUnused L.carried threads hands.items }
    requires few { length works.now < 2 ^ 32 - 1 }
{
    let (hub, mut zero) = Hub::make(alloc, threads, 0)?;
    let passes = make_passes(alloc, &hub, &mut zero, threads)?;
    let ((hands, mut passes), (arrived, zero)) = serve_all(
        rt, alloc, &hub, zero, hands, passes, works,
    );
    let arrived = arrived?;
    passes.push(zero)?;
    match hub.dissolve(passes) {
        Ok(history) => Ok(Served {
            arrived,
            history,
            hands: hands.len(),
        }),
        Err(_) => Err(AllocError),
    }
}

// Whether each of the works, whose numbers count from 0, arrived once, with its square.
fn are_squares(arrived: &[(WorkNo, Outcome)], works: i64) -> bool {
    for num in 0..works {
        let mut found = false;
        for (id, outcome) in arrived {
            if i64::from(id.number()) == num {
                if found || *outcome != Outcome::Good(num.wrapping_mul(num)) {
                    return false;
                }
                found = true;
            }
        }
        if !found {
            return false;
        }
    }
    true
}

#[test]
fn threads_carry_the_works(rt: HostRuntime) -> Result<(), Fail> {
    let alloc = rt.alloc();
    let mut works = [Work {
        kind: WorkKind::Square,
        num: 0,
    }; 200];
    for (num, work) in works.iter_mut().enumerate() {
        work.num = num as i64;
    }
    for threads in [1u32, 2, 4] {
        let hands = plain_hands(alloc, threads)?;
        let served = serve(&rt, alloc, threads, hands, &works)?;
        assert_eq!(rt; served.arrived.len(), 200);
        assert!(rt; are_squares(served.arrived.as_slice(), 200));
        assert_eq!(rt; served.hands, threads as usize);
    }
    Ok(())
}
