//! The same calls on the cells.

ghost use Rattle.std.specs.Prelude.{◌≡◌, ◌<◌, [], length, OnOk, IfOk};

use crate::call::{Answer, Call, Method, Wake};
use ak_base::list::NoMemory;
use ak_base::number::{Ctx, IvarNo, MonNo, Num, RegNo};
use ak_cells::cells::Cells;
use ak_cells::registration::Placed;
use ak_cells::steps::Steps;
use std::alloc::Global;
use std::sync::ledger::Ledger;

/// Cells of so many ivars, all empty.
pub fn drawn(alloc: Global, ivars: u32) -> Result<Cells<u32>, NoMemory>
    ensures ivars { IfOk result (λ cells. length cells.named.cells.ivars ≡ ivars) }
    ensures unwoken { IfOk result (λ cells. cells.named.woken ≡ []) }
{
    let mut cells = Cells::make(alloc);
    for _ in 0..ivars {
        cells.reserve(1, 0)?;
        let _ = cells.fresh();
    }
    Ok(cells)
}

/// What a call answers.
pub fn answer<L: Ledger>(
    cells: &mut Cells<u32>,
    call: Call,
    steps: &mut Steps<L>,
) -> Result<Answer, NoMemory>
    requires ivar { call.ivar < length cells.old.named.cells.ivars }
    requires right { call.right < length cells.old.named.cells.ivars }
    requires unwoken { cells.old.named.woken ≡ [] }
    ensures { OnOk result (length cells.new.named.cells.ivars
        ≡ length cells.old.named.cells.ivars) }
{
    let ivar = IvarNo::new(call.ivar);
    match call.method {
        Method::Register => register(cells, ivar, call.number, steps),
        Method::Unregister => {
            let frame = cells.unregister(RegNo::new(call.number));
            Ok(Answer::Unregistered(frame))
        }
        Method::Connect => {
            let connected = cells.connect(ivar, IvarNo::new(call.right), steps);
            Ok(Answer::Connected(connected))
        }
        Method::Fill => {
            let filled = cells.fill(ivar, call.number as Num, steps);
            Ok(Answer::Filled(filled.is_ok()))
        }
        Method::Name => {
            let name = cells.name(ivar, steps);
            Ok(Answer::Name(name.number()))
        }
        Method::Look => {
            let number = cells.look(ivar, steps);
            Ok(Answer::Number(number))
        }
    }
}

// A handler waits for an ivar.
fn register<L: Ledger>(
    cells: &mut Cells<u32>,
    ivar: IvarNo,
    frame: u32,
    steps: &mut Steps<L>,
) -> Result<Answer, NoMemory>
    requires { ivar < length cells.old.named.cells.ivars }
    ensures { OnOk result (length cells.new.named.cells.ivars
        ≡ length cells.old.named.cells.ivars) }
{
    let ctx = Ctx {
        mon: MonNo::new(0),
        low: false,
    };
    cells.reserve(0, 1)?;
    match cells.register(ivar, ctx, frame, steps) {
        Placed::Kept(reg) => Ok(Answer::Waits(reg.number())),
        Placed::Full { num, .. } => Ok(Answer::Full(num)),
    }
}

/// The handlers that the last call woke, oldest first. None is woken any more.
pub fn woken(alloc: Global, cells: &mut Cells<u32>) -> Result<Vec<Wake>, NoMemory>
    ensures ivars { OnOk result (cells.new.named.cells ≡ cells.old.named.cells) }
    ensures unwoken { OnOk result (cells.new.named.woken ≡ []) }
{
    let mut wakes = Vec::new(alloc);
    while let Some(woken) = cells.next_woken() {
        wakes.push((woken.num, woken.frame))?;
    }
    Ok(wakes)
}
