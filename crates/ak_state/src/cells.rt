//! Calls of the ivars whose steps nobody counts.

ghost use Rattle.std.specs.Prelude.{◌≡◌, ◌-◌, ◌<◌, ◌^◌, [], length, None, OnOk, OnErr, IsOk, ◌↔◌};
ghost use Rattle.ak_cells.specs.Rooms.{name_of, number_of, registered, placed_at, unregistered_named, filled_named, connected, connection_of};

use ak_base::number::{Ctx, IvarNo, Num, RegNo};
use ak_cells::cells::Cells;
use ak_cells::registration::{Connected, FullAlready, Placed};
use ak_cells::steps::Steps;
use ak_frames::frame::Frame;
use std::marker::Brand;
use std::sync::ledger::{Blank, Ledger};

fn name_by<L: Ledger>(cells: &mut Cells<Frame>, i: IvarNo, blank: Blank) -> IvarNo
    requires ledger { blank.name ≡ L.name }
    requires parts { blank.parts ≡ L.parts }
    requires some { 0 < blank.parts }
    requires drawn { i < length cells.old.named.cells.ivars }
    ensures name { result ≡ name_of i cells.old.named }
    ensures drawn { result < length cells.old.named.cells.ivars }
    ensures same { cells.new ≡ cells.old }
{
    cells.name(i, &mut Steps::<L>::new(blank))
}

/// The surviving name of a number that was drawn.
pub fn name(cells: &mut Cells<Frame>, i: IvarNo) -> IvarNo
    requires { i < length cells.old.named.cells.ivars }
    ensures name { result ≡ name_of i cells.old.named }
    ensures drawn { result < length cells.old.named.cells.ivars }
    ensures same { cells.new ≡ cells.old }
{
    name_by::<Brand>(cells, i, Blank::new(1))
}

fn look_by<L: Ledger>(cells: &mut Cells<Frame>, i: IvarNo, blank: Blank) -> Option<Num>
    requires ledger { blank.name ≡ L.name }
    requires parts { blank.parts ≡ L.parts }
    requires some { 0 < blank.parts }
    requires drawn { i < length cells.old.named.cells.ivars }
    ensures number { result ≡ number_of i cells.old.named }
    ensures same { cells.new ≡ cells.old }
{
    cells.look(i, &mut Steps::<L>::new(blank))
}

/// What an ivar that was drawn is full with: `None` exactly where it is empty.
pub fn look(cells: &mut Cells<Frame>, i: IvarNo) -> Option<Num>
    requires { i < length cells.old.named.cells.ivars }
    ensures number { result ≡ number_of i cells.old.named }
    ensures same { cells.new ≡ cells.old }
{
    look_by::<Brand>(cells, i, Blank::new(1))
}

fn register_by<L: Ledger>(
    cells: &mut Cells<Frame>,
    i: IvarNo,
    ctx: &Ctx,
    frame: Frame,
    blank: Blank,
) -> Placed<Frame>
    requires ledger { blank.name ≡ L.name }
    requires parts { blank.parts ≡ L.parts }
    requires some { 0 < blank.parts }
    requires drawn { i < length cells.old.named.cells.ivars }
    requires room { 0 < cells.old.spare_handlers }
    requires numbers { cells.old.named.cells.next < 2 ^ 32 - 1 }
    ensures placed { result ≡ placed_at (number_of i cells.old.named) frame cells.old.named.cells }
    ensures named { cells.new.named ≡ registered i ctx.now frame cells.old.named }
{
    cells.register(i, *ctx, frame, &mut Steps::<L>::new(blank))
}

/// Has a handler wait for an ivar that was drawn and is empty, or gives the frame back with the number.
pub fn register(cells: &mut Cells<Frame>, i: IvarNo, ctx: &Ctx, frame: Frame) -> Placed<Frame>
    requires drawn { i < length cells.old.named.cells.ivars }
    requires room { 0 < cells.old.spare_handlers }
    requires numbers { cells.old.named.cells.next < 2 ^ 32 - 1 }
    ensures placed { result ≡ placed_at (number_of i cells.old.named) frame cells.old.named.cells }
    ensures named { cells.new.named ≡ registered i ctx.now frame cells.old.named }
{
    register_by::<Brand>(cells, i, ctx, frame, Blank::new(1))
}

/// The handler of that number waits no longer.
pub fn unregister(cells: &mut Cells<Frame>, registration: RegNo)
    ensures { cells.new.named ≡ unregistered_named registration cells.old.named }
{
    let _frame = cells.unregister(registration);
}

fn fill_by<L: Ledger>(
    cells: &mut Cells<Frame>,
    i: IvarNo,
    num: Num,
    blank: Blank,
) -> Result<(), FullAlready>
    requires ledger { blank.name ≡ L.name }
    requires parts { blank.parts ≡ L.parts }
    requires some { 0 < blank.parts }
    requires drawn { i < length cells.old.named.cells.ivars }
    requires unwoken { cells.old.named.woken ≡ [] }
    ensures empty { IsOk result ↔ (number_of i cells.old.named ≡ None) }
    ensures ok { OnOk result (cells.new.named ≡ filled_named i num cells.old.named) }
    ensures full { OnErr result (cells.new.named ≡ cells.old.named) }
{
    cells.fill(i, num, &mut Steps::<L>::new(blank))
}

/// Fills an ivar that was drawn, while no handler is woken; it is refused exactly where it is full.
pub fn fill(cells: &mut Cells<Frame>, i: IvarNo, num: Num) -> Result<(), FullAlready>
    requires drawn { i < length cells.old.named.cells.ivars }
    requires unwoken { cells.old.named.woken ≡ [] }
    ensures empty { IsOk result ↔ (number_of i cells.old.named ≡ None) }
    ensures ok { OnOk result (cells.new.named ≡ filled_named i num cells.old.named) }
    ensures full { OnErr result (cells.new.named ≡ cells.old.named) }
{
    fill_by::<Brand>(cells, i, num, Blank::new(1))
}

fn connect_by<L: Ledger>(cells: &mut Cells<Frame>, r: IvarNo, s: IvarNo, blank: Blank) -> Connected
    requires ledger { blank.name ≡ L.name }
    requires parts { blank.parts ≡ L.parts }
    requires some { 0 < blank.parts }
    requires result_drawn { r < length cells.old.named.cells.ivars }
    requires right_drawn { s < length cells.old.named.cells.ivars }
    requires unwoken { cells.old.named.woken ≡ [] }
    ensures connection { result ≡ connection_of r s cells.old.named }
    ensures named { cells.new.named ≡ connected r s cells.old.named }
{
    cells.connect(r, s, &mut Steps::<L>::new(blank))
}

/// Connects a result with a right side, both drawn, while no handler is woken.
pub fn connect(cells: &mut Cells<Frame>, r: IvarNo, s: IvarNo) -> Connected
    requires result_drawn { r < length cells.old.named.cells.ivars }
    requires right_drawn { s < length cells.old.named.cells.ivars }
    requires unwoken { cells.old.named.woken ≡ [] }
    ensures connection { result ≡ connection_of r s cells.old.named }
    ensures named { cells.new.named ≡ connected r s cells.old.named }
{
    connect_by::<Brand>(cells, r, s, Blank::new(1))
}
