//! Calls on cells, and their answers.

ghost use Rattle.std.specs.Prelude.{◌<◌};

use ak_base::number::Num;
use ak_cells::registration::Connected;
use rand_core::utils::NextWord;
use rand_pcg::Pcg32;

/// What is called.
#[derive(Clone, Copy, PartialEq, Eq, Debug)]
pub enum Method {
    Register,
    Unregister,
    Connect,
    Fill,
    Name,
    Look,
}

/// A call. Of its numbers each method takes what it needs: `ivar` is the ivar or the result, `right` the right side of a
/// connection, and `number` the frame of a handler, the number of a registration, or that of a fill.
#[derive(Clone, Copy, PartialEq, Eq, Debug)]
pub struct Call {
    pub method: Method,
    pub ivar: u32,
    pub right: u32,
    pub number: u32,
}

/// What a call answers.
#[derive(Clone, Copy, PartialEq, Eq, Debug)]
pub enum Answer {
    Waits(u32),
    Full(Num),
    Unregistered(Option<u32>),
    Connected(Connected),
    Filled(bool),
    Name(u32),
    Number(Option<Num>),
}

/// A handler that was woken: the number that woke it, and its frame.
pub type Wake = (Num, u32);

/// A number below another.
fn pick(random: &mut Pcg32, limit: u32) -> u32
    requires { 0 < limit }
    ensures { result < limit }
{
    random.next_word() % limit
}

/// A random call on so many ivars. Half of the calls register a handler, and one in sixteen fills an ivar.
pub fn any_call(random: &mut Pcg32, ivars: u32) -> Call
    requires { 0 < ivars }
    ensures ivar { result.ivar < ivars }
    ensures right { result.right < ivars }
{
    let method = match pick(random, 16) {
        0..=6 => Method::Register,
        7..=8 => Method::Unregister,
        9..=12 => Method::Connect,
        13 => Method::Fill,
        14 => Method::Name,
        _ => Method::Look,
    };
    Call {
        method,
        ivar: pick(random, ivars),
        right: pick(random, ivars),
        number: pick(random, 100),
    }
}
