//! What single words of a row stand for. Each function answers `None` exactly where the word is none of its kind; a number
//! may have a minus and zeros in front, as long as its value lies in the range.

ghost use Rattle.std.specs.Prelude.{◌≡◌};
ghost use Rattle.ak_row.specs.Parts.{thing_of, long_of, count_of, signed_of, kind_of};

use ak_base::number::Num;
use ak_labor::work::WorkKind;
use ak_text::read::{read_num, read_u64};

/// The most times of a word that counts.
const MAX_COUNT: u32 = 1_000_000;

/// The number of a thing, from 0 to 4,294,967,295.
#[tactic(auto, using(crate::proofs::Numbers::thing_by_long))]
pub fn thing(word: &[u8]) -> Option<u32>
    ensures { result ≡ thing_of word.now }
{
    let number = long(word)?;
    u32::try_from(number).ok()
}

/// The number of a job or of a request, from 0 to 18,446,744,073,709,551,615.
pub fn long(word: &[u8]) -> Option<u64>
    ensures { result ≡ long_of word.now }
{
    read_u64(word)
}

/// How many times, from 1 to 1,000,000.
#[tactic(auto, using(crate::proofs::Numbers::count_by_thing))]
pub fn count(word: &[u8]) -> Option<u32>
    ensures { result ≡ count_of word.now }
{
    let count = thing(word)?;
    if count < 1 || count > MAX_COUNT {
        return None;
    }
    Some(count)
}

/// A number with a sign, an `i64`.
#[tactic(auto, using(crate::proofs::Numbers::signed_is))]
pub fn signed(word: &[u8]) -> Option<Num>
    ensures { result ≡ signed_of word.now }
{
    read_num(word)
}

/// What a work computes: `square`, `mix` or `fail`.
#[tactic(auto, unfolding(crate::specs::Parts::kind_of))]
pub fn kind(word: &[u8]) -> Option<WorkKind>
    ensures { result ≡ kind_of word.now }
{
    match word {
        b"square" => Some(WorkKind::Square),
        b"mix" => Some(WorkKind::Mix),
        b"fail" => Some(WorkKind::Fail),
        _ => None,
    }
}
