//! Reading a source.

ghost use Rattle.std.specs.Prelude.{◌≡◌, ◌<◌, ◌≤◌, [], length, IfOk, IfErr, IfSome};
ghost use Rattle.ak_base.specs.Streams.{Rose, with_front};
ghost use Rattle.ak_reading.specs.Reading.{Had, Began, IsRead, IsRefusal, read_bytes};

use ak_base::list::NoMemory;
use ak_base::source::{ReadFailed, Source};
use std::alloc::{AllocError, Global};

/// The most bytes that a script may have.
pub const SCRIPT_LIMIT: usize = 1_048_576;

/// The most bytes that a source of `replay` may have: a script and a history.
pub const RECORD_LIMIT: usize = 67_108_864;

// How many bytes one read has room for.
const ROOM: usize = 4096;

/// What was read: the whole source, or its first bytes, which are more than the limit.
#[derive(Debug, Drop)]
pub enum Text {
    Whole(Vec<u8>),
    TooLong(Vec<u8>),
}

impl Text {
    /// The bytes that were read.
    pub fn bytes(&self) -> &[u8]
        ensures { result.now ≡ read_bytes self.now }
    {
        match self {
            Text::Whole(bytes) => bytes.as_slice(),
            Text::TooLong(bytes) => bytes.as_slice(),
        }
    }
}

/// Why a source was not read to its end or its limit.
#[derive(Clone, Copy, PartialEq, Eq, Debug)]
pub enum ReadError {
    Failed,
    NoMemory,
}

impl From<AllocError> for ReadError {
    ghost use Rattle.std.specs.Prelude.{◌≡◌};
    ghost use Rattle.ak_reading.specs.declared.reading.ReadError.TheVariants.{NoMemory};

    ghost from_gives = { λ _ e. e ≡ NoMemory };

    fn from(_error: AllocError) -> ReadError {
        ReadError::NoMemory
    }
}

impl From<ReadFailed> for ReadError {
    ghost use Rattle.std.specs.Prelude.{◌≡◌};
    ghost use Rattle.ak_reading.specs.declared.reading.ReadError.TheVariants.{Failed};

    ghost from_gives = { λ _ e. e ≡ Failed };

    fn from(_error: ReadFailed) -> ReadError {
        ReadError::Failed
    }
}

/// Reads a source to its end, to a failed read, or until it gave one byte more than `limit`, which is less than
/// 4,294,967,295. Each read has room for a byte at least.
pub fn read_source<S: Source>(
    alloc: Global,
    source: &mut S,
    limit: usize,
) -> Result<Text, ReadError>
    requires { limit < 4294967295 }
    ensures read { IfOk result (IsRead limit (S.left source.old)) }
    ensures failed { IfErr result (IsRefusal (S.faults source.old) (S.faults source.new)) }
    ensures never_falls { S.faults source.old ≤ S.faults source.new }
{
    let mut bytes = Vec::new(alloc);
    let mut room = [0; ROOM];
    while bytes.len() <= limit {
        let size = ROOM.min(limit + 1 - bytes.len());
        let count = source.read(&mut room[..size])?;
        if count == 0 {
            return Ok(Text::Whole(bytes));
        }
        bytes.extend_from_slice(&room[..count])?;
    }
    Ok(Text::TooLong(bytes))
}
