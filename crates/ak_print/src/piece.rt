//! Pieces of a line.

ghost use Rattle.std.specs.Prelude.{◌≡◌};
ghost use Rattle.ak_base.specs.Streams.{HasPut};
ghost use Rattle.ak_print.specs.Piece.{piece_bytes, pieces_bytes};
ghost use Rattle.ak_print.specs.Work.{kind_word};

use ak_base::buffer::Buffer;
use ak_base::number::{JobNo, No, RequestNo};
use ak_base::sink::{Sink, WriteFailed};
use ak_labor::work::WorkKind;
use ak_text::decimal::{write_num, write_u64};

/// A piece of a line: a text with its blanks and line end, or a number in decimal.
#[derive(Clone, Copy)]
pub enum Piece {
    Text(&'static str),
    Num(i64),
    Count(u64),
}

impl Piece {
    /// The number of a thing.
    pub fn number<K>(no: No<K>) -> Piece
        ensures { result ≡ Piece.Count no }
    {
        Piece::Count(u64::from(no.number()))
    }

    /// The number of a job.
    pub fn job(job: JobNo) -> Piece
        ensures { result ≡ Piece.Count job }
    {
        Piece::Count(job.number())
    }

    /// The number of a request.
    pub fn request(no: RequestNo) -> Piece
        ensures { result ≡ Piece.Count no }
    {
        Piece::Count(no.number())
    }

    /// The word of a kind of works.
    pub fn kind(kind: WorkKind) -> Piece
        ensures { piece_bytes result ≡ kind_word kind }
    {
        Piece::Text(match kind {
            WorkKind::Square => "square",
            WorkKind::Mix => "mix",
            WorkKind::Fail => "fail",
        })
    }

    /// Puts the piece behind what waits. It takes no memory.
    ///
    /// # Errors
    ///
    /// `WriteFailed`, as `Buffer::put`.
    pub fn put<K: Sink>(self, buffer: &mut Buffer, sink: &mut K) -> Result<(), WriteFailed>
        ensures { HasPut result
            (K.taken sink.old) (K.taken sink.new) (K.faults sink.old) (K.faults sink.new)
            buffer.old buffer.new (piece_bytes self) }
    {
        let mut digits = [0; 20];
        match self {
            Piece::Text(text) => {
                buffer.put(sink, text.as_bytes())?;
                Ok(())
            }
            Piece::Num(n) => {
                let len = write_num(n, &mut digits);
                buffer.put(sink, &digits[..len])?;
                Ok(())
            }
            Piece::Count(n) => {
                let len = write_u64(n, &mut digits);
                buffer.put(sink, &digits[..len])?;
                Ok(())
            }
        }
    }
}

/// Puts the pieces, one after another, behind what waits. It takes no memory.
///
/// # Errors
///
/// `WriteFailed`, only where the sink's count of faults rose. A beginning of what waited and of the pieces was then
/// taken, and the rest is lost.
pub fn put_pieces<K: Sink>(
    pieces: &[Piece],
    buffer: &mut Buffer,
    sink: &mut K,
) -> Result<(), WriteFailed>
    ensures { HasPut result
        (K.taken sink.old) (K.taken sink.new) (K.faults sink.old) (K.faults sink.new)
        buffer.old buffer.new (pieces_bytes pieces.now) }
{
    for piece in pieces {
        piece.put(buffer, sink)?;
    }
    Ok(())
}
