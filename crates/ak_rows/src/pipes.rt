//! Pipes.

ghost use Rattle.std.specs.Prelude.{◌≡◌, [], negsuc};
ghost use Rattle.ak_machine.specs.Status.{status_of, ByError, Well};
ghost use Rattle.ak_rows.specs.Row.{MeetsWithWaits};
ghost use Rattle.ak_rows.specs.Pipes.{reads_up_to_the_end, reader_closed, close_ends_waiting_reads};

/// Reads take the items in order, and learn of the end when the pipe is closed and empty.
pub fn row_reads_up_to_the_end()
    ensures run { MeetsWithWaits reads_up_to_the_end [] }
    ensures status { status_of reads_up_to_the_end.trace ≡ Well }
{}

/// Where the reader closes, pushbacks are filled with 0 and flushes with 1, and a write raises.
pub fn row_reader_closed()
    ensures run { MeetsWithWaits reader_closed [] }
    ensures status { status_of reader_closed.trace ≡ ByError (negsuc 3) }
{}

/// A number goes to the read that waits; the read behind it learns of the close.
pub fn row_close_ends_waiting_reads()
    ensures run { MeetsWithWaits close_ends_waiting_reads [] }
    ensures status { status_of close_ends_waiting_reads.trace ≡ ByError (negsuc 3) }
{}
