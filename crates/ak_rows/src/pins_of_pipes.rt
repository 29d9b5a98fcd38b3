//! Pins of pipes.

ghost use Rattle.ak_rows.specs.Row.{Meets};
ghost use Rattle.ak_rows.specs.PinsOfPipes.{close_ends_waiting_reads, close_read, close_read_after_close, closed_pipe_still_gives_its_items, consumed_by_waiting_reads, rd_order_of_effects, read_of_an_item_in_its_context, reads_wait_in_order, write_to_a_closed_pipe};

/// Close gives each waiting read its other procedure in its own context, oldest first, and a second close does
/// nothing.
pub fn pin_close_ends_waiting_reads()
    ensures { Meets close_ends_waiting_reads }
{}

/// Closeread drops the items and fills pushbacks with 0 and flushes with 1, oldest first; after it a flush is
/// filled with 1 and a read ends.
pub fn pin_close_read()
    ensures { Meets close_read }
{}

/// Closeread after close acts on what is left.
pub fn pin_close_read_after_close()
    ensures { Meets close_read_after_close }
{}

/// Items of a closed pipe are read, then its reads end; the job that reads gives the context.
pub fn pin_closed_pipe_still_gives_its_items()
    ensures { Meets closed_pipe_still_gives_its_items }
{}

/// A number that a waiting read takes counts as written and as consumed.
pub fn pin_consumed_by_waiting_reads()
    ensures { Meets consumed_by_waiting_reads }
{}

/// A read of an item: pushbacks, then flushes, then its call.
pub fn pin_rd_order_of_effects()
    ensures { Meets rd_order_of_effects }
{}

/// A read of an item calls its procedure in the monitor and priority of the job.
pub fn pin_read_of_an_item_in_its_context()
    ensures { Meets read_of_an_item_in_its_context }
{}

/// A number goes to the oldest read that waits, in the context of that read.
pub fn pin_reads_wait_in_order()
    ensures { Meets reads_wait_in_order }
{}

/// Write and put to a closed pipe raise -4.
pub fn pin_write_to_a_closed_pipe()
    ensures { Meets write_to_a_closed_pipe }
{}
