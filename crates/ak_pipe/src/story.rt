//! A small story that is worked by hand. The bodies are empty: each contract is what the calls must do.

ghost use Rattle.std.specs.Prelude.{ℕ, ◌≡◌, pos, [], ◌∷◌, Some, None, true, false};
ghost use Rattle.ak_base.specs.Lists.{first_of};
ghost use Rattle.ak_pipe.specs.declared.answer.Got.TheVariants.{Item, Eof, Waits};
ghost use Rattle.ak_pipe.specs.declared.answer.PutRefused.TheVariants.{Closed};
ghost use Rattle.ak_pipe.specs.Pipe.{Pipe, fresh_pipe, put, wrote, put_refusal, got, after_read, after_close, freed_pushbacks, next_settlement, settled_taken, flushed_at_once, is_free};
ghost use Rattle.ak_pipe.specs.Story.{one_written, one_read, closed_with_one, reader_gone, one_waits};

/// At budget 0 a write waits until its number is read, and so does the flush behind it, which learns 0.
pub fn write_waits_to_be_read()
    ensures wrote { wrote {R = ℕ} (pos 7) (fresh_pipe 0) ≡ record { served = None; free = false } }
    ensures waits { freed_pushbacks one_written ≡ [] }
    ensures unsettled { next_settlement one_written ≡ None }
    ensures got { got 10 one_written ≡ Item (pos 7) 10 }
    ensures freed { freed_pushbacks one_read ≡ 0 ∷ [] }
    ensures settled { next_settlement one_read ≡ Some (1, pos 0) }
{}

/// A closed pipe takes nothing more, gives what is left, and then the end.
pub fn closed_pipe_gives_what_is_left()
    ensures refused { put_refusal closed_with_one ≡ Closed }
    ensures left { got 11 closed_with_one ≡ Item (pos 8) 11 }
    ensures end { got 12 (after_read 11 closed_with_one) ≡ Eof 12 }
{}

/// Where the reader is closed the items are dropped: the write is free, the flush learns 1, and so does a later one.
pub fn closed_reader_drops_the_items()
    ensures end { got 10 reader_gone ≡ Eof 10 }
    ensures freed { freed_pushbacks reader_gone ≡ 0 ∷ [] }
    ensures settled { next_settlement reader_gone ≡ Some (1, pos 1) }
    ensures at_once { flushed_at_once reader_gone ≡ Some (pos 1) }
{}

/// A number goes to the read that waits, and the close tells one that waits still of the end.
pub fn waiting_read_is_served()
    ensures waits { got {R = ℕ} 10 (fresh_pipe 0) ≡ Waits }
    ensures served { wrote (pos 5) one_waits ≡ record { served = Some 10; free = true } }
    ensures owed { (after_close one_waits).owed ≡ 10 ∷ [] }
    ensures none { (after_close (put (pos 5) one_waits)).owed ≡ [] }
{}
