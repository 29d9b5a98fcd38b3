//! Pipes.

use ak_base::list::NoMemory;
use ak_base::number::IvarNo;
use ak_pipe::answer::{Got, PutRefused, Wrote};
use ak_pipe::pipe::Pipe;

#[test]
fn numbers_go_in_and_out(rt: HostRuntime) -> Result<(), NoMemory> {
    let mut pipe = Pipe::make(rt.alloc(), 0);
    let (pushback, flush) = (IvarNo::new(0), IvarNo::new(1));
    assert!(rt;
        matches!(
            pipe.write(7, pushback),
            Ok(Wrote {
                served: None,
                free: false
            })
        )
    );
    assert!(rt; matches!(pipe.put(8), Ok(None)));
    assert_eq!(rt; pipe.flushed(flush)?, None);
    assert!(rt; matches!(pipe.read('a'), Ok(Got::Item { num: 7, r: 'a' })));
    assert!(rt; pipe.next_free().is_none() && pipe.next_flushed().is_none());
    assert!(rt; matches!(pipe.read('b'), Ok(Got::Item { num: 8, r: 'b' })));
    assert_eq!(rt; pipe.next_free(), Some(pushback));
    assert_eq!(rt; pipe.next_flushed(), Some((flush, 0)));
    assert!(rt; matches!(pipe.read('c'), Ok(Got::Waits)));
    Ok(())
}

#[test]
fn closed_pipe_owes_the_end_to_reads_that_wait(rt: HostRuntime) -> Result<(), NoMemory> {
    let mut pipe = Pipe::make(rt.alloc(), 0);
    assert!(rt; matches!(pipe.read('a'), Ok(Got::Waits)));
    pipe.close();
    assert_eq!(rt; pipe.next_eof(), Some('a'));
    assert!(rt; pipe.next_eof().is_none() && pipe.is_closed());
    assert!(rt; matches!(pipe.put(7), Err(PutRefused::Closed)));
    assert!(rt; matches!(pipe.read('b'), Ok(Got::Eof { r: 'b' })));
    Ok(())
}

#[test]
fn closed_reader_drops_what_is_left(rt: HostRuntime) -> Result<(), NoMemory> {
    let mut pipe = Pipe::make(rt.alloc(), 0);
    let (pushback, flush) = (IvarNo::new(0), IvarNo::new(1));
    assert!(rt; pipe.write(7, pushback).is_ok());
    assert_eq!(rt; pipe.flushed(flush)?, None);
    pipe.close_read();
    assert_eq!(rt; pipe.next_flushed(), Some((flush, 1)));
    assert_eq!(rt; pipe.next_free(), Some(pushback));
    assert!(rt; matches!(pipe.read('a'), Ok(Got::Eof { r: 'a' })));
    Ok(())
}
