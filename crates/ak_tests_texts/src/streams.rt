//! A source and a sink in memory, and the buffer before a sink.

use ak_base::buffer::Buffer;
use ak_base::list::NoMemory;
use ak_base::memory::{MemSink, MemSource};
use ak_base::sink::{Sink, WriteFailed};
use ak_base::source::{ReadFailed, Source};

#[test]
fn what_was_put_goes_out_in_order(rt: HostRuntime) -> Result<(), NoMemory> {
    let mut sink = MemSink::make(rt.alloc(), 10_000, 10_000, Vec::new(rt.alloc()))?;
    let mut buffer = Buffer::new();
    for piece in [&b"ab"[..], b"", b"c"] {
        assert_eq!(rt; buffer.put(&mut sink, piece), Ok(()));
    }
    assert_eq!(rt; buffer.put(&mut sink, &[b'x'; 5000]), Ok(()));
    assert_eq!(rt; buffer.put(&mut sink, b"de"), Ok(()));
    assert_eq!(rt; sink.taken().len(), 5003);
    assert_eq!(rt; buffer.flush(&mut sink), Ok(()));
    assert_eq!(rt; buffer.flush(&mut sink), Ok(()));
    assert_eq!(rt; &sink.taken()[..4], b"abcx".as_slice());
    assert_eq!(rt; &sink.taken()[5002..], b"xde".as_slice());
    Ok(())
}

#[test]
fn write_that_fails_leaves_a_beginning(rt: HostRuntime) -> Result<(), NoMemory> {
    for k in 0..6 {
        let mut sink = MemSink::make(rt.alloc(), 100, 1, vec![in rt.alloc(); k]?)?;
        let mut buffer = Buffer::new();
        assert_eq!(rt; buffer.put(&mut sink, b"abc"), Ok(()));
        assert_eq!(rt; buffer.put(&mut sink, b"def"), Ok(()));
        assert_eq!(rt; buffer.flush(&mut sink), Err(WriteFailed));
        assert_eq!(rt; sink.taken(), &b"abcdef"[..k as usize], "write {k} fails");
        assert_eq!(rt; buffer.flush(&mut sink), Ok(()));
    }
    Ok(())
}

#[test]
fn a_source_gives_pieces_and_fails_where_it_is_listed(rt: HostRuntime) -> Result<(), NoMemory> {
    let mut source = MemSource::make(
        Vec::from_slice(rt.alloc(), b"abc")?,
        1,
        vec![in rt.alloc(); 1]?,
    );
    let mut room = [0; 2];
    assert_eq!(rt; source.read(&mut room), Ok(1));
    assert_eq!(rt; room, *b"a\0");
    assert_eq!(rt; source.read(&mut room), Err(ReadFailed));
    assert_eq!(rt; source.read(&mut room[..0]), Ok(0));
    for byte in b"bc" {
        assert_eq!(rt; source.read(&mut room), Ok(1));
        assert_eq!(rt; room[0], *byte);
    }
    assert_eq!(rt; source.read(&mut room), Ok(0));
    Ok(())
}

#[test]
fn a_sink_takes_what_it_has_room_for(rt: HostRuntime) -> Result<(), NoMemory> {
    let mut sink = MemSink::make(rt.alloc(), 3, 2, vec![in rt.alloc(); 2]?)?;
    assert_eq!(rt; sink.write(b""), Ok(0));
    assert_eq!(rt; sink.write(b"abcd"), Ok(2));
    assert_eq!(rt; sink.write(b"cd"), Err(WriteFailed));
    assert_eq!(rt; sink.write(b"cd"), Ok(1));
    assert_eq!(rt; sink.write(b"d"), Err(WriteFailed));
    assert_eq!(rt; sink.write(b""), Ok(0));
    assert_eq!(rt; sink.taken(), b"abc".as_slice());
    Ok(())
}
