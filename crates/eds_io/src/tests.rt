use crate::{
    CalmShelf, CalmSink, Got, MemSink, NamedFile, Numbers, PieceEnd, Shelf, Sink, Wrote,
    have_own_names, read_piece, write_whole,
};
use eds_base::{Items, Memory, Octets, Text};
use std::alloc::AllocError;

/// An allocation was refused.
#[derive(Debug, Drop)]
struct Refused;

impl From<Memory> for Refused {
    fn from(_: Memory) -> Self {
        Refused
    }
}

impl From<AllocError> for Refused {
    fn from(_: AllocError) -> Self {
        Refused
    }
}

// A shelf and a sink that never fail, pieces of a file up to its end and past it, and a sink whose
// room ends: no command uses them.
#[test]
fn what_no_command_reaches(rt: HostRuntime) -> Result<(), Refused> {
    let alloc = rt.alloc();
    let mut files = Items::new(alloc);
    files.push(NamedFile {
        name: Text::of(alloc, "ten")?,
        octets: Octets::from_vec(b"0123456789".to_vec(alloc)?),
    })?;
    assert!(rt; have_own_names(files.as_slice()));
    let mut room = [0u8; 4];
    let mut shelf = CalmShelf::new(files);
    assert!(rt; shelf.read_at("ten", 3, &mut room) == Got::Bytes(4) && room == *b"3456");
    assert!(rt; read_piece(&mut shelf, "ten", 8, &mut room) == Ok(2));
    assert!(rt; room[0] == b'8' && room[1] == b'9');
    assert!(rt; read_piece(&mut shelf, "ten", 10, &mut room) == Ok(0));
    assert!(rt; read_piece(&mut shelf, "ten", 11, &mut room) == Ok(0));
    assert!(rt; read_piece(&mut shelf, "nine", 0, &mut room) == Err(PieceEnd::NoFile));
    assert!(rt; CalmSink::new().write(b"abc") == Wrote::Took(3));
    let mut sink = MemSink::new(alloc, 4, 3, Numbers::new(alloc))?;
    assert!(rt; write_whole(&mut sink, b"packet").is_err() && sink.written() == b"pac".as_slice());
    Ok(())
}
