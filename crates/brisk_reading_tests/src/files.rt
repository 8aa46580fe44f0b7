//! Folders and sinks in memory, whose calls fail as planned.
use brisk_io::{File, Folder, FolderFault, MemFolder, MemSink, Sink, SinkFault};
use std::alloc::Global;
use std::test::Fail;

fn folder(alloc: Global, plan: Vec<bool>) -> Result<MemFolder, Fail> {
    let file = File {
        name: String::from_str(alloc, "a")?,
        bytes: b"hello".to_vec(alloc)?,
    };
    Ok(MemFolder {
        files: vec![in alloc; file]?,
        plan,
        calls: 0,
        misses: 0,
        faults: 0,
    })
}

#[test]
fn a_read_gives_the_bytes_from_a_place_on(rt: HostRuntime) -> Result<(), Fail> {
    let mut folder = folder(rt.alloc(), Vec::new(rt.alloc()))?;
    let mut piece = [0u8; 4];
    for (at, count, bytes) in [(0, 4, b"hell"), (3, 2, b"loll"), (5, 0, b"loll")] {
        assert_eq!(rt; folder.read_at("a", at, &mut piece), Ok(count));
        assert_eq!(rt; piece.as_slice(), bytes.as_slice());
    }
    assert_eq!(rt;
        folder.read_at("b", 0, &mut piece),
        Err(FolderFault::Missing)
    );
    assert_eq!(rt; (folder.misses, folder.faults), (1, 0));
    Ok(())
}

#[test]
fn a_planned_call_fails_and_the_next_does_not(rt: HostRuntime) -> Result<(), Fail> {
    let mut folder = folder(rt.alloc(), [false, true].to_vec(rt.alloc())?)?;
    let mut piece = [0u8; 8];
    let answers = [Ok(5), Err(FolderFault::Failed), Ok(5)];
    for answer in answers {
        assert_eq!(rt; folder.read_at("a", 0, &mut piece), answer);
    }
    assert_eq!(rt; (folder.calls, folder.faults), (2, 1));
    Ok(())
}

#[test]
fn a_sink_takes_pieces_up_to_its_room(rt: HostRuntime) -> Result<(), Fail> {
    let plan = [false, true].to_vec(rt.alloc())?;
    let mut sink = MemSink::new(rt.alloc(), 5, 4, plan)?;
    let answers = [Ok(4), Err(SinkFault::Failed), Ok(1), Err(SinkFault::Failed)];
    for answer in answers {
        assert_eq!(rt; sink.write(b"hello"), answer);
    }
    assert_eq!(rt; sink.write(b""), Ok(0));
    assert_eq!(rt; sink.written(), b"hellh".as_slice());
    Ok(())
}
