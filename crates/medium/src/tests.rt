ghost use Rattle.std.specs.Prelude.{◌≤◌, length};

use super::*;
use ram_block::NoMemory;
use std::alloc::Global;
use std::test::Fail;

fn no_plan(alloc: Global) -> FailPlan {
    FailPlan {
        calls: Vec::new(alloc),
        from: None,
    }
}

// Calls whose contracts a test doesn't need.
fn write(file: &mut MemMedium, at: u8, bytes: &[u8]) -> Result<(), Failed>
    requires { length bytes.now ≤ 8 }
{
    file.write_at(u64::from(at), bytes)
}

fn read(file: &mut MemMedium, at: u8) -> Result<[u8; 2], Failed> {
    let mut buf = [0; 2];
    file.read_at(u64::from(at), &mut buf)?;
    Ok(buf)
}

fn sync(file: &mut MemMedium) -> Result<(), Failed> {
    file.sync()
}

fn size(file: &mut MemMedium) -> Result<u64, Failed> {
    file.len()
}

fn take(source: &mut MemSource) -> Result<(usize, [u8; 2]), Failed> {
    let mut buf = [0; 2];
    let n = source.read(&mut buf)?;
    Ok((n, buf))
}

fn put(sink: &mut MemSink, bytes: &[u8]) -> Result<(), Failed> {
    sink.write(bytes)
}

// What a crash leaves, or no bytes where the test names too many or too few writes.
fn left(alloc: Global, file: &MemMedium, kept: &[bool]) -> Result<Vec<u8>, NoMemory> {
    if kept.len() != file.unsynced() {
        return Ok(Vec::new(alloc));
    }
    file.crash(alloc, kept)
}

#[test]
fn a_call_of_each_kind_fails_by_its_number_and_from_a_number_on(
    rt: HostRuntime,
) -> Result<(), Fail> {
    let alloc = rt.alloc();
    let plan = FailPlan {
        calls: vec![in alloc; 2, 4]?,
        from: Some(7),
    };
    let mut file = MemMedium::new(alloc, vec![in alloc; 1, 2, 3]?, 8, 4, plan)?;
    assert_eq!(rt; size(&mut file), Ok(3));
    assert_eq!(rt; write(&mut file, 0, &[9]), Err(Failed));
    assert_eq!(rt; write(&mut file, 1, &[5]), Ok(()));
    assert_eq!(rt; sync(&mut file), Err(Failed));
    assert_eq!(rt; file.unsynced(), 1);
    assert_eq!(rt; sync(&mut file), Ok(()));
    assert_eq!(rt; read(&mut file, 1), Ok([5, 3]));
    assert_eq!(rt; size(&mut file), Err(Failed));
    assert_eq!(rt; read(&mut file, 0), Err(Failed));
    assert_eq!(rt; write(&mut file, 0, &[9]), Err(Failed));
    assert_eq!(rt; sync(&mut file), Err(Failed));
    assert_eq!(rt; file.bytes(), [1, 5, 3].as_slice());
    Ok(())
}

#[test]
fn a_write_fails_past_the_room_behind_the_last_write_and_with_too_many_bytes(
    rt: HostRuntime,
) -> Result<(), Fail> {
    let alloc = rt.alloc();
    let mut file = MemMedium::new(alloc, vec![in alloc; 1]?, 8, 3, no_plan(alloc))?;
    assert_eq!(rt; write(&mut file, 6, &[1, 2, 3]), Err(Failed));
    assert_eq!(rt; write(&mut file, 3, &[1, 2, 3, 4, 5]), Ok(()));
    assert_eq!(rt; write(&mut file, 0, &[6, 7, 8, 9]), Err(Failed));
    assert_eq!(rt; write(&mut file, 0, &[6]), Ok(()));
    assert_eq!(rt; write(&mut file, 1, &[7]), Ok(()));
    assert_eq!(rt; write(&mut file, 2, &[8]), Err(Failed));
    assert_eq!(rt; file.bytes(), [6, 7, 0, 1, 2, 3, 4, 5].as_slice());
    Ok(())
}

// A file with two syncs behind it, and then three writes: the second overlaps the first, and a gap lies
// ahead of the third.
fn with_three_unsynced(alloc: Global) -> Result<MemMedium, Fail> {
    let mut file = MemMedium::new(alloc, vec![in alloc; 1, 2, 3, 4]?, 16, 8, no_plan(alloc))?;
    write(&mut file, 0, &[9, 9])?;
    sync(&mut file)?;
    write(&mut file, 1, &[5])?;
    sync(&mut file)?;
    write(&mut file, 2, &[7, 7, 7])?;
    write(&mut file, 3, &[8])?;
    write(&mut file, 7, &[6])?;
    Ok(file)
}

#[test]
fn a_crash_leaves_the_synced_bytes_and_the_kept_writes(rt: HostRuntime) -> Result<(), Fail> {
    let alloc = rt.alloc();
    let file = with_three_unsynced(alloc)?;
    for (kept, wanted) in [
        ([true, true, true], [9, 5, 7, 8, 7, 0, 0, 6].as_slice()),
        ([false, false, false], [9, 5, 3, 4].as_slice()),
        ([true, false, false], [9, 5, 7, 8, 7].as_slice()),
        ([false, true, false], [9, 5, 3, 8].as_slice()),
        ([false, false, true], [9, 5, 3, 4, 0, 0, 0, 6].as_slice()),
    ] {
        assert_eq!(rt; left(alloc, &file, &kept)?.as_slice(), wanted);
    }
    Ok(())
}

#[test]
fn a_crash_behind_a_sync_leaves_all_that_was_written(rt: HostRuntime) -> Result<(), Fail> {
    let alloc = rt.alloc();
    let mut file = with_three_unsynced(alloc)?;
    sync(&mut file)?;
    sync(&mut file)?;
    let image = left(alloc, &file, &[])?;
    assert_eq!(rt; image.as_slice(), [9, 5, 7, 8, 7, 0, 0, 6].as_slice());
    Ok(())
}

#[test]
fn a_source_moves_its_bytes_and_fails_by_plan(rt: HostRuntime) -> Result<(), Fail> {
    let alloc = rt.alloc();
    let plan = FailPlan {
        calls: vec![in alloc; 2]?,
        from: None,
    };
    let mut source = MemSource::new(vec![in alloc; 1, 2, 3]?, plan);
    assert_eq!(rt; take(&mut source), Ok((2, [1, 2])));
    assert_eq!(rt; take(&mut source), Err(Failed));
    assert_eq!(rt; take(&mut source), Ok((1, [3, 0])));
    assert_eq!(rt; take(&mut source), Ok((0, [0, 0])));
    Ok(())
}

#[test]
fn a_sink_takes_bytes_within_its_room(rt: HostRuntime) -> Result<(), Fail> {
    let alloc = rt.alloc();
    let plan = FailPlan {
        calls: Vec::new(alloc),
        from: Some(4),
    };
    let mut sink = MemSink::new(alloc, 4, plan)?;
    assert_eq!(rt; put(&mut sink, &[1, 2, 3]), Ok(()));
    assert_eq!(rt; put(&mut sink, &[4, 5]), Err(Failed));
    assert_eq!(rt; put(&mut sink, &[6]), Ok(()));
    assert_eq!(rt; put(&mut sink, &[]), Err(Failed));
    assert_eq!(rt; sink.bytes(), [1, 2, 3, 6].as_slice());
    Ok(())
}

#[test]
fn bytes_in_memory_are_read_at_any_place(rt: HostRuntime) -> Result<(), Fail> {
    let mut layer = MemBytes::new(vec![in rt.alloc(); 7, 8]?);
    let mut buf = [0; 2];
    assert_eq!(rt; layer.len(), Ok(2));
    assert_eq!(rt; layer.read_at(1, &mut buf), Ok(1));
    assert_eq!(rt; buf[0], 8);
    Ok(())
}
