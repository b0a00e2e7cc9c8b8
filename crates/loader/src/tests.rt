use super::*;
use medium::{FailPlan, MemMedium};
use std::alloc::Global;
use std::test::Fail;

// Why these bytes are refused, by both readers. The calls of the file from this number on fail.
fn faults_of(
    alloc: Global,
    bytes: &[u8],
    from: u64,
) -> Result<(Option<LoadFault>, Option<LoadFault>), Fail> {
    let plan = FailPlan {
        calls: Vec::new(alloc),
        from: Some(from),
    };
    let room = bytes.len() as u64;
    let mut file = MemMedium::new(alloc, bytes.to_vec(alloc)?, room, 0, plan)?;
    Ok((load(alloc, &mut file).err(), frame(alloc, &mut file).err()))
}

#[test]
fn a_short_file_is_refused_by_both_readers(rt: HostRuntime) -> Result<(), Fail> {
    let alloc = rt.alloc();
    for (bytes, refusal) in [
        (b"".as_slice(), Refusal::Truncated { at: 0 }),
        (b"QEV".as_slice(), Refusal::Truncated { at: 0 }),
        (b"QEVN".as_slice(), Refusal::Magic(0x5145_564e)),
        (b"QEVM\0\0\0\x03".as_slice(), Refusal::Truncated { at: 8 }),
        (b"QEVM\0\0\0\x04".as_slice(), Refusal::StreamVersion(4)),
    ] {
        let fault = Some(LoadFault::Refused(refusal));
        assert_eq!(rt; faults_of(alloc, bytes, 100)?, (fault, fault));
    }
    Ok(())
}

#[test]
fn a_failing_read_is_no_refusal(rt: HostRuntime) -> Result<(), Fail> {
    let alloc = rt.alloc();
    let fault = Some(LoadFault::ReadFault);
    assert_eq!(rt; faults_of(alloc, b"QEVN", 1)?, (fault, fault));
    Ok(())
}
