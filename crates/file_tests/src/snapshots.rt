ghost use Rattle.std.specs.Prelude.{◌≡◌, ◌≤◌, IfOk};

use crate::guest::GUEST;
use device_state::put_devices;
use file_plan::{Plan, tail};
use flat_machine::Machine;
use loader::{LoadFault, frame, load};
use medium::{FailPlan, MemMedium};
use page_bitmap::Bitmap;
use ram_block::{PageBuf, Shape};
use rv64i_step::Vcpu;
use std::alloc::{AllocError, Global};
use std::process::Abort;
use std::test::Fail;

/// A machine that a test asks for and that can't be made, or can't be saved.
#[derive(Debug, Drop)]
pub(crate) struct NoMachine;

/// The most bytes of a bitmap in a file.
const MOST_BITMAP_BYTES: usize = 256;

/// A page of zeros.
pub(crate) static ZEROS: [u8; 4096] = [0; 4096];

/// No call fails.
pub(crate) fn well(alloc: Global) -> FailPlan {
    FailPlan {
        calls: Vec::new(alloc),
        from: None,
    }
}

/// The call with this number fails.
pub(crate) fn failing(alloc: Global, call: u64) -> Result<FailPlan, AllocError> {
    Ok(FailPlan {
        calls: vec![in alloc; call]?,
        from: None,
    })
}

/// Each call from this number on fails.
pub(crate) fn failing_from(alloc: Global, call: u64) -> FailPlan {
    FailPlan {
        calls: Vec::new(alloc),
        from: Some(call),
    }
}

/// Puts bytes over those of a file, from a place on.
pub(crate) fn put(file: &mut [u8], at: usize, bytes: &[u8]) {
    for (place, byte) in file.iter_mut().skip(at).zip(bytes) {
        *place = *byte;
    }
}

/// A file of these bytes with others put over them, from a place on.
pub(crate) fn changed(
    alloc: Global,
    file: &[u8],
    at: usize,
    bytes: &[u8],
) -> Result<Vec<u8>, AllocError> {
    let mut file = file.to_vec(alloc)?;
    put(&mut file, at, bytes);
    Ok(file)
}

/// The first bytes of a file.
pub(crate) fn front(alloc: Global, file: &[u8], len: usize) -> Result<Vec<u8>, AllocError> {
    file.get(..len).unwrap_or(file).to_vec(alloc)
}

/// A file of these bytes, whose calls fail by the plan.
pub(crate) fn snapshot_by(alloc: Global, bytes: &[u8], plan: FailPlan) -> Result<MemMedium, Fail> {
    let room = bytes.len() as u64;
    Ok(MemMedium::new(alloc, bytes.to_vec(alloc)?, room, 16, plan)?)
}

/// A file of these bytes whose calls go well, and which takes no write.
pub(crate) fn snapshot(alloc: Global, bytes: Vec<u8>) -> Result<MemMedium, Fail> {
    let room = bytes.len() as u64;
    Ok(MemMedium::new(alloc, bytes, room, 0, well(alloc))?)
}

/// Why these bytes are refused, by what loads a machine and by what reads all but the pages.
pub(crate) fn faults_of(
    alloc: Global,
    bytes: Vec<u8>,
) -> Result<(Option<LoadFault>, Option<LoadFault>), Fail> {
    let mut file = snapshot(alloc, bytes)?;
    Ok((load(alloc, &mut file).err(), frame(alloc, &mut file).err()))
}

/// The machine that these bytes are loaded to.
pub(crate) fn loaded(alloc: Global, bytes: Vec<u8>) -> Result<Machine, Fail> {
    let mut file = snapshot(alloc, bytes)?;
    Ok(load(alloc, &mut file)?)
}

/// A machine at boot: so many vCPUs, blocks and pages in each, with this image and input.
pub(crate) fn booted(
    alloc: Global,
    sizes: (u64, u64, u64),
    image: &[u8],
    input: &[u8],
) -> Result<Machine, Fail> {
    let shape = Shape::new(sizes.0, sizes.1, sizes.2)?;
    if image.len() as u64 > shape.ram_bytes() || input.len() > 4096 {
        Err(NoMachine)?;
    }
    Ok(Machine::boot(alloc, shape, image, input)?)
}

/// The machine with the guest at boot.
pub(crate) fn guest_machine(alloc: Global) -> Result<Machine, Fail> {
    booted(alloc, (1, 1, 1), &GUEST, &[])
}

/// Runs a phase of n instructions by rounds.
pub(crate) fn run(alloc: Global, machine: &mut Machine, n: u32) -> Result<(), Fail> {
    if n > 1_000_000 || !machine.at_rest() {
        Err(NoMachine)?;
    }
    machine.rounds(alloc, n)?;
    Ok(())
}

/// The file of a machine: each piece at its place, and zeros elsewhere.
pub(crate) fn file_of(alloc: Global, machine: &Machine) -> Result<Vec<u8>, Fail> {
    let mut saved = Vec::new(alloc);
    for p in 0..machine.shape().total_pages() {
        let page = &machine.pages()[p as usize];
        if !is_all_zeros(page) {
            saved.push((p, page.bytes()))?;
        }
    }
    file_by(alloc, &machine.shape(), &saved, machine)
}

/// The file of a machine of this shape, with these pages by number and all others of zeros, and with the vCPUs and devices
/// of a machine.
pub(crate) fn file_by(
    alloc: Global,
    shape: &Shape,
    saved: &[(u32, &[u8])],
    machine: &Machine,
) -> Result<Vec<u8>, Fail> {
    if !machine.at_rest() {
        Err(NoMachine)?;
    }
    let plan = Plan::of(shape);
    let mut file = Vec::new(alloc);
    for _ in 0..plan.tail_at() / 4096 {
        file.extend_from_slice(&ZEROS)?;
    }
    for block in 0..shape.blocks() {
        put_head(alloc, shape, block, saved, &mut file)?;
    }
    for (p, bytes) in saved {
        put_page(shape, *p, bytes, &mut file);
    }
    file.extend_from_slice(&tail())?;
    file.extend_from_slice(&put_devices(alloc, machine)?)?;
    Ok(file)
}

// Puts a page at its place.
fn put_page(shape: &Shape, p: u32, bytes: &[u8], file: &mut [u8]) {
    if p < shape.total_pages() {
        put(file, Plan::of(shape).page_at(p) as usize, bytes);
    }
}

// Puts the head of a block, with a bit for each saved page.
fn put_head(
    alloc: Global,
    shape: &Shape,
    block: u32,
    saved: &[(u32, &[u8])],
    file: &mut [u8],
) -> Result<(), Fail> {
    if block >= shape.blocks() {
        return Ok(());
    }
    let plan = Plan::of(shape);
    let bits = bits_of(alloc, shape.pages(), block, saved)?;
    let mut head = vec![in alloc; 0u8; plan.head_len(block)]?;
    plan.put_head(block, &bits, &mut head);
    put(file, plan.head_at(block) as usize, &head);
    Ok(())
}

// The bitmap of a block of so many pages.
fn bits_of(alloc: Global, pages: u32, block: u32, saved: &[(u32, &[u8])]) -> Result<Bitmap, Fail>
    requires { pages ≤ 2048 }
    ensures { IfOk result (λ bits. bits.pages ≡ pages) }
{
    let mut bits = Bitmap::new(alloc, pages)?;
    let mut bytes = [0; MOST_BITMAP_BYTES];
    for (p, _) in saved {
        if *p / pages.max(1) == block {
            set_bit(&mut bytes, *p % pages.max(1));
        }
    }
    bits.get_bytes(&bytes[..bits.byte_len()]);
    Ok(bits)
}

fn is_all_zeros(page: &PageBuf) -> bool {
    page.bytes() == ZEROS.as_slice()
}

fn set_bit(bitmap: &mut [u8], p: u32) {
    if let Some(byte) = bitmap.get_mut(p as usize / 8) {
        *byte |= 1 << (p % 8);
    }
}

/// Asserts that two machines are one.
pub(crate) fn assert_same<R: Abort>(rt: &R, found: &Machine, wanted: &Machine) {
    assert_eq!(rt; found.shape(), wanted.shape());
    assert_same_devices(rt, found, wanted);
    assert_eq!(rt; found.pages().len(), wanted.pages().len());
    for (p, (page, other)) in found.pages().iter().zip(wanted.pages()).enumerate() {
        assert!(rt; page.bytes() == other.bytes(), "page {p}");
    }
}

/// Asserts that the vCPUs, the devices and the clock of two machines are one.
pub(crate) fn assert_same_devices<R: Abort>(rt: &R, found: &Machine, wanted: &Machine) {
    assert_eq!(rt; found.clock(), wanted.clock());
    assert_eq!(rt; found.timer().cmp(), wanted.timer().cmp());
    assert_eq!(rt; found.serial().lost(), wanted.serial().lost());
    assert!(rt; found.serial().bytes() == wanted.serial().bytes());
    assert!(rt; found.serial().input() == wanted.serial().input());
    for k in 0..8 {
        assert_eq!(rt; vcpu(found, k), vcpu(wanted, k), "vCPU {k}");
    }
}

/// The vCPU with a number, where there is one.
pub(crate) fn vcpu(machine: &Machine, k: u32) -> Option<&Vcpu> {
    if k < machine.shape().vcpus() {
        Some(machine.vcpu(k))
    } else {
        None
    }
}

/// The bytes of the page with a number, where there is one.
pub(crate) fn page_of(machine: &Machine, p: u32) -> Option<&[u8]> {
    Some(machine.pages().get(p as usize)?.bytes())
}
