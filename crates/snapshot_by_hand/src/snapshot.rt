use std::alloc::{AllocError, Global};

/// What stands before the total of RAM: the magic, the version, the configuration, and the header of RAM.
const FRONT: [u8; 39] =
    *b"QEVM\0\0\0\x03\x07\0\0\0\x09rvsnap-64\x01\0\0\0\x02\x03ram\0\0\0\0\0\0\0\x04";

/// What stands between the pages and the devices.
const TAIL: [u8; 31] =
    *b"\0\0\0\0\0\0\0\x10\x7e\0\0\0\x02\x03\0\0\0\x02\0\0\0\0\0\0\0\x10\x7e\0\0\0\x02";

/// Two instructions: addi x5, x0, 1 and ecall.
pub const GUEST: [u8; 8] = [0x93, 0x02, 0x10, 0x00, 0x73, 0x00, 0x00, 0x00];

/// A vCPU: some registers by number, all others 0, where it stands, its steps, and the code of its state.
#[derive(Clone, Copy)]
pub struct Cpu<'a> {
    pub regs: &'a [(usize, u64)],
    pub pc: u64,
    pub steps: u64,
    pub state: u8,
}

/// A vCPU at boot, with every register 0.
pub const AT_BOOT: Cpu<'static> = Cpu {
    regs: &[],
    pc: 0x8000_0000,
    steps: 0,
    state: 0,
};

/// What a snapshot file holds: the blocks, the pages of each, and the first bytes of each page that is saved, by the page's
/// number; then the vCPUs and the devices.
#[derive(Clone, Copy)]
pub struct Snapshot<'a> {
    pub blocks: u8,
    pub pages: u16,
    pub saved: &'a [(usize, &'a [u8])],
    pub cpus: &'a [Cpu<'a>],
    pub serial_version: u32,
    pub serial: &'a [u8],
    pub input: &'a [u8],
    pub lost: u64,
    pub clock: u64,
    pub cmp: u64,
}

/// The guest at boot on one vCPU and one page.
pub const SMALLEST: Snapshot<'static> = Snapshot {
    blocks: 1,
    pages: 1,
    saved: &[(0, &GUEST)],
    cpus: &[Cpu {
        regs: &[],
        pc: 0x8000_0000,
        steps: 0,
        state: 0,
    }],
    serial_version: 2,
    serial: &[],
    input: &[],
    lost: 0,
    clock: 0,
    cmp: 0,
};

/// The file, byte by byte.
pub fn file_of(alloc: Global, it: &Snapshot) -> Result<Vec<u8>, AllocError> {
    let mut file = Vec::new(alloc);
    file.extend_from_slice(&FRONT)?;
    put64(
        &mut file,
        u64::from(it.blocks) * u64::from(it.pages) * 0x1000 + 4,
    )?;
    for block in 0..it.blocks.min(8) {
        put_block(&mut file, block, it)?;
    }
    file.extend_from_slice(&TAIL)?;
    let mut id = 3u32;
    for cpu in it.cpus {
        put_cpu(&mut file, id, cpu)?;
        id = id.saturating_add(1);
    }
    put_serial(&mut file, id, it)?;
    put_timer(&mut file, id.saturating_add(1), it)?;
    file.push(0)?;
    Ok(file)
}

// A block: its name, its length, its header, its bitmap, and from the next mebibyte on its pages.
fn put_block(file: &mut Vec<u8>, block: u8, it: &Snapshot) -> Result<(), AllocError> {
    let pages = usize::from(it.pages);
    let first = usize::from(block) * pages;
    file.extend_from_slice(b"\x04ram")?;
    file.push(b'0'.saturating_add(block))?;
    put64(file, u64::from(it.pages) * 0x1000)?;
    put32(file, 1)?;
    put64(file, 0x1000)?;
    let bitmap_at = file.len().saturating_add(16);
    let bitmap_end = bitmap_at.saturating_add(pages.div_ceil(64) * 8);
    let pages_at = bitmap_end.div_ceil(0x10_0000).saturating_mul(0x10_0000);
    put64(file, bitmap_at as u64)?;
    put64(file, pages_at as u64)?;
    put_bits(file, first, pages, it)?;
    fill_to(file, pages_at)?;
    for page in 0..pages {
        let at = file.len();
        file.extend_from_slice(saved_page(it, first.saturating_add(page)).unwrap_or(&[]))?;
        fill_to(file, at.saturating_add(0x1000))?;
    }
    Ok(())
}

// The bitmap of the pages from the first on, low bits first.
fn put_bits(
    file: &mut Vec<u8>,
    first: usize,
    pages: usize,
    it: &Snapshot,
) -> Result<(), AllocError> {
    for byte in 0..pages.div_ceil(64) * 8 {
        let mut bits = 0u8;
        for bit in 0..8u32 {
            let page = byte * 8 + bit as usize;
            if page < pages && saved_page(it, first.saturating_add(page)).is_some() {
                bits |= 1 << bit;
            }
        }
        file.push(bits)?;
    }
    Ok(())
}

// The first bytes of a page that is saved.
fn saved_page<'a>(it: &Snapshot<'a>, page: usize) -> Option<&'a [u8]> {
    it.saved
        .iter()
        .find(|saved| saved.0 == page)
        .map(|saved| saved.1)
}

// The section of a vCPU, whose id is three more than its number.
fn put_cpu(file: &mut Vec<u8>, id: u32, cpu: &Cpu) -> Result<(), AllocError> {
    put_section(file, id, b"\x03cpu", id.saturating_sub(3), 1)?;
    for i in 1..32usize {
        let value = cpu
            .regs
            .iter()
            .find(|reg| reg.0 == i)
            .map_or(0, |reg| reg.1);
        put64(file, value)?;
    }
    put64(file, cpu.pc)?;
    put64(file, cpu.steps)?;
    file.push(cpu.state)?;
    put_footer(file, id)
}

// The section of the serial device, which in version 1 knows no input.
fn put_serial(file: &mut Vec<u8>, id: u32, it: &Snapshot) -> Result<(), AllocError> {
    put_section(file, id, b"\x06serial", 0, it.serial_version)?;
    put64(file, it.lost)?;
    put32(file, it.serial.len().min(0x1_0000) as u32)?;
    if it.serial_version == 2 {
        put32(file, it.input.len().min(0x1000) as u32)?;
    }
    file.extend_from_slice(it.serial)?;
    file.extend_from_slice(it.input)?;
    put_footer(file, id)
}

// The section of the timer.
fn put_timer(file: &mut Vec<u8>, id: u32, it: &Snapshot) -> Result<(), AllocError> {
    put_section(file, id, b"\x05timer", 0, 1)?;
    put64(file, it.clock)?;
    put64(file, it.cmp)?;
    put_footer(file, id)
}

fn put_section(
    file: &mut Vec<u8>,
    id: u32,
    name: &[u8],
    instance: u32,
    version: u32,
) -> Result<(), AllocError> {
    file.push(4)?;
    put32(file, id)?;
    file.extend_from_slice(name)?;
    put32(file, instance)?;
    put32(file, version)
}

fn put_footer(file: &mut Vec<u8>, id: u32) -> Result<(), AllocError> {
    file.push(0x7e)?;
    put32(file, id)
}

fn put32(file: &mut Vec<u8>, v: u32) -> Result<(), AllocError> {
    file.extend_from_slice(&v.to_be_bytes())
}

fn put64(file: &mut Vec<u8>, v: u64) -> Result<(), AllocError> {
    file.extend_from_slice(&v.to_be_bytes())
}

// Zeros up to a place.
fn fill_to(file: &mut Vec<u8>, at: usize) -> Result<(), AllocError> {
    for _ in file.len()..at {
        file.push(0)?;
    }
    Ok(())
}
