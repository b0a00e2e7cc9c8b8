use crate::snapshots::{NoMachine, assert_same, booted, file_of, loaded, run, vcpu};
use flat_machine::Machine;
use guest_asm::assemble;
use ram_block::Cause;
use rv64i_step::State;
use std::alloc::Global;
use std::test::Fail;

/// The most bytes that the serial device holds, and one that is lost.
const WRITER: &str = "lui x5, 0x10000
        lui x6, 16
        addi x6, x6, 1
loop:   sb x0, 0(x5)
        addi x6, x6, -1
        bne x6, x0, loop
        lbu x7, 5(x5)
        ebreak
";

/// Reads a byte of input, writes it, sets the timer, stores to the second page, and halts.
const ECHO: &str = "lui x5, 0x10000
        lbu x6, 0(x5)
        sb x6, 0(x5)
        lui x7, 0x2000
        sd x6, 8(x7)
        auipc x8, 1
        sd x10, 0(x8)
        amoadd.d x9, x6, (x8)
        ecall
";

/// The image of a text.
fn image_of(alloc: Global, text: &str) -> Result<Vec<u8>, Fail> {
    if text.len() > 4096 {
        Err(NoMachine)?;
    }
    Ok(assemble(alloc, text.as_bytes())?)
}

#[test]
fn a_machine_comes_back_after_its_phase(rt: HostRuntime) -> Result<(), Fail> {
    let alloc = rt.alloc();
    let image = image_of(alloc, WRITER)?;
    let mut machine = booted(alloc, (1, 1, 1), &image, &[])?;
    run(alloc, &mut machine, 200_000)?;
    assert_eq!(rt; (machine.clock(), machine.serial().lost()), (262_154, 1));
    assert_eq!(rt; file_of(alloc, &machine)?.len(), 1_118_608);
    assert_same(&rt, &reloaded(alloc, &machine)?, &machine);
    Ok(())
}

/// Three vCPUs of two blocks, when each has run so many instructions.
fn echoing(alloc: Global, n: u32) -> Result<Machine, Fail> {
    let image = image_of(alloc, ECHO)?;
    let mut machine = booted(alloc, (3, 2, 2), &image, b"input")?;
    run(alloc, &mut machine, n)?;
    Ok(machine)
}

/// A machine's file loaded.
fn reloaded(alloc: Global, machine: &Machine) -> Result<Machine, Fail> {
    loaded(alloc, file_of(alloc, machine)?)
}

#[test]
fn a_loaded_machine_goes_on_as_the_saved_one(rt: HostRuntime) -> Result<(), Fail> {
    let alloc = rt.alloc();
    for n in 0..12 {
        let mut machine = echoing(alloc, n)?;
        let mut found = reloaded(alloc, &machine)?;
        assert_same(&rt, &found, &machine);
        run(alloc, &mut machine, 3)?;
        run(alloc, &mut found, 3)?;
        assert_same(&rt, &found, &machine);
    }
    Ok(())
}

#[test]
fn a_machine_that_halted_comes_back(rt: HostRuntime) -> Result<(), Fail> {
    let alloc = rt.alloc();
    for (image, cause) in [
        ([0x83, 0x32, 0x10, 0], Cause::LoadMisaligned),
        ([0x63, 1, 0, 0], Cause::JumpMisaligned),
        ([0, 0, 0, 0], Cause::Illegal),
    ] {
        let mut machine = booted(alloc, (1, 1, 1), &image, &[])?;
        run(alloc, &mut machine, 1)?;
        let found = reloaded(alloc, &machine)?;
        assert_same(&rt, &found, &machine);
        let state = vcpu(&found, 0).map(|vcpu| vcpu.state());
        assert_eq!(rt; state, Some(State::Halted(cause)));
        assert_eq!(rt; found.clock(), 1);
    }
    Ok(())
}
