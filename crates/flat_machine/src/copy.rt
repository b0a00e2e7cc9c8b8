ghost use Rattle.std.specs.Prelude.{◌≡◌, IfOk};
ghost use Rattle.flat_machine.specs.Machine.{IsMachine};

use crate::Machine;
use ram_block::{NoMemory, PageBuf};
use serial_timer::{Serial, Timer};
use std::alloc::Global;

impl Machine {
    /// The same machine again.
    pub fn copy(&self, alloc: Global) -> Result<Machine, NoMemory>
        ensures same { IfOk result (λ m. m ≡ self.now) }
        ensures limits { IfOk result IsMachine }
    {
        let ram = copied_pages(alloc, &self.ram)?;
        let vcpus = Vec::from_slice(alloc, &self.vcpus)?;
        let serial = Serial::of(
            alloc,
            self.serial.bytes(),
            self.serial.lost(),
            self.serial.input(),
        )?;
        Ok(Machine::of(self.shape, ram, vcpus, serial, self.timer, self.clock))
    }
}

fn copied_pages(alloc: Global, ram: &[PageBuf]) -> Result<Vec<PageBuf>, NoMemory>
    ensures { IfOk result (λ copy. copy.items ≡ ram.now) }
{
    let mut copy = Vec::with_capacity(alloc, ram.len())?;
    for page in ram {
        copy.push(page.copy(alloc)?)?;
    }
    Ok(copy)
}
