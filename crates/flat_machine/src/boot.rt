ghost use Rattle.std.specs.Prelude.{◌≡◌, ◌≤◌, ◌<◌, ◌+◌, ◌-◌, ◌*◌, ◌++◌, take, drop, length, map, replicate, vec_len, All, IfOk};
ghost use Rattle.std.specs.List.{range_with_len};
ghost use Rattle.ram_block.specs.Shape.{ram_bytes_of, total_pages_of};
ghost use Rattle.ram_block.specs.declared.limits.TheConstants.{MAX_INPUT};
ghost use Rattle.ram_block.specs.declared.page_buf.TheConstants.{PAGE};
ghost use Rattle.rv64i_step.specs.Event.{IsServable};
ghost use Rattle.rv64i_step.specs.Vcpu.{boot_vcpu};
ghost use Rattle.flat_machine.specs.Machine.{boot, IsMachine, Rest};
ghost use Rattle.flat_machine.specs.Page.{joined};

use crate::Machine;
use ram_block::{NoMemory, PAGE, PageBuf, Shape};
use rv64i_step::Vcpu;
use serial_timer::{Serial, Timer};
use std::alloc::Global;

impl Machine {
    /// A machine at boot: the image from the start of RAM, zeros behind it, and the input at the serial device.
    #[tactic(auto, unfolding(crate::specs::Machine::boot))]
    pub fn boot(
        alloc: Global,
        shape: Shape,
        image: &[u8],
        input: &[u8],
    ) -> Result<Machine, NoMemory>
        requires image { length image.now ≤ ram_bytes_of shape }
        requires input { length input.now ≤ MAX_INPUT }
        ensures boot { IfOk result (λ m. m ≡ boot shape image.now input.now) }
        ensures rest { IfOk result Rest }
        ensures limits { IfOk result IsMachine }
    {
        let ram = boot_ram(alloc, image, shape.total_pages())?;
        let vcpus = boot_vcpus(alloc, &shape)?;
        let serial = Serial::new(alloc, input)?;
        Ok(Machine::of(shape, ram, vcpus, serial, Timer::of(0), 0))
    }
}

// So many pages that begin with the image.
#[tactic(auto, using(crate::proofs::Padded::joined_none, crate::proofs::Padded::joined_padded, crate::proofs::Padded::take_padded))]
fn boot_ram(alloc: Global, image: &[u8], pages: u32) -> Result<Vec<PageBuf>, NoMemory>
    requires image { length image.now ≤ PAGE * pages }
    ensures bytes { IfOk result (λ ram. joined ram.items ≡ image.now ++ replicate (PAGE * pages - length image.now) 0) }
    ensures count { IfOk result (λ ram. vec_len ram ≡ pages) }
{
    let mut ram = Vec::with_capacity(alloc, pages as usize)?;
    for p in 0..pages {
        ram.push(PageBuf::of_bytes(alloc, part_of(image, p))?)?;
    }
    Ok(ram)
}

// The part of the image that is in a page.
#[tactic(auto, using(crate::proofs::Padded::part_between))]
fn part_of(image: &[u8], p: u32) -> &[u8]
    ensures part { result.now ≡ take PAGE (drop (PAGE * p) image.now) }
    ensures within { length result.now ≤ PAGE }
{
    let start = image.len().min(PAGE * p as usize);
    let end = image.len().min(PAGE * p as usize + PAGE);
    &image[start..end]
}

// As many vCPUs as the shape has.
#[tactic(auto, using(crate::proofs::Padded::boot_servable))]
fn boot_vcpus(alloc: Global, shape: &Shape) -> Result<Vec<Vcpu>, NoMemory>
    ensures vcpus { IfOk result (λ vcpus. vcpus.items ≡ map boot_vcpu (range_with_len 0 shape.now.vcpus)) }
    ensures count { IfOk result (λ vcpus. vec_len vcpus ≡ shape.now.vcpus) }
    ensures servable { IfOk result (λ vcpus. All (IsServable shape.now) vcpus.items) }
{
    let mut vcpus = Vec::with_capacity(alloc, shape.vcpus() as usize)?;
    for k in 0..shape.vcpus() {
        vcpus.push(Vcpu::boot(k))?;
    }
    Ok(vcpus)
}
