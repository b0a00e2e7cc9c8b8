ghost use Rattle.std.specs.Prelude.{◌≡◌, ◌^◌, ◌<◌, ◌≤◌, ◌↔◌, length, slice_get, slice_index, vec_len, All, IsTrue, None, Some};
ghost use Rattle.ram_block.specs.Shape.{IsShape, ram_bytes_of, total_pages_of};
ghost use Rattle.ram_block.specs.declared.page_buf.TheConstants.{PAGE};
ghost use Rattle.rv64i_step.specs.Event.{IsServable};
ghost use Rattle.rv64i_step.specs.Vcpu.{IsVcpu};
ghost use Rattle.serial_timer.specs.Serial.{IsSerial};
ghost use Rattle.flat_machine.specs.Page.{joined};

use ram_block::{MOST_AT_REST, PAGE, PageBuf, Shape};
use rv64i_step::Vcpu;
use serial_timer::{Serial, Timer};
use std::marker::Model;

/// A machine: its RAM, a list of pages that are moved and not copied, its vCPUs, its devices, and its clock, the
/// number of events so far. Contracts see the RAM as one flat list of bytes.
#[derive(Drop)]
pub struct Machine {
    pub(crate) shape: Shape,
    pub(crate) ram: Vec<PageBuf>,
    pub(crate) vcpus: Vec<Vcpu>,
    pub(crate) serial: Serial,
    pub(crate) timer: Timer,
    pub(crate) clock: u64,
}

impl Model for Machine {
    ghost use Rattle.std.specs.Prelude.{◌≡◌, ◌^◌, ◌<◌, ◌≤◌, length, vec_len, All};
    ghost use Rattle.ram_block.specs.Shape.{IsShape, total_pages_of};
    ghost use Rattle.ram_block.specs.declared.page_buf.TheConstants.{PAGE};
    ghost use Rattle.rv64i_step.specs.Event.{IsServable};
    ghost use Rattle.rv64i_step.specs.Vcpu.{IsVcpu};
    ghost use Rattle.serial_timer.specs.Serial.{IsSerial};
    ghost use Rattle.flat_machine.specs.Machine.{MachineData};
    ghost use Rattle.flat_machine.specs.Page.{joined};

    ghost Value = { MachineData };

    ghost view = { λ m. record { shape = m.shape; ram = joined m.ram.items; vcpus = m.vcpus.items; serial = m.serial; cmp = m.timer; clock = m.clock } };

    ghost invariant = { λ m. record {
      shape : IsShape m.shape;
      pages : vec_len m.ram ≡ total_pages_of m.shape;
      whole : All (λ page. length page ≡ PAGE) m.ram.items;
      vcpus : vec_len m.vcpus ≡ m.shape.vcpus;
      each : All IsVcpu m.vcpus.items;
      servable : All (IsServable m.shape) m.vcpus.items;
      serial : IsSerial m.serial;
      cmp : m.timer < 2 ^ 64;
      clock : m.clock ≤ 2 ^ 63;
    } };
}

/// The parts of a machine, each moved out of it or into it.
#[derive(Drop)]
pub struct Parts {
    pub shape: Shape,
    pub ram: Vec<PageBuf>,
    pub vcpus: Vec<Vcpu>,
    pub serial: Serial,
    pub timer: Timer,
    pub clock: u64,
}

#[tactic(auto, using(crate::proofs::Pages::ram_len))]
impl Machine {
    ghost use Rattle.flat_machine.specs.Machine.{IsMachine, Rest};

    /// A machine of these parts: as many pages and vCPUs as the shape has.
    pub fn of(
        shape: Shape,
        ram: Vec<PageBuf>,
        vcpus: Vec<Vcpu>,
        serial: Serial,
        timer: Timer,
        clock: u64,
    ) -> Machine
        requires pages { vec_len ram ≡ total_pages_of shape }
        requires vcpus { vec_len vcpus ≡ shape.vcpus }
        requires servable { All (IsServable shape) vcpus.items }
        requires clock { clock ≤ 2 ^ 63 }
        ensures parts { result ≡ record { shape = shape; ram = joined ram.items; vcpus = vcpus.items; serial = serial; cmp = timer; clock = clock } }
        ensures limits { IsMachine result }
    {
        know_pages(&ram);
        know_vcpus(&vcpus);
        let _shape = shape.vcpus();
        let _serial = serial.lost();
        let _timer = timer.cmp();
        Machine {
            shape,
            ram,
            vcpus,
            serial,
            timer,
            clock,
        }
    }

    /// The parts: `of` makes the same machine of them.
    pub fn into_parts(self) -> Parts
        ensures shape { result.shape ≡ self.shape }
        ensures ram { joined result.ram.items ≡ self.ram }
        ensures pages { vec_len result.ram ≡ total_pages_of self.shape }
        ensures whole { All (λ page. length page ≡ PAGE) result.ram.items }
        ensures vcpus { result.vcpus.items ≡ self.vcpus }
        ensures serial { result.serial ≡ self.serial }
        ensures timer { result.timer ≡ self.cmp }
        ensures clock { result.clock ≡ self.clock }
        ensures limits { IsMachine self }
    {
        let Machine {
            shape,
            ram,
            vcpus,
            serial,
            timer,
            clock,
        } = self;
        Parts {
            shape,
            ram,
            vcpus,
            serial,
            timer,
            clock,
        }
    }

    pub fn shape(&self) -> Shape
        ensures value { result ≡ self.now.shape }
        ensures limits { IsMachine self.now }
    {
        self.shape
    }

    /// How many events there were.
    pub fn clock(&self) -> u64
        ensures value { result ≡ self.now.clock }
        ensures limits { IsMachine self.now }
    {
        self.clock
    }

    /// The vCPU with a number, from 0.
    pub fn vcpu(&self, k: u32) -> &Vcpu
        requires { k < self.now.shape.vcpus }
        ensures value { slice_get self.now.vcpus k ≡ Some result.now }
        ensures limits { IsMachine self.now }
    {
        &self.vcpus[k as usize]
    }

    pub fn serial(&self) -> &Serial
        ensures value { result.now ≡ self.now.serial }
        ensures limits { IsMachine self.now }
    {
        &self.serial
    }

    pub fn timer(&self) -> &Timer
        ensures value { result.now ≡ self.now.cmp }
        ensures limits { IsMachine self.now }
    {
        &self.timer
    }

    /// The pages of RAM, in their order over all blocks.
    pub fn pages(&self) -> &[PageBuf]
        ensures pages { joined result.now ≡ self.now.ram }
        ensures count { length result.now ≡ total_pages_of self.now.shape }
        ensures whole { All (λ page. length page ≡ PAGE) result.now }
        ensures limits { IsMachine self.now }
    {
        &self.ram
    }

    /// The byte of RAM with a number, from 0.
    #[tactic(auto, using(crate::proofs::Pages::ram_len, crate::proofs::Pages::byte_at))]
    pub fn byte(&self, i: u64) -> u8
        requires { i < ram_bytes_of self.now.shape }
        ensures value { result ≡ slice_index self.now.ram i }
        ensures limits { IsMachine self.now }
    {
        let page = &self.ram[i as usize / PAGE];
        page.bytes()[i as usize % PAGE]
    }

    /// Whether no access is pending, and the clock and each count of steps are at most 2^62: such a machine can be
    /// saved.
    pub fn at_rest(&self) -> bool
        ensures rest { IsTrue result ↔ Rest self.now }
        ensures limits { IsMachine self.now }
    {
        self.clock <= MOST_AT_REST && self.vcpus.iter().all(is_at_rest)
    }
}

fn is_at_rest(vcpu: &Vcpu) -> bool
    ensures { IsTrue result ↔ ((vcpu.now.pending ≡ None) × (vcpu.now.steps ≤ 2 ^ 62)) }
{
    !vcpu.pending() && vcpu.steps() <= MOST_AT_REST
}

// What the types of pages and vCPUs say of those in a list.
fn know_pages(ram: &[PageBuf])
    ensures { All (λ page. length page ≡ PAGE) ram.now }
{
    for page in ram {
        prove!(page.bytes().len() == PAGE);
    }
}

fn know_vcpus(vcpus: &[Vcpu])
    ensures { All IsVcpu vcpus.now }
{
    for vcpu in vcpus {
        let _limits = vcpu.pc();
    }
}
