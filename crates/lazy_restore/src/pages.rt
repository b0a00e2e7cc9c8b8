ghost use Rattle.std.specs.Prelude.{◌≡◌, ◌≤◌, ◌<◌, ◌+◌, ◌^◌, ℕ, List, All, IfOk, IfSome, IsSome, None, Some, length, get_or, false, vec_len};
ghost use Rattle.medium.specs.Count.{HasRisen};
ghost use Rattle.medium.specs.Members.{file_state};
ghost use Rattle.medium.specs.States.{Leaves};
ghost use Rattle.ram_block.specs.Shape.{total_pages_of};
ghost use Rattle.ram_block.specs.declared.page_buf.TheConstants.{PAGE};
ghost use Rattle.flat_machine.specs.Laws.{event_cell};
ghost use Rattle.flat_machine.specs.Machine.{IsMachine};
ghost use Rattle.flat_machine.specs.Next.{cell_of};
ghost use Rattle.flat_machine.specs.Page.{with_page};
ghost use Rattle.lazy_restore.specs.Lazy.{machine_in, page_of_cell};
ghost use Rattle.lazy_restore.specs.Rest.{LeavesOne, LeavesRest};

use flat_machine::{Machine, Parts};
use medium::{Medium, Readable};
use page_peek::{PageFault, Peek};
use ram_block::{NoMemory, PageBuf, Place};
use rv64i_step::Request;
use std::alloc::Global;
use wp_fault::FaultQueue;

/// So many pages of zeros.
pub(crate) fn zero_pages(alloc: Global, count: u32) -> Result<Vec<PageBuf>, NoMemory>
    ensures { IfOk result (λ pages. vec_len pages ≡ count) }
{
    let mut pages = Vec::with_capacity(alloc, count as usize)?;
    for _ in 0..count {
        pages.push(PageBuf::new(alloc)?)?;
    }
    Ok(pages)
}

/// The page that the next event of vCPU k touches.
pub(crate) fn next_page(machine: &Machine, k: u32) -> Option<u32>
    requires { k < machine.now.shape.vcpus }
    ensures page { result ≡ page_of_cell (event_cell machine.now k) }
    ensures within { IfSome result (λ p. p < total_pages_of machine.now.shape) }
{
    touched_page(&machine.vcpu(k).request(&machine.shape()))
}

// The page that an event with this request touches.
#[tactic(auto, unfolding(flat_machine::specs::Next::cell_of))]
fn touched_page(request: &Request) -> Option<u32>
    ensures { result ≡ page_of_cell (cell_of request.now) }
{
    match *request {
        Request::Fetch { page, .. }
        | Request::Load {
            place: Place::Ram { page, .. },
            ..
        }
        | Request::Store {
            place: Place::Ram { page, .. },
            ..
        }
        | Request::Amo {
            place: Place::Ram { page, .. },
            ..
        } => Some(page),
        _ => None,
    }
}

/// Puts the bytes of a page into a page of the machine that is there.
pub(crate) fn put_page(machine: &mut Option<Machine>, p: u32, page: &PageBuf)
    requires there { IsSome machine.old }
    requires page { p < total_pages_of (machine_in machine.old).shape }
    ensures there { IsSome machine.new }
    ensures machine { machine_in machine.new ≡ record (machine_in machine.old) { ram = with_page (machine_in machine.old).ram p page.now } }
    ensures limits { IsMachine (machine_in machine.new) }
    ensures length { length page.now ≡ PAGE }
{
    match machine.take() {
        Some(whole) => *machine = Some(with_page(whole, p, page)),
        None => unreachable!(),
    }
}

// The machine with the bytes of another page in a page.
#[tactic(auto, using(flat_machine::proofs::Pages::page_steps))]
fn with_page(machine: Machine, p: u32, page: &PageBuf) -> Machine
    requires { p < total_pages_of machine.shape }
    ensures machine { result ≡ record machine { ram = with_page machine.ram p page.now } }
    ensures limits { IsMachine result }
    ensures length { length page.now ≡ PAGE }
{
    let Parts {
        shape,
        mut ram,
        vcpus,
        serial,
        timer,
        clock,
    } = machine.into_parts();
    ram[p as usize].copy_from(page);
    prove!(page.bytes().len() == 4096);
    Machine::of(shape, ram, vcpus, serial, timer, clock)
}

/// Reads the pages that weren't touched into their places.
pub(crate) fn read_untouched<M: Medium>(
    medium: &mut M,
    peek: &Peek,
    touched: &FaultQueue,
    ram: &mut Vec<PageBuf>,
) -> Result<(), PageFault>
    requires count { vec_len ram.old ≡ total_pages_of peek.now.shape }
    requires touched { touched.now.pages ≡ total_pages_of peek.now.shape }
    ensures rest { LeavesRest (file_state M.Readable medium.old) (file_state M.Readable medium.new) peek.now touched.now.list ram.old.items result ram.new.items }
    ensures count { vec_len ram.new ≡ vec_len ram.old }
    ensures leaves { Leaves (file_state M.Readable medium.old) (file_state M.Readable medium.new) }
{
    for p in 0..peek.shape().total_pages() {
        if let Err(fault) = read_one(medium, peek, touched, p, ram) {
            return Err(fault);
        }
    }
    Ok(())
}

// Reads a page, where it wasn't touched.
fn read_one<M: Medium>(
    medium: &mut M,
    peek: &Peek,
    touched: &FaultQueue,
    p: u32,
    ram: &mut Vec<PageBuf>,
) -> Result<(), PageFault>
    requires page { p < total_pages_of peek.now.shape }
    requires count { vec_len ram.old ≡ total_pages_of peek.now.shape }
    requires touched { touched.now.pages ≡ total_pages_of peek.now.shape }
    ensures page { LeavesOne (file_state M.Readable medium.old) (file_state M.Readable medium.new) peek.now touched.now.list p ram.old.items result ram.new.items }
    ensures count { vec_len ram.new ≡ vec_len ram.old }
    ensures leaves { Leaves (file_state M.Readable medium.old) (file_state M.Readable medium.new) }
{
    if touched.has(p) {
        return Ok(());
    }
    peek.page(medium, p, &mut ram[p as usize])
}
