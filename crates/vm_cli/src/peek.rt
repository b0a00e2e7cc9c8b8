ghost use Rattle.std.specs.Prelude.{◌≡◌, ◌≤◌, ◌<◌, ◌+◌, ◌*◌, ◌^◌, ℕ, List, None, Some, IfErr, IfOk, IfSome, vec_len};
ghost use Rattle.std.specs.List.{flat_map, range_with_len};
ghost use Rattle.medium.specs.Members.{file_state, sink_state};
ghost use Rattle.medium.specs.States.{Leaves};
ghost use Rattle.page_peek.specs.Peeked.{peek_of, peeked};
ghost use Rattle.ram_block.specs.Shape.{total_pages_of};
ghost use Rattle.ram_block.specs.declared.page_buf.TheConstants.{PAGE as PAGE_bytes};
ghost use Rattle.vm_cli.specs.Answer.{fault_in};
ghost use Rattle.vm_cli.specs.Jobs.Common.{Takes};
ghost use Rattle.vm_cli.specs.Jobs.Peek.{IsRangeOf, IsRangeUnread, cuts_from, page_fault_of, peek_steps};
ghost use Rattle.vm_cli.specs.Steps.{Faults, HasCause};
ghost use Rattle.vm_cli.specs.Work.{IsUsage, IsWorkDone};
ghost use Rattle.vm_cli.specs.Write.{IsBeforeConsole};
ghost use Rattle.vm_report.specs.Report.{row_lines};
ghost use Rattle.vm_words.specs.Limits.{IsPeek};

use crate::Fault;
use medium::{Medium, Readable, Sink};
use page_peek::{PageFault, Peek, PeekRefusal};
use ram_block::{PAGE, PageBuf, Shape};
use std::alloc::Global;
use vm_report::put_rows;

/// Reads the heads of the input and the pages of a range of RAM, and prints the bytes of the range on the console. The
/// place counts from the start of RAM.
pub(crate) fn peek_input<M: Medium, K: Sink>(
    alloc: Global,
    shape: &Shape,
    at: u32,
    len: u32,
    input: &mut M,
    console: &mut K,
) -> Result<(), Fault>
    requires { IsPeek shape.now at len }
    ensures cause { (old : Faults) (new : Faults)
        → HasCause (record old { input = M.faults input.old; console = K.faults console.old }) (record new { input = M.faults input.new; console = K.faults console.new })
        (peek_steps shape.now at len (file_state M.Readable input.old)) (fault_in result) }
    ensures done { IsWorkDone (fault_in result) → (bytes : List ℕ)
        × IsRangeOf shape.now at len (file_state M.Readable input.old) bytes
        × Takes (fault_in result) (row_lines bytes) (sink_state K.Sink console.old) (sink_state K.Sink console.new) }

    ensures words_stand { IsUsage (fault_in result) → ⊥ }
    ensures leaves { Leaves (file_state M.Readable input.old) (file_state M.Readable input.new) }
    ensures silent { IsBeforeConsole (fault_in result) → console.new ≡ console.old }
    ensures count { K.faults console.old ≤ K.faults console.new }
{
    let peek = Peek::open(alloc, input, *shape)?;
    let (at, len) = (at as usize, len as usize);
    let (page, begin) = (at / PAGE, at % PAGE);
    let count = (begin + len).div_ceil(PAGE);
    let bytes = read_pages(alloc, &peek, page as u32, count as u32, input)?;
    put_rows(&bytes[begin..begin + len], console).map_err(|_| Fault::ConsoleFault)
}

// The bytes of so many pages from this one on.
fn read_pages<M: Medium>(
    alloc: Global,
    peek: &Peek,
    first: u32,
    count: u32,
    input: &mut M,
) -> Result<Vec<u8>, Fault>
    requires within { first + count ≤ total_pages_of peek.now.shape }
    requires few { count ≤ 2 }
    requires most { first + count < 2 ^ 32 }
    ensures pages { (file : List ℕ) → M.Readable.told input.old ≡ Some file → peek.now ≡ peek_of file peek.now.shape
        → IfOk result (λ bytes. (bytes.items ≡ flat_map (peeked file peek.now.shape) (range_with_len first count)) × (cuts_from file peek.now.shape first count ≡ None)) }
    ensures length { IfOk result (λ bytes. vec_len bytes ≡ PAGE_bytes * count) }
    ensures unread { IfErr result (λ fault. IsRangeUnread (file_state M.Readable input.old) (file_state M.Readable input.new) peek.now first count fault) }
    ensures leaves { Leaves (file_state M.Readable input.old) (file_state M.Readable input.new) }
{
    let mut page = PageBuf::new(alloc)?;
    let mut bytes = Vec::with_capacity(alloc, count as usize * PAGE)?;
    for p in first..first + count {
        if let Err(fault) = peek.page(input, p, &mut page) {
            return Err(page_fault(fault));
        }
        bytes.extend_from_slice(page.bytes())?;
    }
    Ok(bytes)
}

// The fault of a page that isn't read.
fn page_fault(fault: PageFault) -> Fault
    ensures { result ≡ page_fault_of fault }
{
    match fault {
        PageFault::Truncated { at } => Fault::PeekRefused(PeekRefusal::Truncated { at }),
        PageFault::ReadFault => Fault::FileFault,
    }
}
