ghost use Rattle.std.specs.Prelude.{◌≡◌, ◌≤◌, ◌^◌, Err, length, IfErr, OnOk};
ghost use Rattle.medium.specs.Count.{counted};
ghost use Rattle.medium.specs.Members.{file_state};
ghost use Rattle.vm_cli.specs.Jobs.Common.{IsDurable, IsFilledWith};
ghost use Rattle.vm_cli.specs.Write.{IsUnwritten, KeepsFull};
ghost use Rattle.vm_cli.specs.declared.write_fault.WriteFault.TheVariants.{NoMemory as out_of_memory};

use crate::write_fault::WriteFault;
use medium::Medium;

/// Writes the bytes to an output that is empty, and makes sure of them.
pub(crate) fn write_whole<M: Medium>(output: &mut M, bytes: &[u8]) -> Result<(), WriteFault>
    requires { length bytes.now ≤ 2 ^ 30 }
    ensures written { OnOk result (IsFilledWith bytes.now (file_state M.Readable output.old) (file_state M.Readable output.new)) }
    ensures synced { OnOk result (M.syncs output.new ≡ counted (M.syncs output.old)) }
    ensures durable { OnOk result (IsDurable (file_state M.Readable output.new)) }
    ensures unwritten { IfErr result (IsUnwritten (file_state M.Readable output.old) (file_state M.Readable output.new)) }
    ensures kept { KeepsFull (file_state M.Readable output.old) (file_state M.Readable output.new) }
    ensures enough { (result ≡ Err out_of_memory) → ⊥ }
{
    let len = output.len()?;
    if len > 0 {
        return Err(WriteFault::NotEmpty(len));
    }
    if !bytes.is_empty() {
        output.write_at(0, bytes)?;
    }
    output.sync()?;
    Ok(())
}
