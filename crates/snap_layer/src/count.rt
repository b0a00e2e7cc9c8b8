ghost use Rattle.std.specs.Prelude.{◌≡◌, ◌≤◌, length};
ghost use Rattle.flat_machine.specs.Machine.{IsMachine, MachineData};
ghost use Rattle.snap_layer.specs.Layer.{changed_pages, layer_of};
ghost use Rattle.snap_layer.specs.declared.format.TheConstants.{FRONT_LEN as FRONT};

use crate::format::COUNT_AT;
use mig_stream::be32_at;

/// How many pages a layer has that was put.
pub fn pages_in(layer: &[u8]) -> u32
    requires { FRONT ≤ length layer.now }
    ensures { (base m : MachineData) → IsMachine m → layer.now ≡ layer_of base m → result ≡ length (changed_pages base m) }
{
    be32_at(layer, COUNT_AT)
}
