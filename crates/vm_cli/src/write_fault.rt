ghost use Rattle.std.specs.Prelude.{◌≡◌};
ghost use Rattle.vm_cli.specs.declared.write_fault.WriteFault.TheVariants.{FileFault as file_fault, NoMemory as out_of_memory};

use medium::Failed;
use ram_block::NoMemory;

/// Why an output wasn't written.
#[derive(Clone, Copy, Debug, PartialEq, Eq)]
pub(crate) enum WriteFault {
    FileFault,
    /// The file holds so many bytes already.
    NotEmpty(u64),
    NoMemory,
}

impl From<Failed> for WriteFault {
    ghost from_gives = { λ _ e. e ≡ file_fault };

    fn from(_: Failed) -> Self {
        WriteFault::FileFault
    }
}

impl From<NoMemory> for WriteFault {
    ghost from_gives = { λ _ e. e ≡ out_of_memory };

    fn from(_: NoMemory) -> Self {
        WriteFault::NoMemory
    }
}
