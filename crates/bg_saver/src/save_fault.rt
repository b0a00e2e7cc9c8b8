ghost use Rattle.std.specs.Prelude.{◌≡◌};
ghost use Rattle.bg_saver.specs.declared.save_fault.SaveFault.TheVariants.{FileFault as file_fault, NoMemory as out_of_memory};

use medium::Failed;
use ram_block::NoMemory;

/// Why a save didn't begin.
#[derive(Clone, Copy, Debug, PartialEq, Eq)]
pub enum SaveFault {
    /// A call on the file failed.
    FileFault,
    /// The file has this many bytes.
    NotEmpty(u64),
    NoMemory,
}

impl From<Failed> for SaveFault {
    ghost from_gives = { λ _ e. e ≡ file_fault };

    fn from(_: Failed) -> Self {
        SaveFault::FileFault
    }
}

impl From<NoMemory> for SaveFault {
    ghost from_gives = { λ _ e. e ≡ out_of_memory };

    fn from(_: NoMemory) -> Self {
        SaveFault::NoMemory
    }
}
