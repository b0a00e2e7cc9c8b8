ghost use Rattle.std.specs.Prelude.{◌≡◌};
ghost use Rattle.snap_layer.specs.declared.refusal.LayerFault.TheVariants.{Refused as refused};

use device_state::DeviceFault;

/// The first piece of a layer that is wrong, with its place in bytes from the layer's start, and with what stands there.
#[derive(Clone, Copy, Debug, PartialEq, Eq)]
pub enum LayerRefusal {
    /// The layer ends in the piece that begins at this place.
    Truncated { at: u64 },
    Magic(u32),
    Version(u32),
    /// Another number of blocks, or of pages in a block, than the base has.
    Shape { at: u64, v: u32 },
    /// Another clock, or another sum of RAM, than the base has.
    Base { at: u64, v: u64 },
    /// More pages than the base has.
    Count(u32),
    /// A page number that isn't above the one before, or isn't below the total.
    Page { at: u64, v: u32 },
    Section { at: u64, found: u8 },
    Footer { at: u64, found: u8 },
    Device { at: u64, fault: DeviceFault },
    /// Another number of vCPUs than the base has.
    Vcpus(u32),
    /// The layer goes on from this place, where its device text ends.
    Trailing { at: u64 },
    /// The machine of which a layer was asked for came past a limit of a machine at rest. No layer is refused so: the
    /// answer is there for whoever runs a machine to make a layer of it.
    Late { clock: u64 },
}

/// Why no machine was joined.
#[derive(Clone, Copy, Debug, PartialEq, Eq)]
pub enum LayerFault {
    /// Base and layer join to no machine.
    Refused(LayerRefusal),
    NoMemory,
}

impl From<LayerRefusal> for LayerFault {
    ghost from_gives = { λ refusal e. e ≡ refused refusal };

    fn from(refusal: LayerRefusal) -> Self {
        LayerFault::Refused(refusal)
    }
}
