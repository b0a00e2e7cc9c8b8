/// Why a piece could not be read.
#[derive(Clone, Copy, Debug, PartialEq, Eq)]
pub enum FieldFault {
    /// The file ends in the piece that begins at this place.
    Truncated { at: u64 },
    /// A call of the medium failed.
    ReadFault,
}
