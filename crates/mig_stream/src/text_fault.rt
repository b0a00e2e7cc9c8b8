use crate::FieldFault;

/// Why a piece is not the text that was expected.
#[derive(Clone, Copy, Debug, PartialEq, Eq)]
pub enum TextFault {
    /// The piece could not be read.
    Field(FieldFault),
    /// The first byte that differs, with its place.
    Differs { at: u64, found: u8 },
}
