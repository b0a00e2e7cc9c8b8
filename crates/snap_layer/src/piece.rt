ghost use Rattle.std.specs.Prelude.{◌≡◌, ◌≤◌, ◌+◌, ◌^◌, Ok, Err, IfOk, IfErr, length};
ghost use Rattle.mig_stream.specs.Pieces.{piece_in};
ghost use Rattle.mig_stream.specs.declared.field_fault.FieldFault.TheVariants as fields;
ghost use Rattle.mig_stream.specs.Checks.{number32_in, number64_in};
ghost use Rattle.snap_layer.specs.declared.refusal.LayerRefusal.TheVariants.{Truncated};

use crate::LayerRefusal;
use mig_stream::{be32_at, be64_at};

/// The piece of so many bytes that begins at a place.
pub(crate) fn piece(layer: &[u8], at: usize, len: usize) -> Result<&[u8], LayerRefusal>
    requires { 1 ≤ len }
    ensures whole { IfOk result (λ bytes. piece_in layer.now at len ≡ Ok bytes.now) }
    ensures len { IfOk result (λ bytes. length bytes.now ≡ len) }
    ensures cut { IfErr result (λ refusal. (piece_in layer.now at len ≡ Err (fields.Truncated at)) × (refusal ≡ Truncated at)) }
{
    if layer.len().saturating_sub(at) < len {
        return Err(LayerRefusal::Truncated { at: at as u64 });
    }
    Ok(&layer[at..at + len])
}

/// The number in the four bytes from a place on.
pub(crate) fn number32(layer: &[u8], at: usize) -> Result<u32, LayerRefusal>
    ensures { result ≡ number32_in Truncated layer.now at }
{
    let bytes = piece(layer, at, 4)?;
    Ok(be32_at(bytes, 0))
}

/// The number in the eight bytes from a place on.
pub(crate) fn number64(layer: &[u8], at: usize) -> Result<u64, LayerRefusal>
    ensures { result ≡ number64_in Truncated layer.now at }
{
    let bytes = piece(layer, at, 8)?;
    Ok(be64_at(bytes, 0))
}
