ghost use Rattle.std.specs.Prelude.{◌≡◌, ◌↔◌, IfSome, IsSome};
ghost use Rattle.rv64i_decode.specs.Row.{Row};
ghost use Rattle.rv64i_decode.specs.Valid.{IsValid};

use crate::{Instr, decode, encode};

/// An instruction's word decoded: the same instruction.
pub fn decode_encoded(instr: &Instr) -> Option<Instr>
    requires valid { IsValid instr.now }
    ensures { result ≡ Some instr.now }
{
    decode(encode(instr))
}

/// A word's instruction encoded: the same word, where the word is one.
pub fn encode_decoded(word: u32) -> Option<u32>
    ensures found { IsSome result ↔ ((instr : Instr) × Row word instr) }
    ensures same { IfSome result (λ again. again ≡ word) }
{
    let instr = decode(word)?;
    Some(encode(&instr))
}
