ghost use Rattle.std.specs.Prelude.{◌≡◌, ◌<◌, ◌^◌};

use crate::twos_complement::{low_bits, sign_extend};
use std::marker::Model;

/// The six fields of the R format, into which each word falls.
#[derive(Clone, Copy)]
pub(crate) struct Fields {
    pub(crate) opcode: u8,
    pub(crate) rd: u8,
    pub(crate) funct3: u8,
    pub(crate) rs1: u8,
    pub(crate) rs2: u8,
    pub(crate) funct7: u8,
}

impl Model for Fields {
    ghost use Rattle.rv64i_decode.specs.Word.{WordFields};

    ghost Value = { WordFields };

    ghost view = { λ f. record { opcode = f.opcode; rd = f.rd; funct3 = f.funct3; rs1 = f.rs1; rs2 = f.rs2; funct7 = f.funct7 } };

    ghost inverse = { λ f. record { opcode = f.opcode; rd = f.rd; funct3 = f.funct3; rs1 = f.rs1; rs2 = f.rs2; funct7 = f.funct7 } };
}

impl Fields {
    ghost use Rattle.rv64i_decode.specs.Decode.{fields_of, imm_i, imm_s, imm_b, imm_u, imm_j};
    ghost use Rattle.rv64i_decode.specs.Immediate.{Is12Bit, IsBranchOffset, IsImmediateB, IsImmediateI, IsImmediateJ, IsImmediateS, IsImmediateU, IsJumpOffset, IsUpperImmediate};
    ghost use Rattle.rv64i_decode.specs.Row.{IsB, IsFence, IsI, IsJ, IsR, IsS, IsShift, IsU};
    ghost use Rattle.rv64i_decode.specs.Word.{IsInRange, IsWord};

    /// The fields of a word.
    #[inline(always)]
    pub(crate) fn of_word(word: u32) -> Fields
        ensures sum { IsWord word result }
        ensures fields { result ≡ fields_of word }
    {
        Fields {
            opcode: (word & 0x7f) as u8,
            rd: (word >> 7 & 0x1f) as u8,
            funct3: (word >> 12 & 0x7) as u8,
            rs1: (word >> 15 & 0x1f) as u8,
            rs2: (word >> 20 & 0x1f) as u8,
            funct7: (word >> 25) as u8,
        }
    }

    /// The word with these fields.
    pub(crate) fn word(self) -> u32
        requires { IsInRange self }
        ensures { IsWord result self }
    {
        u32::from(self.opcode)
            + (u32::from(self.rd) << 7)
            + (u32::from(self.funct3) << 12)
            + (u32::from(self.rs1) << 15)
            + (u32::from(self.rs2) << 20)
            + (u32::from(self.funct7) << 25)
    }

    /// The immediate of the I format.
    #[inline(always)]
    pub(crate) fn imm_i(self) -> i64
        requires { IsInRange self }
        ensures row { IsImmediateI self result }
        ensures value { result ≡ imm_i self }
    {
        let bits = u32::from(self.rs2) + (u32::from(self.funct7) << 5);
        sign_extend(bits, 1 << 11)
    }

    /// The immediate of the S format.
    #[inline(always)]
    pub(crate) fn imm_s(self) -> i64
        requires { IsInRange self }
        ensures row { IsImmediateS self result }
        ensures value { result ≡ imm_s self }
    {
        let bits = u32::from(self.rd) + (u32::from(self.funct7) << 5);
        sign_extend(bits, 1 << 11)
    }

    /// The immediate of the B format.
    #[inline(always)]
    pub(crate) fn imm_b(self) -> i64
        requires { IsInRange self }
        ensures row { IsImmediateB self result }
        ensures value { result ≡ imm_b self }
    {
        let imm11 = u32::from(self.rd & 1);
        let imm4_1 = u32::from(self.rd >> 1);
        let imm10_5 = u32::from(self.funct7 & 0x3f);
        let imm12 = u32::from(self.funct7 >> 6);
        let bits = (imm4_1 << 1) + (imm10_5 << 5) + (imm11 << 11) + (imm12 << 12);
        sign_extend(bits, 1 << 12)
    }

    /// The immediate of the U format.
    #[inline(always)]
    pub(crate) fn imm_u(self) -> i64
        requires { IsInRange self }
        ensures row { IsImmediateU self result }
        ensures value { result ≡ imm_u self }
    {
        let bits = (u32::from(self.funct3) << 12)
            + (u32::from(self.rs1) << 15)
            + (u32::from(self.rs2) << 20)
            + (u32::from(self.funct7) << 25);
        sign_extend(bits, 1 << 31)
    }

    /// The immediate of the J format.
    #[inline(always)]
    pub(crate) fn imm_j(self) -> i64
        requires { IsInRange self }
        ensures row { IsImmediateJ self result }
        ensures value { result ≡ imm_j self }
    {
        let imm11 = u32::from(self.rs2 & 1);
        let imm4_1 = u32::from(self.rs2 >> 1);
        let imm10_5 = u32::from(self.funct7 & 0x3f);
        let imm20 = u32::from(self.funct7 >> 6);
        let bits = (imm4_1 << 1)
            + (imm10_5 << 5)
            + (imm11 << 11)
            + (u32::from(self.funct3) << 12)
            + (u32::from(self.rs1) << 15)
            + (imm20 << 20);
        sign_extend(bits, 1 << 20)
    }

    /// The fields of an instruction in the R format.
    pub(crate) fn format_r(opcode: u8, funct3: u8, funct7: u8, rd: u8, rs1: u8, rs2: u8) -> Fields
        requires opcode { opcode < 2 ^ 7 }
        requires funct3 { funct3 < 2 ^ 3 }
        requires funct7 { funct7 < 2 ^ 7 }
        requires rd { rd < 2 ^ 5 }
        requires rs1 { rs1 < 2 ^ 5 }
        requires rs2 { rs2 < 2 ^ 5 }
        ensures is { IsR result opcode funct3 funct7 rd rs1 rs2 }
        ensures in_range { IsInRange result }
    {
        Fields {
            opcode,
            rd,
            funct3,
            rs1,
            rs2,
            funct7,
        }
    }

    /// The fields of an instruction in the I format.
    pub(crate) fn format_i(opcode: u8, funct3: u8, rd: u8, rs1: u8, imm: i64) -> Fields
        requires opcode { opcode < 2 ^ 7 }
        requires funct3 { funct3 < 2 ^ 3 }
        requires rd { rd < 2 ^ 5 }
        requires rs1 { rs1 < 2 ^ 5 }
        requires imm { Is12Bit imm }
        ensures is { IsI result opcode funct3 rd rs1 imm }
        ensures in_range { IsInRange result }
    {
        let bits = low_bits(imm, 1 << 11);
        Fields {
            opcode,
            rd,
            funct3,
            rs1,
            rs2: (bits & 0x1f) as u8,
            funct7: (bits >> 5) as u8,
        }
    }

    /// The fields of an instruction in the S format.
    pub(crate) fn format_s(opcode: u8, funct3: u8, rs1: u8, rs2: u8, imm: i64) -> Fields
        requires opcode { opcode < 2 ^ 7 }
        requires funct3 { funct3 < 2 ^ 3 }
        requires rs1 { rs1 < 2 ^ 5 }
        requires rs2 { rs2 < 2 ^ 5 }
        requires imm { Is12Bit imm }
        ensures is { IsS result opcode funct3 rs1 rs2 imm }
        ensures in_range { IsInRange result }
    {
        let bits = low_bits(imm, 1 << 11);
        Fields {
            opcode,
            rd: (bits & 0x1f) as u8,
            funct3,
            rs1,
            rs2,
            funct7: (bits >> 5) as u8,
        }
    }

    /// The fields of an instruction in the B format.
    pub(crate) fn format_b(opcode: u8, funct3: u8, rs1: u8, rs2: u8, off: i64) -> Fields
        requires opcode { opcode < 2 ^ 7 }
        requires funct3 { funct3 < 2 ^ 3 }
        requires rs1 { rs1 < 2 ^ 5 }
        requires rs2 { rs2 < 2 ^ 5 }
        requires off { IsBranchOffset off }
        ensures is { IsB result opcode funct3 rs1 rs2 off }
        ensures in_range { IsInRange result }
    {
        let bits = low_bits(off, 1 << 12);
        let imm11 = bits >> 11 & 1;
        let imm4_1 = bits >> 1 & 0xf;
        let imm10_5 = bits >> 5 & 0x3f;
        let imm12 = bits >> 12;
        Fields {
            opcode,
            rd: (imm11 + (imm4_1 << 1)) as u8,
            funct3,
            rs1,
            rs2,
            funct7: (imm10_5 + (imm12 << 6)) as u8,
        }
    }

    /// The fields of an instruction in the U format.
    pub(crate) fn format_u(opcode: u8, rd: u8, imm: i64) -> Fields
        requires opcode { opcode < 2 ^ 7 }
        requires rd { rd < 2 ^ 5 }
        requires imm { IsUpperImmediate imm }
        ensures is { IsU result opcode rd imm }
        ensures in_range { IsInRange result }
    {
        let bits = low_bits(imm, 1 << 31);
        Fields {
            opcode,
            rd,
            funct3: (bits >> 12 & 0x7) as u8,
            rs1: (bits >> 15 & 0x1f) as u8,
            rs2: (bits >> 20 & 0x1f) as u8,
            funct7: (bits >> 25) as u8,
        }
    }

    /// The fields of an instruction in the J format.
    pub(crate) fn format_j(opcode: u8, rd: u8, off: i64) -> Fields
        requires opcode { opcode < 2 ^ 7 }
        requires rd { rd < 2 ^ 5 }
        requires off { IsJumpOffset off }
        ensures is { IsJ result opcode rd off }
        ensures in_range { IsInRange result }
    {
        let bits = low_bits(off, 1 << 20);
        let imm11 = bits >> 11 & 1;
        let imm4_1 = bits >> 1 & 0xf;
        let imm10_5 = bits >> 5 & 0x3f;
        let imm20 = bits >> 20;
        Fields {
            opcode,
            rd,
            funct3: (bits >> 12 & 0x7) as u8,
            rs1: (bits >> 15 & 0x1f) as u8,
            rs2: (imm11 + (imm4_1 << 1)) as u8,
            funct7: (imm10_5 + (imm20 << 6)) as u8,
        }
    }

    /// The fields of a shift by a 6-bit amount.
    pub(crate) fn format_shift(
        opcode: u8,
        funct3: u8,
        funct6: u8,
        rd: u8,
        rs1: u8,
        amount: u8,
    ) -> Fields
        requires opcode { opcode < 2 ^ 7 }
        requires funct3 { funct3 < 2 ^ 3 }
        requires funct6 { funct6 < 2 ^ 6 }
        requires rd { rd < 2 ^ 5 }
        requires rs1 { rs1 < 2 ^ 5 }
        requires amount { amount < 2 ^ 6 }
        ensures is { IsShift result opcode funct3 funct6 rd rs1 amount }
        ensures in_range { IsInRange result }
    {
        Fields {
            opcode,
            rd,
            funct3,
            rs1,
            rs2: amount & 0x1f,
            funct7: (amount >> 5) + (funct6 << 1),
        }
    }

    /// The fields of a fence, whose 12 bits are free.
    pub(crate) fn format_fence(opcode: u8, funct3: u8, rd: u8, rs1: u8, bits: u16) -> Fields
        requires opcode { opcode < 2 ^ 7 }
        requires funct3 { funct3 < 2 ^ 3 }
        requires rd { rd < 2 ^ 5 }
        requires rs1 { rs1 < 2 ^ 5 }
        requires bits { bits < 2 ^ 12 }
        ensures is { IsFence result opcode funct3 rd rs1 bits }
        ensures in_range { IsInRange result }
    {
        Fields {
            opcode,
            rd,
            funct3,
            rs1,
            rs2: (bits & 0x1f) as u8,
            funct7: (bits >> 5) as u8,
        }
    }
}
