ghost use Rattle.std.specs.Prelude.{◌≡◌, ◌↔◌};

/// A condition of a branch (RISC-V Unprivileged ISA, RV32I, Conditional Branches).
#[derive(Clone, Copy, Debug, PartialEq, Eq)]
pub enum BranchOp {
    Beq,
    Bne,
    Blt,
    Bge,
    Bltu,
    Bgeu,
}

impl BranchOp {
    ghost use Rattle.rv64i_decode.specs.Decode.{branch_op};
    ghost use Rattle.rv64i_decode.specs.Op.{branch_funct3};

    #[tactic(auto, unfolding(crate::specs::Decode::branch_op))]
    #[inline(always)]
    pub(crate) fn of_funct3(funct3: u8) -> Option<BranchOp>
        ensures op { (op : BranchOp) → (result ≡ Some op) ↔ (funct3 ≡ branch_funct3 op) }
        ensures value { result ≡ branch_op funct3 }
    {
        match funct3 {
            0b000 => Some(BranchOp::Beq),
            0b001 => Some(BranchOp::Bne),
            0b100 => Some(BranchOp::Blt),
            0b101 => Some(BranchOp::Bge),
            0b110 => Some(BranchOp::Bltu),
            0b111 => Some(BranchOp::Bgeu),
            _ => None,
        }
    }

    pub(crate) fn funct3(self) -> u8
        ensures { result ≡ branch_funct3 self }
    {
        match self {
            BranchOp::Beq => 0b000,
            BranchOp::Bne => 0b001,
            BranchOp::Blt => 0b100,
            BranchOp::Bge => 0b101,
            BranchOp::Bltu => 0b110,
            BranchOp::Bgeu => 0b111,
        }
    }
}

/// The width and the extension of a load.
#[derive(Clone, Copy, Debug, PartialEq, Eq)]
pub enum LoadOp {
    Lb,
    Lh,
    Lw,
    Ld,
    Lbu,
    Lhu,
    Lwu,
}

impl LoadOp {
    ghost use Rattle.rv64i_decode.specs.Decode.{load_op};
    ghost use Rattle.rv64i_decode.specs.Op.{load_funct3};

    #[tactic(auto, unfolding(crate::specs::Decode::load_op))]
    #[inline(always)]
    pub(crate) fn of_funct3(funct3: u8) -> Option<LoadOp>
        ensures op { (op : LoadOp) → (result ≡ Some op) ↔ (funct3 ≡ load_funct3 op) }
        ensures value { result ≡ load_op funct3 }
    {
        match funct3 {
            0b000 => Some(LoadOp::Lb),
            0b001 => Some(LoadOp::Lh),
            0b010 => Some(LoadOp::Lw),
            0b011 => Some(LoadOp::Ld),
            0b100 => Some(LoadOp::Lbu),
            0b101 => Some(LoadOp::Lhu),
            0b110 => Some(LoadOp::Lwu),
            _ => None,
        }
    }

    pub(crate) fn funct3(self) -> u8
        ensures { result ≡ load_funct3 self }
    {
        match self {
            LoadOp::Lb => 0b000,
            LoadOp::Lh => 0b001,
            LoadOp::Lw => 0b010,
            LoadOp::Ld => 0b011,
            LoadOp::Lbu => 0b100,
            LoadOp::Lhu => 0b101,
            LoadOp::Lwu => 0b110,
        }
    }
}

/// The width of a store.
#[derive(Clone, Copy, Debug, PartialEq, Eq)]
pub enum StoreOp {
    Sb,
    Sh,
    Sw,
    Sd,
}

impl StoreOp {
    ghost use Rattle.rv64i_decode.specs.Decode.{store_op};
    ghost use Rattle.rv64i_decode.specs.Op.{store_funct3};

    #[tactic(auto, unfolding(crate::specs::Decode::store_op))]
    #[inline(always)]
    pub(crate) fn of_funct3(funct3: u8) -> Option<StoreOp>
        ensures op { (op : StoreOp) → (result ≡ Some op) ↔ (funct3 ≡ store_funct3 op) }
        ensures value { result ≡ store_op funct3 }
    {
        match funct3 {
            0b000 => Some(StoreOp::Sb),
            0b001 => Some(StoreOp::Sh),
            0b010 => Some(StoreOp::Sw),
            0b011 => Some(StoreOp::Sd),
            _ => None,
        }
    }

    pub(crate) fn funct3(self) -> u8
        ensures { result ≡ store_funct3 self }
    {
        match self {
            StoreOp::Sb => 0b000,
            StoreOp::Sh => 0b001,
            StoreOp::Sw => 0b010,
            StoreOp::Sd => 0b011,
        }
    }
}

/// An operation on a register and an immediate.
#[derive(Clone, Copy, Debug, PartialEq, Eq)]
pub enum ImmOp {
    Addi,
    Slti,
    Sltiu,
    Xori,
    Ori,
    Andi,
}

impl ImmOp {
    ghost use Rattle.rv64i_decode.specs.Decode.{imm_op};
    ghost use Rattle.rv64i_decode.specs.Op.{imm_funct3};

    #[tactic(auto, unfolding(crate::specs::Decode::imm_op))]
    #[inline(always)]
    pub(crate) fn of_funct3(funct3: u8) -> Option<ImmOp>
        ensures op { (op : ImmOp) → (result ≡ Some op) ↔ (funct3 ≡ imm_funct3 op) }
        ensures value { result ≡ imm_op funct3 }
    {
        match funct3 {
            0b000 => Some(ImmOp::Addi),
            0b010 => Some(ImmOp::Slti),
            0b011 => Some(ImmOp::Sltiu),
            0b100 => Some(ImmOp::Xori),
            0b110 => Some(ImmOp::Ori),
            0b111 => Some(ImmOp::Andi),
            _ => None,
        }
    }

    pub(crate) fn funct3(self) -> u8
        ensures { result ≡ imm_funct3 self }
    {
        match self {
            ImmOp::Addi => 0b000,
            ImmOp::Slti => 0b010,
            ImmOp::Sltiu => 0b011,
            ImmOp::Xori => 0b100,
            ImmOp::Ori => 0b110,
            ImmOp::Andi => 0b111,
        }
    }
}

/// A shift by an amount that the instruction holds.
#[derive(Clone, Copy, Debug, PartialEq, Eq)]
pub enum ShiftOp {
    Left,
    Right,
    RightSigned,
}

impl ShiftOp {
    ghost use Rattle.rv64i_decode.specs.Decode.{shift_op, shift_w_op};
    ghost use Rattle.rv64i_decode.specs.Op.{shift_funct3, shift_funct6, shift_funct7};

    #[tactic(auto, unfolding(crate::specs::Decode::shift_op))]
    #[inline(always)]
    pub(crate) fn of_funct6(funct3: u8, funct6: u8) -> Option<ShiftOp>
        ensures op { (op : ShiftOp) →
            (result ≡ Some op) ↔ ((funct3 ≡ shift_funct3 op) × (funct6 ≡ shift_funct6 op)) }
        ensures value { result ≡ shift_op funct3 funct6 }
    {
        match (funct3, funct6) {
            (0b001, 0b000000) => Some(ShiftOp::Left),
            (0b101, 0b000000) => Some(ShiftOp::Right),
            (0b101, 0b010000) => Some(ShiftOp::RightSigned),
            _ => None,
        }
    }

    #[tactic(auto, unfolding(crate::specs::Decode::shift_w_op))]
    #[inline(always)]
    pub(crate) fn of_funct7(funct3: u8, funct7: u8) -> Option<ShiftOp>
        ensures op { (op : ShiftOp) →
            (result ≡ Some op) ↔ ((funct3 ≡ shift_funct3 op) × (funct7 ≡ shift_funct7 op)) }
        ensures value { result ≡ shift_w_op funct3 funct7 }
    {
        match (funct3, funct7) {
            (0b001, 0b0000000) => Some(ShiftOp::Left),
            (0b101, 0b0000000) => Some(ShiftOp::Right),
            (0b101, 0b0100000) => Some(ShiftOp::RightSigned),
            _ => None,
        }
    }

    pub(crate) fn funct3(self) -> u8
        ensures { result ≡ shift_funct3 self }
    {
        match self {
            ShiftOp::Left => 0b001,
            ShiftOp::Right | ShiftOp::RightSigned => 0b101,
        }
    }

    pub(crate) fn funct6(self) -> u8
        ensures { result ≡ shift_funct6 self }
    {
        match self {
            ShiftOp::Left | ShiftOp::Right => 0b000000,
            ShiftOp::RightSigned => 0b010000,
        }
    }

    pub(crate) fn funct7(self) -> u8
        ensures { result ≡ shift_funct7 self }
    {
        match self {
            ShiftOp::Left | ShiftOp::Right => 0b0000000,
            ShiftOp::RightSigned => 0b0100000,
        }
    }
}

/// An operation on two registers.
#[derive(Clone, Copy, Debug, PartialEq, Eq)]
pub enum RegOp {
    Add,
    Sll,
    Slt,
    Sltu,
    Xor,
    Srl,
    Or,
    And,
    Sub,
    Sra,
}

impl RegOp {
    ghost use Rattle.rv64i_decode.specs.Decode.{reg_op};
    ghost use Rattle.rv64i_decode.specs.Op.{reg_funct3, reg_funct7};

    #[tactic(auto, unfolding(crate::specs::Decode::reg_op))]
    #[inline(always)]
    pub(crate) fn of_functs(funct3: u8, funct7: u8) -> Option<RegOp>
        ensures op { (op : RegOp) →
            (result ≡ Some op) ↔ ((funct3 ≡ reg_funct3 op) × (funct7 ≡ reg_funct7 op)) }
        ensures value { result ≡ reg_op funct3 funct7 }
    {
        match (funct3, funct7) {
            (0b000, 0b0000000) => Some(RegOp::Add),
            (0b001, 0b0000000) => Some(RegOp::Sll),
            (0b010, 0b0000000) => Some(RegOp::Slt),
            (0b011, 0b0000000) => Some(RegOp::Sltu),
            (0b100, 0b0000000) => Some(RegOp::Xor),
            (0b101, 0b0000000) => Some(RegOp::Srl),
            (0b110, 0b0000000) => Some(RegOp::Or),
            (0b111, 0b0000000) => Some(RegOp::And),
            (0b000, 0b0100000) => Some(RegOp::Sub),
            (0b101, 0b0100000) => Some(RegOp::Sra),
            _ => None,
        }
    }

    pub(crate) fn funct3(self) -> u8
        ensures { result ≡ reg_funct3 self }
    {
        match self {
            RegOp::Add | RegOp::Sub => 0b000,
            RegOp::Sll => 0b001,
            RegOp::Slt => 0b010,
            RegOp::Sltu => 0b011,
            RegOp::Xor => 0b100,
            RegOp::Srl | RegOp::Sra => 0b101,
            RegOp::Or => 0b110,
            RegOp::And => 0b111,
        }
    }

    pub(crate) fn funct7(self) -> u8
        ensures { result ≡ reg_funct7 self }
    {
        match self {
            RegOp::Sub | RegOp::Sra => 0b0100000,
            _ => 0b0000000,
        }
    }
}

/// An operation on the low words of two registers.
#[derive(Clone, Copy, Debug, PartialEq, Eq)]
pub enum RegWOp {
    Addw,
    Sllw,
    Srlw,
    Subw,
    Sraw,
}

impl RegWOp {
    ghost use Rattle.rv64i_decode.specs.Decode.{reg_w_op};
    ghost use Rattle.rv64i_decode.specs.Op.{reg_w_funct3, reg_w_funct7};

    #[tactic(auto, unfolding(crate::specs::Decode::reg_w_op))]
    #[inline(always)]
    pub(crate) fn of_functs(funct3: u8, funct7: u8) -> Option<RegWOp>
        ensures op { (op : RegWOp) →
            (result ≡ Some op) ↔ ((funct3 ≡ reg_w_funct3 op) × (funct7 ≡ reg_w_funct7 op)) }
        ensures value { result ≡ reg_w_op funct3 funct7 }
    {
        match (funct3, funct7) {
            (0b000, 0b0000000) => Some(RegWOp::Addw),
            (0b001, 0b0000000) => Some(RegWOp::Sllw),
            (0b101, 0b0000000) => Some(RegWOp::Srlw),
            (0b000, 0b0100000) => Some(RegWOp::Subw),
            (0b101, 0b0100000) => Some(RegWOp::Sraw),
            _ => None,
        }
    }

    pub(crate) fn funct3(self) -> u8
        ensures { result ≡ reg_w_funct3 self }
    {
        match self {
            RegWOp::Addw | RegWOp::Subw => 0b000,
            RegWOp::Sllw => 0b001,
            RegWOp::Srlw | RegWOp::Sraw => 0b101,
        }
    }

    pub(crate) fn funct7(self) -> u8
        ensures { result ≡ reg_w_funct7 self }
    {
        match self {
            RegWOp::Subw | RegWOp::Sraw => 0b0100000,
            _ => 0b0000000,
        }
    }
}

/// What an AMO writes back.
#[derive(Clone, Copy, Debug, PartialEq, Eq)]
pub enum AmoOp {
    Add,
    Swap,
    Xor,
    Or,
    And,
    Min,
    Max,
    Minu,
    Maxu,
}

impl AmoOp {
    ghost use Rattle.rv64i_decode.specs.AmoOp.{amo_funct5};
    ghost use Rattle.rv64i_decode.specs.Decode.{amo_op};

    #[tactic(auto, unfolding(crate::specs::Decode::amo_op))]
    pub(crate) fn of_funct5(funct5: u8) -> Option<AmoOp>
        ensures op { (op : AmoOp) → (result ≡ Some op) ↔ (funct5 ≡ amo_funct5 op) }
        ensures value { result ≡ amo_op funct5 }
    {
        match funct5 {
            0b00000 => Some(AmoOp::Add),
            0b00001 => Some(AmoOp::Swap),
            0b00100 => Some(AmoOp::Xor),
            0b01000 => Some(AmoOp::Or),
            0b01100 => Some(AmoOp::And),
            0b10000 => Some(AmoOp::Min),
            0b10100 => Some(AmoOp::Max),
            0b11000 => Some(AmoOp::Minu),
            0b11100 => Some(AmoOp::Maxu),
            _ => None,
        }
    }

    pub(crate) fn funct5(self) -> u8
        ensures { result ≡ amo_funct5 self }
    {
        match self {
            AmoOp::Add => 0b00000,
            AmoOp::Swap => 0b00001,
            AmoOp::Xor => 0b00100,
            AmoOp::Or => 0b01000,
            AmoOp::And => 0b01100,
            AmoOp::Min => 0b10000,
            AmoOp::Max => 0b10100,
            AmoOp::Minu => 0b11000,
            AmoOp::Maxu => 0b11100,
        }
    }
}
