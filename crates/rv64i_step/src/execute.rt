ghost use Rattle.std.specs.Prelude.{◌≡◌, ◌<◌, ◌≤◌, ◌+◌, ◌-◌, ◌%◌, ◌^◌, ℤ, ℕ, None, if◌then◌else◌};
ghost use Rattle.ram_block.specs.AddressMap.{located};
ghost use Rattle.ram_block.specs.declared.cause.Cause.TheVariants as causes;
ghost use Rattle.rv64i_decode.specs.Valid.{IsValid};
ghost use Rattle.rv64i_step.specs.Access.{AccessesMemory, load_width, store_width, amo_width};
ghost use Rattle.rv64i_step.specs.Arithmetic.{bits64, sum64, low_word, extended_word, imm_result, shift_result, shift_w_result, reg_result, reg_w_result, is_taken};
ghost use Rattle.rv64i_step.specs.Execute.{address_of, aimed, even, executed, jumps};
ghost use Rattle.rv64i_step.specs.Vcpu.{IsReady, IsVcpu, finished, halted, next_pc, reg_of, with_reg, writes};

use crate::arithmetic::{
    imm_value, reg_value, reg_w_value, shift_value, shift_w_value, sign_extended, takes_branch,
    word_in,
};
use crate::{Access, State, Vcpu};
use ram_block::{Cause, Shape, Way, Width};
use rv64i_decode::{BranchOp, ImmOp, Instr, LoadOp, RegOp, RegWOp, ShiftOp, StoreOp};

impl Vcpu {
    /// Carries out a fetched instruction, or makes its access pending.
    #[tactic(auto, unfolding(crate::specs::Execute::executed))]
    #[inline(always)]
    pub(crate) fn execute(&mut self, shape: &Shape, instr: Instr)
        requires ready { IsReady self.old }
        requires valid { IsValid instr }
        ensures event { self.new ≡ executed shape.now self.old instr }
        ensures steps { self.new.steps ≤ self.old.steps + 1 }
        ensures limits { IsVcpu self.new }
    {
        match instr {
            Instr::Lui { rd, imm } => self.write_result(rd, imm.cast_unsigned()),
            Instr::Auipc { rd, imm } => self.write_result(rd, self.pc.wrapping_add_signed(imm)),
            Instr::Jal { rd, off } => self.jump(rd, self.pc.wrapping_add_signed(off)),
            Instr::Jalr { rd, rs1, off } => self.jump_to_register(rd, rs1, off),
            Instr::Branch { op, rs1, rs2, off } => self.branch(op, rs1, rs2, off),
            Instr::Load { op, rs1, off, .. } => {
                let address = self.address(rs1, off);
                self.aim(shape, instr, address, width_of_load(op), Way::Load);
            }
            Instr::Store { op, rs1, off, .. } => {
                let address = self.address(rs1, off);
                self.aim(shape, instr, address, width_of_store(op), Way::Store);
            }
            Instr::Imm { op, rd, rs1, imm } => self.operate_imm(op, rd, rs1, imm),
            Instr::Shift {
                op,
                rd,
                rs1,
                amount,
            } => self.shift(op, rd, rs1, amount),
            Instr::ImmW { rd, rs1, imm } => self.add_imm_word(rd, rs1, imm),
            Instr::ShiftW {
                op,
                rd,
                rs1,
                amount,
            } => self.shift_word(op, rd, rs1, amount),
            Instr::Op { op, rd, rs1, rs2 } => self.operate(op, rd, rs1, rs2),
            Instr::OpW { op, rd, rs1, rs2 } => self.operate_words(op, rd, rs1, rs2),
            Instr::Fence { .. } => self.go_on(),
            Instr::Ecall => self.halt(Cause::Ecall),
            Instr::Ebreak => self.halt(Cause::Ebreak),
            Instr::Amo { wide, rs1, .. } => {
                let address = self.read(rs1);
                self.aim(shape, instr, address, width_of_amo(wide), Way::Amo);
            }
        }
    }

    /// The value of a register.
    #[inline(always)]
    pub(crate) fn read(&self, i: u8) -> u64
        requires { i < 32 }
        ensures { result ≡ reg_of self.now i }
    {
        self.reg(u32::from(i))
    }

    /// Writes a register. A write to x0 vanishes.
    #[inline(always)]
    pub(crate) fn write(&mut self, i: u8, value: u64)
        requires { i < 32 }
        ensures event { self.new ≡ with_reg self.old i value }
        ensures limits { IsVcpu self.new }
    {
        let regs = &mut self.regs;
        if i != 0 {
            regs[i as usize - 1] = value;
        }
    }

    /// The instruction is finished, and the next one is at this address.
    #[inline(always)]
    pub(crate) fn go_on_from(&mut self, pc: u64)
        requires { self.old.steps < 2 ^ 63 }
        ensures event { self.new ≡ finished self.old pc }
        ensures limits { IsVcpu self.new }
    {
        self.pc = pc;
        self.steps += 1;
    }

    /// The instruction is finished, and the next one follows in memory.
    #[inline(always)]
    pub(crate) fn go_on(&mut self)
        requires { self.old.steps < 2 ^ 63 }
        ensures event { self.new ≡ finished self.old (next_pc self.old) }
        ensures limits { IsVcpu self.new }
    {
        let next = self.pc.wrapping_add(4);
        self.go_on_from(next);
    }

    /// The instruction is finished with this result.
    #[inline(always)]
    pub(crate) fn write_result(&mut self, rd: u8, value: u64)
        requires steps { self.old.steps < 2 ^ 63 }
        requires rd { rd < 32 }
        ensures event { self.new ≡ writes self.old rd value }
        ensures limits { IsVcpu self.new }
    {
        let next = self.pc.wrapping_add(4);
        self.write(rd, value);
        self.go_on_from(next);
    }

    /// The instruction halts the vCPU, and changes nothing else.
    #[inline(always)]
    pub(crate) fn halt(&mut self, cause: Cause)
        requires { self.old.pending ≡ None }
        ensures event { self.new ≡ halted self.old cause }
        ensures limits { IsVcpu self.new }
    {
        self.state = State::Halted(cause);
    }

    #[inline(always)]
    fn address(&self, rs1: u8, off: i64) -> u64
        requires { rs1 < 32 }
        ensures { result ≡ address_of self.now rs1 off }
    {
        self.read(rs1).wrapping_add_signed(off)
    }

    // Makes an access pending, or halts.
    #[inline(always)]
    fn aim(&mut self, shape: &Shape, instr: Instr, address: u64, width: Width, way: Way)
        requires ready { IsReady self.old }
        requires valid { IsValid instr }
        requires kind { AccessesMemory instr }
        ensures event { self.new ≡ aimed self.old instr (located shape.now address width way) }
        ensures limits { IsVcpu self.new }
    {
        match shape.locate(address, width, way) {
            Ok(place) => self.pending = Some(Access { instr, place }),
            Err(cause) => self.halt(cause),
        }
    }

    // A jump that keeps where it came from in rd.
    #[inline(always)]
    fn jump(&mut self, rd: u8, target: u64)
        requires ready { IsReady self.old }
        requires rd { rd < 32 }
        ensures event { self.new ≡ jumps self.old (with_reg self.old rd (next_pc self.old)) target }
        ensures limits { IsVcpu self.new }
    {
        if target % 4 != 0 {
            self.halt(Cause::JumpMisaligned);
            return;
        }
        let next = self.pc.wrapping_add(4);
        self.write(rd, next);
        self.go_on_from(target);
    }

    #[inline(always)]
    fn jump_to_register(&mut self, rd: u8, rs1: u8, off: i64)
        requires ready { IsReady self.old }
        requires rd { rd < 32 }
        requires rs1 { rs1 < 32 }
        ensures event { self.new ≡ jumps self.old (with_reg self.old rd (next_pc self.old)) (even (address_of self.old rs1 off)) }
        ensures limits { IsVcpu self.new }
    {
        let target = self.address(rs1, off);
        self.jump(rd, target - target % 2);
    }

    #[inline(always)]
    fn branch(&mut self, op: BranchOp, rs1: u8, rs2: u8, off: i64)
        requires ready { IsReady self.old }
        requires rs1 { rs1 < 32 }
        requires rs2 { rs2 < 32 }
        ensures limits { IsVcpu self.new }
        ensures event { self.new ≡ (if is_taken op (reg_of self.old rs1) (reg_of self.old rs2)
            then jumps self.old self.old (sum64 self.old.pc (bits64 off)) else finished self.old (next_pc self.old)) }
    {
        let target = self.pc.wrapping_add_signed(off);
        if !takes_branch(op, self.read(rs1), self.read(rs2)) {
            self.go_on();
        } else if target % 4 != 0 {
            self.halt(Cause::JumpMisaligned);
        } else {
            self.go_on_from(target);
        }
    }

    #[inline(always)]
    fn operate_imm(&mut self, op: ImmOp, rd: u8, rs1: u8, imm: i64)
        requires steps { self.old.steps < 2 ^ 63 }
        requires rd { rd < 32 }
        requires rs1 { rs1 < 32 }
        ensures event { self.new ≡ writes self.old rd (imm_result op (reg_of self.old rs1) (bits64 imm)) }
        ensures limits { IsVcpu self.new }
    {
        let value = imm_value(op, self.read(rs1), imm.cast_unsigned());
        self.write_result(rd, value);
    }

    #[inline(always)]
    fn add_imm_word(&mut self, rd: u8, rs1: u8, imm: i64)
        requires steps { self.old.steps < 2 ^ 63 }
        requires rd { rd < 32 }
        requires rs1 { rs1 < 32 }
        ensures event { self.new ≡ writes self.old rd (extended_word (low_word (sum64 (reg_of self.old rs1) (bits64 imm)))) }
        ensures limits { IsVcpu self.new }
    {
        let sum = word_in(self.address(rs1, imm));
        self.write_result(rd, sign_extended(sum));
    }

    #[inline(always)]
    fn shift(&mut self, op: ShiftOp, rd: u8, rs1: u8, amount: u8)
        requires steps { self.old.steps < 2 ^ 63 }
        requires rd { rd < 32 }
        requires rs1 { rs1 < 32 }
        requires amount { amount < 64 }
        ensures event { self.new ≡ writes self.old rd (shift_result op (reg_of self.old rs1) amount) }
        ensures limits { IsVcpu self.new }
    {
        let value = shift_value(op, self.read(rs1), amount);
        self.write_result(rd, value);
    }

    #[inline(always)]
    fn shift_word(&mut self, op: ShiftOp, rd: u8, rs1: u8, amount: u8)
        requires steps { self.old.steps < 2 ^ 63 }
        requires rd { rd < 32 }
        requires rs1 { rs1 < 32 }
        requires amount { amount < 32 }
        ensures event { self.new ≡ writes self.old rd (extended_word (shift_w_result op (low_word (reg_of self.old rs1)) amount)) }
        ensures limits { IsVcpu self.new }
    {
        let word = shift_w_value(op, word_in(self.read(rs1)), amount);
        self.write_result(rd, sign_extended(word));
    }

    #[inline(always)]
    fn operate(&mut self, op: RegOp, rd: u8, rs1: u8, rs2: u8)
        requires steps { self.old.steps < 2 ^ 63 }
        requires rd { rd < 32 }
        requires rs1 { rs1 < 32 }
        requires rs2 { rs2 < 32 }
        ensures event { self.new ≡ writes self.old rd (reg_result op (reg_of self.old rs1) (reg_of self.old rs2)) }
        ensures limits { IsVcpu self.new }
    {
        let value = reg_value(op, self.read(rs1), self.read(rs2));
        self.write_result(rd, value);
    }

    #[inline(always)]
    fn operate_words(&mut self, op: RegWOp, rd: u8, rs1: u8, rs2: u8)
        requires steps { self.old.steps < 2 ^ 63 }
        requires rd { rd < 32 }
        requires rs1 { rs1 < 32 }
        requires rs2 { rs2 < 32 }
        ensures event { self.new ≡ writes self.old rd (extended_word (reg_w_result op (low_word (reg_of self.old rs1)) (low_word (reg_of self.old rs2)))) }
        ensures limits { IsVcpu self.new }
    {
        let word = reg_w_value(op, word_in(self.read(rs1)), word_in(self.read(rs2)));
        self.write_result(rd, sign_extended(word));
    }
}

/// How many bytes a load moves.
#[inline(always)]
pub(crate) fn width_of_load(op: LoadOp) -> Width
    ensures { result ≡ load_width op }
{
    match op {
        LoadOp::Lb | LoadOp::Lbu => Width::One,
        LoadOp::Lh | LoadOp::Lhu => Width::Two,
        LoadOp::Lw | LoadOp::Lwu => Width::Four,
        LoadOp::Ld => Width::Eight,
    }
}

/// How many bytes a store moves.
#[inline(always)]
pub(crate) fn width_of_store(op: StoreOp) -> Width
    ensures { result ≡ store_width op }
{
    match op {
        StoreOp::Sb => Width::One,
        StoreOp::Sh => Width::Two,
        StoreOp::Sw => Width::Four,
        StoreOp::Sd => Width::Eight,
    }
}

/// How many bytes an AMO moves.
#[inline(always)]
pub(crate) fn width_of_amo(wide: bool) -> Width
    ensures { result ≡ amo_width wide }
{
    if wide { Width::Eight } else { Width::Four }
}
