use super::*;
use ram_block::{Cause, Place, Shape, Width};
use rv64i_decode::AmoOp;
use std::test::Fail;

// Each instruction stands here, after nine others.
const PC: u64 = 0x8000_0100;

const STEPS: u64 = 9;

const FOLLOWING: u64 = 0x8000_0104;

// The address in x5 of the tables of accesses: place 16 in page 1.
const CELL: u64 = 0x8000_1010;

// What is in x7 before each instruction.
const BEFORE: u64 = 7;

// The words are those that an outside assembler makes of the statements.

// Word, statement, x5 and x6, and what is in x7 when the instruction is finished.
#[rattlefmt::skip]
static RESULTS: [(u32, &str, [u64; 2], u64); 71] = [
    (0x123453b7, "lui x7, 0x12345", [0, 0], 0x12345000),
    (0x800003b7, "lui x7, 0x80000", [0, 0], 0xffffffff80000000),
    (0x12345037, "lui x0, 0x12345", [0, 0], 7),
    (0x00001397, "auipc x7, 0x1", [0, 0], 0x80001100),
    (0x80000397, "auipc x7, 0x80000", [0, 0], 0x100),
    (0xfffff397, "auipc x7, 0xfffff", [0, 0], 0x7ffff100),
    (0xfff28393, "addi x7, x5, -1", [0, 0], 0xffffffffffffffff),
    (0x7ff28393, "addi x7, x5, 2047", [0xffffffffffffffff, 0], 0x7fe),
    (0x00500393, "addi x7, x0, 5", [0xffffffffffffffff, 0xffffffffffffffff], 5),
    (0x00138393, "addi x7, x7, 1", [0, 0], 8),
    (0x00128013, "addi x0, x5, 1", [5, 0], 7),
    (0xfff2a393, "slti x7, x5, -1", [0x8000000000000000, 0], 1),
    (0xfff2a393, "slti x7, x5, -1", [0, 0], 0),
    (0x0052a393, "slti x7, x5, 5", [5, 0], 0),
    (0xfff2b393, "sltiu x7, x5, -1", [0xfffffffffffffffe, 0], 1),
    (0xfff2b393, "sltiu x7, x5, -1", [0xffffffffffffffff, 0], 0),
    (0x0012b393, "sltiu x7, x5, 1", [0, 0], 1),
    (0xfff2c393, "xori x7, x5, -1", [0xff00ff00ff00ff, 0], 0xff00ff00ff00ff00),
    (0x8002e393, "ori x7, x5, -2048", [0, 0], 0xfffffffffffff800),
    (0xff02f393, "andi x7, x5, -16", [0x123456789abcdeff, 0], 0x123456789abcdef0),
    (0x03f29393, "slli x7, x5, 63", [3, 0], 0x8000000000000000),
    (0x02029393, "slli x7, x5, 32", [0xffffffff80000001, 0], 0x8000000100000000),
    (0x03f2d393, "srli x7, x5, 63", [0x8000000000000000, 0], 1),
    (0x0042d393, "srli x7, x5, 4", [0xf000000000000000, 0], 0xf00000000000000),
    (0x43f2d393, "srai x7, x5, 63", [0x8000000000000000, 0], 0xffffffffffffffff),
    (0x43f2d393, "srai x7, x5, 63", [0x7fffffffffffffff, 0], 0),
    (0x4042d393, "srai x7, x5, 4", [0xf000000000000000, 0], 0xff00000000000000),
    (0x0012839b, "addiw x7, x5, 1", [0x7fffffff, 0], 0xffffffff80000000),
    (0x0012839b, "addiw x7, x5, 1", [0xffffffff, 0], 0),
    (0x0002839b, "addiw x7, x5, 0", [0x123456780fffffff, 0], 0xfffffff),
    (0xfff2839b, "addiw x7, x5, -1", [0, 0], 0xffffffffffffffff),
    (0x01f2939b, "slliw x7, x5, 31", [1, 0], 0xffffffff80000000),
    (0x0042939b, "slliw x7, x5, 4", [0xf0000001, 0], 16),
    (0x0012d39b, "srliw x7, x5, 1", [0xffffffff80000000, 0], 0x40000000),
    (0x0002d39b, "srliw x7, x5, 0", [0x80000000, 0], 0xffffffff80000000),
    (0x41f2d39b, "sraiw x7, x5, 31", [0x80000000, 0], 0xffffffffffffffff),
    (0x41f2d39b, "sraiw x7, x5, 31", [0xffffffff7fffffff, 0], 0),
    (0x4042d39b, "sraiw x7, x5, 4", [0x1f0000000, 0], 0xffffffffff000000),
    (0x006283b3, "add x7, x5, x6", [0xffffffffffffffff, 1], 0),
    (0x006283b3, "add x7, x5, x6", [0x7fffffffffffffff, 1], 0x8000000000000000),
    (0x000283b3, "add x7, x5, x0", [9, 1], 9),
    (0x406283b3, "sub x7, x5, x6", [0, 1], 0xffffffffffffffff),
    (0x406283b3, "sub x7, x5, x6", [0x8000000000000000, 1], 0x7fffffffffffffff),
    (0x006293b3, "sll x7, x5, x6", [1, 63], 0x8000000000000000),
    (0x006293b3, "sll x7, x5, x6", [1, 64], 1),
    (0x006293b3, "sll x7, x5, x6", [3, 0xffffffffffffffff], 0x8000000000000000),
    (0x0062a3b3, "slt x7, x5, x6", [0xffffffffffffffff, 0], 1),
    (0x0062a3b3, "slt x7, x5, x6", [0, 0x8000000000000000], 0),
    (0x0062a3b3, "slt x7, x5, x6", [5, 5], 0),
    (0x0062b3b3, "sltu x7, x5, x6", [0xffffffffffffffff, 0], 0),
    (0x0062b3b3, "sltu x7, x5, x6", [0, 0xffffffffffffffff], 1),
    (0x0062c3b3, "xor x7, x5, x6", [0xff00ff00ff00ff00, 0xff00ff00ff00ff0], 0xf0f0f0f0f0f0f0f0),
    (0x0062e3b3, "or x7, x5, x6", [0xf000000000000000, 15], 0xf00000000000000f),
    (0x0062f3b3, "and x7, x5, x6", [0xff00ff00ff00ff00, 0xff00ff00ff00ff0], 0xf000f000f000f00),
    (0x0062d3b3, "srl x7, x5, x6", [0x8000000000000000, 63], 1),
    (0x0062d3b3, "srl x7, x5, x6", [0xffffffffffffffff, 64], 0xffffffffffffffff),
    (0x4062d3b3, "sra x7, x5, x6", [0x8000000000000000, 63], 0xffffffffffffffff),
    (0x4062d3b3, "sra x7, x5, x6", [0x8000000000000000, 65], 0xc000000000000000),
    (0x006283bb, "addw x7, x5, x6", [0x7fffffff, 1], 0xffffffff80000000),
    (0x006283bb, "addw x7, x5, x6", [0xffffffff, 1], 0),
    (0x006283bb, "addw x7, x5, x6", [0x100000001, 1], 2),
    (0x406283bb, "subw x7, x5, x6", [0, 1], 0xffffffffffffffff),
    (0x406283bb, "subw x7, x5, x6", [0x80000000, 1], 0x7fffffff),
    (0x006293bb, "sllw x7, x5, x6", [1, 31], 0xffffffff80000000),
    (0x006293bb, "sllw x7, x5, x6", [1, 32], 1),
    (0x0062d3bb, "srlw x7, x5, x6", [0x80000000, 31], 1),
    (0x0062d3bb, "srlw x7, x5, x6", [0xffffffff80000000, 32], 0xffffffff80000000),
    (0x4062d3bb, "sraw x7, x5, x6", [0x80000000, 31], 0xffffffffffffffff),
    (0x4062d3bb, "sraw x7, x5, x6", [0x80000000, 4], 0xfffffffff8000000),
    (0x4062d3bb, "sraw x7, x5, x6", [0x40000000, 36], 0x4000000),
    (0x0ff0000f, "fence", [0, 0], 7),
];

// Word, statement, x5 and x6, and where it goes on with what in x7; none where it halts.
#[rattlefmt::skip]
static JUMPS: [(u32, &str, [u64; 2], Option<(u64, u64)>); 31] = [
    (0x010003ef, "jal x7, 16", [0, 0], Some((0x80000110, 0x80000104))),
    (0xf01ff3ef, "jal x7, -256", [0, 0], Some((0x80000000, 0x80000104))),
    (0x0080006f, "jal x0, 8", [0, 0], Some((0x80000108, 7))),
    (0x000ff3ef, "jal x7, 1044480", [0, 0], Some((0x800ff100, 0x80000104))),
    (0x002003ef, "jal x7, 2", [0, 0], None),
    (0xffbff06f, "jal x0, -6", [0, 0], None),
    (0x004283e7, "jalr x7, 4(x5)", [0x80000200, 0], Some((0x80000204, 0x80000104))),
    (0x001283e7, "jalr x7, 1(x5)", [0x80000200, 0], Some((0x80000200, 0x80000104))),
    (0xfff283e7, "jalr x7, -1(x5)", [0x80000205, 0], Some((0x80000204, 0x80000104))),
    (0x001383e7, "jalr x7, 1(x7)", [0, 0], Some((8, 0x80000104))),
    (0x004282e7, "jalr x5, 4(x5)", [0x80000200, 0], Some((0x80000204, 7))),
    (0x003283e7, "jalr x7, 3(x5)", [0x80000200, 0], None),
    (0x00028067, "jalr x0, 0(x5)", [0x80000300, 0], Some((0x80000300, 7))),
    (0x00628463, "beq x5, x6, 8", [5, 5], Some((0x80000108, 7))),
    (0xfe628ce3, "beq x5, x6, -8", [5, 5], Some((0x800000f8, 7))),
    (0x00628463, "beq x5, x6, 8", [5, 6], Some((0x80000104, 7))),
    (0x00628163, "beq x5, x6, 2", [5, 5], None),
    (0x00628163, "beq x5, x6, 2", [5, 6], Some((0x80000104, 7))),
    (0x00629463, "bne x5, x6, 8", [5, 6], Some((0x80000108, 7))),
    (0x00629463, "bne x5, x6, 8", [5, 5], Some((0x80000104, 7))),
    (0x0062c463, "blt x5, x6, 8", [0xffffffffffffffff, 0], Some((0x80000108, 7))),
    (0x0062c463, "blt x5, x6, 8", [0, 0xffffffffffffffff], Some((0x80000104, 7))),
    (0x0062c463, "blt x5, x6, 8", [5, 5], Some((0x80000104, 7))),
    (0x0062d463, "bge x5, x6, 8", [0, 0xffffffffffffffff], Some((0x80000108, 7))),
    (0x0062d463, "bge x5, x6, 8", [5, 5], Some((0x80000108, 7))),
    (0x0062d363, "bge x5, x6, 6", [0xffffffffffffffff, 0], Some((0x80000104, 7))),
    (0x0062e463, "bltu x5, x6, 8", [0, 0xffffffffffffffff], Some((0x80000108, 7))),
    (0x0062e463, "bltu x5, x6, 8", [0xffffffffffffffff, 0], Some((0x80000104, 7))),
    (0x0062f463, "bgeu x5, x6, 8", [0xffffffffffffffff, 0], Some((0x80000108, 7))),
    (0x0062f463, "bgeu x5, x6, 8", [5, 5], Some((0x80000108, 7))),
    (0x0062f463, "bgeu x5, x6, 8", [0, 0xffffffffffffffff], Some((0x80000104, 7))),
];

// Word, statement, width, place in the page of x5, what the cell gives, and what is then in x7.
#[rattlefmt::skip]
static LOADS: [(u32, &str, Width, u32, u64, u64); 9] = [
    (0xff028383, "lb x7, -16(x5)", Width::One, 0, 0x80, 0xffffffffffffff80),
    (0x00128383, "lb x7, 1(x5)", Width::One, 17, 127, 127),
    (0x0002c383, "lbu x7, 0(x5)", Width::One, 16, 0x80, 0x80),
    (0x00229383, "lh x7, 2(x5)", Width::Two, 18, 0x8000, 0xffffffffffff8000),
    (0x0022d383, "lhu x7, 2(x5)", Width::Two, 18, 0x8000, 0x8000),
    (0x0042a383, "lw x7, 4(x5)", Width::Four, 20, 0x80000001, 0xffffffff80000001),
    (0x0042e383, "lwu x7, 4(x5)", Width::Four, 20, 0x80000001, 0x80000001),
    (0x0082b383, "ld x7, 8(x5)", Width::Eight, 24, 0x8000000000000001, 0x8000000000000001),
    (0x0002a003, "lw x0, 0(x5)", Width::Four, 16, 5, 7),
];

// Word, statement, width, place in the page of x5, x6, and the value stored.
#[rattlefmt::skip]
static STORES: [(u32, &str, Width, u32, u64, u64); 5] = [
    (0xfe628823, "sb x6, -16(x5)", Width::One, 0, 0xffffffffffffff80, 0x80),
    (0x00629123, "sh x6, 2(x5)", Width::Two, 18, 0x123456789abcdef0, 0xdef0),
    (0x0062a223, "sw x6, 4(x5)", Width::Four, 20, 0xffffffff80000000, 0x80000000),
    (0x0062b423, "sd x6, 8(x5)", Width::Eight, 24, 0xffffffffffffffff, 0xffffffffffffffff),
    (0x0002b423, "sd x0, 8(x5)", Width::Eight, 24, 0xffffffffffffffff, 0),
];

// Word, statement, operation and width, the value found and x6, and then x7 and the value written.
#[rattlefmt::skip]
static AMOS: [(u32, &str, AmoOp, Width, [u64; 2], [u64; 2]); 24] = [
    (0x0062a3af, "amoadd.w x7, x6, (x5)", AmoOp::Add, Width::Four, [0x7fffffff, 1], [0x7fffffff, 0x80000000]),
    (0x0062a3af, "amoadd.w x7, x6, (x5)", AmoOp::Add, Width::Four, [0xffffffff, 0x100000001], [0xffffffffffffffff, 0]),
    (0x0862a3af, "amoswap.w x7, x6, (x5)", AmoOp::Swap, Width::Four, [0x80000000, 0xffffffff00000005], [0xffffffff80000000, 5]),
    (0x2062a3af, "amoxor.w x7, x6, (x5)", AmoOp::Xor, Width::Four, [0xff00ff00, 0xff00ff0], [0xffffffffff00ff00, 0xf0f0f0f0]),
    (0x4062a3af, "amoor.w x7, x6, (x5)", AmoOp::Or, Width::Four, [0xf0000000, 15], [0xfffffffff0000000, 0xf000000f]),
    (0x6062a3af, "amoand.w x7, x6, (x5)", AmoOp::And, Width::Four, [0xff00ff00, 0xffffffffffffffff], [0xffffffffff00ff00, 0xff00ff00]),
    (0x8062a3af, "amomin.w x7, x6, (x5)", AmoOp::Min, Width::Four, [0x80000000, 0], [0xffffffff80000000, 0x80000000]),
    (0x8062a3af, "amomin.w x7, x6, (x5)", AmoOp::Min, Width::Four, [1, 0xffffffffffffffff], [1, 0xffffffff]),
    (0xa062a3af, "amomax.w x7, x6, (x5)", AmoOp::Max, Width::Four, [0x80000000, 0], [0xffffffff80000000, 0]),
    (0xa062a3af, "amomax.w x7, x6, (x5)", AmoOp::Max, Width::Four, [1, 0xffffffffffffffff], [1, 1]),
    (0xc062a3af, "amominu.w x7, x6, (x5)", AmoOp::Minu, Width::Four, [0x80000000, 1], [0xffffffff80000000, 1]),
    (0xe062a3af, "amomaxu.w x7, x6, (x5)", AmoOp::Maxu, Width::Four, [1, 0xffffffffffffffff], [1, 0xffffffff]),
    (0x0062b3af, "amoadd.d x7, x6, (x5)", AmoOp::Add, Width::Eight, [0xffffffffffffffff, 2], [0xffffffffffffffff, 1]),
    (0x0e62b3af, "amoswap.d.aqrl x7, x6, (x5)", AmoOp::Swap, Width::Eight, [5, 9], [5, 9]),
    (0x2062b3af, "amoxor.d x7, x6, (x5)", AmoOp::Xor, Width::Eight, [0xffffffffffffffff, 15], [0xffffffffffffffff, 0xfffffffffffffff0]),
    (0x4062b3af, "amoor.d x7, x6, (x5)", AmoOp::Or, Width::Eight, [0x8000000000000000, 1], [0x8000000000000000, 0x8000000000000001]),
    (0x6062b3af, "amoand.d x7, x6, (x5)", AmoOp::And, Width::Eight, [0xffffffffffffffff, 0x7fffffffffffffff], [0xffffffffffffffff, 0x7fffffffffffffff]),
    (0x8062b3af, "amomin.d x7, x6, (x5)", AmoOp::Min, Width::Eight, [0x8000000000000000, 0], [0x8000000000000000, 0x8000000000000000]),
    (0x8062b3af, "amomin.d x7, x6, (x5)", AmoOp::Min, Width::Eight, [0, 0x8000000000000000], [0, 0x8000000000000000]),
    (0xa062b3af, "amomax.d x7, x6, (x5)", AmoOp::Max, Width::Eight, [0x8000000000000000, 0], [0x8000000000000000, 0]),
    (0xc062b3af, "amominu.d x7, x6, (x5)", AmoOp::Minu, Width::Eight, [0x8000000000000000, 1], [0x8000000000000000, 1]),
    (0xe062b3af, "amomaxu.d x7, x6, (x5)", AmoOp::Maxu, Width::Eight, [0x8000000000000000, 1], [0x8000000000000000, 0x8000000000000000]),
    (0xe072b3af, "amomaxu.d x7, x7, (x5)", AmoOp::Maxu, Width::Eight, [3, 0], [3, 7]),
    (0x0062b2af, "amoadd.d x5, x6, (x5)", AmoOp::Add, Width::Eight, [3, 4], [7, 7]),
];

// Word, statement, x5, and why it halts.
#[rattlefmt::skip]
static HALTS: [(u32, &str, u64, Cause); 12] = [
    (0x00000073, "ecall", 0, Cause::Ecall),
    (0x00100073, "ebreak", 0, Cause::Ebreak),
    (0x00000000, ".word 0", 0, Cause::Illegal),
    (0x0002a383, "lw x7, 0(x5)", 0x80001002, Cause::LoadMisaligned),
    (0x00029383, "lh x7, 0(x5)", 1, Cause::LoadMisaligned),
    (0x0002a383, "lw x7, 0(x5)", 0, Cause::LoadOutside),
    (0xff82b383, "ld x7, -8(x5)", 0, Cause::LoadOutside),
    (0x0062b023, "sd x6, 0(x5)", 0x80001004, Cause::StoreMisaligned),
    (0x0062a023, "sw x6, 0(x5)", 2, Cause::StoreMisaligned),
    (0x00628023, "sb x6, 0(x5)", 0x7fffffff, Cause::StoreOutside),
    (0x0062b3af, "amoadd.d x7, x6, (x5)", 0x80001004, Cause::StoreMisaligned),
    (0x0062a3af, "amoadd.w x7, x6, (x5)", 0x2000008, Cause::StoreOutside),
];

// A vCPU that has this in x5 and in x6.
fn ready(x5: u64, x6: u64) -> Vcpu {
    let mut regs = [0; 31];
    regs[4] = x5;
    regs[5] = x6;
    regs[6] = BEFORE;
    Vcpu::of(regs, PC, STEPS, State::Running)
}

// The vCPU after the fetch of the word, where it may make one.
fn fetch(vcpu: &mut Vcpu, shape: &Shape, word: u32) -> bool {
    if vcpu.state() != State::Running || vcpu.pending() || vcpu.steps() >= 1 << 63 {
        return false;
    }
    vcpu.fetched(shape, Some(word));
    true
}

// The vCPU after its access, where it has one to make.
fn access(vcpu: &mut Vcpu, value: u64) -> bool {
    if !vcpu.pending() || vcpu.steps() >= 1 << 63 {
        return false;
    }
    vcpu.accessed(value);
    true
}

// Where the vCPU is, how many instructions it has finished, and what is in x7.
fn seen(vcpu: &Vcpu) -> (u64, u64, u64) {
    (vcpu.pc(), vcpu.steps(), vcpu.reg(7))
}

#[test]
fn results_are_those_of_the_manual(rt: HostRuntime) -> Result<(), Fail> {
    let shape = Shape::new(1, 1, 2)?;
    for &(word, text, values, wanted) in &RESULTS {
        let mut vcpu = ready(values[0], values[1]);
        assert!(rt; fetch(&mut vcpu, &shape, word), "at {text}");
        assert_eq!(rt; vcpu.state(), State::Running, "at {text}");
        assert_eq!(rt; seen(&vcpu), (FOLLOWING, STEPS + 1, wanted), "at {text}");
        assert_eq!(rt; vcpu.reg(0), 0, "at {text}");
    }
    Ok(())
}

#[test]
fn jumps_land_or_halt_as_in_the_manual(rt: HostRuntime) -> Result<(), Fail> {
    let shape = Shape::new(1, 1, 2)?;
    for &(word, text, values, wanted) in &JUMPS {
        let mut vcpu = ready(values[0], values[1]);
        assert!(rt; fetch(&mut vcpu, &shape, word), "at {text}");
        let (state, after) = match wanted {
            Some((pc, x7)) => (State::Running, (pc, STEPS + 1, x7)),
            None => (State::Halted(Cause::JumpMisaligned), (PC, STEPS, BEFORE)),
        };
        assert_eq!(rt; vcpu.state(), state, "at {text}");
        assert_eq!(rt; seen(&vcpu), after, "at {text}");
    }
    Ok(())
}

#[test]
fn loads_extend_what_the_cell_gives(rt: HostRuntime) -> Result<(), Fail> {
    let shape = Shape::new(1, 1, 2)?;
    for &(word, text, width, off, value, wanted) in &LOADS {
        let mut vcpu = ready(CELL, 0);
        assert!(rt; fetch(&mut vcpu, &shape, word), "at {text}");
        let place = Place::Ram { page: 1, off };
        assert_eq!(rt;
            vcpu.request(&shape),
            Request::Load { place, width },
            "at {text}"
        );
        assert!(rt; access(&mut vcpu, value), "at {text}");
        assert_eq!(rt; seen(&vcpu), (FOLLOWING, STEPS + 1, wanted), "at {text}");
    }
    Ok(())
}

#[test]
fn stores_give_the_low_bytes(rt: HostRuntime) -> Result<(), Fail> {
    let shape = Shape::new(1, 1, 2)?;
    for &(word, text, width, off, x6, value) in &STORES {
        let mut vcpu = ready(CELL, x6);
        assert!(rt; fetch(&mut vcpu, &shape, word), "at {text}");
        assert_eq!(rt; seen(&vcpu), (PC, STEPS, BEFORE), "at {text}");
        let place = Place::Ram { page: 1, off };
        let wanted = Request::Store {
            place,
            width,
            value,
        };
        assert_eq!(rt; vcpu.request(&shape), wanted, "at {text}");
        assert!(rt; access(&mut vcpu, 0), "at {text}");
        assert_eq!(rt; seen(&vcpu), (FOLLOWING, STEPS + 1, BEFORE), "at {text}");
    }
    Ok(())
}

#[test]
fn amos_write_one_value_and_give_the_other(rt: HostRuntime) -> Result<(), Fail> {
    let shape = Shape::new(1, 1, 2)?;
    for &(word, text, op, width, [found, x6], [x7, written]) in &AMOS {
        let mut vcpu = ready(CELL, x6);
        assert!(rt; fetch(&mut vcpu, &shape, word), "at {text}");
        let (asked, value) = match vcpu.request(&shape) {
            Request::Amo {
                op,
                width,
                value,
                ..
            } => (Some((op, width)), value),
            _ => (None, 0),
        };
        assert_eq!(rt; asked, Some((op, width)), "at {text}");
        let wanted = Request::Amo {
            place: Place::Ram { page: 1, off: 16 },
            width,
            op,
            value,
        };
        assert_eq!(rt; vcpu.request(&shape), wanted, "at {text}");
        assert_eq!(rt;
            amo_answer(op, width, found, value),
            Some(written),
            "at {text}"
        );
        assert!(rt; access(&mut vcpu, found), "at {text}");
        assert_eq!(rt; seen(&vcpu), (FOLLOWING, STEPS + 1, x7), "at {text}");
    }
    Ok(())
}

// What the AMO writes, of values that are of its width.
fn amo_answer(op: AmoOp, width: Width, found: u64, value: u64) -> Option<u64> {
    match width {
        Width::Four if found < 1 << 32 && value < 1 << 32 => {
            Some(amo_result(op, width, found, value))
        }
        Width::Eight => Some(amo_result(op, width, found, value)),
        _ => None,
    }
}

#[test]
fn what_halts_changes_nothing_else(rt: HostRuntime) -> Result<(), Fail> {
    let shape = Shape::new(1, 1, 2)?;
    for &(word, text, x5, cause) in &HALTS {
        let mut vcpu = ready(x5, 6);
        assert!(rt; fetch(&mut vcpu, &shape, word), "at {text}");
        assert_eq!(rt; vcpu.state(), State::Halted(cause), "at {text}");
        assert_eq!(rt; seen(&vcpu), (PC, STEPS, BEFORE), "at {text}");
        assert_eq!(rt; vcpu.request(&shape), Request::Nothing, "at {text}");
    }
    Ok(())
}

#[test]
fn a_pc_that_is_misaligned_or_outside_has_no_fetch(rt: HostRuntime) -> Result<(), Fail> {
    let shape = Shape::new(1, 1, 2)?;
    for (pc, wanted) in [
        (0x8000_1ffc, Request::Fetch { page: 1, off: 4092 }),
        (0x8000_2000, Request::NoFetch(Cause::FetchOutside)),
        (0x8000_2002, Request::NoFetch(Cause::FetchMisaligned)),
        (0x1000_0000, Request::NoFetch(Cause::FetchOutside)),
        (1, Request::NoFetch(Cause::FetchMisaligned)),
    ] {
        let vcpu = Vcpu::of([0; 31], pc, STEPS, State::Running);
        assert_eq!(rt; vcpu.request(&shape), wanted, "at {pc:#x}");
    }
    Ok(())
}
