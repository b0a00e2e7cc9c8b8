ghost use Rattle.std.specs.Prelude.{IfSome};
ghost use Rattle.rv64i_decode.specs.Row.{Row};
ghost use Rattle.rv64i_decode.specs.declared.instr.Instr.{Instr};

use rv64i_decode::encode_decoded;

// Words of which many are instructions: `fixed` is set in each, and the bits of `free` are drawn.
struct Family {
    fixed: u32,
    free: u32,
}

#[rattlefmt::skip]
static FAMILIES: [Family; 18] = [
    Family { fixed: 0x0000_0037, free: 0xffff_ff80 }, // lui
    Family { fixed: 0x0000_0017, free: 0xffff_ff80 }, // auipc
    Family { fixed: 0x0000_006f, free: 0xffff_ff80 }, // jal
    Family { fixed: 0x0000_0067, free: 0xffff_9f80 }, // jalr
    Family { fixed: 0x0000_0063, free: 0xffff_ff80 }, // branches
    Family { fixed: 0x0000_0003, free: 0xffff_ff80 }, // loads
    Family { fixed: 0x0000_0023, free: 0xffff_ff80 }, // stores
    Family { fixed: 0x0000_0013, free: 0xffff_ff80 }, // addi and its like
    Family { fixed: 0x0000_1013, free: 0x47ff_cf80 }, // shifts
    Family { fixed: 0x0000_001b, free: 0xffff_8f80 }, // addiw
    Family { fixed: 0x0000_101b, free: 0x43ff_cf80 }, // shifts of words
    Family { fixed: 0x0000_0033, free: 0x41ff_ff80 }, // add and its like
    Family { fixed: 0x0000_0033, free: 0x43ff_df80 }, // the same, with sub and sra more often
    Family { fixed: 0x0000_003b, free: 0x41ff_df80 }, // addw and its like
    Family { fixed: 0x0ff0_000f, free: 0x0000_0000 }, // fence
    Family { fixed: 0x0000_0073, free: 0x00f0_0000 }, // ecall and ebreak
    Family { fixed: 0x0000_202f, free: 0x0fff_9f80 }, // amoadd and amoswap
    Family { fixed: 0x0000_202f, free: 0xe7ff_9f80 }, // the AMOs but amoswap
];

// The most draws for one instruction. About two of three give one.
const DRAWS: u32 = 1000;

/// Draws instructions, each time the same ones, by a linear congruence.
#[derive(Drop)]
pub(crate) struct Generator {
    state: u64,
}

impl Generator {
    pub(crate) fn new() -> Generator {
        Generator { state: 1 }
    }

    /// The word of the next instruction, or none after very many draws.
    pub(crate) fn instruction(&mut self) -> Option<u32>
        ensures { IfSome result (λ word. (instr : Instr) × Row word instr) }
    {
        for _ in 0..DRAWS {
            let word = self.word();
            if encode_decoded(word).is_some() {
                return Some(word);
            }
        }
        None
    }

    fn word(&mut self) -> u32 {
        let family = &FAMILIES[self.draw() as usize % FAMILIES.len()];
        (self.draw() & family.free) | family.fixed
    }

    // The high half of the next number.
    fn draw(&mut self) -> u32 {
        self.state = self
            .state
            .wrapping_mul(6364136223846793005)
            .wrapping_add(1442695040888963407);
        (self.state >> 32) as u32
    }
}
