ghost use Rattle.std.specs.Prelude.{◌≡◌, ◌↔◌, ◌≤◌, Some, IsSome, IfSome};
ghost use Rattle.ram_block.specs.Cause.{cause_of, code_of};

/// Why a vCPU is halted.
#[derive(Clone, Copy, Debug, PartialEq, Eq)]
pub enum Cause {
    FetchMisaligned,
    FetchOutside,
    Illegal,
    JumpMisaligned,
    LoadMisaligned,
    LoadOutside,
    StoreMisaligned,
    StoreOutside,
    Ecall,
    Ebreak,
}

impl Cause {
    /// The code that stands for the cause in a file, from 1 to 10.
    #[tactic(auto, unfolding(crate::specs::Cause::cause_of))]
    pub fn code(self) -> u8
        ensures code { result ≡ code_of self }
        ensures read_back { cause_of result ≡ Some self }
    {
        match self {
            Cause::FetchMisaligned => 1,
            Cause::FetchOutside => 2,
            Cause::Illegal => 3,
            Cause::JumpMisaligned => 4,
            Cause::LoadMisaligned => 5,
            Cause::LoadOutside => 6,
            Cause::StoreMisaligned => 7,
            Cause::StoreOutside => 8,
            Cause::Ecall => 9,
            Cause::Ebreak => 10,
        }
    }

    /// The cause with a code. No cause has another code than 1 to 10.
    #[tactic(auto, unfolding(crate::specs::Cause::cause_of))]
    pub fn of_code(code: u8) -> Option<Cause>
        ensures cause { result ≡ cause_of code }
        ensures known { IsSome result ↔ ((1 ≤ code) × (code ≤ 10)) }
        ensures written_again { IfSome result (λ cause. code_of cause ≡ code) }
    {
        match code {
            1 => Some(Cause::FetchMisaligned),
            2 => Some(Cause::FetchOutside),
            3 => Some(Cause::Illegal),
            4 => Some(Cause::JumpMisaligned),
            5 => Some(Cause::LoadMisaligned),
            6 => Some(Cause::LoadOutside),
            7 => Some(Cause::StoreMisaligned),
            8 => Some(Cause::StoreOutside),
            9 => Some(Cause::Ecall),
            10 => Some(Cause::Ebreak),
            _ => None,
        }
    }
}
