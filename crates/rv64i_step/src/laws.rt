ghost use Rattle.rv64i_step.specs.Laws.{AccessesFinish, AmosChoose, AsksWhileRunning, BranchesOppose, FetchesEnd, JumpsLand, JumpsLink, KeepsRegisters, OutcomesDiffer, RegistersKeep, ResultsAreWords, WritesOne};

/// The law of a fetch: the vCPU halts where it stands, or an access becomes pending, or the instruction is finished.
#[tactic(auto, using(crate::proofs::Outcomes::fetches_end))]
pub fn fetches_end()
    ensures { FetchesEnd }
{}

/// The law that no two of these outcomes come together.
#[tactic(auto, using(crate::proofs::Requests::outcomes_differ))]
pub fn outcomes_differ()
    ensures { OutcomesDiffer }
{}

/// The law of an access: it finishes its instruction.
#[tactic(auto, using(crate::proofs::Outcomes::access_outcome))]
pub fn accesses_finish()
    ensures { AccessesFinish }
{}

/// The law of requests: a vCPU asks for something exactly where it runs.
#[tactic(auto, using(crate::proofs::Requests::asks_while_running))]
pub fn vcpus_ask_while_running()
    ensures { AsksWhileRunning }
{}

/// The law of jumps and branches.
#[tactic(auto, using(crate::proofs::Jumps::jumps_land))]
pub fn jumps_land()
    ensures { JumpsLand }
{}

/// The law of what a jump leaves in its rd.
#[tactic(auto, using(crate::proofs::Registers::jumps_link))]
pub fn jumps_link()
    ensures { JumpsLink }
{}

/// The law that a branch is taken exactly where its opposite isn't.
#[tactic(auto, using(crate::proofs::Jumps::branches_oppose))]
pub fn branches_oppose()
    ensures { BranchesOppose }
{}

/// The law of what writes no register: stores, fences, ECALL and EBREAK.
#[tactic(auto, using(crate::proofs::Registers::keeps_registers))]
pub fn stores_keep_registers()
    ensures { KeepsRegisters }
{}

/// The law of the registers: x0 is 0, and another has what was last written to it.
#[tactic(auto, using(crate::proofs::Registers::registers_keep))]
pub fn registers_keep()
    ensures { RegistersKeep }
{}

/// The law that an instruction changes no register but its rd.
#[tactic(auto, using(crate::proofs::Registers::writes_one))]
pub fn instructions_write_one_register()
    ensures { WritesOne }
{}

/// The law of the W forms: a result is the sign extension of its low word.
#[tactic(auto, using(crate::proofs::Words::results_are_words))]
pub fn results_are_words()
    ensures { ResultsAreWords }
{}

/// The law of the AMOs that swap or compare: what is written is one of the two values.
#[tactic(auto, using(crate::proofs::Chosen::amos_choose))]
pub fn amos_choose()
    ensures { AmosChoose }
{}
