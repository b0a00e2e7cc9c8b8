ghost use Rattle.std.specs.Prelude.{◌≡◌, ◌+◌, ◌≤◌, All, IfOk};
ghost use Rattle.vm_words.specs.Generator.{next, turn_drawn, turns_drawn};
ghost use Rattle.vm_words.specs.Turns.{IsTurn};

use crate::{TurnOf, Turns};
use ram_block::NoMemory;
use std::alloc::Global;

/// The draw that follows a draw, or the first one of a seed.
pub fn next_draw(draw: u64) -> u64
    ensures { result ≡ next draw }
{
    draw.wrapping_mul(6364136223846793005)
        .wrapping_add(1442695040888963407)
}

/// The first `n` turns that a seed gives among so many vCPUs and the saver.
pub fn turns_of(alloc: Global, seed: u64, vcpus: u32, n: u32) -> Result<Turns, NoMemory>
    requires some { 1 ≤ vcpus }
    requires limit { vcpus ≤ 8 }
    ensures drawn { IfOk result (λ turns. turns ≡ turns_drawn seed vcpus n) }
    ensures there { IfOk result (All (IsTurn vcpus)) }
{
    let mut turns = Vec::new(alloc);
    let mut draw = seed;
    for _ in 0..n {
        draw = next_draw(draw);
        turns.push(turn_drawn(vcpus, draw))?;
    }
    Ok(Turns::of(turns))
}

// The turn that a draw gives.
fn turn_drawn(vcpus: u32, draw: u64) -> TurnOf
    requires { vcpus ≤ 8 }
    ensures { result ≡ turn_drawn vcpus draw }
{
    let turn = ((draw >> 33) % u64::from(vcpus + 1)) as u32;
    if turn < vcpus {
        TurnOf::Cpu(turn)
    } else {
        TurnOf::Saver
    }
}
