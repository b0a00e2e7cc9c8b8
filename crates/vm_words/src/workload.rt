ghost use Rattle.std.specs.Prelude.{◌≡◌, ◌++◌, ◌^◌, vec_len, IfOk, OnOk};
ghost use Rattle.std.specs.Int.{to_le_bytes, w32};
ghost use Rattle.std.specs.List.{flat_map};
ghost use Rattle.vm_words.specs.Workload.{draw_bytes, work};

use crate::next_draw;
use ram_block::NoMemory;
use std::alloc::Global;

/// The instructions of the workload's guest. Each vCPU adds one to the first word of every fourth page, from the page of
/// its number behind the first on:
///
/// ```text
///         auipc x5, 1
///         slli  x6, x10, 12
///         add   x5, x5, x6
///         lui   x8, 4
/// loop:   ld    x7, 0(x5)
///         addi  x7, x7, 1
///         sd    x7, 0(x5)
///         add   x5, x5, x8
///         jal   x0, loop
/// ```
const PROGRAM: [u32; 9] = [
    0x0000_1297,
    0x00c5_1313,
    0x0062_82b3,
    0x0000_4437,
    0x0002_b383,
    0x0013_8393,
    0x0072_b023,
    0x0082_82b3,
    0xff1f_f06f,
];

/// Where the draws begin.
const DRAWS_AT: usize = 64;

/// How many draws fill the RAM behind the program.
const DRAWS: u32 = 262_136;

/// The image of the workload that a seed gives: its program, zeros up to the draws, and the draws as words of eight
/// bytes.
#[tactic(auto, using(crate::proofs::DrawBytes::length_work), unfolding(crate::specs::Workload::work))]
pub fn workload_image(alloc: Global, seed: u64) -> Result<Vec<u8>, NoMemory>
    ensures image { IfOk result (λ image. image.items ≡ work seed) }
    ensures size { IfOk result (λ image. vec_len image ≡ 2 ^ 21) }
{
    let mut image = Vec::new(alloc);
    put_words(&PROGRAM, &mut image)?;
    image.resize(DRAWS_AT, 0)?;
    put_draws(seed, &mut image)?;
    Ok(image)
}

// Puts words of four bytes behind what stands in the image.
#[tactic(auto, using(crate::proofs::DrawBytes::words_more))]
fn put_words(words: &[u32], image: &mut Vec<u8>) -> Result<(), NoMemory>
    ensures { OnOk result (image.new.items ≡ image.old.items ++ flat_map (to_le_bytes w32) words.now) }
{
    for word in words {
        image.extend_from_slice(&word.to_le_bytes())?;
    }
    Ok(())
}

// Puts the draws of a seed behind what stands in the image.
#[tactic(auto, using(crate::proofs::Draws::draw_none, crate::proofs::Draws::draw_more, crate::proofs::DrawBytes::draw_bytes_none, crate::proofs::DrawBytes::draw_bytes_more))]
fn put_draws(seed: u64, image: &mut Vec<u8>) -> Result<(), NoMemory>
    ensures { OnOk result (image.new.items ≡ image.old.items ++ draw_bytes seed DRAWS) }
{
    let mut draw = seed;
    for _ in 0..DRAWS {
        draw = next_draw(draw);
        image.extend_from_slice(&draw.to_le_bytes())?;
    }
    Ok(())
}
