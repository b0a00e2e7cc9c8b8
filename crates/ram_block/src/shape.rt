ghost use Rattle.std.specs.Prelude.{◌≡◌, ◌↔◌, ◌≤◌, IsOk, IfOk};

use crate::{MAX_RAM, PAGE};
use std::marker::Model;
use thiserror::Error;

/// The most vCPUs of a machine.
pub const MAX_VCPUS: u32 = 8;

/// The most blocks of RAM.
pub const MAX_BLOCKS: u32 = 8;

/// The most pages of a block.
pub const MAX_PAGES: u32 = 2048;

/// The guest-physical address of RAM's first byte. The blocks follow one another from there.
pub const RAM_BASE: u64 = 0x8000_0000;

/// How many vCPUs, blocks of RAM and pages in each block a machine has, always within the limits.
#[derive(Clone, Copy, Debug, PartialEq, Eq)]
pub struct Shape {
    vcpus: u32,
    blocks: u32,
    pages: u32,
}

impl Model for Shape {
    ghost use Rattle.ram_block.specs.Shape.{ShapeData, IsShape};

    ghost Value = { ShapeData };

    ghost view = { λ s. record { vcpus = s.vcpus; blocks = s.blocks; pages = s.pages } };

    ghost invariant = { λ s. IsShape (record { vcpus = s.vcpus; blocks = s.blocks; pages = s.pages }) };

    ghost inverse = { λ d. record { vcpus = d.vcpus; blocks = d.blocks; pages = d.pages } };
}

/// The first number that is past its limits.
#[derive(Clone, Copy, Debug, PartialEq, Eq, Error)]
pub enum ShapeFault {
    #[error("{0} vCPUs: from 1 to 8 are allowed")]
    Vcpus(u64),
    #[error("{0} blocks: from 1 to 8 are allowed")]
    Blocks(u64),
    #[error("{0} pages: from 1 to 2048 are allowed")]
    Pages(u64),
}

impl Shape {
    ghost use Rattle.ram_block.specs.Shape.{IsWithin, IsShape, total_pages_of, ram_bytes_of};

    pub fn new(vcpus: u64, blocks: u64, pages: u64) -> Result<Shape, ShapeFault>
        ensures valid { IsOk result ↔ (IsWithin vcpus MAX_VCPUS × IsWithin blocks MAX_BLOCKS × IsWithin pages MAX_PAGES) }
        ensures ok { IfOk result (λ s. s ≡ record { vcpus = vcpus; blocks = blocks; pages = pages }) }
        ensures vcpus { (result ≡ Err (ShapeFault.Vcpus vcpus)) ↔ ¬ IsWithin vcpus MAX_VCPUS }
        ensures blocks { (result ≡ Err (ShapeFault.Blocks blocks)) ↔ (IsWithin vcpus MAX_VCPUS × ¬ IsWithin blocks MAX_BLOCKS) }
        ensures pages { (result ≡ Err (ShapeFault.Pages pages)) ↔ (IsWithin vcpus MAX_VCPUS × IsWithin blocks MAX_BLOCKS × ¬ IsWithin pages MAX_PAGES) }
    {
        if vcpus < 1 || vcpus > u64::from(MAX_VCPUS) {
            return Err(ShapeFault::Vcpus(vcpus));
        }
        if blocks < 1 || blocks > u64::from(MAX_BLOCKS) {
            return Err(ShapeFault::Blocks(blocks));
        }
        if pages < 1 || pages > u64::from(MAX_PAGES) {
            return Err(ShapeFault::Pages(pages));
        }
        Ok(Shape {
            vcpus: vcpus as u32,
            blocks: blocks as u32,
            pages: pages as u32,
        })
    }

    pub fn vcpus(&self) -> u32
        ensures value { result ≡ self.now.vcpus }
        ensures limits { IsShape self.now }
    {
        self.vcpus
    }

    pub fn blocks(&self) -> u32
        ensures value { result ≡ self.now.blocks }
        ensures limits { IsShape self.now }
    {
        self.blocks
    }

    /// The pages of each block.
    pub fn pages(&self) -> u32
        ensures value { result ≡ self.now.pages }
        ensures limits { IsShape self.now }
    {
        self.pages
    }

    /// The pages of all blocks.
    pub fn total_pages(&self) -> u32
        ensures value { result ≡ total_pages_of self.now }
        ensures limits { IsShape self.now }
    {
        self.blocks * self.pages
    }

    /// The bytes of all blocks.
    pub fn ram_bytes(&self) -> u64
        ensures value { result ≡ ram_bytes_of self.now }
        ensures limits { IsShape self.now }
        ensures most { result ≤ MAX_RAM }
    {
        u64::from(self.total_pages()) * PAGE as u64
    }
}
