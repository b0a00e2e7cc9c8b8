ghost use Rattle.std.specs.Prelude.{◌≡◌, ◌≤◌, ◌-◌, ◌++◌, length, replicate, IfOk};
ghost use Rattle.std.specs.Borrow.{Lends, sem, Array, u8 as byte};
ghost use Rattle.ram_block.specs.Page.{zero_page};
ghost use Rattle.ram_block.specs.contracts.page_buf.PageBuf.{the_row};

use crate::NoMemory;
use std::alloc::Global;
use std::marker::Model;

/// The bytes of a page.
pub const PAGE: usize = 4096;

/// The bytes of one page of RAM, on the heap: a page is moved, and not copied.
#[derive(Drop)]
pub struct PageBuf {
    bytes: Box<[u8; PAGE]>,
}

impl Model for PageBuf {
    ghost use Rattle.std.specs.Prelude.{List, ℕ};

    ghost Value = { List ℕ };

    ghost view = { λ p. p.bytes.value };
}

impl PageBuf {
    /// A page of zeros.
    #[tactic(auto, unfolding(crate::specs::Page::zero_page))]
    pub fn new(alloc: Global) -> Result<PageBuf, NoMemory>
        ensures { IfOk result (λ page. page ≡ zero_page) }
    {
        Ok(PageBuf {
            bytes: Box::new(alloc, [0; PAGE])?,
        })
    }

    /// A page that begins with these bytes, and has zeros behind them.
    #[tactic(auto, using(crate::proofs::Pages::zeros_behind))]
    pub fn of_bytes(alloc: Global, bytes: &[u8]) -> Result<PageBuf, NoMemory>
        requires { length bytes.now ≤ PAGE }
        ensures bytes { IfOk result (λ page. page ≡ bytes.now ++ replicate (PAGE - length bytes.now) 0) }
        ensures length { IfOk result (λ page. length page ≡ PAGE) }
    {
        let mut page = [0; PAGE];
        page[..bytes.len()].copy_from_slice(bytes);
        Ok(PageBuf {
            bytes: Box::new(alloc, page)?,
        })
    }

    /// The same page again.
    pub fn copy(&self, alloc: Global) -> Result<PageBuf, NoMemory>
        ensures same { IfOk result (λ page. page ≡ self.now) }
        ensures length { length self.now ≡ PAGE }
    {
        prove!(self.bytes().len() == PAGE);
        Ok(PageBuf {
            bytes: Box::new(alloc, *self.bytes)?,
        })
    }

    pub fn bytes(&self) -> &[u8]
        ensures bytes { result.now ≡ self.now }
        ensures length { length self.now ≡ PAGE }
    {
        all_of(&self.bytes)
    }

    /// The bytes, for writing: the page is then what the last write left.
    pub fn bytes_mut(&mut self) -> &mut [u8]
        ensures* writes_back { sem 𝓛 (Lends the_row (Array byte 0) self.entry result (λ w. w)) }
        ensures bytes { result.now ≡ self.old }
        ensures length { length self.old ≡ PAGE }
    {
        prove!(self.bytes().len() == PAGE);
        self.bytes.as_mut_slice()
    }

    /// Makes the bytes those of another page.
    pub fn copy_from(&mut self, other: &PageBuf)
        ensures copied { self.new ≡ other.now }
        ensures length { length self.new ≡ PAGE }
    {
        *self.bytes = *other.bytes;
        prove!(self.bytes().len() == PAGE);
    }
}

// The length of an array is known from the type of a parameter.
fn all_of(bytes: &[u8; PAGE]) -> &[u8]
    ensures bytes { result.now ≡ bytes.now }
    ensures length { length bytes.now ≡ PAGE }
{
    bytes
}
