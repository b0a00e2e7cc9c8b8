ghost use Rattle.std.specs.Prelude.{◌≡◌, ℕ, ◌<◌, ◌↔◌, [], length, true, false, reverse, min, map, IfOk, IfSome, slice_get, slice_index, slice_set, ◌==◌, ◌+◌, ◌-◌, if◌then◌else◌};
ghost use Rattle.std.specs.List.{range_with_len};
ghost use Rattle.page_sweep.specs.Links.{links_without, start_without};

use ram_block::NoMemory;
use std::alloc::Global;
use std::marker::Model;

/// The pages that are left, which are taken out one by one.
#[derive(Drop)]
pub struct Sweep {
    pages: u32,
    // For each page: `pages` where it isn't left, else the page left after it, or itself where there is none.
    next: Vec<u32>,
    // The same with the page left before it.
    prev: Vec<u32>,
    first: Option<u32>,
    last: Option<u32>,
    left: u32,
}

impl Model for Sweep {
    ghost use Rattle.page_sweep.specs.Sweep.{SweepData};
    ghost use Rattle.page_sweep.specs.Links.{IsLinked};
    ghost use Rattle.ram_block.specs.PageLinks.{walked};

    ghost Value = { SweepData };

    ghost view = { λ s. record { pages = s.pages; list = walked s.first s.next.items } };

    ghost invariant = { λ s. IsLinked s.pages s.next.items s.prev.items s.first s.last s.left (walked s.first s.next.items) };
}

impl Sweep {
    ghost use Rattle.page_sweep.specs.Sweep.{without, IsSweep};
    ghost use Rattle.ram_block.specs.PageLinks.{is_listed, link_of};

    /// The sweep with all of this many pages left.
    pub fn full(alloc: Global, pages: u32) -> Result<Sweep, NoMemory>
        ensures { IfOk result (λ s. s ≡ record { pages = pages; list = range_with_len 0 pages }) }
    {
        let (first, last) = if pages == 0 {
            (None, None)
        } else {
            (Some(0), Some(pages - 1))
        };
        Ok(Sweep {
            pages,
            next: links_up(alloc, pages)?,
            prev: links_down(alloc, pages)?,
            first,
            last,
            left: pages,
        })
    }

    /// The least page left.
    pub fn first(&self) -> Option<u32>
        ensures first { result ≡ slice_get self.now.list 0 }
        ensures empty { (result ≡ None) ↔ (self.now.list ≡ []) }
        ensures left { IfSome result (λ p. is_listed self.now.list p ≡ true) }
        ensures below { IfSome result (λ p. p < self.now.pages) }
        ensures kept { IsSweep self.now }
    {
        self.first
    }

    /// Takes a page out. It answers false where the page isn't left.
    pub fn remove(&mut self, p: u32) -> bool
        requires { p < self.old.pages }
        ensures left { result ≡ is_listed self.old.list p }
        ensures sweep { self.new ≡ record { pages = self.old.pages; list = without self.old.list p } }
        ensures unchanged { result ≡ false → self.new ≡ self.old }
        ensures kept { IsSweep self.new }
    {
        let after = self.next[p as usize];
        if after == self.pages {
            return false;
        }
        let before = self.prev[p as usize];
        unlink(
            &mut self.next,
            &mut self.first,
            self.pages,
            before,
            p,
            after,
        );
        unlink(&mut self.prev, &mut self.last, self.pages, after, p, before);
        self.left -= 1;
        true
    }

    /// How many pages are left.
    pub fn left(&self) -> u32
        ensures count { result ≡ length self.now.list }
        ensures kept { IsSweep self.now }
    {
        self.left
    }

    /// For each page the page left after it, the page itself where there is none, and the number
    /// of pages where it isn't left.
    pub fn links_next(&self) -> &[u32]
        ensures length { length result.now ≡ self.now.pages }
        ensures links { (p : ℕ) → p < self.now.pages
            → slice_index result.now p ≡ link_of self.now.pages self.now.list p }
        ensures kept { IsSweep self.now }
    {
        self.next.as_slice()
    }

    /// For each page the page left before it, the page itself where there is none, and the number
    /// of pages where it isn't left.
    pub fn links_prev(&self) -> &[u32]
        ensures length { length result.now ≡ self.now.pages }
        ensures links { (p : ℕ) → p < self.now.pages
            → slice_index result.now p ≡ link_of self.now.pages (reverse self.now.list) p }
        ensures kept { IsSweep self.now }
    {
        self.prev.as_slice()
    }
}

// Each page's link to the next one, and the last one's to itself.
fn links_up(alloc: Global, pages: u32) -> Result<Vec<u32>, NoMemory>
    ensures { IfOk result (λ v. v.items ≡ map (λ p. min (p + 1) (pages - 1)) (range_with_len 0 pages)) }
{
    let last = pages.saturating_sub(1);
    Ok(
        (0..pages)
            .map(|p| if p < last { p + 1 } else { last })
            .collect(alloc)?,
    )
}

// Each page's link to the one before, and page 0's to itself.
fn links_down(alloc: Global, pages: u32) -> Result<Vec<u32>, NoMemory>
    ensures { IfOk result (λ v. v.items ≡ map (λ p. p - 1) (range_with_len 0 pages)) }
{
    Ok((0..pages).map(|p| p.saturating_sub(1)).collect(alloc)?)
}

// Takes page p, which stands between `before` and `after`, out of the links of one direction:
// `before` is p where p is the first in this direction, and `after` is p where it is the last.
fn unlink(
    links: &mut Vec<u32>,
    start: &mut Option<u32>,
    pages: u32,
    before: u32,
    p: u32,
    after: u32,
)
    requires page { p < length links.old.items }
    requires before { before < length links.old.items }
    ensures links { links.new.items ≡ links_without links.old.items pages before p after }
    ensures start { start.new ≡ start_without start.old before p after }
{
    if before == p {
        *start = if after == p { None } else { Some(after) };
    } else {
        links[before as usize] = if after == p { before } else { after };
    }
    links[p as usize] = pages;
}
