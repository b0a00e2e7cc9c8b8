ghost use Rattle.std.specs.Prelude.{◌≡◌, ℕ, ◌<◌, ◌↔◌, [], ◌∷◌, length, not, drop, IfOk, IfSome, slice_get, slice_index};

use ram_block::NoMemory;
use std::alloc::Global;
use std::marker::Model;

/// The pages that stopped vCPUs wait for, the front first.
#[derive(Drop)]
pub struct FaultQueue {
    pages: u32,
    // For each page: `pages` where it isn't queued, itself where it is last, else the page after it.
    next: Vec<u32>,
    front: Option<u32>,
    last: Option<u32>,
}

impl Model for FaultQueue {
    ghost use Rattle.wp_fault.specs.Queue.{QueueData};
    ghost use Rattle.ram_block.specs.PageLinks.{walked};
    ghost use Rattle.wp_fault.specs.Links.{IsLinked};

    ghost Value = { QueueData };

    ghost view = { λ f. record { pages = f.pages; list = walked f.front f.next.items } };

    ghost invariant = { λ f. IsLinked f.pages f.next.items f.front f.last (walked f.front f.next.items) };
}

impl FaultQueue {
    ghost use Rattle.ram_block.specs.PageLinks.{is_listed, link_of};
    ghost use Rattle.wp_fault.specs.Queue.{queued, IsQueue};

    /// An empty queue for this many pages.
    pub fn new(alloc: Global, pages: u32) -> Result<FaultQueue, NoMemory>
        ensures { IfOk result (λ f. f ≡ record { pages = pages; list = [] }) }
    {
        Ok(FaultQueue {
            pages,
            next: vec![in alloc; pages; pages as usize]?,
            front: None,
            last: None,
        })
    }

    /// Puts a page last. It answers false where the page is queued already.
    pub fn push(&mut self, p: u32) -> bool
        requires { p < self.old.pages }
        ensures added { result ≡ not (is_listed self.old.list p) }
        ensures queue { self.new ≡ record { pages = self.old.pages; list = queued self.old.list p } }
        ensures kept { IsQueue self.new }
    {
        if self.has(p) {
            return false;
        }
        match self.last {
            Some(last) => self.next[last as usize] = p,
            None => self.front = Some(p),
        }
        self.next[p as usize] = p;
        self.last = Some(p);
        true
    }

    /// Takes the front.
    pub fn pop(&mut self) -> Option<u32>
        ensures empty { (result ≡ None) ↔ (self.old.list ≡ []) }
        ensures front { IfSome result (λ p. self.old.list ≡ p ∷ self.new.list) }
        ensures queue { self.new ≡ record { pages = self.old.pages; list = drop 1 self.old.list } }
        ensures below { IfSome result (λ p. p < self.old.pages) }
        ensures kept { IsQueue self.new }
    {
        let p = self.front?;
        let after = self.next[p as usize];
        self.next[p as usize] = self.pages;
        if after == p {
            self.front = None;
            self.last = None;
        } else {
            self.front = Some(after);
        }
        Some(p)
    }

    /// Whether a page is queued.
    pub fn has(&self, p: u32) -> bool
        requires { p < self.now.pages }
        ensures queued { result ≡ is_listed self.now.list p }
        ensures kept { IsQueue self.now }
    {
        self.next[p as usize] != self.pages
    }

    /// The array of links: for each page the page queued after it, the page itself where it is
    /// last, and the number of pages where it isn't queued.
    pub fn links(&self) -> &[u32]
        ensures length { length result.now ≡ self.now.pages }
        ensures links { (p : ℕ) → p < self.now.pages
            → slice_index result.now p ≡ link_of self.now.pages self.now.list p }
        ensures kept { IsQueue self.now }
    {
        self.next.as_slice()
    }
}
