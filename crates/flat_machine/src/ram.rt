ghost use Rattle.std.specs.Prelude.{◌≡◌, ◌<◌, length, vec_len, All};
ghost use Rattle.ram_block.specs.declared.page_buf.TheConstants.{PAGE};
ghost use Rattle.flat_machine.specs.Cell.{page_after, page_gives};
ghost use Rattle.flat_machine.specs.Fits.{FitsPage, IsWordIfFetched};
ghost use Rattle.flat_machine.specs.Page.{joined, page_at, with_page};

use crate::apply_to_page;
use ram_block::PageBuf;
use rv64i_step::Request;

/// The part of an event that a page of RAM has.
#[tactic(auto, using(crate::proofs::Pages::page_steps))]
#[inline(always)]
pub(crate) fn apply_to_ram(ram: &mut Vec<PageBuf>, page: u32, request: &Request) -> u64
    requires fits { FitsPage request.now }
    requires page { page < vec_len ram.old }
    requires whole { All (λ p. length p ≡ PAGE) ram.old.items }
    ensures gives { result ≡ page_gives request.now (page_at (joined ram.old.items) page) }
    ensures after { joined ram.new.items ≡ with_page (joined ram.old.items) page (page_after request.now (page_at (joined ram.old.items) page)) }
    ensures word { IsWordIfFetched request.now result }
    ensures pages { vec_len ram.new ≡ vec_len ram.old }
    ensures whole { All (λ p. length p ≡ PAGE) ram.new.items }
{
    apply_to_page(&mut ram[page as usize], request)
}
