ghost use Rattle.std.specs.Prelude.{◌≡◌, ◌↔◌, ◌<◌, ℕ, List, None};
ghost use Rattle.ram_block.specs.Shape.{IsShape, ShapeData, total_pages_of};
ghost use Rattle.flat_machine.specs.Machine.{MachineData, page_of};
ghost use Rattle.file_plan.specs.Layout.{Lay};
ghost use Rattle.page_peek.specs.Heads.{Heads, heads_refusal};
ghost use Rattle.page_peek.specs.Peeked.{page_in, peek_of, peeked};

/// The law that a file has the heads of a shape exactly where none of its head pieces is refused.
pub fn a_file_has_its_heads_or_a_refusal()
    ensures { (file : List ℕ) (s : ShapeData) → IsShape s → Heads file s ↔ (heads_refusal file s ≡ None) }
{}

/// The law that a layout of a machine has the heads of its shape.
#[tactic(auto, using(crate::proofs::PagesOf::layout_heads))]
pub fn a_layout_has_its_heads()
    ensures { (file : List ℕ) (m : MachineData) → Lay file m → Heads file m.shape }
{}

/// The law of a page by the bitmaps of its file: it is the one that the file has, and where the file is a layout of a
/// machine, the machine's.
#[tactic(auto, using(crate::proofs::PagesOf::page_told, crate::proofs::PagesOf::page_laid))]
pub fn a_page_in_a_layout_is_the_machines()
    ensures peeked { (file : List ℕ) (s : ShapeData) (p : ℕ) → p < total_pages_of s → page_in file (peek_of file s) p ≡ peeked file s p }
    ensures laid { (file : List ℕ) (m : MachineData) (p : ℕ) → Lay file m → p < total_pages_of m.shape → peeked file m.shape p ≡ page_of m p }
{}
