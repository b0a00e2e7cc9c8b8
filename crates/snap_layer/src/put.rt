ghost use Rattle.std.specs.Prelude.{◌≡◌, ◌≤◌, ◌<◌, ◌^◌, ◌++◌, All, IfOk, OnOk, length, vec_len};
ghost use Rattle.std.specs.List.{flat_map};
ghost use Rattle.ram_block.specs.Shape.{total_pages_of};
ghost use Rattle.ram_block.specs.declared.page_buf.TheConstants.{PAGE};
ghost use Rattle.flat_machine.specs.Machine.{IsMachine, Rest, page_of};
ghost use Rattle.snap_layer.specs.Layer.{Joined, base_text, changed_pages, differs, front_text, layer_of, page_text};

use crate::format::{MAGIC, VERSION};
use device_state::put_devices;
use flat_machine::Machine;
use mig_stream::{put_be32, put_be64};
use ram_block::NoMemory;
use std::alloc::Global;

/// The layer of a machine over a base of the same shape: exactly the pages that differ, ascending.
pub fn put_layer(alloc: Global, base: &Machine, now: &Machine) -> Result<Vec<u8>, NoMemory>
    requires shape { now.now.shape ≡ base.now.shape }
    requires rest { Rest now.now }
    ensures text { IfOk result (λ layer. layer.items ≡ layer_of base.now now.now) }
    ensures joined { IfOk result (λ layer. Joined base.now layer.items now.now) }
{
    let pages = changed(alloc, base, now)?;
    let mut out = Vec::new(alloc);
    put_front(&mut out, base, pages.len() as u32)?;
    put_pages(&mut out, &pages, now)?;
    out.extend_from_slice(&put_devices(alloc, now)?)?;
    Ok(out)
}

// The pages in which the machines differ, ascending.
#[tactic(auto, using(crate::proofs::Changed::filter_on, crate::proofs::Changed::filter_past))]
fn changed(alloc: Global, base: &Machine, now: &Machine) -> Result<Vec<u32>, NoMemory>
    requires shape { now.now.shape ≡ base.now.shape }
    ensures pages { IfOk result (λ pages. pages.items ≡ changed_pages base.now now.now) }
    ensures inside { IfOk result (λ pages. All (λ p. p < total_pages_of now.now.shape) pages.items) }
    ensures few { IfOk result (λ pages. vec_len pages ≤ 2 ^ 14) }
    ensures limits { IsMachine now.now }
{
    let mut pages = Vec::new(alloc);
    for p in 0..now.shape().total_pages() {
        if differs(base, now, p) {
            pages.push(p)?;
        }
    }
    Ok(pages)
}

// Whether the machines differ in a page.
fn differs(base: &Machine, now: &Machine, p: u32) -> bool
    requires base { p < total_pages_of base.now.shape }
    requires now { p < total_pages_of now.now.shape }
    ensures { result ≡ differs base.now now.now p }
{
    page(base, p) != page(now, p)
}

// The bytes of a page.
#[tactic(auto, using(flat_machine::proofs::Pages::page_steps))]
fn page(machine: &Machine, p: u32) -> &[u8]
    requires { p < total_pages_of machine.now.shape }
    ensures bytes { result.now ≡ page_of machine.now p }
    ensures length { length result.now ≡ PAGE }
{
    machine.pages()[p as usize].bytes()
}

// All that stands before the pages.
#[tactic(auto, unfolding(crate::specs::Layer::front_text))]
fn put_front(out: &mut Vec<u8>, base: &Machine, count: u32) -> Result<(), NoMemory>
    ensures { OnOk result (out.new.items ≡ out.old.items ++ front_text base.now count) }
{
    put_be32(out, MAGIC)?;
    put_be32(out, VERSION)?;
    put_base(out, base)?;
    put_be32(out, count)?;
    Ok(())
}

// The base that the layer asks for.
#[tactic(auto, unfolding(crate::specs::Layer::base_text))]
fn put_base(out: &mut Vec<u8>, base: &Machine) -> Result<(), NoMemory>
    ensures { OnOk result (out.new.items ≡ out.old.items ++ base_text base.now) }
{
    put_be32(out, base.shape().blocks())?;
    put_be32(out, base.shape().pages())?;
    put_be64(out, base.clock())?;
    put_be64(out, base.ram_sum())?;
    Ok(())
}

// The pages with these numbers, each behind its number.
fn put_pages(out: &mut Vec<u8>, pages: &[u32], now: &Machine) -> Result<(), NoMemory>
    requires { All (λ p. p < total_pages_of now.now.shape) pages.now }
    ensures { OnOk result (out.new.items ≡ out.old.items ++ flat_map (page_text now.now) pages.now) }
{
    for p in pages {
        put_page(out, *p, now)?;
    }
    Ok(())
}

// A page behind its number.
fn put_page(out: &mut Vec<u8>, p: u32, now: &Machine) -> Result<(), NoMemory>
    requires { p < total_pages_of now.now.shape }
    ensures { OnOk result (out.new.items ≡ out.old.items ++ page_text now.now p) }
{
    put_be32(out, p)?;
    out.extend_from_slice(page(now, p))?;
    Ok(())
}
