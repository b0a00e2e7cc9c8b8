ghost use Rattle.std.specs.Prelude.{◌≡◌, ◌≤◌, ◌<◌, ◌^◌, ℕ, [], All, IfSome, List, None, length};
ghost use Rattle.ram_block.specs.declared.shape.TheConstants.{MAX_VCPUS};
ghost use Rattle.page_bus.specs.Merge.{FitsOrder, IsNext};

use crate::traced_vcpu::TracedVcpu;
use flat_machine::Order;
use ram_block::MAX_VCPUS;

/// Puts the vCPUs into the order of their events: at each place the one of which an event drew this number.
pub(crate) fn merge(traced: &Vec<TracedVcpu>, order: &mut Order)
    requires below { All (λ d. d.who < MAX_VCPUS) traced.now.items }
    requires empty { order.old.members ≡ [] }
    requires most { order.old.room < 2 ^ 63 }
    requires fits { (o : List ℕ) × FitsOrder o traced.now.items × (length o ≤ order.old.room) }
    ensures { (o : List ℕ) → FitsOrder o traced.now.items → order.new.members ≡ o }
{
    // How many events of each vCPU are in the order.
    let mut placed = [0; MAX_VCPUS as usize];
    while let Some(who) = drew(traced, &placed, order.count() as u64) {
        placed[who as usize] += 1;
        order.push(who as u8);
    }
}

// The vCPU whose next event, after so many of each, drew this number.
#[inline(always)]
fn drew(traced: &[TracedVcpu], placed: &[usize], number: u64) -> Option<u32>
    requires below { All (λ d. d.who < length placed.now) traced.now }
    ensures some { IfSome result (λ who. who < length placed.now) }
    ensures found { IfSome result (λ who. IsNext traced.now placed.now who number) }
    ensures none { result ≡ None → (who : ℕ) → IsNext traced.now placed.now who number → ⊥ }
{
    for one in traced {
        if one.numbers.get(placed[one.who as usize]) == Some(&number) {
            return Some(one.who);
        }
    }
    None
}
