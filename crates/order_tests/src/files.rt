ghost use Rattle.ram_block.specs.Shape.{IsWithin};
ghost use Rattle.ram_block.specs.declared.shape.TheConstants.{MAX_VCPUS};
ghost use Rattle.std.specs.Prelude.{IfOk};
ghost use Rattle.order_log.specs.Text.{IsOrder};

use flat_machine::Order;
use medium::{FailPlan, MemMedium};
use order_log::{OrderFault, get_order};
use std::alloc::Global;
use std::test::Fail;

/// A file of these bytes. Its calls from this number on fail.
fn file_of(alloc: Global, bytes: &[u8], from: Option<u64>) -> Result<MemMedium, Fail> {
    let plan = FailPlan {
        calls: Vec::new(alloc),
        from,
    };
    let room = bytes.len() as u64;
    Ok(MemMedium::new(alloc, bytes.to_vec(alloc)?, room, 0, plan)?)
}

/// The order of which these bytes are the text.
pub(crate) fn order_of(alloc: Global, bytes: &[u8], vcpus: u32) -> Result<Order, Fail>
    requires { IsWithin vcpus MAX_VCPUS }
    ensures { IfOk result (λ o. IsOrder vcpus o.members) }
{
    let mut file = file_of(alloc, bytes, None)?;
    match get_order(alloc, &mut file, vcpus) {
        Ok(order) => Ok(order),
        Err(fault) => Err(NoOrder(fault))?,
    }
}

/// Why these bytes are the text of no order of two vCPUs.
pub(crate) fn fault_of(alloc: Global, bytes: &[u8]) -> Result<Option<OrderFault>, Fail> {
    let mut file = file_of(alloc, bytes, None)?;
    Ok(get_order(alloc, &mut file, 2).err())
}

/// The same of a file of which the calls from this number on fail.
pub(crate) fn fault_from(
    alloc: Global,
    bytes: &[u8],
    from: u64,
) -> Result<Option<OrderFault>, Fail> {
    let mut file = file_of(alloc, bytes, Some(from))?;
    Ok(get_order(alloc, &mut file, 2).err())
}

/// A test asks for the order of a text that is none.
#[derive(Debug, Drop)]
pub(crate) struct NoOrder(OrderFault);
