ghost use Rattle.std.specs.Prelude.{◌≡◌, ◌<◌, ◌≤◌, ◌++◌, ◌∷◌, [], length, slice_get, IfOk};

use ram_block::NoMemory;
use std::alloc::Global;
use std::marker::Model;

/// The vCPUs of the events of a run, by number, in the order of the events.
#[derive(Debug, Drop)]
pub struct Order {
    members: Vec<u8>,
    room: usize,
}

impl Model for Order {
    ghost use Rattle.std.specs.Prelude.{◌≤◌, vec_capacity};
    ghost use Rattle.flat_machine.specs.Order.{OrderData};

    ghost Value = { OrderData };

    ghost view = { λ o. record { members = o.members.items; room = o.room } };

    ghost invariant = { λ o. o.room ≤ vec_capacity o.members };
}

impl Order {
    /// No event, and room for none.
    pub fn empty(alloc: Global) -> Order
        ensures { result ≡ record { members = []; room = 0 } }
    {
        Order {
            members: Vec::new(alloc),
            room: 0,
        }
    }

    /// No event, and room for so many.
    pub fn with_room(alloc: Global, n: usize) -> Result<Order, NoMemory>
        ensures { IfOk result (λ o. o ≡ record { members = []; room = n }) }
    {
        Ok(Order {
            members: Vec::with_capacity(alloc, n)?,
            room: n,
        })
    }

    /// Puts an event of vCPU k last.
    #[inline(always)]
    pub fn push(&mut self, k: u8)
        requires vcpu { k < 8 }
        requires room { length self.old.members < self.old.room }
        ensures { self.new ≡ record { members = self.old.members ++ k ∷ []; room = self.old.room } }
    {
        self.members.push_reserved(k);
    }

    /// How many events there are.
    #[inline(always)]
    pub fn count(&self) -> usize
        ensures { result ≡ length self.now.members }
    {
        self.members.len()
    }

    /// The vCPU of an event, counted from 0.
    pub fn get(&self, i: usize) -> Option<u8>
        ensures { result ≡ slice_get self.now.members i }
    {
        self.members.get(i).copied()
    }
}
