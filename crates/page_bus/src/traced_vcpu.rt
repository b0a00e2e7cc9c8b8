ghost use Rattle.std.specs.Prelude.{◌≡◌, ◌≢◌, ◌≤◌, ◌<◌, ◌+◌, ◌*◌, ◌^◌, false, length, IfOk, Some, None, slice_get};
ghost use Rattle.ram_block.specs.Shape.{total_pages_of};
ghost use Rattle.ram_block.specs.declared.cause.Cause.{Cause};
ghost use Rattle.ram_block.specs.declared.limits.TheConstants.{MAX_PHASE};
ghost use Rattle.rv64i_step.specs.Event.{IsStage, fetched_vcpu, request_of};
ghost use Rattle.rv64i_step.specs.Request.{CanServe};
ghost use Rattle.rv64i_step.specs.Vcpu.{VcpuData};
ghost use Rattle.rv64i_step.specs.declared.request.Request.TheVariants.{NoFetch, Nothing};
ghost use Rattle.flat_machine.specs.Cell as flat;
ghost use Rattle.flat_machine.specs.Fits.{IsWordIfFetched};
ghost use Rattle.flat_machine.specs.Machine.{Rest};
ghost use Rattle.flat_machine.specs.Next.{cell_of, vcpu_after};
ghost use Rattle.flat_machine.specs.Run.{vcpu_ended};
ghost use Rattle.bus_rule.specs.Kept.{cell_number};
ghost use Rattle.page_bus.specs.Room.{traced_from};
ghost use Rattle.page_bus.specs.Traced.{IsTraced, numbered, traced_event, traced_stop};

use flat_machine::{Machine, phase_has_ended};
use ram_block::{Place, Shape};
use rv64i_step::{Request, Vcpu};
use std::alloc::{AllocError, Global};
use std::marker::Model;

/// A vCPU with the numbers of its events, for which there is room.
#[derive(Drop)]
pub(crate) struct TracedVcpu {
    pub(crate) who: u32,
    shape: Shape,
    pub(crate) vcpu: Vcpu,
    run: u32,
    until: u64,
    start: u64,
    pub(crate) numbers: Vec<u64>,
    blocked: u64,
}

impl Model for TracedVcpu {
    ghost use Rattle.std.specs.Prelude.{◌*◌, ◌≤◌, vec_capacity};
    ghost use Rattle.page_bus.specs.Traced.{IsTraced, TracedData};

    ghost Value = { TracedData };

    ghost view = { λ d. record { who = d.who; shape = d.shape; vcpu = d.vcpu; run = d.run; until = d.until; start = d.start; numbers = d.numbers.items; blocked = d.blocked } };

    ghost invariant = { λ d. record {
      traced : IsTraced (record { who = d.who; shape = d.shape; vcpu = d.vcpu; run = d.run; until = d.until; start = d.start; numbers = d.numbers.items; blocked = d.blocked });
      room : 2 * d.run ≤ vec_capacity d.numbers;
    } };
}

impl TracedVcpu {
    /// vCPU k of a machine, before the first event of a phase of so many instructions.
    pub(crate) fn first(
        alloc: Global,
        machine: &Machine,
        k: u32,
        run: u32,
    ) -> Result<TracedVcpu, AllocError>
        requires rest { Rest machine.now }
        requires most { run ≤ MAX_PHASE }
        requires vcpu { k < machine.now.shape.vcpus }
        ensures { IfOk result (λ d. (v : VcpuData) → slice_get machine.now.vcpus k ≡ Some v → d ≡ traced_from machine.now run k v) }
    {
        let numbers = Vec::with_capacity(alloc, 2 * run as usize)?;
        let vcpu = machine.vcpu(k);
        Ok(TracedVcpu {
            who: k,
            shape: machine.shape(),
            vcpu: *vcpu,
            run,
            until: vcpu.steps() + u64::from(run),
            start: machine.clock(),
            numbers,
            blocked: 0,
        })
    }

    pub(crate) fn blocked(&self) -> u64
        ensures { result ≡ self.now.blocked }
    {
        self.blocked
    }

    /// The number that its pass writes into the words of the cells that it takes.
    #[inline(always)]
    pub(crate) fn number(&self) -> u64
        ensures value { result ≡ self.now.who + 1 }
        ensures limits { IsTraced self.now }
    {
        u64::from(self.who) + 1
    }

    /// How many pages its machine has.
    #[inline(always)]
    pub(crate) fn pages(&self) -> u32
        ensures value { result ≡ total_pages_of self.now.shape }
        ensures limits { IsTraced self.now }
    {
        self.shape.total_pages()
    }

    #[inline(always)]
    pub(crate) fn has_ended(&self) -> bool
        ensures value { result ≡ vcpu_ended self.now.until self.now.vcpu }
        ensures limits { IsTraced self.now }
    {
        phase_has_ended(&self.vcpu, self.until)
    }

    /// What its next event needs.
    #[inline(always)]
    pub(crate) fn request(&self) -> Request
        ensures value { result ≡ request_of self.now.shape self.now.vcpu }
        ensures stage { IsStage self.now.vcpu result }
        ensures can { CanServe self.now.shape result }
        ensures limits { IsTraced self.now }
    {
        self.vcpu.request(&self.shape)
    }

    /// An event, of the value that its cell gave, which drew this number.
    #[tactic(auto, unfolding(flat_machine::specs::Next::cell_of, flat_machine::specs::Next::vcpu_after))]
    #[inline(always)]
    pub(crate) fn note_event(&mut self, request: &Request, value: u64, clock: u64)
        requires going { vcpu_ended self.old.until self.old.vcpu ≡ false }
        requires stage { IsStage self.old.vcpu request.now }
        requires touches { cell_of request.now ≢ None }
        requires word { IsWordIfFetched request.now value }
        requires counted { self.old.start ≤ clock }
        requires room { length self.old.numbers < 2 * self.old.run }
        ensures event { self.new ≡ traced_event self.old (vcpu_after self.old.shape self.old.vcpu request.now value) clock }
        ensures limits { IsTraced self.new }
    {
        match *request {
            Request::Fetch { .. } => self.vcpu.fetched(&self.shape, Some(value as u32)),
            Request::Load { .. } | Request::Store { .. } | Request::Amo { .. } => {
                self.vcpu.accessed(value);
            }
            _ => unreachable!(),
        }
        self.numbers.push_reserved(clock - self.start);
    }

    /// An event that has nothing to fetch, which drew this number.
    #[inline(always)]
    pub(crate) fn note_no_fetch(&mut self, clock: u64)
        requires going { vcpu_ended self.old.until self.old.vcpu ≡ false }
        requires asks { (cause : Cause) × IsStage self.old.vcpu (NoFetch cause) }
        requires counted { self.old.start ≤ clock }
        requires room { length self.old.numbers < 2 * self.old.run }
        ensures event { self.new ≡ traced_event self.old (fetched_vcpu self.old.shape self.old.vcpu None) clock }
        ensures limits { IsTraced self.new }
    {
        self.vcpu.fetched(&self.shape, None);
        self.numbers.push_reserved(clock - self.start);
    }

    /// A stop.
    #[inline(always)]
    pub(crate) fn note_stop(&mut self)
        ensures stop { self.new ≡ traced_stop self.old }
        ensures limits { IsTraced self.new }
    {
        self.blocked = self.blocked.saturating_add(1);
    }
}

/// The number of the cell that a request touches, on a machine of so many pages.
#[tactic(auto, unfolding(flat_machine::specs::Next::cell_of))]
#[inline(always)]
pub(crate) fn cell_touched(request: &Request, pages: u32) -> Option<u32>
    requires { pages < 2 ^ 31 }
    ensures { result ≡ numbered pages (cell_of request.now) }
{
    match *request {
        Request::Nothing | Request::NoFetch(_) => None,
        Request::Fetch { page, .. } => Some(page),
        Request::Load { place, .. } | Request::Store { place, .. } | Request::Amo { place, .. } =>
            Some(cell_at(place, pages)),
    }
}

// The number of the cell of a place.
#[inline(always)]
fn cell_at(place: Place, pages: u32) -> u32
    requires { pages < 2 ^ 31 }
    ensures { result ≡ cell_number pages (flat.cell_at place) }
{
    match place {
        Place::Ram { page, .. } => page,
        Place::Serial(_) => pages,
        Place::Timer(_) => pages + 1,
    }
}
