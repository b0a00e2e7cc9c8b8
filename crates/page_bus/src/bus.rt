ghost use Rattle.std.specs.Prelude.{◌≡◌, ◌<◌};
ghost use Rattle.page_bus.specs.Passes.{IsSaverPass, IsVcpuPass, book_of, vcpu_key};
ghost use Rattle.page_bus.specs.Saves.{LeavesPickAs, LeavesTakeAs, pages_of_book};
ghost use Rattle.page_bus.specs.Steps.{LeavesTry};

use crate::pick::pick_from;
use crate::release::take_from;
use crate::traced_vcpu::TracedVcpu;
use crate::turn::turn;
use crate::{SaverPass, VcpuPass};
use flat_machine::Order;
use page_cell::{Cell, PageBuf, Pick, Taken};
use plain_bus::StepAnswer;
use ram_block::Shape;
use rv64i_step::Vcpu;
use std::marker::Model;

/// The bus that the passes of vCPUs and of a saver share. All its memory is taken at the start.
#[derive(Drop)]
pub struct Bus {
    pub(crate) rule: bus_rule::Bus,
    pub(crate) shape: Shape,
    pub(crate) clock: u64,
    // The vCPUs of the start, into whose places those of the end go.
    pub(crate) vcpus: Vec<Vcpu>,
    // The list that the pages were in, and go back to.
    pub(crate) ram: Vec<PageBuf>,
    // Room for what comes back at the end: the cells, the vCPUs with their numbers, and the order.
    pub(crate) cells: Vec<Cell>,
    pub(crate) traced: Vec<TracedVcpu>,
    pub(crate) order: Order,
}

impl Model for Bus {
    ghost use Rattle.page_bus.specs.Passes.{BusData};

    ghost Value = { BusData };

    ghost use Rattle.page_bus.specs.Inside.{IsBusInside, bus_of};

    ghost view = { bus_of };

    ghost invariant = { IsBusInside };
}

impl Bus {
    /// The turn of a vCPU: its next event, or a stop at a protected page, which is queued; or none, where its phase has
    /// ended, or a cell that it needs is held by another pass.
    #[inline(always)]
    pub fn try_step(&self, pass: &mut VcpuPass) -> StepAnswer
        requires { pass.old.table ≡ self.now.table }
        ensures key { vcpu_key pass.new ≡ vcpu_key pass.old }
        ensures leaves { LeavesTry pass.old.view result pass.new.view }
        ensures limits { IsVcpuPass pass.new }
    {
        let answer = turn(&self.rule, &mut pass.seat, &mut pass.traced);
        if let StepAnswer::Busy(_) = answer {
            pass.busy = pass.busy.saturating_add(1);
        }
        answer
    }

    /// Takes the front of the queue of faulted pages, for the saver.
    pub fn pick_as(&self, pass: &mut SaverPass) -> Pick
        requires { pass.old.table ≡ self.now.table }
        ensures leaves { LeavesPickAs pass.old result pass.new }
        ensures limits { IsSaverPass pass.new }
    {
        let answer = pick_from(&self.rule, &mut pass.seat, &pass.shape);
        if let Pick::Busy = answer {
            pass.busy = pass.busy.saturating_add(1);
        }
        pass.picks = pass.picks.saturating_add(1);
        pass.last = Some(answer);
        answer
    }

    /// Copies the bytes of the instant of a page out, and then makes the page writable, for the saver.
    pub fn take_as(&self, pass: &mut SaverPass, page: u32, into: &mut PageBuf) -> Taken
        requires table { pass.old.table ≡ self.now.table }
        requires page { page < pages_of_book (book_of pass.old.view) }
        ensures leaves { LeavesTakeAs pass.old page into.old result into.new pass.new }
        ensures limits { IsSaverPass pass.new }
    {
        let answer = take_from(&self.rule, &mut pass.seat, &pass.shape, page, into);
        if let Taken::Busy = answer {
            pass.busy = pass.busy.saturating_add(1);
        }
        answer
    }
}
