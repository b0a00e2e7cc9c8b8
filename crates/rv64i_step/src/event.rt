ghost use Rattle.std.specs.Prelude.{◌≡◌, ◌≢◌, ◌<◌, ◌≤◌, ◌+◌, ◌^◌, ◌↔◌, None, IsSome};
ghost use Rattle.ram_block.specs.AddressMap.{located};
ghost use Rattle.ram_block.specs.declared.place.Way.TheVariants as ways;
ghost use Rattle.ram_block.specs.declared.place.Width.TheVariants.{Four};
ghost use Rattle.rv64i_decode.specs.Valid.{IsValid};
ghost use Rattle.rv64i_step.specs.Access.{AccessesMemory, amo_width, extended, load_width, loaded, low_bytes, store_width};
ghost use Rattle.rv64i_step.specs.Event.{IsServable, IsStage, access_of, accessed_vcpu, fetch_at, fetched_vcpu, made, request_of};
ghost use Rattle.rv64i_step.specs.Request.{CanServe};
ghost use Rattle.rv64i_step.specs.Vcpu.{IsReady, IsVcpu};
ghost use Rattle.rv64i_step.specs.declared.request.Request.TheVariants.{Nothing};
ghost use Rattle.rv64i_step.specs.declared.state.State.TheVariants.{Running};

use crate::execute::{width_of_amo, width_of_load, width_of_store};
use crate::{Access, Request, State, Vcpu};
use ram_block::{Cause, Place, Shape, Way, Width};
use rv64i_decode::{Instr, LoadOp, decode};

impl Vcpu {
    /// What the vCPU needs for its next event: nothing exactly where it is halted.
    #[tactic(auto, unfolding(crate::specs::Event::request_of))]
    #[inline(always)]
    pub fn request(&self, shape: &Shape) -> Request
        ensures request { result ≡ request_of shape.now self.now }
        ensures nothing { (result ≡ Nothing) ↔ (self.now.state ≢ Running) }
        ensures stage { IsStage self.now result }
        ensures servable { IsServable shape.now self.now → CanServe shape.now result }
        ensures limits { IsVcpu self.now }
    {
        match self.state {
            State::Halted(_) => Request::Nothing,
            State::Running => match self.pending {
                None => fetch_request(shape, self.pc),
                Some(access) => self.access_request(access),
            },
        }
    }

    /// The vCPU's part of the fetch event, of the word that it got: `None` where the request was `NoFetch`.
    #[tactic(auto, unfolding(crate::specs::Event::fetched_vcpu))]
    #[inline(always)]
    pub fn fetched(&mut self, shape: &Shape, word: Option<u32>)
        requires ready { IsReady self.old }
        ensures event { self.new ≡ fetched_vcpu shape.now self.old word }
        ensures servable { IsServable shape.now self.new }
        ensures steps { self.new.steps ≤ self.old.steps + 1 }
        ensures limits { IsVcpu self.new }
    {
        match word {
            None => {
                if let Request::NoFetch(cause) = self.request(shape) {
                    self.halt(cause);
                }
            }
            Some(word) => match decode(word) {
                None => self.halt(Cause::Illegal),
                Some(instr) => self.execute(shape, instr),
            },
        }
    }

    /// The vCPU's part of the access event. For a load or an AMO the value is what the cell gave, without sign.
    #[tactic(auto, unfolding(crate::specs::Event::accessed_vcpu))]
    #[inline(always)]
    pub fn accessed(&mut self, value: u64)
        requires pending { IsSome self.old.pending }
        requires steps { self.old.steps < 2 ^ 63 }
        ensures event { self.new ≡ accessed_vcpu self.old value }
        ensures done { self.new.pending ≡ None }
        ensures steps { self.new.steps ≤ self.old.steps + 1 }
        ensures limits { IsVcpu self.new }
    {
        if let Some(access) = self.pending {
            self.pending = None;
            self.finish_access(access, value);
        }
    }

    // The access that is pending.
    #[inline(always)]
    fn access_request(&self, access: Access) -> Request
        requires kind { AccessesMemory access.instr }
        requires valid { IsValid access.instr }
        ensures request { result ≡ access_of self.now access.place access.instr }
        ensures something { result ≢ Nothing }
    {
        let place = access.place;
        match access.instr {
            Instr::Load { op, .. } => Request::Load {
                place,
                width: width_of_load(op),
            },
            Instr::Store { op, rs2, .. } => {
                let width = width_of_store(op);
                Request::Store {
                    place,
                    width,
                    value: low_bytes_of(width, self.read(rs2)),
                }
            }
            Instr::Amo { op, wide, rs2, .. } => {
                let width = width_of_amo(wide);
                Request::Amo {
                    place,
                    width,
                    op,
                    value: low_bytes_of(width, self.read(rs2)),
                }
            }
            _ => unreachable!(),
        }
    }

    // The instruction is finished with what its access gave.
    #[inline(always)]
    fn finish_access(&mut self, access: Access, value: u64)
        requires kind { AccessesMemory access.instr }
        requires steps { self.old.steps < 2 ^ 63 }
        requires valid { IsValid access.instr }
        ensures event { self.new ≡ made self.old value access.instr }
        ensures pending { self.new.pending ≡ self.old.pending }
        ensures steps { self.new.steps ≤ self.old.steps + 1 }
        ensures limits { IsVcpu self.new }
    {
        match access.instr {
            Instr::Load { op, rd, .. } => self.write_result(rd, loaded_value(op, value)),
            Instr::Store { .. } => self.go_on(),
            Instr::Amo { wide, rd, .. } => self.write_result(
                rd,
                extended_value(width_of_amo(wide), value),
            ),
            _ => unreachable!(),
        }
    }
}

// The fetch at an address.
#[inline(always)]
fn fetch_request(shape: &Shape, pc: u64) -> Request
    ensures request { result ≡ fetch_at (located shape.now pc Four ways.Fetch) }
    ensures something { result ≢ Nothing }
    ensures servable { CanServe shape.now result }
{
    match shape.locate(pc, Width::Four, Way::Fetch) {
        Ok(Place::Ram { page, off }) => Request::Fetch { page, off },
        Ok(_) => Request::NoFetch(Cause::FetchOutside),
        Err(cause) => Request::NoFetch(cause),
    }
}

/// The low bytes of a number, as many as an access moves.
#[inline(always)]
pub fn low_bytes_of(width: Width, a: u64) -> u64
    ensures value { result ≡ low_bytes width a }
    ensures fits { result ≡ low_bytes width result }
{
    match width {
        Width::One => a % (1 << 8),
        Width::Two => a % (1 << 16),
        Width::Four => a % (1 << 32),
        Width::Eight => a,
    }
}

// The low bytes that were read, sign-extended.
#[inline(always)]
fn extended_value(width: Width, a: u64) -> u64
    ensures { result ≡ extended width a }
{
    match width {
        Width::One => i64::from(((a % (1 << 8)) as u8).cast_signed()).cast_unsigned(),
        Width::Two => i64::from(((a % (1 << 16)) as u16).cast_signed()).cast_unsigned(),
        Width::Four => i64::from(((a % (1 << 32)) as u32).cast_signed()).cast_unsigned(),
        Width::Eight => a,
    }
}

// What a load writes to its register.
#[tactic(auto, unfolding(crate::specs::Access::loaded))]
#[inline(always)]
fn loaded_value(op: LoadOp, a: u64) -> u64
    ensures { result ≡ loaded op a }
{
    let width = width_of_load(op);
    match op {
        LoadOp::Lb | LoadOp::Lh | LoadOp::Lw | LoadOp::Ld => extended_value(width, a),
        LoadOp::Lbu | LoadOp::Lhu | LoadOp::Lwu => low_bytes_of(width, a),
    }
}
