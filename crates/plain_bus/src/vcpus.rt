ghost use Rattle.std.specs.Prelude.{◌≡◌, ◌<◌, ◌≤◌, ◌+◌, ◌^◌, ℕ, length, slice_get, slice_set, vec_len, All, Some, IsSome};
ghost use Rattle.rv64i_step.specs.Event.{accessed_vcpu, fetched_vcpu, request_of, IsServable, IsStage};
ghost use Rattle.rv64i_step.specs.Request.{CanServe};
ghost use Rattle.rv64i_step.specs.Vcpu.{IsReady, IsVcpu, VcpuData};

use ram_block::Shape;
use rv64i_step::{Request, Vcpu};

/// The request of a vCPU in a list.
#[inline(always)]
pub(crate) fn request_of(vcpus: &[Vcpu], k: usize, shape: &Shape) -> Request
    requires vcpu { k < length vcpus.now }
    requires servable { All (IsServable shape.now) vcpus.now }
    ensures request { (v : VcpuData) → slice_get vcpus.now k ≡ Some v → result ≡ request_of shape.now v }
    ensures stage { (v : VcpuData) → slice_get vcpus.now k ≡ Some v → IsStage v result }
    ensures servable { CanServe shape.now result }
{
    vcpus[k].request(shape)
}

/// The part of the fetch event of a vCPU in a list.
#[inline(always)]
pub(crate) fn fetch_into(vcpus: &mut Vec<Vcpu>, k: usize, shape: &Shape, word: Option<u32>)
    requires vcpu { k < vec_len vcpus.old }
    requires ready { (v : VcpuData) → slice_get vcpus.old.items k ≡ Some v → IsReady v }
    requires each { All IsVcpu vcpus.old.items }
    requires servable { All (IsServable shape.now) vcpus.old.items }
    ensures event { (v : VcpuData) → slice_get vcpus.old.items k ≡ Some v → vcpus.new.items ≡ slice_set vcpus.old.items k (fetched_vcpu shape.now v word) }
    ensures count { vec_len vcpus.new ≡ vec_len vcpus.old }
    ensures steps { (most : ℕ) → All (λ v. v.steps ≤ most) vcpus.old.items → All (λ v. v.steps ≤ most + 1) vcpus.new.items }
    ensures each { All IsVcpu vcpus.new.items }
    ensures servable { All (IsServable shape.now) vcpus.new.items }
{
    vcpus[k].fetched(shape, word);
}

/// The part of the access event of a vCPU in a list.
#[inline(always)]
pub(crate) fn access_into(vcpus: &mut Vec<Vcpu>, k: usize, shape: &Shape, value: u64)
    requires vcpu { k < vec_len vcpus.old }
    requires pending { (v : VcpuData) → slice_get vcpus.old.items k ≡ Some v → IsSome v.pending }
    requires steps { (v : VcpuData) → slice_get vcpus.old.items k ≡ Some v → v.steps < 2 ^ 63 }
    requires each { All IsVcpu vcpus.old.items }
    requires servable { All (IsServable shape.now) vcpus.old.items }
    ensures event { (v : VcpuData) → slice_get vcpus.old.items k ≡ Some v → vcpus.new.items ≡ slice_set vcpus.old.items k (accessed_vcpu v value) }
    ensures count { vec_len vcpus.new ≡ vec_len vcpus.old }
    ensures steps { (most : ℕ) → All (λ v. v.steps ≤ most) vcpus.old.items → All (λ v. v.steps ≤ most + 1) vcpus.new.items }
    ensures each { All IsVcpu vcpus.new.items }
    ensures servable { All (IsServable shape.now) vcpus.new.items }
{
    vcpus[k].accessed(value);
}
