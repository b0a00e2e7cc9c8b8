ghost use Rattle.std.specs.Prelude.{◌≡◌, is_ok, if◌then◌else◌};
ghost use Rattle.medium.specs.Count.{counted, HasCause};

use medium::Failed;

/// Counts a call that failed. The count stands still at the greatest number.
pub(crate) fn count_fault<T>(faults: &mut u64, outcome: Result<T, Failed>) -> Result<T, Failed>
    ensures same { result ≡ outcome }
    ensures faults { faults.new ≡ (if is_ok result then faults.old else counted faults.old) }
    ensures cause { HasCause faults.old faults.new result }
{
    if outcome.is_err() {
        *faults = faults.saturating_add(1);
    }
    outcome
}
