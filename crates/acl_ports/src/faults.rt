// Counts of faults.
ghost use Rattle.std.specs.Prelude.{◌≡◌, ◌↔◌, None, Some, IfOk, IsErr, is_err, if◌then◌else◌};
ghost use Rattle.acl_ports.specs.Faults.{HasCause, next_count};

use crate::Failed;

// The answer, or a fault that is counted.
pub fn or_fault<T>(answer: Option<T>, faults: &mut u64) -> Result<T, Failed>
    ensures ok { IfOk result (λ value. answer ≡ Some value) }
    ensures err { IsErr result ↔ (answer ≡ None) }
    ensures count { faults.new ≡ (if is_err result then next_count faults.old else faults.old) }
    ensures cause { HasCause faults.old faults.new result }
{
    match answer {
        Some(value) => Ok(value),
        None => {
            *faults = faults.saturating_add(1);
            Err(Failed)
        }
    }
}
