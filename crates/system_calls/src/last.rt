ghost use Rattle.std.specs.Prelude.{◌≡◌};
ghost use Rattle.system_calls.specs.LastFailure.{TellsLast};

use crate::CallError;

/// The answer of a call as it stands, after its failure has been kept as the last one.
pub(crate) fn told_last<T>(
    last: &mut Option<CallError>,
    outcome: Result<T, CallError>,
) -> Result<T, CallError>
    ensures same { result ≡ outcome }
    ensures last { TellsLast last.old last.new result }
{
    match outcome {
        Err(error) if error != CallError::Interrupted => *last = Some(error),
        _ => {}
    }
    outcome
}
