//! Laws of the records of steps. Each function does nothing; its contract is the law.

ghost use Rattle.std.specs.Prelude.{◌≡◌, ◌≤◌, Option, Some, length};
ghost use Rattle.std.specs.Option.{option_map};
ghost use Rattle.reference_member.specs.Steps.{HasRecord, Step, record_of};
ghost use Rattle.step_records.specs.Records.{Tells, step_of};
ghost use Rattle.step_records.specs.Sizes.{HasShortTail, longest_record};
ghost use Rattle.step_records.specs.declared.recorded.StepRecord.{StepRecord};

use kem_trait::Kem;

/// What was written for a step is read as this step.
pub fn records_are_read_back<K: Kem>()
    ensures { (step : Step) (read : Option StepRecord) → HasRecord ⟦<K as Kem>⟧ step
        → Tells ⟦<K as Kem>⟧ (record_of K.SET step) read → option_map step_of read ≡ Some step }
{}

/// A journal takes each record: it isn't empty, and has at most 8,388,641 bytes where its text or its packet has at
/// most 8,388,608.
pub fn records_fit_a_journal<K: Kem>()
    ensures not_empty { (step : Step) → 1 ≤ length (record_of K.SET step) }
    ensures not_long { (step : Step) → HasRecord ⟦<K as Kem>⟧ step → HasShortTail step.input
        → length (record_of K.SET step) ≤ longest_record }
{}
