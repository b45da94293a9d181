ghost use Rattle.std.specs.Prelude.{◌≡◌, ◌+◌, min};
ghost use Rattle.group_fields.specs.Counts.{IsRaised, greatest_count};

/// How often a device has failed, and how often it wanted memory. A count stands still at its greatest value.
#[derive(Clone, Copy, Debug, PartialEq, Eq)]
pub struct Counts {
    pub faults: u64,
    pub wants: u64,
}

impl Counts {
    /// No failure and no want so far.
    pub const NONE: Counts = Counts {
        faults: 0,
        wants: 0,
    };

    /// Counts one more failure.
    pub fn add_fault(&mut self)
        ensures exact { self.new.faults ≡ min (self.old.faults + 1) greatest_count }
        ensures raised { IsRaised self.old.faults self.new.faults }
        ensures wants { self.new.wants ≡ self.old.wants }
    {
        self.faults = self.faults.saturating_add(1);
    }

    /// Counts one more want of memory.
    pub fn add_want(&mut self)
        ensures exact { self.new.wants ≡ min (self.old.wants + 1) greatest_count }
        ensures raised { IsRaised self.old.wants self.new.wants }
        ensures faults { self.new.faults ≡ self.old.faults }
    {
        self.wants = self.wants.saturating_add(1);
    }
}
