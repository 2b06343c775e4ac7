//! Programs that show quite the same.
ghost use Rattle.std.specs.Prelude.{◌≡◌};
ghost use Rattle.member_link.specs.Machine.Programs.{Program};
ghost use Rattle.member_link.specs.Machine.SameRuns.{SameRuns};
ghost use Rattle.same_runs.specs.EqualRuns.{EqualRuns};

/// Equal programs run equally.
pub fn programs_that_are_equal_run_equally()
    ensures { (P Q : Program) → P ≡ Q → EqualRuns P Q }
{}

/// What runs equally runs the same, and runs the same the other way round.
pub fn running_equally_is_running_the_same()
    ensures forth { (P Q : Program) → EqualRuns P Q → SameRuns P Q }
    ensures back { (P Q : Program) → EqualRuns P Q → SameRuns Q P }
{}
