// The clock of a script.

ghost use Rattle.std.specs.Prelude.{◌≡◌, ℕ, ◌+◌, ◌⊎◌, [], Some, is_some, slice_get};
ghost use Rattle.scitt_io.specs.Causes.{HasCause};
ghost use Rattle.scitt_io.specs.Moments.{Ticks};

use scitt_io::{Clock, ClockFault, MemClock};
use std::alloc::Global;
use std::marker::Model;

/// A clock that gives moments in their order, and fails only behind the last of them.
#[derive(Drop)]
pub(crate) struct ScriptClock {
    clock: MemClock,
}

impl Model for ScriptClock {
    ghost use Rattle.std.specs.Prelude.{◌≡◌, ◌⊎◌, []};
    ghost use Rattle.scitt_io.specs.Memory.{Times};

    ghost Value = { Times };

    ghost view = { λ c. c.clock };

    ghost invariant = { λ c. (c.clock.plan.fails.items ≡ []) × ((c.clock.plan.faults ≡ 0) ⊎ (c.clock.left ≡ [])) };
}

impl ScriptClock {
    pub(crate) fn new(alloc: Global, moments: Vec<u64>) -> ScriptClock
        ensures left { result.left ≡ moments.items }
        ensures readings { result.readings ≡ 0 }
        ensures faults { result.plan.faults ≡ 0 }
    {
        ScriptClock {
            clock: MemClock::new(moments, Vec::new(alloc)),
        }
    }

    /// It didn't fail, or no moment is left.
    pub(crate) fn is_late(&self)
        ensures { (self.now.plan.faults ≡ 0) ⊎ (self.now.left ≡ []) }
    {
        let _clock = &self.clock;
    }
}

impl Clock for ScriptClock {
    ghost moments = { λ c. Some (slice_get c.left) };

    ghost misses = { λ c. c.plan.faults };

    ghost readings = { λ c. c.readings };

    fn now(&mut self) -> Result<u64, ClockFault> {
        self.clock.now()
    }
}
