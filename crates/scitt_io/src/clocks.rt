// The clocks: one in memory, one that never fails, and the system's.
ghost use Rattle.std.specs.Prelude.{◌≡◌, ℕ, ◌+◌, ◌↔◌, ◌⊎◌, [], IsErr, IsOk, IsTrue, Some, None, OnOk, OnErr, is_some, slice_get};
ghost use Rattle.std.specs.declared.option.Option.{Option};
ghost use Rattle.scitt_io.specs.Causes.{HasCause};
ghost use Rattle.scitt_io.specs.Moments.{Ticks};

use crate::clock::{Clock, ClockFault};
use crate::plan::Plan;
use crate::readings::Readings;
use std::marker::Model;
use std::time;
use std::time::{SystemTime, UNIX_EPOCH};

/// A clock that gives a list of moments, one after another, and fails after the last.
#[derive(Drop)]
pub struct MemClock {
    moments: Vec<u64>,
    at: usize,
    readings: Readings,
    plan: Plan,
}

impl Model for MemClock {
    ghost use Rattle.std.specs.Prelude.{drop, length, ◌≤◌};
    ghost use Rattle.scitt_io.specs.Memory.{Times};

    ghost Value = { Times };

    ghost view = { λ c. record { left = drop c.at c.moments.items; readings = c.readings; plan = c.plan } };

    ghost invariant = { λ c. c.at ≤ length c.moments.items };
}

impl MemClock {
    ghost use Rattle.scitt_io.specs.Plan.{plan_of};

    pub fn new(moments: Vec<u64>, fails: Vec<u32>) -> Self
        ensures { result ≡ record { left = moments.items; readings = 0; plan = plan_of fails } }
    {
        MemClock {
            moments,
            at: 0,
            readings: Readings::new(),
            plan: Plan::new(fails),
        }
    }

    pub fn faults(&self) -> u64
        ensures { result ≡ self.now.plan.faults }
    {
        self.plan.faults
    }
}

impl Clock for MemClock {
    ghost use Rattle.scitt_io.specs.Plan.{is_listed, after_call, after_refusal};

    ghost moments = { λ c. Some (slice_get c.left) };

    ghost misses = { λ c. c.plan.faults };

    ghost readings = { λ c. c.readings };

    /// It fails at the listed calls, and where no moment is left, which counts as a fault too.
    fn now(&mut self) -> Result<u64, ClockFault>
        ensures ticks { Ticks (Some (slice_get self.old.left)) (Some (slice_get self.new.left)) result }
        ensures telling { is_some (Some (slice_get self.new.left)) ≡ is_some (Some (slice_get self.old.left)) }
        ensures cause { HasCause self.old.plan.faults self.new.plan.faults result }
        ensures read { self.new.readings ≡ self.old.readings + 1 }
        ensures listed { IsErr result ↔ (IsTrue (is_listed self.old.plan) ⊎ (self.old.left ≡ [])) }
        ensures counted { OnOk result (self.new.plan ≡ after_call self.old.plan) }
        ensures refused { OnErr result (self.new.plan ≡ after_refusal self.old.plan) }
    {
        self.readings.add();
        if self.plan.fails_now() {
            return Err(ClockFault);
        }
        if self.at == self.moments.len() {
            self.plan.count_fault();
            return Err(ClockFault);
        }
        let moment = self.moments[self.at];
        self.at += 1;
        Ok(moment)
    }
}

/// A clock that gives one moment for ever, and never fails.
#[derive(Drop)]
pub struct SureClock {
    moment: u64,
    readings: Readings,
}

impl Model for SureClock {
    ghost use Rattle.scitt_io.specs.Memory.{Standstill};

    ghost Value = { Standstill };

    ghost view = { λ c. record { moment = c.moment; readings = c.readings } };
}

impl SureClock {
    pub fn new(moment: u64) -> Self
        ensures { result ≡ record { moment = moment; readings = 0 } }
    {
        SureClock {
            moment,
            readings: Readings::new(),
        }
    }
}

impl Clock for SureClock {
    ghost moments = { λ c. Some (λ _. Some c.moment) };

    ghost misses = { λ _. 0 };

    ghost readings = { λ c. c.readings };

    fn now(&mut self) -> Result<u64, ClockFault>
        ensures ticks { Ticks (Some (λ _. Some self.old.moment)) (Some (λ _. Some self.new.moment)) result }
        ensures telling { is_some {T = ℕ → Option ℕ} (Some (λ _. Some self.new.moment)) ≡ is_some {T = ℕ → Option ℕ} (Some (λ _. Some self.old.moment)) }
        ensures cause { HasCause 0 0 result }
        ensures read { self.new.readings ≡ self.old.readings + 1 }
        ensures sure { IsOk result }
    {
        self.readings.add();
        Ok(self.moment)
    }
}

/// The system's clock. It tells nothing, and counts what the system refuses: no time, or one before 1970.
#[derive(Drop)]
pub struct WallClock<R: time::Clock + Drop> {
    system: R,
    faults: u64,
    readings: Readings,
}

impl<R: time::Clock + Drop> WallClock<R> {
    /// The system's clock with no fault counted.
    pub fn new(system: R) -> Self
        ensures faults { ⟦<WallClock<R> as Clock>⟧.misses result ≡ 0 }
        ensures readings { ⟦<WallClock<R> as Clock>⟧.readings result ≡ 0 }
    {
        WallClock {
            system,
            faults: 0,
            readings: Readings::new(),
        }
    }
}

impl<R: time::Clock + Drop> Clock for WallClock<R> {
    ghost moments = { λ _. None };

    ghost misses = { λ c. c.faults };

    ghost readings = { λ c. c.readings };

    fn now(&mut self) -> Result<u64, ClockFault> {
        self.readings.add();
        let Some(moment) = seconds_since_1970(&self.system) else {
            self.faults = self.faults.saturating_add(1);
            return Err(ClockFault);
        };
        Ok(moment)
    }
}

fn seconds_since_1970<R: time::Clock>(system: &R) -> Option<u64> {
    let now = SystemTime::now(system).ok()?;
    let since = now.duration_since(UNIX_EPOCH).ok()?;
    Some(since.as_secs())
}
