// The links in memory: one that fails at listed calls, and one that never fails.
ghost use Rattle.std.specs.Prelude.{◌≡◌, ℕ, ◌+◌, ◌-◌, ◌^◌, ◌↔◌, [], List, length, min, IsErr, IsOk, IsTrue, Some, None, OnOk, OnErr, IfOk, ◌<◌, is_some};
ghost use Rattle.std.specs.Io.{ReadsAtMost, WritesAtMost};
ghost use Rattle.std.specs.Io.KnownBytes.{ReadConsumes, WriteAppends};
ghost use Rattle.scitt_io.specs.Causes.{HasCause};

use crate::link::Link;
use crate::plan::Plan;
use crate::shelf::give;
use crate::sink::{Sink, WriteFault};
use crate::source::{ReadFault, Source};
use std::alloc::Global;
use std::marker::Model;

/// A link over memory: it has its input, and keeps what is written.
#[derive(Drop)]
pub struct MemLink {
    bytes: Vec<u8>,
    at: usize,
    taken: Vec<u8>,
    plan: Plan,
    faults: u64,
    refused: u64,
}

impl Model for MemLink {
    ghost use Rattle.std.specs.Prelude.{drop, length, ◌≤◌};
    ghost use Rattle.scitt_io.specs.Memory.{Connection};

    ghost Value = { Connection };

    ghost view = { λ s. record { left = drop s.at s.bytes.items; taken = s.taken.items; plan = s.plan; faults = s.faults; refused = s.refused } };

    ghost invariant = { λ s. s.at ≤ length s.bytes.items };
}

impl MemLink {
    ghost use Rattle.scitt_io.specs.Plan.{plan_of};

    /// A link with these bytes to read, to which nothing was written yet.
    pub fn new(alloc: Global, bytes: Vec<u8>, fails: Vec<u32>) -> Self
        ensures { result ≡ record { left = bytes.items; taken = []; plan = plan_of fails; faults = 0; refused = 0 } }
    {
        MemLink {
            bytes,
            at: 0,
            taken: Vec::new(alloc),
            plan: Plan::new(fails),
            faults: 0,
            refused: 0,
        }
    }

    /// How many calls were refused: the sum of its two counts.
    pub fn faults(&self) -> u64
        ensures { result ≡ min (self.now.faults + self.now.refused) (2 ^ 64 - 1) }
    {
        self.faults.saturating_add(self.refused)
    }

    /// The bytes that were written.
    pub fn into_content(self) -> Vec<u8>
        ensures { result.items ≡ self.taken }
    {
        self.taken
    }
}

impl Source for MemLink {
    ghost use Rattle.scitt_io.specs.Plan.{is_listed, after_call};

    ghost left = { λ s. Some s.left };

    ghost faults = { λ s. s.faults };

    ghost read_keeps = { λ a b. (b.taken ≡ a.taken) × (b.refused ≡ a.refused) };

    ghost use Rattle.std.proofs.Common.{refl, ◌∙◌};

    ghost read_keeps_self = { λ _. (refl, refl) };

    ghost read_keeps_then = { λ _ _ _ p q. (q.0 ∙ p.0, q.1 ∙ p.1) };

    fn read(&mut self, buf: &mut [u8]) -> Result<usize, ReadFault>
        ensures bound { ReadsAtMost result buf.new }
        ensures bytes { ReadConsumes (Some self.old.left) (Some self.new.left) result buf.new }
        ensures telling { is_some (Some self.new.left) ≡ is_some (Some self.old.left) }
        ensures cause { HasCause self.old.faults self.new.faults result }
        ensures keeps { (self.new.taken ≡ self.old.taken) × (self.new.refused ≡ self.old.refused) }
        ensures listed { IsErr result ↔ IsTrue (is_listed self.old.plan) }
        ensures counted { self.new.plan ≡ after_call self.old.plan }
    {
        if self.plan.fails_now() {
            self.faults = self.faults.saturating_add(1);
            return Err(ReadFault);
        }
        let count = give(&self.bytes, self.at, buf);
        self.at += count;
        Ok(count)
    }
}

impl Sink for MemLink {
    ghost use Rattle.scitt_io.specs.Plan.{is_listed, after_call, after_refusal};

    ghost taken = { λ s. Some s.taken };

    ghost refused = { λ s. s.refused };

    ghost write_keeps = { λ a b. (b.left ≡ a.left) × (b.faults ≡ a.faults) };

    ghost use Rattle.std.proofs.Common.{refl, ◌∙◌};

    ghost write_keeps_self = { λ _. (refl, refl) };

    ghost write_keeps_then = { λ _ _ _ p q. (q.0 ∙ p.0, q.1 ∙ p.1) };

    /// Takes the whole piece. It fails at the listed calls, and where the bytes find no memory.
    fn write(&mut self, bytes: &[u8]) -> Result<usize, WriteFault>
        ensures bound { WritesAtMost result bytes.now }
        ensures some { IfOk result (λ n. 0 < length bytes.now → 0 < n) }
        ensures appends { WriteAppends (Some self.old.taken) (Some self.new.taken) result bytes.now }
        ensures telling { is_some (Some self.new.taken) ≡ is_some (Some self.old.taken) }
        ensures cause { HasCause self.old.refused self.new.refused result }
        ensures keeps { (self.new.left ≡ self.old.left) × (self.new.faults ≡ self.old.faults) }
        ensures whole { IfOk result (λ n. n ≡ length bytes.now) }
        ensures listed { IsTrue (is_listed self.old.plan) → IsErr result }
        ensures counted { OnOk result (self.new.plan ≡ after_call self.old.plan) }
        ensures failed { OnErr result (self.new.plan ≡ after_refusal self.old.plan) }
    {
        if self.plan.fails_now() {
            self.refused = self.refused.saturating_add(1);
            return Err(WriteFault);
        }
        if self.taken.extend_from_slice(bytes).is_err() {
            self.plan.count_fault();
            self.refused = self.refused.saturating_add(1);
            return Err(WriteFault);
        }
        Ok(bytes.len())
    }
}

impl Link for MemLink {
    ghost use Rattle.std.proofs.Common.{ap};

    ghost taken_kept = { λ _ _ p. ap (λ xs. Some xs) p.0 };

    ghost refused_kept = { λ _ _ p. p.1 };

    ghost left_kept = { λ _ _ p. ap (λ xs. Some xs) p.0 };

    ghost faults_kept = { λ _ _ p. p.1 };
}

/// A link over bytes in memory, which never fails. It drops what it is given, and doesn't tell it.
#[derive(Drop)]
pub struct SureLink {
    bytes: Vec<u8>,
    at: usize,
}

impl Model for SureLink {
    ghost use Rattle.std.specs.Prelude.{ℕ, List, drop, length, ◌≤◌};

    ghost Value = { List ℕ };

    ghost view = { λ s. drop s.at s.bytes.items };

    ghost invariant = { λ s. s.at ≤ length s.bytes.items };
}

impl SureLink {
    pub fn new(bytes: Vec<u8>) -> Self
        ensures { result ≡ bytes.items }
    {
        SureLink { bytes, at: 0 }
    }
}

impl Source for SureLink {
    ghost left = { λ s. Some s };

    ghost faults = { λ _. 0 };

    ghost read_keeps = { λ _ _. Unit {0} };

    ghost read_keeps_self = { λ _. tt };

    ghost read_keeps_then = { λ _ _ _ _ _. tt };

    fn read(&mut self, buf: &mut [u8]) -> Result<usize, ReadFault>
        ensures bound { ReadsAtMost result buf.new }
        ensures bytes { ReadConsumes (Some self.old) (Some self.new) result buf.new }
        ensures telling { is_some (Some self.new) ≡ is_some (Some self.old) }
        ensures cause { HasCause 0 0 result }
        ensures keeps { Unit {0} }
        ensures sure { IsOk result }
    {
        let count = give(&self.bytes, self.at, buf);
        self.at += count;
        Ok(count)
    }
}

impl Sink for SureLink {
    ghost taken = { λ _. None };

    ghost refused = { λ _. 0 };

    ghost write_keeps = { λ a b. b ≡ a };

    ghost use Rattle.std.proofs.Common.{refl, ◌∙◌};

    ghost write_keeps_self = { λ _. refl };

    ghost write_keeps_then = { λ _ _ _ p q. q ∙ p };

    fn write(&mut self, bytes: &[u8]) -> Result<usize, WriteFault>
        ensures bound { WritesAtMost result bytes.now }
        ensures some { IfOk result (λ n. 0 < length bytes.now → 0 < n) }
        ensures appends { WriteAppends None None result bytes.now }
        ensures telling { is_some {T = List ℕ} None ≡ is_some {T = List ℕ} None }
        ensures cause { HasCause 0 0 result }
        ensures keeps { self.new ≡ self.old }
        ensures sure { IsOk result }
    {
        Ok(bytes.len())
    }
}

impl Link for SureLink {
    ghost use Rattle.std.proofs.Common.{ap, refl};

    ghost taken_kept = { λ _ _ _. refl };

    ghost refused_kept = { λ _ _ _. refl };

    ghost left_kept = { λ _ _ p. ap (λ xs. Some xs) p };

    ghost faults_kept = { λ _ _ _. refl };
}
