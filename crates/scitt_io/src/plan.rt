ghost use Rattle.std.specs.Prelude.{◌≡◌, ◌==◌, ◌≤◌};
ghost use Rattle.std.specs.List.{list_any};
ghost use Rattle.scitt_io.specs.Causes.{raised};
ghost use Rattle.scitt_io.specs.Plan.{is_listed, after_call, after_fault};

/// The calls of a memory form that are to fail, each by its number: the object's first call of any of
/// its traits is 0. Beside them stand how many calls were made and how many faults came so far.
#[derive(Drop)]
pub struct Plan {
    pub fails: Vec<u32>,
    pub made: u64,
    pub faults: u64,
}

impl Plan {
    pub fn new(fails: Vec<u32>) -> Self
        ensures { result ≡ record { fails = fails; made = 0; faults = 0 } }
    {
        Plan {
            fails,
            made: 0,
            faults: 0,
        }
    }

    /// Counts a call, and says whether it is listed. A listed call is counted as a fault too.
    pub fn fails_now(&mut self) -> bool
        ensures listed { result ≡ is_listed self.old }
        ensures counted { self.new ≡ after_call self.old }
        ensures later { self.old.faults ≤ self.new.faults }
    {
        let listed = contains(&self.fails, self.made);
        self.made = self.made.saturating_add(1);
        if listed {
            self.faults = self.faults.saturating_add(1);
        }
        listed
    }

    /// Counts a fault of the call that was counted last, as where memory is wanting.
    pub fn count_fault(&mut self)
        ensures counted { self.new ≡ after_fault self.old }
        ensures later { self.old.faults ≤ self.new.faults }
    {
        self.faults = self.faults.saturating_add(1);
    }
}

fn contains(fails: &[u32], made: u64) -> bool
    ensures { result ≡ list_any (λ call. call == made) fails.now }
{
    fails.iter().any(|call| u64::from(*call) == made)
}
