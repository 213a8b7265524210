// The list of failing calls, as the disks use it.
ghost use Rattle.std.specs.Prelude.{◌≡◌, ◌≤◌, ◌↔◌, false, IsTrue};
ghost use Rattle.scitt_io.specs.Causes.{Rose, raised};
ghost use Rattle.scitt_disk.specs.Failing.{FailsNow, Advances};

use scitt_io::Plan;

/// Counts a call, and a fault where it is listed. Answers whether it is.
pub fn fails_next(plan: &mut Plan) -> bool
    ensures listed { IsTrue result ↔ FailsNow plan.old }
    ensures counted { Advances plan.old plan.new }
    ensures later { plan.old.faults ≤ plan.new.faults }
    ensures rose { IsTrue result → Rose plan.old.faults plan.new.faults }
    ensures once { IsTrue result → plan.new.faults ≡ raised plan.old.faults }
    ensures kept { result ≡ false → plan.new.faults ≡ plan.old.faults }
{
    let _before = plan.faults;
    plan.fails_now()
}

/// Counts a fault that isn't listed.
pub fn count_fault(plan: &mut Plan)
    ensures made { plan.new.made ≡ plan.old.made }
    ensures fails { plan.new.fails ≡ plan.old.fails }
    ensures later { plan.old.faults ≤ plan.new.faults }
    ensures rose { Rose plan.old.faults plan.new.faults }
    ensures once { plan.new.faults ≡ raised plan.old.faults }
{
    let _before = plan.faults;
    plan.count_fault();
}
