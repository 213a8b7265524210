// What may stand behind the lock.
ghost use Rattle.std.specs.Prelude.{◌≡◌, ℕ, List, Option, Some, length};

/// A value that stands for a list of byte lists, where it tells one; else it stands for the empty list.
pub trait Grows {
    // the list, or none where the value doesn't tell it
    ghost told: { Self → Option (List (List ℕ)) };

    // two numbers of the value
    ghost marked: { Self → List ℕ };

    /// The length of the list, where it is told; else any number. It takes no memory.
    fn len(&self) -> u64
        ensures { (xs : _) → told self.now ≡ Some xs → result ≡ length xs };

    /// Two numbers of the value. It takes no memory.
    fn marks(&self) -> [u64; 2]
        ensures { result ≡ marked self.now };
}
