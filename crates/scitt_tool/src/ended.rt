// The end of a command that had a disk.
ghost use Rattle.std.specs.Prelude.{◌≡◌};

/// What a command answered, and the disk that it had.
#[derive(Drop)]
pub(crate) struct Ended<D, R> {
    pub(crate) disk: D,
    pub(crate) result: R,
}

impl<D, R> Ended<D, R> {
    /// Both.
    pub(crate) fn parts(self) -> (D, R)
        ensures disk { result.0 ≡ self.disk }
        ensures answer { result.1 ≡ self.result }
    {
        let Ended { disk, result } = self;
        (disk, result)
    }
}
