ghost use Rattle.std.specs.Prelude.{◌≡◌};

/// What changed a disk in memory, or its images.
#[derive(Drop)]
pub enum Change {
    Wrote(u64, Vec<u8>),
    Refused(u64, u64),
    Synced,
}

impl Change {
    ghost use Rattle.scitt_disk.specs.Calls.{ends_epoch};

    /// Whether this was a sync.
    pub fn is_sync(&self) -> bool
        ensures { result ≡ ends_epoch self.now }
    {
        matches!(self, Change::Synced)
    }
}
