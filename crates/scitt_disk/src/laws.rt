ghost use Rattle.scitt_disk.specs.Laws.{SyncLeavesOneImage, FailureKeepsImages, FailureMayWrite, EpochHasAll, StateGoesOn, WriteGoesOn, FailedWriteGoesOn, SyncGoesOn, StretchesJoin, EarlierRunsJoin, MomentsRise, InsideIsSince};

/// What holds of what every disk holds: after a sync a crash leaves what a read gives and nothing else, a failed
/// write takes no image away, and it may leave all that one which succeeds leaves.
pub fn image_laws()
    ensures synced { SyncLeavesOneImage }
    ensures failed { FailureKeepsImages }
    ensures wrote { FailureMayWrite }
{}

/// What holds of the images since a moment: within an epoch they are the images at its end; a state goes on from
/// itself, and a write, one that failed and a sync go on from the state before; a sync adds what a read gives; those of
/// one stretch of time after another are those of either; those since a moment before a stretch are those of the time
/// before it and those of the stretch; moments don't fall; and what a crash at a state inside a stretch might have left it
/// might have left since the stretch began.
pub fn moment_laws()
    ensures epoch { EpochHasAll }
    ensures still { StateGoesOn }
    ensures write { WriteGoesOn }
    ensures failed { FailedWriteGoesOn }
    ensures sync { SyncGoesOn }
    ensures joined { StretchesJoin }
    ensures earlier { EarlierRunsJoin }
    ensures rise { MomentsRise }
    ensures inside { InsideIsSince }
{}
