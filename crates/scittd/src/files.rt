// The seed file, and how a file is read.

ghost use Rattle.std.specs.Prelude.{◌≡◌, ◌≢◌, ◌≤◌, ◌<◌, ◌⊎◌, ◌++◌, ◌∷◌, [], IfOk, IfErr, IfSome, IfNone, IsErrOf, length};
ghost use Rattle.scitt_io.specs.Causes.{Rose};
ghost use Rattle.scitt_io.specs.declared.source.ReadStop.TheVariants.{TooLong};
ghost use Rattle.scitt_io.specs.declared.source.ReadStop.TheVariants.{ReadFault as FaultStop};
ghost use Rattle.scittd.specs.declared.fault.StartFault.TheVariants.{SeedRefused, NoMemory};
ghost use Rattle.scittd.specs.Reading.{OfFile, IsRefused, SeedOf, IsNoSeed};

use crate::fault::StartFault;
use scitt_io::{Folder, ReadStop, read_to_end};
use std::alloc::Global;

/// How many bytes a seed file has: a seed of 32 and an identifier of 16.
const SEED_FILE: u64 = 48;

/// What the service's keys are derived from.
#[derive(Clone, Copy)]
pub struct Seed {
    pub seed: [u8; 32],
    pub id: [u8; 16],
}

/// All bytes of the file of this name, where they are at most `limit`.
pub(crate) fn read_file<F: Folder>(
    alloc: Global,
    files: &mut F,
    name: &str,
    limit: u64,
) -> Result<Vec<u8>, ReadStop>
    ensures read { IfOk result (λ bytes. OfFile (F.files files.old) name.now (λ content. content ≡ bytes.items)) }
    ensures within { IfOk result (λ bytes. length bytes.items ≤ limit) }
    ensures long { IsErrOf result TooLong → OfFile (F.files files.old) name.now (λ content. limit < length content) }
    ensures fault { IsErrOf result FaultStop → Rose (F.faults files.old) (F.faults files.new) }
    ensures no_fault { (IsErrOf result FaultStop → ⊥) → F.faults files.new ≡ F.faults files.old }
    ensures kept { F.files files.new ≡ F.files files.old }
    ensures asked { F.asked files.new ≡ F.asked files.old ++ name.now ∷ [] }
{
    files.choose(name)?;
    read_to_end(alloc, files, limit)
}

/// The two parts of a seed file's bytes; `None` exactly where they aren't 48.
fn seed_of(bytes: &[u8]) -> Option<Seed>
    ensures some { IfSome result (λ seed. SeedOf bytes.now seed) }
    ensures none { IfNone result (IsNoSeed bytes.now) }
{
    let (seed, id) = bytes.split_first_chunk::<32>()?;
    Some(Seed {
        seed: *seed,
        id: *id.as_array::<16>()?,
    })
}

/// The seed and the identifier in the file of this name.
///
/// `SeedRefused` where a read was refused and counted, or the file hasn't 48 bytes; `NoMemory` is the want of memory alone. Nothing but
/// this file is asked for.
pub fn read_seed<F: Folder>(alloc: Global, files: &mut F, name: &str) -> Result<Seed, StartFault>
    ensures seed { IfOk result (λ seed. OfFile (F.files files.old) name.now (λ bytes. SeedOf bytes seed)) }
    ensures refused { IsErrOf result SeedRefused → IsRefused (F.files files.old) name.now (F.faults files.old) (F.faults files.new) IsNoSeed }
    ensures no_other { IfErr result (λ fault. (fault ≡ SeedRefused) ⊎ (fault ≡ NoMemory)) }
    ensures no_fault { (IsErrOf result SeedRefused → ⊥) → F.faults files.new ≡ F.faults files.old }
    ensures kept { F.files files.new ≡ F.files files.old }
    ensures asked { F.asked files.new ≡ F.asked files.old ++ name.now ∷ [] }
{
    match read_file(alloc, files, name, SEED_FILE) {
        Ok(bytes) => seed_of(bytes.as_slice()).ok_or(StartFault::SeedRefused),
        Err(ReadStop::OutOfMemory) => Err(StartFault::NoMemory),
        Err(_) => Err(StartFault::SeedRefused),
    }
}
