// The log, loaded or created.

ghost use Rattle.std.specs.Prelude.{◌≡◌, ◌⊎◌, ◌++◌, ◌∷◌, [], ℕ, IsTrue, IfOk, IfErr, IsErrOf};
ghost use Rattle.scitt_journal.specs.Layout.{NoLog};
ghost use Rattle.registrar.specs.Opening.{HasKey};
ghost use Rattle.registrar.specs.Turns.{IsSound};
ghost use Rattle.scittd.specs.declared.fault.StartFault.TheVariants.{SeedRefused, LogRefused, ParamsRefused, NoMemory};
ghost use Rattle.scittd.specs.Reading.{IsRefused, IsNoSeed};
ghost use Rattle.scittd.specs.Parameters.{IsNoParams};
ghost use Rattle.scittd.specs.Opening.{OfSeed, fault_of, IsFound, IsBegun, IsNotFound, IsNotBegun};

use crate::fault::StartFault;
use crate::files::{Seed, read_seed};
use crate::given::Given;
use crate::params::read_params;
use registrar::{Registrar, RegistrarStop};
use scitt_disk::Disk;
use scitt_io::Folder;
use scitt_journal::Refused;
use std::alloc::Global;

/// What a refusal of the registrar is to the start.
fn start_fault(why: RegistrarStop) -> StartFault
    ensures { result ≡ fault_of why }
{
    match why {
        RegistrarStop::OutOfMemory => StartFault::NoMemory,
        RegistrarStop::BadParams => StartFault::ParamsRefused,
        _ => StartFault::LogRefused,
    }
}

/// A log that is begun on this disk by the parameter file of this name.
fn create_log<F: Folder, D: Disk + Drop>(
    alloc: Global,
    files: &mut F,
    params: &str,
    disk: D,
    seed: Seed,
) -> Result<Registrar<D>, StartFault>
    ensures log { IfOk result (λ r. IsBegun (IsTrue D.tells) (F.files files.old) params.now seed (D.held disk).seen r.standing) }
    ensures sound { IfOk result (λ r. IsSound r.standing) }
    ensures key { IfOk result (λ r. HasKey r.standing.log seed.id seed.seed) }
    ensures log_refused { IsErrOf result LogRefused
        → IsNotBegun (IsTrue D.tells) (F.files files.old) params.now seed (D.held disk).seen (D.fault_count disk) LogRefused }
    ensures params_refused { IsErrOf result ParamsRefused
        → IsRefused (F.files files.old) params.now (F.faults files.old) (F.faults files.new) IsNoParams
        ⊎ IsNotBegun (IsTrue D.tells) (F.files files.old) params.now seed (D.held disk).seen (D.fault_count disk) ParamsRefused }
    ensures no_other { IfErr result (λ fault. (fault ≡ LogRefused) ⊎ ((fault ≡ ParamsRefused) ⊎ (fault ≡ NoMemory))) }
    ensures asked { F.asked files.new ≡ F.asked files.old ++ params.now ∷ [] }
{
    let params = read_params(alloc, files, params)?;
    match Registrar::create(alloc, disk, seed.seed, seed.id, params) {
        Ok(registrar) => Ok(registrar),
        Err(refused) => Err(start_fault(refused.why)),
    }
}

/// The log on this disk; where there is none, one that is begun by the parameter file of this name, which is asked for only then.
///
/// `LogRefused` where the log isn't loaded for another cause than that there is none, or the disk refuses the new one;
/// `ParamsRefused` where the parameter file is refused, or breaks a limit of logs; `NoMemory` is the want of memory alone.
pub fn open_log<F: Folder, D: Disk + Drop>(
    alloc: Global,
    files: &mut F,
    params: &str,
    disk: D,
    seed: Seed,
) -> Result<Registrar<D>, StartFault>
    ensures log { IfOk result (λ r. (IsTrue D.tells → IsFound (D.held disk).seen r.standing)
        ⊎ IsBegun (IsTrue D.tells) (F.files files.old) params.now seed (D.held disk).seen r.standing) }
    ensures sound { IfOk result (λ r. IsSound r.standing) }
    ensures key { IfOk result (λ r. HasKey r.standing.log seed.id seed.seed) }
    ensures log_refused { IsErrOf result LogRefused → IsNotFound (IsTrue D.tells) seed (D.held disk).seen (D.fault_count disk)
        ⊎ IsNotBegun (IsTrue D.tells) (F.files files.old) params.now seed (D.held disk).seen (D.fault_count disk) LogRefused }
    ensures params_refused { IsErrOf result ParamsRefused → (IsTrue D.tells → NoLog (D.held disk).seen)
        × (IsRefused (F.files files.old) params.now (F.faults files.old) (F.faults files.new) IsNoParams
        ⊎ IsNotBegun (IsTrue D.tells) (F.files files.old) params.now seed (D.held disk).seen (D.fault_count disk) ParamsRefused) }
    ensures no_other { IfErr result (λ fault. (fault ≡ LogRefused) ⊎ ((fault ≡ ParamsRefused) ⊎ (fault ≡ NoMemory))) }
    ensures asked { (F.asked files.new ≡ F.asked files.old)
        ⊎ ((IsTrue D.tells → NoLog (D.held disk).seen) × (F.asked files.new ≡ F.asked files.old ++ params.now ∷ [])) }
{
    match Registrar::load(alloc, disk, seed.seed, seed.id) {
        Ok(registrar) => Ok(registrar),
        Err(refused) => {
            let Refused { disk, why } = refused;
            match why {
                RegistrarStop::NoLog => create_log(alloc, files, params, disk, seed),
                why => Err(start_fault(why)),
            }
        }
    }
}

/// The seed file, and then the log of its seed and identifier.
///
/// `SeedRefused` where the seed file is refused, which is asked for first; else as `open_log`.
pub fn open<F: Folder, D: Disk + Drop>(
    alloc: Global,
    files: &mut F,
    disk: D,
    given: &Given<'_>,
) -> Result<Registrar<D>, StartFault>
    ensures log { IfOk result (λ r. OfSeed (F.files files.old) given.now (λ seed. IsSound r.standing × HasKey r.standing.log seed.id seed.seed
        × ((IsTrue D.tells → IsFound (D.held disk).seen r.standing)
        ⊎ IsBegun (IsTrue D.tells) (F.files files.old) given.now.params.now seed (D.held disk).seen r.standing))) }
    ensures seed_refused { IsErrOf result SeedRefused
        → IsRefused (F.files files.old) given.now.seed.now (F.faults files.old) (F.faults files.new) IsNoSeed }
    ensures log_refused { IsErrOf result LogRefused → OfSeed (F.files files.old) given.now (λ seed.
        IsNotFound (IsTrue D.tells) seed (D.held disk).seen (D.fault_count disk)
        ⊎ IsNotBegun (IsTrue D.tells) (F.files files.old) given.now.params.now seed (D.held disk).seen (D.fault_count disk) LogRefused) }
    ensures params_refused { IsErrOf result ParamsRefused → OfSeed (F.files files.old) given.now (λ seed.
        (IsTrue D.tells → NoLog (D.held disk).seen)
        × (IsRefused (F.files files.old) given.now.params.now (F.faults files.old) (F.faults files.new) IsNoParams
        ⊎ IsNotBegun (IsTrue D.tells) (F.files files.old) given.now.params.now seed (D.held disk).seen (D.fault_count disk) ParamsRefused)) }
    ensures no_other { IfErr result (λ fault. (fault ≡ SeedRefused) ⊎ ((fault ≡ LogRefused) ⊎ ((fault ≡ ParamsRefused) ⊎ (fault ≡ NoMemory)))) }
    ensures asked { (F.asked files.new ≡ F.asked files.old ++ given.now.seed.now ∷ [])
        ⊎ ((IsTrue D.tells → NoLog (D.held disk).seen)
        × (F.asked files.new ≡ F.asked files.old ++ given.now.seed.now ∷ given.now.params.now ∷ [])) }
{
    let seed = read_seed(alloc, files, given.seed)?;
    open_log(alloc, files, given.params, disk, seed)
}
