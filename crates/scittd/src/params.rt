// The parameter file.

ghost use Rattle.std.specs.Prelude.{◌≡◌, ◌⊎◌, ◌++◌, ◌∷◌, [], IfOk, IfErr, IfSome, IsErrOf};
ghost use Rattle.log_params.specs.ParamFiles.{ParamsOf};
ghost use Rattle.scittd.specs.declared.fault.StartFault.TheVariants.{ParamsRefused, NoMemory};
ghost use Rattle.scittd.specs.Reading.{OfFile, IsRefused};
ghost use Rattle.scittd.specs.Parameters.{IsNoParams};

use crate::fault::StartFault;
use crate::files::read_file;
use log_params::{ParamsStop, decode};
use registrar::Params;
use scitt_io::{Folder, ReadStop};
use std::alloc::Global;

/// How many bytes a parameter file may have.
const LONGEST_PARAMS: u64 = 16_777_216;

/// The parameters that these bytes are.
fn params_of(alloc: Global, bytes: &[u8]) -> Result<Params, StartFault>
    ensures params { IfOk result (λ params. ParamsOf bytes.now params) }
    ensures refused { IsErrOf result ParamsRefused → IsNoParams bytes.now }
    ensures no_other { IfErr result (λ fault. (fault ≡ ParamsRefused) ⊎ (fault ≡ NoMemory)) }
{
    match decode(alloc, bytes) {
        Ok(params) => Ok(params),
        Err(ParamsStop::OutOfMemory) => Err(StartFault::NoMemory),
        Err(_) => Err(StartFault::ParamsRefused),
    }
}

/// The parameters in the file of this name.
///
/// `ParamsRefused` where a read was refused and counted, the file has more than 16,777,216 bytes, or they are no parameter file;
/// `NoMemory` is the want of memory alone. Nothing but this file is asked for.
pub fn read_params<F: Folder>(
    alloc: Global,
    files: &mut F,
    name: &str,
) -> Result<Params, StartFault>
    ensures params { IfOk result (λ params. OfFile (F.files files.old) name.now (λ bytes. ParamsOf bytes params)) }
    ensures refused { IsErrOf result ParamsRefused → IsRefused (F.files files.old) name.now (F.faults files.old) (F.faults files.new) IsNoParams }
    ensures no_other { IfErr result (λ fault. (fault ≡ ParamsRefused) ⊎ (fault ≡ NoMemory)) }
    ensures no_fault { (IsErrOf result ParamsRefused → ⊥) → F.faults files.new ≡ F.faults files.old }
    ensures kept { F.files files.new ≡ F.files files.old }
    ensures asked { F.asked files.new ≡ F.asked files.old ++ name.now ∷ [] }
{
    match read_file(alloc, files, name, LONGEST_PARAMS) {
        Ok(bytes) => params_of(alloc, bytes.as_slice()),
        Err(ReadStop::OutOfMemory) => Err(StartFault::NoMemory),
        Err(_) => Err(StartFault::ParamsRefused),
    }
}
