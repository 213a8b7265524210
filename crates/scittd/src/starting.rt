// The start of the server, step by step.

ghost use Rattle.std.specs.Prelude.{◌≡◌, ◌≢◌, ◌≤◌, ◌⊎◌, None, IfOk, IfErr, IsErrOf, IsErrAnd, IsOkAnd, map};
ghost use Rattle.std.specs.IoError.{error_kind};
ghost use Rattle.std.specs.String.{string_bytes};
ghost use Rattle.std.specs.Vec.Iter.{into_iter_items};
ghost use Rattle.scittd.specs.Words.{given_in};
ghost use Rattle.scittd.specs.declared.fault.StartFault.TheVariants.{WordsRefused, AddressRefused, NoMemory};
ghost use Rattle.scittd.specs.Seats.{IsSeated};

use crate::fault::StartFault;
use crate::given::{given_by, words_of};
use crate::opening::open;
use crate::serving::{Server, seats_of};
use registrar::Registrar;
use scitt_disk::{Disk, FileDisk};
use scitt_io::FileFolder;
use scitt_service::Service;
use std::alloc::Global;
use std::env::Args;
use std::fs::File;
use std::io;
use std::io::{ErrorKind, Input};
use std::net::{Net, TcpListener, TcpStream};
use std::rt::Files;

/// Listens at this address. `AddressRefused` where the system refuses it, and `NoMemory` is the want of memory alone.
fn listen_at<R: Net<Listener = TcpListener, Stream = TcpStream>>(
    rt: &R,
    address: &str,
) -> Result<TcpListener, StartFault>
    ensures no_other { IfErr result (λ fault. (fault ≡ AddressRefused) ⊎ (fault ≡ NoMemory)) }
{
    match TcpListener::bind(rt, address) {
        Ok(listener) => Ok(listener),
        Err(error) if error.kind() == ErrorKind::OutOfMemory => Err(StartFault::NoMemory),
        Err(_) => Err(StartFault::AddressRefused),
    }
}

/// A server of this listener and this registrar, with so many seats.
fn seated<D: Disk + Drop>(
    alloc: Global,
    listener: TcpListener,
    registrar: Registrar<D>,
    workers: usize,
) -> Result<Server<D>, StartFault>
    requires { (1 ≤ workers) × (workers ≤ 8) }
    ensures seated { IfOk result IsSeated }
    ensures memory { IfErr result (λ fault. fault ≡ NoMemory) }
{
    let Ok((service, mut first)) = Service::new(alloc, registrar) else {
        return Err(StartFault::NoMemory);
    };
    let seats = seats_of(alloc, &service, &mut first, workers)?;
    Ok(Server {
        listener,
        service,
        seats,
    })
}

/// Starts the server on a file and an address, so far that only its workers are missing. The first step that fails ends it: the words, the
/// seed file, the log, the parameter file where the log is created, the address. `NoMemory` is the want of memory in any of them.
pub fn start<'a, R>(
    rt: &'a R,
    alloc: Global,
    args: io::Result<Args>,
) -> Result<Server<FileDisk<&'a R>>, StartFault>
where
    R: Files<File = File> + Input + Net<Listener = TcpListener, Stream = TcpStream>,
    ensures seated { IfOk result IsSeated }
    ensures words { IsErrOf result WordsRefused → IsErrAnd args (λ error. error_kind error ≢ ErrorKind.OutOfMemory)
        ⊎ IsOkAnd args (λ given. given_in (map string_bytes (into_iter_items given)) ≡ None) }
{
    let words = words_of(alloc, args)?;
    let given = given_by(alloc, words.as_slice())?;
    let mut files = FileFolder::new(rt);
    let Ok(path) = String::from_str(alloc, given.log) else {
        return Err(StartFault::NoMemory);
    };
    let disk = FileDisk::new(rt, path);
    let registrar = open(alloc, &mut files, disk, &given)?;
    let listener = listen_at(rt, given.listen)?;
    seated(alloc, listener, registrar, given.workers)
}
