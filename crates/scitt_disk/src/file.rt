ghost use Rattle.std.specs.Prelude.{◌≡◌, false, []};
ghost use Rattle.scitt_io.specs.Causes.{HasCause};
ghost use Rattle.scitt_disk.specs.Changes.{fresh};
ghost use Rattle.scitt_disk.specs.Files.{faults_of_file};
ghost use Rattle.scitt_disk.specs.SeenIsImage.{IsImage-from_fresh};

use crate::device::{Disk, DiskFault};
use std::alloc::Global;
use std::fs::{File, OpenOptions, TryLockError};
use std::io;
use std::io::ErrorKind;
use std::os::unix::fs::{FileExt, OpenOptionsExt};
use std::rt::Files;

/// A file of the system as a disk. It is made at the first write; until then a missing file has length 0. The first
/// sync of the open file syncs its folder too, so that a new file's name is kept. What it holds isn't told: no clause
/// can say what a real file gives.
///
/// While it is open it holds the file's lock, so that no other open of the file can be a disk too. Where the file may not
/// be written it is opened for reading. After a sync of the file that failed each call is a fault, since what the system
/// then holds of it isn't known: only another `FileDisk` can go on.
#[derive(Drop)]
pub struct FileDisk<R> {
    files: R,
    path: String,
    mode: u32,
    file: Option<File>,
    is_name_synced: bool,
    is_lost: bool,
    faults: u64,
}

impl<R: Files<File = File>> FileDisk<R> {
    /// The file of this path. Nothing is opened yet, and no call has failed.
    pub fn new(files: R, path: String) -> FileDisk<R>
        ensures { faults_of_file result ≡ 0 }
    {
        with_mode(files, path, 0o666)
    }

    /// The same, and where the file is made, only its owner may read or write it.
    pub fn private(files: R, path: String) -> FileDisk<R>
        ensures { faults_of_file result ≡ 0 }
    {
        with_mode(files, path, 0o600)
    }
}

fn with_mode<R: Files<File = File>>(files: R, path: String, mode: u32) -> FileDisk<R>
    ensures { faults_of_file result ≡ 0 }
{
    FileDisk {
        files,
        path,
        mode,
        file: None,
        is_name_synced: false,
        is_lost: false,
        faults: 0,
    }
}

// The file, with its lock.
fn locked(file: File) -> io::Result<Option<File>> {
    match file.try_lock() {
        Ok(()) => Ok(Some(file)),
        Err(TryLockError::Error(fault)) => Err(fault),
        Err(TryLockError::WouldBlock) => Err(io::Error::from(ErrorKind::WouldBlock)),
    }
}

// Opens the file, and makes it where that is asked for. `None` where it is missing.
fn open_file<R: Files<File = File>>(
    files: &R,
    path: &str,
    make: bool,
    mode: u32,
) -> io::Result<Option<File>> {
    match OpenOptions::new()
        .read(true)
        .write(true)
        .create(make)
        .mode(mode)
        .open(files, path)
    {
        Ok(file) => locked(file),
        Err(fault) if fault.kind() == ErrorKind::NotFound => Ok(None),
        Err(fault) if fault.kind() == ErrorKind::PermissionDenied && !make => {
            locked(File::open(files, path)?)
        }
        Err(fault) => Err(fault),
    }
}

fn length_of(file: Option<&File>) -> io::Result<u64> {
    match file {
        Some(file) => Ok(file.metadata()?.len()),
        None => Ok(0),
    }
}

fn past_end() -> io::Error {
    io::Error::from(ErrorKind::UnexpectedEof)
}

// A read of some bytes finds the end by itself; only one of none has to ask for the length.
fn read_file(file: Option<&File>, at: u64, buf: &mut [u8]) -> io::Result<()> {
    if buf.is_empty() {
        if at > length_of(file)? {
            return Err(past_end());
        }
        return Ok(());
    }
    match file {
        Some(file) => file.read_exact_at(buf, at),
        None => Err(past_end()),
    }
}

fn write_file(file: Option<&File>, at: u64, bytes: &[u8]) -> io::Result<()> {
    if at > length_of(file)? {
        return Err(past_end());
    }
    match file {
        Some(file) => file.write_all_at(bytes, at),
        None => Err(io::Error::from(ErrorKind::NotFound)),
    }
}

// Syncs the folder of the file at this path; where the path is a link, that of the file it leads to.
fn sync_folder<R: Files<File = File>>(files: &R, alloc: Global, path: &str) -> io::Result<()> {
    let real = files.canonicalize(alloc, path)?;
    match real.parent() {
        Some(folder) => File::open(files, folder)?.sync_all(),
        None => Err(io::Error::from(ErrorKind::NotFound)),
    }
}

// The answer, with a fault counted.
fn counted<T: Drop>(faults: &mut u64, answer: io::Result<T>) -> Result<T, DiskFault>
    ensures { HasCause faults.old faults.new result }
{
    let _before = *faults;
    match answer {
        Ok(value) => Ok(value),
        Err(_) => {
            *faults = faults.saturating_add(1);
            Err(DiskFault)
        }
    }
}

impl<R: Files<File = File>> FileDisk<R> {
    // Opens the file where it isn't open yet.
    fn open(&mut self, make: bool) -> io::Result<()>
        ensures { self.new.faults ≡ self.old.faults }
    {
        if self.is_lost {
            return Err(io::Error::from(ErrorKind::Other));
        }
        if self.file.is_none() {
            self.file = open_file(&self.files, self.path.as_str(), make, self.mode)?;
        }
        Ok(())
    }

    // Syncs the file, and its folder where that isn't done yet. Nothing is to be synced of a missing file.
    fn sync_file(&mut self) -> io::Result<()>
        ensures { self.new.faults ≡ self.old.faults }
    {
        let Some(file) = self.file.as_ref() else {
            return Ok(());
        };
        if let Err(fault) = file.sync_all() {
            self.is_lost = true;
            return Err(fault);
        }
        if !self.is_name_synced {
            sync_folder(&self.files, *self.path.allocator(), self.path.as_str())?;
            self.is_name_synced = true;
        }
        Ok(())
    }
}

impl<R: Files<File = File>> Disk for FileDisk<R> {
    ghost tells = { false };

    ghost held = { λ _. fresh [] };

    ghost fault_count = { faults_of_file };

    ghost strays = { λ _. 0 };

    ghost same = { λ _ _. Unit {0} };

    ghost same_self = { λ _. tt };

    ghost same_then = { λ _ _ _ _ _. tt };

    ghost seen_is_image = { λ _ _. IsImage-from_fresh [] [] };

    fn len(&mut self) -> Result<u64, DiskFault> {
        let opened = self.open(false);
        counted(&mut self.faults, opened)?;
        let answer = length_of(self.file.as_ref());
        counted(&mut self.faults, answer)
    }

    fn read_at(&mut self, at: u64, buf: &mut [u8]) -> Result<(), DiskFault> {
        let opened = self.open(false);
        counted(&mut self.faults, opened)?;
        let answer = read_file(self.file.as_ref(), at, buf);
        counted(&mut self.faults, answer)
    }

    fn write_at(&mut self, at: u64, bytes: &[u8]) -> Result<(), DiskFault> {
        let opened = self.open(true);
        counted(&mut self.faults, opened)?;
        let answer = write_file(self.file.as_ref(), at, bytes);
        counted(&mut self.faults, answer)
    }

    fn sync(&mut self) -> Result<(), DiskFault> {
        let opened = self.open(false);
        counted(&mut self.faults, opened)?;
        let answer = self.sync_file();
        counted(&mut self.faults, answer)
    }

    fn faults(&self) -> u64 {
        self.faults
    }
}
