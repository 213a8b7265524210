// A log from where it is made or loaded to where it is closed.
use crate::steps::{Step, told_steps};
use crate::stops::told_stop;
use cbor_core::Bytes;
use registrar::{Params, Registrar, RegistrarStop};
use scitt_disk::{Disk, FuseDisk, MemDisk};
use scitt_journal::Refused;
use std::alloc::Global;
use std::test::Fail;
use test_cast::fresh;

/// What was told of a log, and the disk that it left.
#[derive(Drop)]
pub struct Life<D> {
    pub text: String,
    pub disk: D,
}

fn played<D: Disk>(
    alloc: Global,
    log: Registrar<D>,
    statements: &[Bytes],
    steps: &[Step],
) -> Result<Life<D>, Fail>
where
    D: Drop,
{
    let mut log = log;
    let told = told_steps(alloc, &mut log, statements, steps);
    let disk = log.close();
    match told {
        Ok(text) => Ok(Life { text, disk }),
        Err(fault) => Err(fault),
    }
}

fn refused<D: Disk>(alloc: Global, refused: Refused<D, RegistrarStop>) -> Result<Life<D>, Fail>
where
    D: Drop,
{
    let Refused { disk, why } = refused;
    match told_stop(alloc, why) {
        Ok(text) => Ok(Life { text, disk }),
        Err(fault) => Err(fault),
    }
}

/// A log that is made on this disk of these parameters, and asked so; where it isn't made the text says why.
pub fn makes<D: Disk>(
    alloc: Global,
    disk: D,
    params: Params,
    statements: &[Bytes],
    steps: &[Step],
) -> Result<Life<D>, Fail>
where
    D: Drop,
{
    match Registrar::create(alloc, disk, [7; 32], [9; 16], params) {
        Ok(log) => played(alloc, log, statements, steps),
        Err(stop) => refused(alloc, stop),
    }
}

/// A log that is loaded from this disk by this seed, and asked so; where it isn't loaded the text says why.
pub fn loads<D: Disk>(
    alloc: Global,
    disk: D,
    seed: [u8; 32],
    statements: &[Bytes],
    steps: &[Step],
) -> Result<Life<D>, Fail>
where
    D: Drop,
{
    match Registrar::load(alloc, disk, seed, [9; 16]) {
        Ok(log) => played(alloc, log, statements, steps),
        Err(stop) => refused(alloc, stop),
    }
}

/// A log that is made on a disk which stops after so many calls, and asked so; and what that disk holds.
pub fn makes_until(
    alloc: Global,
    passes: u32,
    params: Params,
    statements: &[Bytes],
    steps: &[Step],
) -> Result<Life<MemDisk>, Fail> {
    let disk = FuseDisk::new(fresh(alloc, &[])?, passes);
    let life = makes(alloc, disk, params, statements, steps)?;
    Ok(Life {
        text: life.text,
        disk: life.disk.into_disk(),
    })
}
