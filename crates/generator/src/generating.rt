// A log that is made, and what is told of it.

ghost use Rattle.std.specs.Prelude.{◌≡◌, ◌≤◌, [], IfOk, OnOk};
ghost use Rattle.scitt_disk.specs.Memory.{held_of};
ghost use Rattle.scitt_draft.specs.Named.{IsShort};
ghost use Rattle.scitt_draft.specs.Stated.{governor_holder};
ghost use Rattle.generator.specs.Tallies.{Holds, IsOn, IsSummary, nothing, params as stated_params, tally};

use crate::filling::{Counts, fill};
use auditor::{Report, audit_bytes, report_laws};
use cbor_core::Text;
use merkle_tree::Hash;
use registrar::{Params, Registrar, RegistrarStop};
use scitt_disk::MemDisk;
use scitt_draft::{Named, Parties, service_levels};
use std::alloc::{AllocError, Global};

/// What is told of a log of so many statements.
#[derive(Clone, Copy, PartialEq, Eq, Debug)]
pub struct Summary {
    /// How many were admitted. The governor's policy isn't counted.
    pub admitted: u32,
    /// How many were denied.
    pub denied: u32,
    /// How many entries the log has, the policy among them.
    pub entries: u32,
    /// The Merkle root of its entries (RFC 9162, 2.1.1).
    pub root: Hash,
}

// What the log `generate` is begun with.
fn params(alloc: Global, parties: &Parties) -> Result<Params, AllocError>
    ensures params { IfOk result (λ params. params ≡ stated_params) }
    ensures short { OnOk result (IsShort governor_holder) }
{
    Ok(Params {
        name: Text::from_str(alloc, "generate")?,
        governor: parties.governor(alloc)?,
        levels: service_levels(),
        max_entries: 4096,
        block: 64,
    })
}

fn empty_disk(alloc: Global) -> MemDisk
    ensures { (held_of result).seen ≡ [] }
{
    MemDisk::new(Vec::new(alloc), Vec::new(alloc))
}

// The log `generate` on an empty disk.
fn begin(alloc: Global, parties: &Parties) -> Result<Registrar<MemDisk>, AllocError>
    ensures { IfOk result (λ log. Holds nothing log.standing) }
{
    let params = params(alloc, parties)?;
    let service = Named::of("service");
    let disk = empty_disk(alloc);
    match Registrar::create(alloc, disk, service.seed, service.id, params) {
        Ok(log) => Ok(log),
        Err(refused) => match refused.why {
            RegistrarStop::DiskFault | RegistrarStop::OutOfMemory => Err(AllocError),
            _ => unreachable!(),
        },
    }
}

// What is told of the log on this disk, whose bytes are audited.
fn told(alloc: Global, count: u32, counts: Counts, disk: MemDisk) -> Result<Summary, AllocError>
    requires log { IsOn (tally count) disk }
    requires admitted { counts.admitted ≡ (tally count).admitted }
    requires denied { counts.denied ≡ (tally count).denied }
    ensures { IfOk result (IsSummary count) }
{
    report_laws();
    let _count = count;
    let content = disk.into_content();
    match audit_bytes(alloc, &content)? {
        Report::Clean { entries, root, .. } => Ok(Summary {
            admitted: counts.admitted,
            denied: counts.denied,
            entries,
            root,
        }),
        _ => unreachable!(),
    }
}

/// Registers the governor's policy and so many stated statements with a log in memory, and audits the log's bytes, which are found
/// clean. The only error is the want of memory: the disk is in memory and no call of it is made to fail, so where one does, memory is
/// wanting.
pub fn generate(alloc: Global, count: u32) -> Result<Summary, AllocError>
    requires { count ≤ 2000 }
    ensures { IfOk result (IsSummary count) }
{
    let mut parties = Parties::new(alloc)?;
    let mut log = begin(alloc, &parties)?;
    let counts = fill(alloc, &mut log, &mut parties, count);
    log.images();
    let disk = log.close();
    told(alloc, count, counts?, disk)
}
