ghost use Rattle.std.specs.Prelude.{◌≡◌, [], IfOk};
ghost use Rattle.lower_mem.specs.Bodies.{Stored, calls_of};

use crate::bodies::STORES;
use crate::{MemBodies, StoredFile};
use lower_tree::LowerNode;
use std::alloc::{AllocError, Global};

/// The numbers of the calls of a store, among those of all.
fn calls_of(alloc: Global, calls: &[(u32, u64)], number: u32) -> Result<Vec<u64>, AllocError>
    ensures { IfOk result (λ own. own.items ≡ calls_of calls.now number) }
{
    calls
        .iter()
        .filter(|c| c.0 == number)
        .map(|c| c.1)
        .collect(alloc)
}

/// Stores without files, of whose calls those fail.
fn empty_stores(
    alloc: Global,
    changes: &[(u32, u64)],
    reads: &[(u32, u64)],
) -> Result<Vec<MemBodies>, AllocError>
    ensures { IfOk result (λ bodies. Stored changes.now reads.now [] bodies.items) }
{
    let mut bodies = Vec::new(alloc);
    for number in 0..STORES {
        let own_changes = calls_of(alloc, changes, number as u32)?;
        let own_reads = calls_of(alloc, reads, number as u32)?;
        bodies.push(MemBodies::new(alloc, number, own_changes, own_reads))?;
    }
    Ok(bodies)
}

/// The stores that have the octets of nodes. Those of their calls fail that have these numbers.
pub fn stores_of(
    alloc: Global,
    nodes: Vec<LowerNode>,
    changes: &[(u32, u64)],
    reads: &[(u32, u64)],
) -> Result<Vec<MemBodies>, AllocError>
    ensures { IfOk result (λ bodies. Stored changes.now reads.now nodes.items bodies.items) }
{
    let mut bodies = empty_stores(alloc, changes, reads)?;
    let mut number = 0usize;
    for node in nodes {
        let file = StoredFile::new(alloc, node.attribute, node.body);
        bodies[number % STORES].push(file)?;
        number += 1;
    }
    Ok(bodies)
}
