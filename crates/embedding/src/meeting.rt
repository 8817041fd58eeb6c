//! Replicas that merge.
use crate::faults::EmbeddingFault;
use replica_store::{Content, Place, Replica};
use std::alloc::Global;

/// Puts a file at a place of the whole fleet.
pub fn put(replica: &mut Replica, path: &[u8], text: &[u8]) -> Result<(), EmbeddingFault> {
    let alloc = replica.store().allocator();
    let place = Place::parse(alloc, path)?;
    replica.put(place, Content::file(Vec::from_slice(alloc, text)?)?)?;
    Ok(())
}

/// Two replicas write at one place without knowing of each other, then merge. Returns whether they then hold the same.
pub fn meet(alloc: Global) -> Result<bool, EmbeddingFault> {
    let mut a = Replica::new(alloc, 1);
    let mut b = Replica::new(alloc, 2);
    put(&mut a, b"/etc/systemd/system/x.service", b"A")?;
    put(&mut b, b"/etc/systemd/system/x.service", b"BB")?;
    a.merge(b.store())?;
    b.merge(a.store())?;
    Ok(a.store().same(b.store()))
}
