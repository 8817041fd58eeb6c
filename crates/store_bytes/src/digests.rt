//! Digests as bytes.
ghost use Rattle.std.specs.{List.{AllByRecursion}, Prelude.{◌++◌, ◌<◌, ◌^◌, ◌≡◌, IfOk, length, Ok, OnOk}};
ghost use Rattle.std.specs.FinMap as finmap;
ghost use Rattle.world_law.specs.Cuts.{VersionMap};
ghost use Rattle.byte_fields.specs.Reading.{Gives};
ghost use Rattle.store_bytes.specs.{Bytes.{digest_spelling, HasVersionSpelling, versions_in}, ListSpelling.{pairs}, Spelling.{IsPlace, IsVersion, place, version}};

use crate::heads::{head_of, put_sum};
use crate::version_reader::VersionReader;
use crate::writing::{put_place, put_version};
use byte_fields::{DecodeFault, put_number};
use delta_pieces::Digest;
use join_law::Version;
use load_places::Place;
use std::alloc::{AllocError, Global};

/// Returns the bytes of a digest: its one spelling, which any digest that is the same has too. Linear. Fails only if
/// memory runs out.
pub fn digest_to_bytes(alloc: Global, digest: &Digest) -> Result<Vec<u8>, AllocError>
    ensures bytes { IfOk result (λ bytes. bytes.items ≡ digest_spelling digest.now) }
    ensures spelled { IfOk result (λ _. HasVersionSpelling digest.now) }
{
    let mut out = head_of(alloc, 3)?;
    put_versions(&mut out, digest.versions())?;
    put_sum(&mut out)?;
    Ok(out)
}

/// Returns the digest whose bytes these are. The faults are those of `store_from_bytes`. Linear.
pub fn digest_from_bytes(alloc: Global, bytes: &[u8]) -> Result<Digest, DecodeFault>
    // The bytes are the spelling of the digest, each byte of it.
    ensures found { IfOk result
        (λ digest. HasVersionSpelling digest × (bytes.now ≡ digest_spelling digest)) }
    // The spelling of a digest is read as that digest, unless memory runs out.
    ensures only { (d : VersionMap) → HasVersionSpelling d → bytes.now ≡ digest_spelling d
        → Gives (λ digest. digest) result (Ok d) }
    // Which fault it is.
    ensures exact { Gives (λ digest. finmap.entries digest) result (versions_in bytes.now) }
{
    match read_versions(alloc, bytes) {
        Ok(versions) => Ok(Digest::from_versions(versions)),
        Err(fault) => Err(fault),
    }
}

/// Appends versions by place. Fails only if memory runs out; part of them may then be there.
pub fn put_versions(out: &mut Vec<u8>, list: &[(Place, Version)]) -> Result<(), AllocError>
    ensures written { OnOk result (out.new.items ≡ out.old.items ++ pairs place version list.now) }
    ensures fits { OnOk result (AllByRecursion (λ p. IsPlace p.0 × IsVersion p.1) list.now) }
    ensures few { OnOk result (length list.now < 2 ^ 64) }
{
    put_number(out, list.len() as u64)?;
    for (place, version) in list {
        put_place(out, place)?;
        put_version(out, *version)?;
    }
    Ok(())
}

// Returns the versions that bytes spell, in place order.
fn read_versions(alloc: Global, bytes: &[u8]) -> Result<Vec<(Place, Version)>, DecodeFault>
    ensures read { Gives (λ versions. versions.items) result (versions_in bytes.now) }
{
    let mut reader = VersionReader::open(alloc, bytes)?;
    let mut versions = Vec::new(alloc);
    while let Some(pair) = reader.next()? {
        versions.push(pair)?;
    }
    Ok(versions)
}
