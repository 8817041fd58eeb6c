//! What stands before and after a list: the head, and the checksum of all before it.
ghost use Rattle.std.specs.{Prelude.{◌++◌, ◌≡◌, IfOk, OnOk}, Str.{bytes_eq}};
ghost use Rattle.sha2.specs.Sha256.{sha256};
ghost use Rattle.byte_fields.specs.Reading.{Gives};
ghost use Rattle.store_bytes.specs.{ListReading.{opened}, ListSpelling.{head}};

use byte_fields::{DecodeFault, SpellingFault};
use sha2::{Digest, Sha256};
use std::alloc::{AllocError, Global};

/// Returns the head of the bytes of a value of this kind. Fails only if memory runs out.
pub fn head_of(alloc: Global, kind: u8) -> Result<Vec<u8>, AllocError>
    ensures head { IfOk result (λ out. out.items ≡ head kind) }
{
    let mut out = Vec::new(alloc);
    out.extend_from_slice(b"UCRS")?;
    out.push(1)?;
    out.push(kind)?;
    Ok(out)
}

/// Appends the checksum of bytes to them. Fails only if memory runs out; part of it may then be there.
pub fn put_sum(out: &mut Vec<u8>) -> Result<(), AllocError>
    ensures summed { OnOk result (out.new.items ≡ out.old.items ++ sha256 out.old.items) }
{
    let sum = sum_of(out);
    out.extend_from_slice(&sum)
}

// Returns the checksum of bytes.
pub(crate) fn sum_of(bytes: &[u8]) -> [u8; 32]
    ensures sum { result ≡ sha256 bytes.now }
{
    Sha256::digest(bytes)
}

/// Borrows what stands between the head and the checksum of a value of this kind. The faults are `Truncated`, `Magic`,
/// `Format`, `Kind` and `Checksum`, tested in this order. Allocates nothing.
#[tactic(auto, unfolding(crate::specs::ListReading::opened))]
pub fn open(kind: u8, bytes: &[u8]) -> Result<&[u8], DecodeFault>
    ensures read { Gives (λ x. x.now) result (opened kind bytes.now) }
{
    if bytes.len() < 38 {
        return Err(DecodeFault::Fault(SpellingFault::Truncated));
    }
    if &bytes[..4] != b"UCRS".as_slice() {
        return Err(DecodeFault::Fault(SpellingFault::Magic));
    }
    if bytes[4] != 1 {
        return Err(DecodeFault::Fault(SpellingFault::Format));
    }
    if bytes[5] != kind {
        return Err(DecodeFault::Fault(SpellingFault::Kind));
    }
    let (covered, sum) = bytes.split_at(bytes.len() - 32);
    if !has_sum(covered, sum) {
        return Err(DecodeFault::Fault(SpellingFault::Checksum));
    }
    Ok(&covered[6..])
}

// Returns whether this is the checksum of the bytes.
fn has_sum(bytes: &[u8], sum: &[u8]) -> bool
    ensures sum { result ≡ bytes_eq (sha256 bytes.now) sum.now }
{
    let own = Sha256::digest(bytes);
    own.as_slice() == sum
}
