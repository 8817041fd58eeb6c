//! Names of hosts.
ghost use Rattle.std.specs.{Prelude.{◌≡◌, ◌⊎◌, Err, IsErr, IfOk, IsTrue}, List.{list_all}};
ghost use Rattle.load_places.specs.Hosts.{host_of, is_host, is_host_byte};

use plain_values::{Bytes, Key, TryClone};
use std::alloc::{AllocError, Global};
use std::marker::Model;
use thiserror::Error;

/// The maximum length of a host's name, in bytes.
pub const HOST_LIMIT: usize = 64;

/// Why some bytes are no host name.
#[derive(Clone, Copy, Debug, PartialEq, Eq, Error)]
pub enum HostFault {
    /// H1: not 1 to 64 bytes, each an ASCII letter, a digit, `-` or `.`.
    #[error("H1 HostName")]
    HostName,
    /// Memory ran out.
    #[error("out of memory")]
    Memory,
}

/// The name of a host. Names are ordered by their bytes.
#[derive(Debug, PartialEq, Eq, PartialOrd, Ord)]
pub struct HostName {
    bytes: Bytes,
}

impl Drop for HostName {
    fn drop(self) {
        let HostName { bytes: _ } = self;
    }
}

impl Model for HostName {
    ghost use Rattle.std.specs.Prelude.{List, ℕ, IsTrue};
    ghost use Rattle.load_places.specs.Hosts.{is_host};

    ghost Value = { List ℕ };

    ghost view = { λ h. h.bytes };

    ghost invariant = { λ h. IsTrue (is_host h.bytes) };

    ghost inverse = { λ v. record { bytes = v } };
}

impl HostName {
    /// Parses the name of a host. Fails with `HostName` if it is no host name, and with `Memory` if it is one and
    /// memory runs out.
    pub fn parse(alloc: Global, name: &[u8]) -> Result<HostName, HostFault>
        ensures parsed { (result ≡ Err HostFault.Memory) ⊎ (result ≡ host_of name.now) }
        ensures faults { IsErr (host_of name.now) → result ≡ host_of name.now }
    {
        if !is_host_name(name) {
            return Err(HostFault::HostName);
        }
        match Bytes::from_slice(alloc, name) {
            Ok(bytes) => Ok(HostName { bytes }),
            Err(_) => Err(HostFault::Memory),
        }
    }

    /// Returns the bytes of the name. Allocates nothing.
    pub fn bytes(&self) -> &[u8]
        ensures bytes { result.now ≡ self.now }
        ensures well_formed { IsTrue (is_host result.now) }
    {
        self.bytes.as_slice()
    }

    /// Returns an equal name that shares the bytes. Fails only if memory runs out.
    pub fn try_clone(&self) -> Result<HostName, AllocError>
        ensures copy { IfOk result (λ copy. copy ≡ self.now) }
    {
        Ok(HostName {
            bytes: self.bytes.try_clone()?,
        })
    }
}

impl TryClone for HostName {
    fn try_clone(&self) -> Result<HostName, AllocError> {
        HostName::try_clone(self)
    }
}

impl Key for HostName {
    ghost use Rattle.std.specs.FinMap.{slice_cmp-IsAntisymmetric, nat_cmp-IsAntisymmetric};

    ghost exact = { slice_cmp-IsAntisymmetric nat_cmp-IsAntisymmetric };
}

// Returns whether these bytes are a host name.
pub(crate) fn is_host_name(name: &[u8]) -> bool
    ensures host { result ≡ is_host name.now }
{
    !name.is_empty() && name.len() <= HOST_LIMIT && has_host_bytes(name)
}

// Returns whether each byte is allowed in the name of a host.
fn has_host_bytes(name: &[u8]) -> bool
    ensures all { result ≡ list_all is_host_byte name.now }
{
    name.iter().all(|b| is_letter_or_mark(*b))
}

fn is_letter_or_mark(b: u8) -> bool
    ensures test { result ≡ is_host_byte b }
{
    matches!(b, b'a'..=b'z')
        || matches!(b, b'A'..=b'Z')
        || matches!(b, b'0'..=b'9')
        || b == b'-'
        || b == b'.'
}
