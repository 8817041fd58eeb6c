//! Names of files beside a node's, and what becomes of a file that was made in vain.
ghost use Rattle.std.specs.Prelude.{◌≡◌, ◌++◌, codes, IfOk, string_bytes};

use durable_node::NodeFault;
use std::alloc::{AllocError, Global};
use std::io::{self, ErrorKind};
use std::rt::Files;

// The name under which a compacted file is made.
pub(crate) fn beside_name(alloc: Global, path: &str) -> Result<String, AllocError>
    ensures name { IfOk result (λ name. string_bytes name ≡ path.now ++ codes ".compact") }
{
    format!(in alloc; "{path}.compact")
}

// A fault of the disk, or of memory.
pub(crate) fn fault_of(error: io::Error) -> NodeFault {
    match error.kind() {
        ErrorKind::OutOfMemory => NodeFault::Memory,
        _ => NodeFault::Disk,
    }
}

// Removes what was made at a path if what followed failed.
pub(crate) fn or_removed<T>(
    rt: &(impl Files + AllocGlobal),
    path: &str,
    made: Result<T, NodeFault>,
) -> Result<T, NodeFault>
    ensures same { result ≡ made }
{
    match made {
        Ok(made) => Ok(made),
        Err(fault) => {
            let _ = sqlite_log::remove(rt, path);
            Err(fault)
        }
    }
}
