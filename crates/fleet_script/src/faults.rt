//! Why a script was not answered to its end.
use thiserror::Error;

/// Why a script was not answered to its end.
#[derive(Clone, Copy, Debug, PartialEq, Eq, Error)]
pub enum ShellFault {
    /// A read failed, or the script is longer than the limit. Nothing was written.
    #[error("read fault")]
    Read,
    /// A write failed or took no byte. A prefix of the answers was written.
    #[error("write fault")]
    Write,
    /// Memory ran out. A prefix of the answers was written.
    #[error("out of memory")]
    Memory,
}
