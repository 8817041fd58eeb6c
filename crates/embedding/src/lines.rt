//! Lines that are written.
use crate::faults::EmbeddingFault;

/// Writes a line that says whether something holds.
pub fn append_truth(text: &mut Vec<u8>, what: &str, holds: bool) -> Result<(), EmbeddingFault> {
    let line = format!(in *text.allocator(); "{what}: {holds}\n")?;
    Ok(text.extend_from_slice(line.as_bytes())?)
}
