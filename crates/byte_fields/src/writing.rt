//! Fields that are appended to bytes.
ghost use Rattle.std.specs.Prelude.{◌≡◌, ◌<◌, ◌++◌, length, OnOk};
ghost use Rattle.byte_fields.specs.Spelling.{long_string, number, short_string};

use std::alloc::AllocError;

/// Appends a number, in at most 10 bytes. Fails only if memory runs out; part of it may then be there.
#[tactic(auto, using(crate::proofs::Steps::last_byte, crate::proofs::Steps::next_byte, crate::proofs::Steps::no_byte))]
pub fn put_number(out: &mut Vec<u8>, n: u64) -> Result<(), AllocError>
    ensures written { OnOk result (out.new.items ≡ out.old.items ++ number n) }
{
    let mut rest = n;
    for _ in 0..10_usize {
        if rest < 128 {
            out.push(rest as u8)?;
            return Ok(());
        }
        out.push((rest % 128) as u8 + 128)?;
        rest /= 128;
    }
    Ok(())
}

/// Appends a string of fewer than 256 bytes, after its length. Fails only if memory runs out; part of it may then be
/// there.
pub fn put_short_string(out: &mut Vec<u8>, string: &[u8]) -> Result<(), AllocError>
    requires short { length string.now < 256 }
    ensures written { OnOk result (out.new.items ≡ out.old.items ++ short_string string.now) }
{
    out.push(string.len() as u8)?;
    out.extend_from_slice(string)
}

/// Appends a string, after its length. Fails only if memory runs out; part of it may then be there.
pub fn put_long_string(out: &mut Vec<u8>, string: &[u8]) -> Result<(), AllocError>
    ensures written { OnOk result (out.new.items ≡ out.old.items ++ long_string string.now) }
{
    put_number(out, string.len() as u64)?;
    out.extend_from_slice(string)
}
