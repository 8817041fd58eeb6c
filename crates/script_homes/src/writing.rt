//! Answers, written where what their lines did is kept.
ghost use Rattle.std.specs.{Prelude.{◌≡◌, ◌⊎◌, IsErrOf, OnErr, OnOk}, Io.KnownBytes.{Appends}};
ghost use Rattle.script_pipes.specs.{Failures.{FailedSince}, KnownBytes.{AppendsPrefix}};
ghost use Rattle.edit_sums.specs.Sums.{EntryMap};
ghost use Rattle.script_homes.specs.Homes.{IsHeldNext, StaysKept};

use crate::faults::KeptFault;
use crate::homes::Home;
use replica_store::Store;
use script_pipes::{Sink, WriteFault, write_all};

/// Has a home keep a store, and then writes the answers so far.
///
/// Fails with `Unkept`, and then nothing is written; or with `Write`, and then a prefix is.
pub fn write_kept<H: Home, K: Sink>(
    home: &mut H,
    store: &Store,
    writer: &mut K,
    pending: &[u8],
) -> Result<(), KeptFault>
    ensures written { OnOk result
        (Appends (K.contents writer.old) (K.contents writer.new) pending.now) }
    ensures prefix { OnErr result
        (AppendsPrefix (K.contents writer.old) (K.contents writer.new) pending.now) }

    // The store is kept before an answer is written.
    ensures held { OnOk result (IsHeldNext store.now (H.holds home.old) (H.holds home.new)) }
    ensures first { (writer.new ≡ writer.old)
        ⊎ IsHeldNext store.now (H.holds home.old) (H.holds home.new) }
    ensures kept { StaysKept (H.keeps home.old) (H.keeps home.new) }
    ensures write { IsErrOf result KeptFault.Write
        → FailedSince (K.refusals writer.old) (K.refusals writer.new) }
    ensures unrefused { OnOk result (K.refusals writer.new ≡ K.refusals writer.old) }
    ensures read { IsErrOf result KeptFault.Read → ⊥ }
{
    home.keep(store)?;
    write_all(writer, pending)?;
    Ok(())
}

/// Writes the answers so far, when memory ran out for the next one. Where a home keeps what the first node holds, nothing is
/// written: nobody knows what that node holds now.
pub fn give_up<H: Home, K: Sink>(home: &H, writer: &mut K, pending: &[u8]) -> KeptFault
    ensures memory { result ≡ KeptFault.Memory }
    ensures prefix { AppendsPrefix (K.contents writer.old) (K.contents writer.new) pending.now }
    ensures free { (writer.new ≡ writer.old) ⊎ ((s : EntryMap) → H.keeps home.now s) }
{
    if home.is_bound() {
        return KeptFault::Memory;
    }
    match write_all(writer, pending) {
        Ok(()) | Err(WriteFault) => KeptFault::Memory,
    }
}
