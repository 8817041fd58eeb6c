//! What a node holds, as bytes.
ghost use Rattle.std.specs.Prelude.{◌≡◌, ◌++◌, ◌⊎◌, codes, IfErr, IfOk, IsErrOf, IsOk, OnErr, OnOk};
ghost use Rattle.std.specs.Io.KnownBytes.{Appends};
ghost use Rattle.script_pipes.specs.{Failures.{FailedSince}, KnownBytes.{AppendsPrefix}};
ghost use Rattle.world_law.specs.Cuts.{digest_of};
ghost use Rattle.store_bytes.specs.Bytes.{digest_spelling, spelling_of};
ghost use Rattle.node_commands.specs.Texts.{id_line};
ghost use Rattle.node_commands.specs.declared.faults.CommandFault.TheVariants.{Memory, Write};

use crate::faults::CommandFault;
use delta_pieces::digest;
use durable_node::{EditLog, NodeFile};
use replica_store::{Replica, Store};
use script_pipes::{Sink, write_all};
use std::alloc::{AllocError, Global};
use store_bytes::{digest_to_bytes, store_id, store_to_bytes};

// Writes what was made. If memory ran out for that, nothing is written.
pub(crate) fn write_made<K: Sink>(
    sink: &mut K,
    made: Result<Vec<u8>, AllocError>,
) -> Result<(), CommandFault>
    ensures made { OnOk result (IsOk made) }
    ensures written { OnOk result
        (IfOk made (λ bytes. Appends (K.contents sink.old) (K.contents sink.new) bytes.items)) }
    ensures prefix { OnErr result
        (IfOk made
        (λ bytes. AppendsPrefix (K.contents sink.old) (K.contents sink.new) bytes.items)) }
    ensures kept { IfErr made (λ _. sink.new ≡ sink.old) }
    ensures unmade { IfOk made (λ _. IfErr result (λ fault. fault ≡ Write)) }
    ensures faults { IfErr result (λ fault. (fault ≡ Memory) ⊎ (fault ≡ Write)) }
    ensures refused { IsErrOf result Write
        → FailedSince (K.refusals sink.old) (K.refusals sink.new) }
{
    let bytes = made?;
    write_all(sink, &bytes)?;
    Ok(())
}

// The bytes of a replica's digest.
fn digest_bytes(alloc: Global, replica: &Replica) -> Result<Vec<u8>, AllocError>
    ensures bytes { IfOk result
        (λ bytes. bytes.items ≡ digest_spelling (digest_of replica.now.store)) }
{
    digest_to_bytes(alloc, &digest(alloc, replica)?)
}

// A store's identity as a line of hexadecimal digits.
fn id_bytes(alloc: Global, store: &Store) -> Result<Vec<u8>, AllocError>
    ensures bytes { IfOk result (λ bytes. bytes.items ≡ id_line store.now) }
{
    let id = store_id(store)?;
    let mut line = hex::encode(alloc, id.as_slice())?.into_bytes();
    line.push(b'\n')?;
    Ok(line)
}

/// Writes the digest of a node: its places and versions, without contents.
///
/// Fails with `Write`, or with `Memory`; then a prefix of the bytes is written.
pub fn write_digest<L: EditLog, K: Sink>(
    alloc: Global,
    node: &NodeFile<L>,
    sink: &mut K,
) -> Result<(), CommandFault>
    ensures written { OnOk result (Appends (K.contents sink.old) (K.contents sink.new)
        (digest_spelling (digest_of node.now.replica.store))) }
    ensures prefix { OnErr result (AppendsPrefix (K.contents sink.old) (K.contents sink.new)
        (digest_spelling (digest_of node.now.replica.store))) }
    ensures faults { IfErr result (λ fault. (fault ≡ Memory) ⊎ (fault ≡ Write)) }
    ensures refused { IsErrOf result Write
        → FailedSince (K.refusals sink.old) (K.refusals sink.new) }
{
    let made = digest_bytes(alloc, node.replica());
    write_made(sink, made)
}

/// Writes the store of a node: all that it holds, removals too.
///
/// Fails with `Write`, or with `Memory`; then a prefix of the bytes is written.
pub fn write_store<L: EditLog, K: Sink>(
    node: &NodeFile<L>,
    sink: &mut K,
) -> Result<(), CommandFault>
    ensures written { OnOk result
        (Appends (K.contents sink.old) (K.contents sink.new)
        (spelling_of 1 node.now.replica.store)) }
    ensures prefix { OnErr result
        (AppendsPrefix (K.contents sink.old) (K.contents sink.new)
        (spelling_of 1 node.now.replica.store)) }
    ensures faults { IfErr result (λ fault. (fault ≡ Memory) ⊎ (fault ≡ Write)) }
    ensures refused { IsErrOf result Write
        → FailedSince (K.refusals sink.old) (K.refusals sink.new) }
{
    let made = store_to_bytes(node.replica().store());
    write_made(sink, made)
}

/// Writes the identity of what a node holds, as 64 hexadecimal digits and a line feed: the SHA-256 that ends the bytes of its
/// store. Nodes with equal stores have equal identities.
///
/// Fails with `Write`, or with `Memory`; then a prefix of the line is written.
pub fn write_id<L: EditLog, K: Sink>(
    alloc: Global,
    node: &NodeFile<L>,
    sink: &mut K,
) -> Result<(), CommandFault>
    ensures written { OnOk result
        (Appends (K.contents sink.old) (K.contents sink.new) (id_line node.now.replica.store)) }
    ensures prefix { OnErr result
        (AppendsPrefix (K.contents sink.old) (K.contents sink.new)
        (id_line node.now.replica.store)) }
    ensures faults { IfErr result (λ fault. (fault ≡ Memory) ⊎ (fault ≡ Write)) }
    ensures refused { IsErrOf result Write
        → FailedSince (K.refusals sink.old) (K.refusals sink.new) }
{
    let made = id_bytes(alloc, node.replica().store());
    write_made(sink, made)
}
