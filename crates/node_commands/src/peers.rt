//! The nodes that a node knows, as text.
ghost use Rattle.std.specs.Prelude.{◌≡◌, ◌⊎◌, ◌++◌, IfErr, IfOk, IsErrOf, List, OnErr, OnOk, true};
ghost use Rattle.std.specs.Io.KnownBytes.{Appends};
ghost use Rattle.script_pipes.specs.Failures.{FailedSince};
ghost use Rattle.edit_log.specs.Logs.{LeavesNothingNew};
ghost use Rattle.edit_log.specs.declared.logs.LogPeer.{LogPeer};
ghost use Rattle.durable_node.specs.declared.faults.NodeFault.{NodeFault};
ghost use Rattle.durable_node.specs.Peers.{AreLatest};
ghost use Rattle.node_commands.specs.Faults.{IsAnswerFault};
ghost use Rattle.node_commands.specs.Texts.{here_line, node_text, peer_line, peers_text, seen_text};
ghost use Rattle.node_commands.specs.declared.faults.CommandFault.TheVariants.{Node, Write};

use crate::faults::CommandFault;
use crate::outputs::write_made;
use durable_node::{EditLog, LogHead, LogPeer, NodeFile};
use script_pipes::Sink;
use std::alloc::{AllocError, Global};

// Appends a node's number, and its mark in hexadecimal digits.
fn append_node(
    out: &mut Vec<u8>,
    alloc: Global,
    writer: u32,
    mark: &[u8; 16],
) -> Result<(), AllocError>
    ensures appended { OnOk result (out.new.items ≡ out.old.items ++ node_text writer mark.now) }
{
    out.extend_from_slice(format!(in alloc; "{writer} ")?.as_bytes())?;
    out.extend_from_slice(hex::encode(alloc, mark.as_slice())?.as_bytes())
}

// Appends when a peer was last met, or that it was only told of.
fn append_seen(out: &mut Vec<u8>, alloc: Global, seen: u32) -> Result<(), AllocError>
    ensures appended { OnOk result (out.new.items ≡ out.old.items ++ seen_text seen) }
{
    if seen == 0 {
        return out.extend_from_slice(b"told");
    }
    out.extend_from_slice(format!(in alloc; "@{seen}")?.as_bytes())
}

// Appends the line of a peer.
fn append_peer(out: &mut Vec<u8>, alloc: Global, peer: &LogPeer) -> Result<(), AllocError>
    ensures appended { OnOk result (out.new.items ≡ out.old.items ++ peer_line peer.now) }
{
    append_node(out, alloc, peer.writer, &peer.mark)?;
    out.push(b' ')?;
    append_seen(out, alloc, peer.seen)?;
    out.push(b'\n')?;
    Ok(())
}

// Appends the line of the node itself.
fn append_here(out: &mut Vec<u8>, alloc: Global, head: LogHead) -> Result<(), AllocError>
    ensures appended { OnOk result (out.new.items ≡ out.old.items ++ here_line head) }
{
    append_node(out, alloc, head.writer, &head.mark)?;
    out.extend_from_slice(b" here\n")
}

// The lines of a node and its peers.
fn peers_bytes(alloc: Global, head: LogHead, peers: &[LogPeer]) -> Result<Vec<u8>, AllocError>
    ensures lines { IfOk result (λ text. text.items ≡ peers_text head peers.now) }
{
    let mut out = Vec::new(alloc);
    append_here(&mut out, alloc, head)?;
    for peer in peers {
        append_peer(&mut out, alloc, peer)?;
    }
    Ok(out)
}

/// Writes a line for the node itself, and then one for each node that it has met or was told of, each mark and number once, in
/// their order: the number, the mark as 32 hexadecimal digits, and `here`, `@` and when the peer was last met in seconds since
/// 1970, or `told` if it was only told of.
///
/// Fails with `Node` if the log refuses, and then the node is spent, or if memory for the peers runs out, and then the log
/// holds what it held; with both nothing is written. Fails with `Write`; or with `Memory` if it runs out for the lines.
pub fn write_peers<L: EditLog, K: Sink>(
    alloc: Global,
    node: &mut NodeFile<L>,
    sink: &mut K,
) -> Result<(), CommandFault>
    ensures written { L.is_honest node.new.log → OnOk result ((peers : List LogPeer)
        × AreLatest (L.peers node.old.log) peers
        × Appends (K.contents sink.old) (K.contents sink.new)
        (peers_text (L.head node.old.log) peers)) }
    ensures kept { OnErr result ((IsErrOf result Write → ⊥) → sink.new ≡ sink.old) }
    ensures faults { IfErr result IsAnswerFault }
    ensures refused { IsErrOf result Write
        → FailedSince (K.refusals sink.old) (K.refusals sink.new) }
    ensures spent { (refused : NodeFault) → IsErrOf result (Node refused)
        → (node.new.is_spent ≡ true)
        ⊎ (L.is_honest node.new.log → L.held node.new.log ≡ L.held node.old.log) }
    ensures crash { L.is_honest node.new.log
        → LeavesNothingNew (L.may_leave node.old.log) (L.may_leave node.new.log) }
    ensures replica { node.new.replica ≡ node.old.replica }
    ensures unsaved { node.new.unsaved ≡ node.old.unsaved }
    ensures head { L.head node.new.log ≡ L.head node.old.log }
{
    let head = node.head();
    let peers = node.peers(alloc)?;
    write_made(sink, peers_bytes(alloc, head, &peers))
}
