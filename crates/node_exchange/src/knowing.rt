//! Whom a node knows, as its log has it.
ghost use Rattle.std.specs.Prelude.{◌≡◌, ◌++◌, [], false, IfOk, IsErrOf, IsPermutation, OnOk};
ghost use Rattle.node_exchange.specs.Later.{IsLater};
ghost use Rattle.durable_node.specs.Peers.{AreLatest};

use crate::faults::ExchangeFault;
use durable_node::{EditLog, NodeFile};
use edit_log::LogPeer;
use std::alloc::Global;

/// Notes news in the node's log; writes nothing where there is none. Fails with `Node` if the log refuses.
pub fn note<L: EditLog>(node: &mut NodeFile<L>, news: &[LogPeer]) -> Result<(), ExchangeFault>
    requires whole { node.old.is_spent ≡ false }
    requires saved { node.old.unsaved ≡ [] }
    ensures noted { L.is_honest node.new.log
        → OnOk result (IsPermutation (L.peers node.old.log ++ news.now) (L.peers node.new.log)) }
    ensures replica { node.new.replica ≡ node.old.replica }
    ensures other { IsErrOf result ExchangeFault.WriterTaken → ⊥ }
    ensures later { IsLater L.is_honest L.head L.may_leave node.old node.new }
    ensures whole { OnOk result (node.new.is_spent ≡ false) }
    ensures saved { OnOk result (node.new.unsaved ≡ []) }
{
    if news.is_empty() {
        return Ok(());
    }
    node.note_peers(news)?;
    Ok(())
}

/// Returns whom the node knows, each once, as it was seen last. Fails with `Node` if the log refuses, and with `Memory`.
pub fn known_peers<L: EditLog>(
    alloc: Global,
    node: &mut NodeFile<L>,
) -> Result<Vec<LogPeer>, ExchangeFault>
    requires whole { node.old.is_spent ≡ false }
    ensures latest { L.is_honest node.new.log
        → IfOk result (λ known. AreLatest (L.peers node.old.log) known.items) }
    ensures peers { L.is_honest node.new.log
        → OnOk result (L.peers node.new.log ≡ L.peers node.old.log) }
    ensures replica { node.new.replica ≡ node.old.replica }
    ensures unsaved { node.new.unsaved ≡ node.old.unsaved }
    ensures other { IsErrOf result ExchangeFault.WriterTaken → ⊥ }
    ensures later { IsLater L.is_honest L.head L.may_leave node.old node.new }
    ensures whole { OnOk result (node.new.is_spent ≡ false) }
{
    Ok(node.peers(alloc)?)
}
