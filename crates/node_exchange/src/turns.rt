//! Who speaks when.
ghost use Rattle.std.specs.Prelude.{◌≡◌, [], false, IfOk, IsErrOf, OnOk, Some};
ghost use Rattle.durable_node.specs.Peers.{AreLatest};
ghost use Rattle.exchange_bytes.specs.declared.frames.Hello.{Hello};
ghost use Rattle.exchange_session.specs.{Runs.{said_of}, Standing.{opening}};
ghost use Rattle.node_exchange.specs.{Later.{IsLater}, Talks.{Calls, Notes, Responds, Talks, TurnsAway}};
ghost use Rattle.node_meetings.specs.Meeting.{MayMeet};

use crate::faults::ExchangeFault;
use crate::hearing::{Heard, hear};
use crate::knowing::{known_peers, note};
use crate::reading::{read_frame, read_next};
use crate::saying::say;
use durable_node::{EditLog, NodeFile};
use edit_log::{LogHead, LogPeer};
use exchange_bytes::{Frame, Hello};
use exchange_session::{Message, answer, open};
use node_meetings::{hello_of, may_meet, news_of};
use script_pipes::{Sink, Source};
use std::alloc::Global;

// The most turns of a side. Each leaves a part a quarter of its range's versions, so that this is more than any store needs.
const MOST_TURNS: u32 = 64;

// A message that says nothing.
fn nothing(alloc: Global) -> Message
    ensures nothing { said_of result ≡ record { prints = []; asks = []; pieces = [] } }
{
    Message {
        prints: Vec::new(alloc),
        asks: Vec::new(alloc),
        pieces: Vec::new(alloc),
    }
}

// Returns what a peer says of itself in its first frame, if it may be met.
fn meet<'a>(frame: &'a Frame, head: LogHead, known: &[LogPeer]) -> Result<&'a Hello, ExchangeFault>
    ensures says { IfOk result (λ hello. frame.now.hello ≡ Some hello.now) }
    ensures may { IfOk result (λ hello. MayMeet head known.now hello.now) }
    ensures taken { IsErrOf result ExchangeFault.WriterTaken
        → (hello : Hello) × ((frame.now.hello ≡ Some hello) × (MayMeet head known.now hello → ⊥)) }
{
    match &frame.hello {
        None => Err(ExchangeFault::Hello),
        Some(hello) if !may_meet(head, known, hello) => Err(ExchangeFault::WriterTaken),
        Some(hello) => Ok(hello),
    }
}

// Answers what was heard, and hears again, in turns until one side asks for no answer. A hello stands in the first answer.
fn converse<L: EditLog, S: Source, K: Sink>(
    alloc: Global,
    node: &mut NodeFile<L>,
    seed: u64,
    time: u32,
    heard: Heard,
    hello: Option<Hello>,
    source: &mut S,
    sink: &mut K,
) -> Result<(), ExchangeFault>
    requires whole { node.old.is_spent ≡ false }
    requires saved { node.old.unsaved ≡ [] }
    ensures talks { OnOk result
        (Talks seed node.old.replica.store
        (record { prints = heard.prints.items; asks = heard.asks.items; pieces = [] }) hello
        node.new.replica.store (K.contents sink.old) (K.contents sink.new) (S.remaining source.old)
        (S.remaining source.new)) }
    ensures peers { L.is_honest node.new.log
        → OnOk result (L.peers node.new.log ≡ L.peers node.old.log) }
    ensures other { IsErrOf result ExchangeFault.WriterTaken → ⊥ }
    ensures later { IsLater L.is_honest L.head L.may_leave node.old node.new }
    ensures whole { OnOk result (node.new.is_spent ≡ false) }
    ensures saved { OnOk result (node.new.unsaved ≡ []) }
{
    let mut heard = heard;
    let mut hello = hello;
    for _ in 0..MOST_TURNS {
        if heard.is_quiet() && hello.is_none() {
            return Ok(());
        }
        let (prints, asks) = heard.into_parts();
        let message = answer(alloc, node.replica(), seed, prints, asks)?;
        let is_last = message.is_quiet();
        say(alloc, sink, hello.take(), message)?;
        if is_last {
            return Ok(());
        }
        let first = read_next(alloc, source)?;
        heard = hear(alloc, node, time, source, first)?;
    }
    Err(ExchangeFault::Endless)
}

/// Begins an exchange: tells the print of all that the node holds, made with this seed, and then speaks and hears in turns
/// until one side asks for no answer. What comes is committed with this time, in seconds since 1970. If the peer does the
/// same by `respond`, both then hold the join of what they held, unless prints of ranges that differ were equal, for a seed by
/// chance: the next exchange, by another seed, finds that. This is proved of `reconcile`, which has the same messages said in
/// one process, and not of streams.
///
/// Each turn costs a pass over the replica; a turn tells prints of parts of the ranges in which the turn before it differed.
/// Who the peer is, and whom it knows, is noted in the node's log once its first message came whole.
///
/// Fails with `WriterTaken` if the peer writes under the same number, or if either side knows another file under the number of
/// the other, and in no other case: then nothing was taken or noted, the node goes on, and the peer was told all by which it
/// refuses too. Fails with `Bytes`, `Length`, `Hello` or `Endless` if what comes is no message; with `Node` if the node refuses
/// what comes; with `Read`, `Write` or `Memory`. Then what was committed before stays, and nothing is lost.
pub fn call<L: EditLog, S: Source, K: Sink>(
    alloc: Global,
    node: &mut NodeFile<L>,
    seed: u64,
    time: u32,
    source: &mut S,
    sink: &mut K,
) -> Result<(), ExchangeFault>
    requires whole { node.old.is_spent ≡ false }
    requires saved { node.old.unsaved ≡ [] }
    ensures calls { OnOk result
        (Calls (L.head node.old.log) seed node.old.replica.store node.new.replica.store
        (λ known met. L.is_honest node.new.log
        → Notes (L.head node.old.log) known met time (L.peers node.old.log) (L.peers node.new.log))
        (record {
          written_before = K.contents sink.old;
          written = K.contents sink.new;
          read_before = S.remaining source.old;
          read = S.remaining source.new;
        })) }
    ensures away { IsErrOf result ExchangeFault.WriterTaken
        → TurnsAway (L.head node.old.log) seed (opening seed node.old.replica.store)
        (λ known. L.is_honest node.new.log → AreLatest (L.peers node.old.log) known)
        (record {
          written_before = K.contents sink.old;
          written = K.contents sink.new;
          read_before = S.remaining source.old;
          read = S.remaining source.new;
        }) }
    ensures kept { IsErrOf result ExchangeFault.WriterTaken → node.new.replica ≡ node.old.replica }
    ensures unnoted { IsErrOf result ExchangeFault.WriterTaken → L.is_honest node.new.log
        → L.peers node.new.log ≡ L.peers node.old.log }
    ensures usable { IsErrOf result ExchangeFault.WriterTaken → node.new.is_spent ≡ false }
    ensures nothing_unsaved { IsErrOf result ExchangeFault.WriterTaken → node.new.unsaved ≡ [] }
    ensures later { IsLater L.is_honest L.head L.may_leave node.old node.new }
    ensures whole { OnOk result (node.new.is_spent ≡ false) }
    ensures saved { OnOk result (node.new.unsaved ≡ []) }
{
    let head = node.head();
    let known = known_peers(alloc, node)?;
    let message = open(alloc, node.replica(), seed)?;
    let own = hello_of(alloc, head, &known, seed)?;
    say(alloc, sink, Some(own), message)?;
    let first = read_frame(alloc, source)?;
    let met = meet(&first, head, &known)?;
    let news = news_of(alloc, head, &known, met, time)?;
    let heard = hear(alloc, node, time, source, first)?;
    note(node, &news)?;
    converse(alloc, node, seed, time, heard, None, source, sink)
}

/// Takes part in an exchange that the peer begins, as `call` does, with the peer's seed. Before it fails with `WriterTaken` it tells
/// the peer who this node is and whom it knows, so that the peer refuses too.
pub fn respond<L: EditLog, S: Source, K: Sink>(
    alloc: Global,
    node: &mut NodeFile<L>,
    time: u32,
    source: &mut S,
    sink: &mut K,
) -> Result<(), ExchangeFault>
    requires whole { node.old.is_spent ≡ false }
    requires saved { node.old.unsaved ≡ [] }
    ensures responds { OnOk result
        (Responds (L.head node.old.log) node.old.replica.store node.new.replica.store
        (λ known met. L.is_honest node.new.log
        → Notes (L.head node.old.log) known met time (L.peers node.old.log) (L.peers node.new.log))
        (record {
          written_before = K.contents sink.old;
          written = K.contents sink.new;
          read_before = S.remaining source.old;
          read = S.remaining source.new;
        })) }
    ensures away { IsErrOf result ExchangeFault.WriterTaken
        → TurnsAway (L.head node.old.log) 0 (record { prints = []; asks = []; pieces = [] })
        (λ known. L.is_honest node.new.log → AreLatest (L.peers node.old.log) known)
        (record {
          written_before = K.contents sink.old;
          written = K.contents sink.new;
          read_before = S.remaining source.old;
          read = S.remaining source.new;
        }) }
    ensures kept { IsErrOf result ExchangeFault.WriterTaken → node.new.replica ≡ node.old.replica }
    ensures unnoted { IsErrOf result ExchangeFault.WriterTaken → L.is_honest node.new.log
        → L.peers node.new.log ≡ L.peers node.old.log }
    ensures usable { IsErrOf result ExchangeFault.WriterTaken → node.new.is_spent ≡ false }
    ensures nothing_unsaved { IsErrOf result ExchangeFault.WriterTaken → node.new.unsaved ≡ [] }
    ensures later { IsLater L.is_honest L.head L.may_leave node.old node.new }
    ensures whole { OnOk result (node.new.is_spent ≡ false) }
    ensures saved { OnOk result (node.new.unsaved ≡ []) }
{
    let head = node.head();
    let known = known_peers(alloc, node)?;
    let first = read_frame(alloc, source)?;
    let met = match meet(&first, head, &known) {
        Ok(met) => met,
        Err(fault) => {
            let own = hello_of(alloc, head, &known, 0)?;
            say(alloc, sink, Some(own), nothing(alloc))?;
            return Err(fault);
        }
    };
    let seed = met.seed;
    let news = news_of(alloc, head, &known, met, time)?;
    let heard = hear(alloc, node, time, source, first)?;
    note(node, &news)?;
    let own = hello_of(alloc, head, &known, seed)?;
    converse(alloc, node, seed, time, heard, Some(own), source, sink)
}
