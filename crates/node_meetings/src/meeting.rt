//! What a node says of itself, who may be met, and what is noted of a meeting.
ghost use Rattle.std.specs.Prelude.{◌≡◌, ◌↔◌, IfOk, IsTrue, map};
ghost use Rattle.exchange_bytes.specs.declared.peers.Peer.{Peer};
ghost use Rattle.list_laws.specs.Members.{IsAmong};
ghost use Rattle.node_meetings.specs.Meeting.{has_other_file, is_known, is_news, is_other_file, is_same, is_same_mark, IsHelloOf, knows_other_file};
ghost use Rattle.node_meetings.specs.Meeting.{MayMeet, news_of, node_of, peer_of, speaker, told_news, was_met};

use edit_log::{LogHead, LogPeer};
use exchange_bytes::{Hello, Peer, Peers};
use std::alloc::{AllocError, Global};

// After so many seconds a node that is met again is noted again.
const NOTED_AGAIN: u32 = 3_600;

// A peer of the log as it is told to others.
fn peer_of(known: &LogPeer) -> Peer
    ensures peer { result ≡ peer_of known.now }
{
    Peer {
        mark: known.mark,
        writer: known.writer,
    }
}

// Peers of the log as they are told to others.
fn peers_of(alloc: Global, known: &[LogPeer]) -> Result<Peers, AllocError>
    ensures peers { IfOk result
        (λ peers. (p : Peer) → IsAmong p peers ↔ IsAmong p (map peer_of known.now)) }
{
    let mut peers = Peers::new(alloc);
    for peer in known {
        peers.insert(peer_of(peer))?;
    }
    Ok(peers)
}

/// What a node says of itself: who it is, and all whom it knows. Fails only if memory runs out.
pub fn hello_of(
    alloc: Global,
    head: LogHead,
    known: &[LogPeer],
    seed: u64,
) -> Result<Hello, AllocError>
    ensures own { IfOk result (λ hello. IsHelloOf head known.now seed hello) }
{
    let own = node_of(head);
    let mark = own.mark;
    Ok(Hello {
        writer: own.writer,
        mark,
        seed,
        peers: peers_of(alloc, known)?,
    })
}

fn is_same_mark(peer: Peer, other: Peer) -> bool
    ensures same { result ≡ is_same_mark peer other }
{
    peer.mark.cmp(&other.mark).is_eq()
}

// Returns whether a peer is another file under the same number.
fn is_other_file(peer: Peer, other: Peer) -> bool
    ensures other { result ≡ is_other_file peer other }
{
    other.writer == peer.writer && !is_same_mark(peer, other)
}

// Returns whether one of these is another file under the peer's number.
fn has_other_file(peer: Peer, others: &[Peer]) -> bool
    ensures other { result ≡ has_other_file peer others.now }
{
    others.iter().any(|other| is_other_file(peer, *other))
}

// Returns whether one that is known is another file under the peer's number.
fn knows_other_file(known: &[LogPeer], peer: Peer) -> bool
    ensures other { result ≡ knows_other_file known.now peer }
{
    known
        .iter()
        .any(|other| is_other_file(peer, peer_of(other)))
}

fn speaker(hello: &Hello) -> Peer
    ensures speaker { result ≡ speaker hello.now }
{
    let mark = hello.mark;
    Peer {
        mark,
        writer: hello.writer,
    }
}

fn node_of(head: LogHead) -> Peer
    ensures node { result ≡ node_of head }
{
    let mark = head.mark;
    Peer {
        mark,
        writer: head.writer,
    }
}

/// Returns whether who says this may be met. A peer that writes under this node's number is refused, whichever file it has: two
/// nodes give out the same versions. So is one whose number another file has, as far as this node knows or that one.
pub fn may_meet(head: LogHead, known: &[LogPeer], hello: &Hello) -> bool
    ensures may { IsTrue result → MayMeet head known.now hello.now }
    ensures only { MayMeet head known.now hello.now → IsTrue result }
{
    hello.writer != head.writer
        && !knows_other_file(known, speaker(hello))
        && !has_other_file(node_of(head), hello.peers.as_slice())
}

// Returns whether a peer of the log is this one.
fn is_same(peer: Peer, known: &LogPeer) -> bool
    ensures same { result ≡ is_same peer known.now }
{
    known.writer == peer.writer && is_same_mark(peer, peer_of(known))
}

// Returns whether a peer is known.
fn is_known(known: &[LogPeer], peer: Peer) -> bool
    ensures known { result ≡ is_known known.now peer }
{
    known.iter().any(|other| is_same(peer, other))
}

// Returns whether a peer that is told of isn't the node itself and isn't known.
fn is_news(head: LogHead, known: &[LogPeer], peer: Peer) -> bool
    ensures news { result ≡ is_news head known.now peer }
{
    !is_same_mark(node_of(head), peer) && !is_known(known, peer)
}

// Of the peers that are told of those that are news.
fn told_news(
    alloc: Global,
    head: LogHead,
    known: &[LogPeer],
    told: &[Peer],
) -> Result<Vec<LogPeer>, AllocError>
    ensures news { IfOk result (λ news. news.items ≡ told_news head known.now told.now) }
{
    let mut news = Vec::new(alloc);
    for peer in told {
        if is_news(head, known, *peer) {
            news.push(LogPeer {
                mark: peer.mark,
                writer: peer.writer,
                seen: 0,
            })?;
        }
    }
    Ok(news)
}

// Returns whether a node was met within the hour before this time.
fn was_met(known: &[LogPeer], peer: Peer, time: u32) -> bool
    ensures met { result ≡ was_met known.now peer time }
{
    known.iter().any(|other| is_same(peer, other) && time.saturating_sub(other.seen) < NOTED_AGAIN)
}

/// Returns what is to be noted of a meeting: the peer, unless it was met within the hour before this time, and those of whom it
/// tells that aren't known. Fails only if memory runs out.
pub fn news_of(
    alloc: Global,
    head: LogHead,
    known: &[LogPeer],
    hello: &Hello,
    time: u32,
) -> Result<Vec<LogPeer>, AllocError>
    ensures news { IfOk result (λ news. news.items ≡ news_of head known.now hello.now time) }
{
    let mut news = told_news(alloc, head, known, hello.peers.as_slice())?;
    let peer = speaker(hello);
    if !was_met(known, peer, time) {
        let mark = peer.mark;
        news.push(LogPeer {
            mark,
            writer: peer.writer,
            seen: time,
        })?;
    }
    Ok(news)
}
