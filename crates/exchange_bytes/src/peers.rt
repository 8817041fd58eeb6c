//! Nodes that were met.
ghost use Rattle.std.specs.{Option.{option_copied}, Ordering.{is_eq}, Prelude.{◌↔◌, ◌≡◌, ◌≤◌, ◌⊎◌, [], length, None, OnErr, OnOk}};
ghost use Rattle.list_laws.specs.Members.{IsAmong};
ghost use Rattle.exchange_bytes.specs.Peers.{AreAscending, is_next, leading, peer_cmp};

use std::alloc::{AllocError, Global};
use std::marker::Model;

/// A node that another has met.
#[derive(Clone, Copy, Debug, PartialEq, Eq, PartialOrd, Ord)]
pub struct Peer {
    /// Random bytes, which tell its file from each other one.
    pub mark: [u8; 16],
    /// The number under which it writes.
    pub writer: u32,
}

/// Nodes that were met, each once. Contracts see them as a list in ascending order, by mark and then by number.
#[derive(Debug)]
pub struct Peers {
    list: Vec<Peer>,
}

impl Drop for Peers {
    fn drop(self) {
        let Peers { list: _ } = self;
    }
}

impl Model for Peers {
    ghost use Rattle.std.specs.Prelude.{List, None};
    ghost use Rattle.exchange_bytes.specs.{Peers.{AreAscending}, declared.peers.Peer.{Peer}};

    ghost Value = { List Peer };

    ghost view = { λ p. p.list.items };

    ghost invariant = { λ p. AreAscending None p.list.items };
}

impl Peers {
    /// Returns no peers. Allocates nothing.
    pub fn new(alloc: Global) -> Peers
        ensures none { result ≡ [] }
    {
        Peers {
            list: Vec::new(alloc),
        }
    }

    // Makes peers of a list that is in ascending order.
    pub(crate) fn from_ascending(list: Vec<Peer>) -> Peers
        requires ascending { AreAscending None list.items }
        ensures list { result ≡ list.items }
    {
        Peers { list }
    }

    /// Adds a peer, unless it is there. Moves those above it. Fails only if memory runs out; then nothing has changed.
    pub fn insert(&mut self, peer: Peer) -> Result<(), AllocError>
        ensures inserted { OnOk result
            ((other : Peer) → IsAmong other self.new ↔ ((other ≡ peer) ⊎ IsAmong other self.old)) }
        ensures err { OnErr result (self.new ≡ self.old) }
    {
        let at = leading_of(&self.list, &peer);
        if at < self.list.len() && is_same(&self.list[at], &peer) {
            return Ok(());
        }
        self.list.insert(at, peer)?;
        Ok(())
    }

    /// Borrows all peers, in ascending order. Allocates nothing.
    pub fn as_slice(&self) -> &[Peer]
        ensures list { result.now ≡ self.now }
        ensures ascending { AreAscending None result.now }
    {
        &self.list
    }
}

// Returns whether two peers are the same.
fn is_same(one: &Peer, other: &Peer) -> bool
    ensures same { result ≡ is_eq (peer_cmp one.now other.now) }
{
    one.cmp(other).is_eq()
}

// How many of the first peers are below this one.
fn leading_of(list: &[Peer], peer: &Peer) -> usize
    ensures count { result ≡ leading peer.now list.now }
    ensures within { result ≤ length list.now }
{
    for (index, other) in list.iter().enumerate() {
        if !other.cmp(peer).is_lt() {
            return index;
        }
    }
    list.len()
}

// Returns whether a peer is above the one before it, if there is one.
pub(crate) fn is_peer_next(last: Option<&Peer>, peer: &Peer) -> bool
    ensures next { result ≡ is_next (option_copied last.entry) peer.now }
{
    match last {
        None => true,
        Some(last) => last.cmp(peer).is_lt(),
    }
}
