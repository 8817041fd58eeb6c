//! A node that threads share.
ghost use Rattle.std.specs.{Prelude.{◌≡◌, ◌+◌, ◌<◌, IfOk, IfErr}, List.{sum_by}};
ghost use Rattle.node_histories.specs.declared.events.HistoryEvent.TheVariants.{Edited, Absorbed};
ghost use Rattle.node_histories.specs.Histories.{IsLegal, EndsWith, EndsChanging, opening_of, replica_of, takes_in};
ghost use Rattle.node_histories.specs.Codes.{replica-prop, IsLegal-prop};
ghost use Rattle.shared_node.specs.Seats.{AllAgree, CountsOneMore};
ghost use Rattle.shared_node.specs.Faults.{AtFault, IsEditFault, IsPieceFault, IsSeatFault, AcceptsEdit, AcceptsPiece};

use crate::blank::Blank;
use crate::faults::{CloseCause, NodeFault};
use crate::keeper::Keeper;
use crate::post::Told;
use crate::seat::Seat;
use delta_pieces::Piece;
use edit_sums::Content;
use join_law::Version;
use load_places::Place;
use node_histories::{History, NodeName};
use replica_store::Replica;
use std::sync::{Mutex, MutexGuard, Wait};

/// A node: a replica that threads share through its seats. Not `Drop`: `close` ends it, or `end` if seats are lost.
pub struct Node<N: NodeName> {
    keeper: Mutex<Keeper<N>>,
}

/// What is left of a closed node: its replica, how many takes it had, and a token of its history.
pub struct Closed {
    pub replica: Replica,
    pub takes: u64,
    pub seen: History,
}

impl Drop for Closed {
    fn drop(self) {
        let Closed {
            replica: _,
            takes: _,
            seen: _,
        } = self;
    }
}

/// Why a node wasn't closed. Returns the node and the seats.
pub struct CloseFault<N: NodeName> {
    pub node: Node<N>,
    pub seats: Vec<Seat<N>>,
    pub cause: CloseCause,
}

impl<N: NodeName> CloseFault<N> {
    /// Ends the node that wasn't closed, and drops its seats. A pending take is lost. May wait.
    pub fn end<R: Wait>(self, rt: &R) {
        let CloseFault {
            node,
            seats: _seats,
            cause: _,
        } = self;
        node.end(rt);
    }
}

// The node of a keeper.
fn node_of<N: NodeName>(keeper: Keeper<N>) -> Node<N> {
    Node {
        keeper: Mutex::new(keeper),
    }
}

// What is left of a node whose keeper has published this replica.
fn wind_up<N: NodeName, R: Wait>(keeper: Keeper<N>, rt: &R, replica: Replica) -> Closed
    ensures replica { result.replica ≡ replica }
    ensures log { result.seen.log ≡ keeper.shown }
    ensures takes { result.takes ≡ takes_in keeper.shown }
    ensures legal { IsLegal N.opening result.seen.log }
    ensures book { result.seen.book ≡ N.book }
{
    let published_copy = keeper.close(rt);
    Closed {
        replica,
        takes: published_copy.takes(),
        seen: published_copy.seen.again(),
    }
}

impl<N: NodeName> Node<N> {
    /// Opens the node that N names, whose blank this must be. The history has no takes yet. Allocates nothing.
    pub fn open(blank: Blank) -> Node<N>
        requires book { blank.book ≡ N.book }
        requires opening { blank.opening ≡ N.opening }
        requires seats { blank.seats ≡ N.seats }
    {
        node_of(Keeper::open(blank))
    }

    /// A new seat, which has made no take and has seen at least what the node opened over. May wait.
    ///
    /// `NoSeat` if all seats are given out, or if there is no slot for another reader.
    pub fn seat<R: Wait>(&self, rt: &R) -> Result<Seat<N>, NodeFault<N>>
        ensures calls { IfOk result (λ s. s.calls ≡ 0) }
        ensures within { IfOk result (λ s. s.number < N.seats) }
        ensures legal { IfOk result (λ s. IsLegal N.opening s.seen) }
        ensures kind { IfErr result (λ f. IsSeatFault f) }
    {
        let mut keeper = self.keeper.lock(rt);
        let seat = keeper.seat();
        MutexGuard::unlock(keeper);
        match seat {
            Some(seat) => Ok(seat),
            None => Err(NodeFault::NoSeat),
        }
    }

    /// Takes an edit for this seat under the next version, and publishes it. May wait for the lock, and for views that
    /// are held. Costs what is written and one copy of the replica, which copies no contents.
    ///
    /// The returned token's history begins with what the seat had seen and ends with this take. `TakesSpent`,
    /// `Disagree` or `VersionsSpent`, in this order, come before anything is published. `Memory`: nothing was accepted.
    /// `Pending`: the edit was accepted, but isn't published yet.
    pub fn edit<R: Wait>(
        &self,
        rt: &R,
        seat: &mut Seat<N>,
        place: Place,
        content: Content,
    ) -> Result<(Version, Told<N>), NodeFault<N>>
        ensures taken { IfOk result (λ r.
            EndsWith seat.old.seen r.1 (Edited seat.old.number
            (record { place = place; version = r.0; content = content }))) }
        ensures token { IfOk result (λ r. IsLegal N.opening r.1 × (seat.new.seen ≡ r.1)) }
        ensures counted { IfOk result (λ _. CountsOneMore seat.old seat.new) }
        ensures fault { IfErr result (λ f. AtFault N.opening f seat.old seat.new) }
        ensures kind { IfErr result (λ f. IsEditFault f) }
    {
        let mut keeper = self.keeper.lock(rt);
        let result = keeper.edit(rt, seat, place, content);
        MutexGuard::unlock(keeper);
        result
    }

    /// Takes a piece for this seat, publishes it, and returns how many places changed. May wait, as `edit` does. Costs
    /// what the piece changes and one copy of the replica, which copies no contents.
    ///
    /// The returned token's history begins with what the seat had seen and ends with this take. Fails as `edit` does,
    /// but never with `VersionsSpent`.
    pub fn absorb<R: Wait>(
        &self,
        rt: &R,
        seat: &mut Seat<N>,
        piece: Piece,
    ) -> Result<(u64, Told<N>), NodeFault<N>>
        ensures taken { IfOk result
            (λ r. EndsChanging seat.old.seen r.1 (Absorbed seat.old.number piece) r.0) }
        ensures token { IfOk result (λ r. IsLegal N.opening r.1 × (seat.new.seen ≡ r.1)) }
        ensures counted { IfOk result (λ _. CountsOneMore seat.old seat.new) }
        ensures fault { IfErr result (λ f. AtFault N.opening f seat.old seat.new) }
        ensures kind { IfErr result (λ f. IsPieceFault f) }
    {
        let mut keeper = self.keeper.lock(rt);
        let result = keeper.absorb(rt, seat, piece);
        MutexGuard::unlock(keeper);
        result
    }

    /// Ends the node, and returns its replica and how many takes it had. May wait. Costs one copy of the replica, which
    /// copies no contents. The history that is left begins with what each of these seats has seen. It has exactly as
    /// many takes of each seat as that seat made, and no others.
    ///
    /// `SeatsOut` if seats that were given out are missing; else `Disagree` if the counts of these seats aren't the
    /// node's; else `Memory` if memory runs out, also for a pending take. Each returns the node and the seats.
    pub fn close<R: Wait>(self, rt: &R, seats: Vec<Seat<N>>) -> Result<Closed, CloseFault<N>>
        ensures legal { IfOk result (λ d. IsLegal N.opening d.seen.log) }
        ensures book { IfOk result (λ d. d.seen.book ≡ N.book) }
        ensures agree { IfOk result (λ d. AllAgree d.seen.log seats.items) }
        ensures takes { IfOk result (λ d. d.takes ≡ takes_in d.seen.log) }
        ensures sum { IfOk result (λ d. d.takes ≡ sum_by (λ s. s.calls) seats.items) }
        ensures replica { IfOk result (λ d. d.replica ≡ replica_of d.seen.log) }
        ensures seats { IfErr result (λ f. f.seats ≡ seats) }
    {
        let Node { keeper } = self;
        let mut keeper = keeper.into_inner();
        match keeper.settle(rt, &seats) {
            Ok(replica) => Ok(wind_up(keeper, rt, replica)),
            Err(cause) => {
                let node = node_of(keeper);
                Err(CloseFault { node, seats, cause })
            }
        }
    }

    /// Ends the node, whatever seats it gave out. This is the way out if a seat is lost, so that `close` can't succeed.
    /// A pending take is lost. May wait.
    pub fn end<R: Wait>(self, rt: &R) {
        let Node { keeper } = self;
        drop(keeper.into_inner().close(rt));
    }
}
