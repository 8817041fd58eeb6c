//! How a keeper takes.
ghost use Rattle.std.specs.Prelude.{◌≡◌, ◌+◌, ◌-◌, ◌^◌, ◌<◌, ◌++◌, ◌∷◌, [], IfOk, IfErr, MatchResult, MatchOption};
ghost use mathlib.Core.List.{IsPrefix};
ghost use Rattle.edit_sums.specs.Sums.{changed_places};
ghost use Rattle.node_histories.specs.declared.events.HistoryEvent.TheVariants.{Edited, Absorbed};
ghost use Rattle.node_histories.specs.Histories.{IsLegal, EndsWith, EndsChanging, store_of, counter_of, opening_of, takes_in};
ghost use Rattle.shared_node.specs.Accounts.{IsTakenAfter};
ghost use Rattle.shared_node.specs.Faults.{AtFault, AtCheck, IsEarly, IsEditFault, IsPieceFault, AcceptsEdit, AcceptsPiece};
ghost use Rattle.shared_node.specs.Seats.{CountsOneMore};

use crate::faults::NodeFault;
use crate::keeper::Keeper;
use crate::post::Told;
use crate::seat::Seat;
use delta_pieces::Piece;
use edit_sums::Content;
use join_law::Version;
use load_places::Place;
use node_histories::{NodeName, PublishedCopy};
use std::alloc::AllocError;
use std::sync::Wait;

impl<N: NodeName> Keeper<N> {
    // Checks that the seat may take. Changes nothing.
    fn may_take(&self, seat: &Seat<N>) -> Result<(), NodeFault<N>>
        ensures begun { IfOk result (λ _. IsPrefix seat.now.seen self.now.accepted) }
        ensures room { IfOk result (λ _. takes_in self.now.accepted < 2 ^ 64 - 1) }
        ensures calls { IfOk result (λ _. seat.now.calls < 2 ^ 64 - 1) }
        ensures fault { IfErr result (λ f. AtCheck N.opening f seat.now) }
    {
        let held = self.account.prefix().takes();
        if held == u64::MAX || seat.calls() == u64::MAX {
            return Err(NodeFault::TakesSpent(self.post.issue()));
        }
        let seen = seat.takes();
        if held < seen {
            return Err(NodeFault::Disagree(seen, held));
        }
        seat.prefix.begins(self.account.prefix());
        Ok(())
    }

    // Checks that the seat may take an edit. Changes nothing.
    fn may_edit(&self, seat: &Seat<N>) -> Result<(), NodeFault<N>>
        ensures begun { IfOk result (λ _. IsPrefix seat.now.seen self.now.accepted) }
        ensures room { IfOk result (λ _. takes_in self.now.accepted < 2 ^ 64 - 1) }
        ensures counter { IfOk result (λ _. counter_of self.now.accepted < 2 ^ 64 - 1) }
        ensures calls { IfOk result (λ _. seat.now.calls < 2 ^ 64 - 1) }
        ensures early { IfErr result (λ f. IsEarly f) }
        ensures fault { IfErr result (λ f. AtFault N.opening f seat.now seat.now) }
    {
        self.may_take(seat)?;
        if self.account.counter() == u64::MAX {
            return Err(NodeFault::VersionsSpent);
        }
        Ok(())
    }

    // Accepts a copy with one more take, of this seat. Publishes nothing.
    fn accept(&mut self, seat: usize, published_copy: PublishedCopy)
        requires seat { seat < N.seats }
        requires flushed { self.old.shown ≡ self.old.accepted }
        requires published_copy { (published_copy.seen.book ≡ N.book)
            × (opening_of published_copy.seen.log ≡ N.opening) }
        requires room { takes_in self.old.accepted < 2 ^ 64 - 1 }
        requires taken { IsTakenAfter self.old.accepted seat published_copy.seen.log }
        ensures given { self.new.given ≡ self.old.given }
        ensures accepted { self.new.accepted ≡ published_copy.seen.log }
    {
        self.account.add(seat, &published_copy);
        self.post.put(published_copy);
    }

    // Publishes a pending take, and accepts an edit after it.
    fn accept_edit<R: Wait>(
        &mut self,
        rt: &R,
        seat: usize,
        place: Place,
        content: Content,
    ) -> Result<Version, AllocError>
        requires seat { seat < N.seats }
        requires room { takes_in self.old.accepted < 2 ^ 64 - 1 }
        requires counter { counter_of self.old.accepted < 2 ^ 64 - 1 }
        ensures given { self.new.given ≡ self.old.given }
        ensures accepted { MatchResult result
            (λ version. self.new.accepted ≡ self.old.accepted
            ++ Edited seat (record { place = place; version = version; content = content }) ∷ [])
            (λ _. self.new.accepted ≡ self.old.accepted) }
    {
        self.flush(rt)?;
        let published_copy = self.post.published_copy();
        let (version, published_copy) = published_copy.with_edit::<N>(
            &self.head,
            seat as u64,
            place,
            content,
        )?;
        self.accept(seat, published_copy);
        Ok(version)
    }

    // Publishes a pending take, and accepts a piece after it. Returns how many places changed.
    fn accept_piece<R: Wait>(
        &mut self,
        rt: &R,
        seat: usize,
        piece: Piece,
    ) -> Result<u64, AllocError>
        requires seat { seat < N.seats }
        requires room { takes_in self.old.accepted < 2 ^ 64 - 1 }
        ensures given { self.new.given ≡ self.old.given }
        ensures accepted { MatchResult result
            (λ _. self.new.accepted ≡ self.old.accepted ++ Absorbed seat piece ∷ [])
            (λ _. self.new.accepted ≡ self.old.accepted) }
        ensures changed { IfOk result (λ changed. changed
            ≡ changed_places (store_of self.old.accepted) (store_of self.new.accepted)) }
    {
        self.flush(rt)?;
        let (changed, published_copy) = self
            .post
            .published_copy()
            .with_piece::<N>(&self.head, seat as u64, piece)?;
        self.accept(seat, published_copy);
        Ok(changed)
    }

    // Counts the accepted take, and publishes it.
    fn finish<R: Wait>(&mut self, rt: &R, seat: &mut Seat<N>) -> Option<Told<N>>
        requires calls { seat.old.calls < 2 ^ 64 - 1 }
        ensures given { self.new.given ≡ self.old.given }
        ensures accepted { self.new.accepted ≡ self.old.accepted }
        ensures counted { CountsOneMore seat.old seat.new }
        ensures shown { MatchOption result (seat.new.seen ≡ seat.old.seen)
            (λ token. (token ≡ self.old.accepted) × (seat.new.seen ≡ token)
            × (self.new.shown ≡ token) × IsLegal N.opening token) }
    {
        seat.calls += 1;
        self.flush(rt).ok()?;
        let token = self.post.issue();
        seat.prefix = token.prefix().again();
        Some(token)
    }

    // Publishes a pending take, then takes an edit for this seat and publishes it.
    pub(crate) fn edit<R: Wait>(
        &mut self,
        rt: &R,
        seat: &mut Seat<N>,
        place: Place,
        content: Content,
    ) -> Result<(Version, Told<N>), NodeFault<N>>
        ensures given { self.new.given ≡ self.old.given }
        ensures taken { IfOk result (λ r.
            EndsWith seat.old.seen r.1 (Edited seat.old.number
            (record { place = place; version = r.0; content = content }))) }
        ensures token { IfOk result (λ r. IsLegal N.opening r.1 × (seat.new.seen ≡ r.1)) }
        ensures counted { IfOk result (λ _. CountsOneMore seat.old seat.new) }
        ensures shown { IfOk result (λ r. (self.new.shown ≡ r.1) × (self.new.accepted ≡ r.1)) }
        ensures fault { IfErr result (λ f. AtFault N.opening f seat.old seat.new) }
        ensures kind { IfErr result (λ f. IsEditFault f) }
        ensures accepted { IfErr result
            (λ f. AcceptsEdit f seat.old.number place content self.old.accepted self.new.accepted) }
        ensures early { IfErr result (λ f. IsEarly f → self.new ≡ self.old) }
    {
        self.may_edit(seat)?;
        let Ok(version) = self.accept_edit(rt, seat.number(), place, content) else {
            return Err(NodeFault::Memory);
        };
        match self.finish(rt, seat) {
            Some(token) => Ok((version, token)),
            None => {
                let version = Some(version);
                Err(NodeFault::Pending { version })
            }
        }
    }

    // Publishes a pending take, then takes a piece for this seat and publishes it. Returns how many places changed.
    pub(crate) fn absorb<R: Wait>(
        &mut self,
        rt: &R,
        seat: &mut Seat<N>,
        piece: Piece,
    ) -> Result<(u64, Told<N>), NodeFault<N>>
        ensures given { self.new.given ≡ self.old.given }
        ensures taken { IfOk result
            (λ r. EndsChanging seat.old.seen r.1 (Absorbed seat.old.number piece) r.0) }
        ensures token { IfOk result (λ r. IsLegal N.opening r.1 × (seat.new.seen ≡ r.1)) }
        ensures counted { IfOk result (λ _. CountsOneMore seat.old seat.new) }
        ensures shown { IfOk result (λ r. (self.new.shown ≡ r.1) × (self.new.accepted ≡ r.1)) }
        ensures fault { IfErr result (λ f. AtFault N.opening f seat.old seat.new) }
        ensures kind { IfErr result (λ f. IsPieceFault f) }
        ensures accepted { IfErr result
            (λ f. AcceptsPiece f seat.old.number piece self.old.accepted self.new.accepted) }
        ensures early { IfErr result (λ f. IsEarly f → self.new ≡ self.old) }
    {
        self.may_take(seat)?;
        let Ok(changed) = self.accept_piece(rt, seat.number(), piece) else {
            return Err(NodeFault::Memory);
        };
        match self.finish(rt, seat) {
            Some(token) => Ok((changed, token)),
            None => Err(NodeFault::Pending { version: None }),
        }
    }
}
