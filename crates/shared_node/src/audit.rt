//! How a keeper compares its counts with those of seats.
ghost use Rattle.std.specs.{Prelude.{◌≡◌, ◌+◌, length, IfOk, IfErr, MatchResult}, List.{sum_by}};
ghost use Rattle.node_histories.specs.Histories.{replica_of, takes_in};
ghost use Rattle.shared_node.specs.{Seats.{AllAgree}, Faults.{AtCause, IsDisagreement, ShowsStill}};

use crate::account::Account;
use crate::faults::CloseCause;
use crate::keeper::Keeper;
use crate::seat::Seat;
use node_histories::NodeName;
use replica_store::Replica;
use std::sync::Wait;

impl<N: NodeName> Keeper<N> {
    // How many takes there are, where these seats are all that were given, and made them.
    pub(crate) fn audit(&self, seats: &Vec<Seat<N>>) -> Result<u64, CloseCause>
        ensures takes { IfOk result (λ n. n ≡ takes_in self.now.accepted) }
        ensures sum { IfOk result (λ n. n ≡ sum_by (λ s. s.calls) seats.now.items) }
        ensures agree { IfOk result (λ _. AllAgree self.now.accepted seats.now.items) }
        ensures cause { IfErr result
            (λ cause. AtCause self.now.given (length seats.now.items) cause) }
    {
        let here = seats.len();
        if here < self.given {
            return Err(CloseCause::SeatsOut(self.given - here));
        }
        let others = takes_of_others(&self.account, seats)?;
        let takes = self.account.prefix().takes();
        if others == 0 {
            Ok(takes)
        } else {
            Err(CloseCause::Disagree(takes - others, takes))
        }
    }

    // Where these seats are all that were given, and made the takes, publishes a take that is pending, and copies the
    // replica that is then published. A refusal accepts nothing and gives no seat.
    pub(crate) fn settle<R: Wait>(
        &mut self,
        rt: &R,
        seats: &Vec<Seat<N>>,
    ) -> Result<Replica, CloseCause>
        ensures agree { IfOk result (λ _. AllAgree self.new.shown seats.now.items) }
        ensures sum { IfOk result
            (λ _. takes_in self.new.shown ≡ sum_by (λ s. s.calls) seats.now.items) }
        ensures replica { IfOk result (λ replica. replica ≡ replica_of self.new.shown) }
        ensures cause { IfErr result
            (λ cause. AtCause self.old.given (length seats.now.items) cause) }
        ensures accepted { self.new.accepted ≡ self.old.accepted }
        ensures given { self.new.given ≡ self.old.given }
        ensures shown { MatchResult result
            (λ _. self.new.shown ≡ self.old.accepted)
            (λ cause. ShowsStill cause self.old self.new.shown) }
    {
        self.audit(seats)?;
        match self.flushed_replica(rt) {
            Ok(replica) => Ok(replica),
            Err(_) => Err(CloseCause::Memory),
        }
    }
}

// How many takes none of these seats made, where each of them agrees with the account.
fn takes_of_others<N: NodeName>(
    account: &Account<N>,
    seats: &Vec<Seat<N>>,
) -> Result<u64, CloseCause>
    requires seats { account.now.seats ≡ N.seats }
    ensures sum { IfOk result
        (λ n. n + sum_by (λ s. s.calls) seats.now.items ≡ takes_in account.now.takes) }
    ensures agree { IfOk result (λ _. AllAgree account.now.takes seats.now.items) }
    ensures cause { IfErr result IsDisagreement }
{
    let mut others = account.prefix().takes();
    for seat in seats {
        account.compare(seat)?;
        let calls = seat.calls();
        let Some(fewer) = others.checked_sub(calls) else {
            return Err(CloseCause::Disagree(calls, others));
        };
        others = fewer;
    }
    Ok(others)
}
