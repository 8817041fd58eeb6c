//! The steps at a node.
use crate::nodes::alongside::alongside;
use crate::nodes::bench::{Bench, append_store, append_version};
use crate::nodes::edits::one_piece;
use crate::nodes::serving::work_inbox;
use delta_pieces::Piece;
use node_histories::NodeName;
use replica_store::{Content, Place};
use shared_node::{Node, NodeFault, Seat, Told};
use std::sync::Wait;
use std::thread::Threads;
use std::time::Clock;
use worked_lines::{Answer, LineFault, Words, match_word};

/// Executes the step that a word names, and writes its answer.
pub fn step<N: NodeName + Send + Sync, R: Threads + Wait + Clock + Sync>(
    rt: &R,
    node: &Node<N>,
    bench: &mut Bench<N>,
    word: &[u8],
    words: &mut Words,
) -> Result<(), LineFault> {
    match_word!(word;
        b"seat" => take_seat(rt, node, bench),
        b"edit" => edit(rt, node, bench, words),
        b"absorb" => absorb(rt, node, bench, words),
        b"learn" => learn(bench, words),
        b"view" => view(bench, words),
        b"serve" => work_inbox(rt, node, bench, words),
        b"beside" => alongside(rt, node, bench, words),
    )
}

// Takes a seat.
fn take_seat<N: NodeName, R: Wait>(
    rt: &R,
    node: &Node<N>,
    bench: &mut Bench<N>,
) -> Result<(), LineFault> {
    match node.seat(rt) {
        Ok(seat) => {
            bench.write_number("seat", seat.number() as u64);
            bench.seats.push(Some(seat))?;
        }
        Err(fault) => bench.write_value(&fault),
    }
    Ok(())
}

// Stores the token of a take, and returns what else it answered; or writes why the take failed.
fn keep_token<N: NodeName, T: Drop>(
    bench: &mut Bench<N>,
    taken: Result<(T, Told<N>), NodeFault<N>>,
) -> Option<T> {
    match taken {
        Ok((answer, token)) => {
            bench.token = Some(token);
            Some(answer)
        }
        Err(fault) => {
            bench.write_value(&fault);
            None
        }
    }
}

// Edits from a seat.
fn edit<N: NodeName, R: Wait>(
    rt: &R,
    node: &Node<N>,
    bench: &mut Bench<N>,
    words: &mut Words,
) -> Result<(), LineFault> {
    let at = words.index()?;
    let place = words.place()?;
    edit_at(rt, node, bench, at, place, words.file()?);
    Ok(())
}

// Edits from the seat with a number.
fn edit_at<N: NodeName, R: Wait>(
    rt: &R,
    node: &Node<N>,
    bench: &mut Bench<N>,
    at: usize,
    place: Place,
    content: Content,
) {
    let Some(seat) = bench.seat(at) else {
        return bench.write("no seat");
    };
    let taken = node.edit(rt, seat, place, content);
    if let Some(version) = keep_token(bench, taken) {
        bench.write("ok ");
        append_version(&mut bench.out, version);
    }
}

// Absorbs a piece from a seat.
fn absorb<N: NodeName, R: Wait>(
    rt: &R,
    node: &Node<N>,
    bench: &mut Bench<N>,
    words: &mut Words,
) -> Result<(), LineFault> {
    let at = words.index()?;
    absorb_at(rt, node, bench, at, one_piece(words)?);
    Ok(())
}

// Absorbs a piece from the seat with a number.
fn absorb_at<N: NodeName, R: Wait>(
    rt: &R,
    node: &Node<N>,
    bench: &mut Bench<N>,
    at: usize,
    piece: Piece,
) {
    let Some(seat) = bench.seat(at) else {
        return bench.write("no seat");
    };
    let taken = node.absorb(rt, seat, piece);
    if let Some(changed) = keep_token(bench, taken) {
        bench.write_number("changed", changed);
    }
}

// The seat with a number learns the last token.
fn learn_at<N: NodeName>(bench: &mut Bench<N>, at: usize) {
    let Some(Some(seat)) = bench.seats.get_mut(at) else {
        return bench.write("no seat");
    };
    let Some(token) = &bench.token else {
        return bench.write("no token");
    };
    seat.learn(token);
    let seen = seat.takes();
    bench.write_number("seen", seen);
}

// A seat learns the last token.
fn learn<N: NodeName>(bench: &mut Bench<N>, words: &mut Words) -> Result<(), LineFault> {
    learn_at(bench, words.index()?);
    Ok(())
}

// Writes what the view of a seat shows, if there is a view. Returns the seat.
fn append_view<N: NodeName>(out: &mut Answer, seat: Seat<N>) -> Seat<N> {
    match seat.view() {
        Ok(view) => {
            append_store(out, view.takes(), view.store());
            view.leave()
        }
        Err(fault) => {
            out.write(b"A7 NoEntry");
            fault.seat
        }
    }
}

// The seat with a number views.
fn view_at<N: NodeName>(bench: &mut Bench<N>, at: usize) {
    let Some(seat) = bench.lend(at) else {
        return bench.write("no seat");
    };
    bench.write("");
    let seat = append_view(&mut bench.out, seat);
    bench.put_back(at, seat);
}

// A seat views.
fn view<N: NodeName>(bench: &mut Bench<N>, words: &mut Words) -> Result<(), LineFault> {
    view_at(bench, words.index()?);
    Ok(())
}
