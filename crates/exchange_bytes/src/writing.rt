//! What frames are made of, appended to bytes. Each fails only if memory runs out; part of it may then be there.
ghost use Rattle.std.specs.{List.{AllByRecursion, flat_map}, Option.{option_copied}, Prelude.{◌++◌, ◌<◌, ◌^◌, ◌≡◌, length, OnOk, Some}};
ghost use Rattle.byte_fields.specs.Spelling.{number};
ghost use Rattle.exchange_bytes.specs.Frames.{parts_of};
ghost use Rattle.exchange_bytes.specs.Spelling.{ArePeers, ArePrints, AreAsks, ask, asks, bound, fields, flag, HasFrameSpelling, hello, IsAsk, IsBound, IsHello, IsHelloOrNone, is_last, IsPeer, IsPrint, IsRange, own, peer, peers, print, prints, range};

use crate::frames::{Frame, Hello};
use crate::peers::{Peer, Peers};
use byte_fields::put_number;
use exchange_session::{RangeAsk, RangePrint};
use load_places::Place;
use range_prints::Range;
use std::alloc::AllocError;
use store_bytes::{put_place, put_store, put_versions};

// Returns whether a place is the last bound told.
pub(crate) fn is_last_bound(last: Option<&Place>, place: &Place) -> bool
    ensures last { result ≡ is_last (option_copied last.entry) place.now }
{
    match last {
        None => false,
        Some(last) => last == place,
    }
}

// Appends a place that is a bound, after the last one told.
fn put_told(out: &mut Vec<u8>, last: Option<&Place>, place: &Place) -> Result<(), AllocError>
    requires last { IsBound (option_copied last) }
    ensures written { OnOk result
        (out.new.items ≡ out.old.items ++ bound (option_copied last.entry) (Some place.now)) }
    ensures fits { OnOk result (IsBound (Some place.now)) }
{
    if is_last_bound(last, place) {
        out.push(1)?;
        return Ok(());
    }
    out.push(2)?;
    put_place(out, place)
}

// Appends a bound, after the last one told.
fn put_bound(
    out: &mut Vec<u8>,
    last: Option<&Place>,
    place: Option<&Place>,
) -> Result<(), AllocError>
    requires last { IsBound (option_copied last) }
    ensures written { OnOk result
        (out.new.items
        ≡ out.old.items ++ bound (option_copied last.entry) (option_copied place.entry)) }
    ensures fits { OnOk result (IsBound (option_copied place.entry)) }
{
    match place {
        None => {
            out.push(0)?;
            Ok(())
        }
        Some(place) => put_told(out, last, place),
    }
}

// Appends a range, after the last bound told.
fn put_range(out: &mut Vec<u8>, last: Option<&Place>, r: &Range) -> Result<(), AllocError>
    requires last { IsBound (option_copied last) }
    ensures written { OnOk result
        (out.new.items ≡ out.old.items ++ range (option_copied last.entry) r.now) }
    ensures fits { OnOk result (IsRange r.now) }
{
    put_bound(out, last, r.from.as_ref())?;
    put_bound(out, r.from.as_ref(), r.until.as_ref())
}

// Appends a print, after the last bound told.
fn put_print(out: &mut Vec<u8>, last: Option<&Place>, it: &RangePrint) -> Result<(), AllocError>
    requires last { IsBound (option_copied last) }
    ensures written { OnOk result
        (out.new.items ≡ out.old.items ++ print (option_copied last.entry) it.now) }
    ensures fits { OnOk result (IsPrint (option_copied last.entry) it.now) }
{
    put_range(out, last, &it.range)?;
    put_number(out, it.print)
}

// Appends an ask, after the last bound told.
fn put_ask(out: &mut Vec<u8>, last: Option<&Place>, it: &RangeAsk) -> Result<(), AllocError>
    requires last { IsBound (option_copied last) }
    ensures written { OnOk result
        (out.new.items ≡ out.old.items ++ ask (option_copied last.entry) it.now) }
    ensures fits { OnOk result (IsAsk (option_copied last.entry) it.now) }
{
    put_range(out, last, &it.range)?;
    put_versions(out, it.versions.versions())?;
    Ok(())
}

// Appends prints.
fn put_prints(out: &mut Vec<u8>, list: &[RangePrint]) -> Result<(), AllocError>
    ensures written { OnOk result (out.new.items ≡ out.old.items ++ prints list.now) }
    ensures fits { OnOk result (ArePrints list.now) }
{
    put_number(out, list.len() as u64)?;
    let mut last = None;
    for it in list {
        put_print(out, last, it)?;
        last = it.range.until.as_ref();
    }
    Ok(())
}

// Appends asks.
fn put_asks(out: &mut Vec<u8>, list: &[RangeAsk]) -> Result<(), AllocError>
    ensures written { OnOk result (out.new.items ≡ out.old.items ++ asks list.now) }
    ensures fits { OnOk result (AreAsks list.now) }
{
    put_number(out, list.len() as u64)?;
    let mut last = None;
    for it in list {
        put_ask(out, last, it)?;
        last = it.range.until.as_ref();
    }
    Ok(())
}

// Appends a peer.
fn put_peer(out: &mut Vec<u8>, it: &Peer) -> Result<(), AllocError>
    ensures written { OnOk result (out.new.items ≡ out.old.items ++ peer it.now) }
    ensures fits { OnOk result (IsPeer it.now) }
{
    out.extend_from_slice(&it.mark)?;
    put_number(out, it.writer as u64)
}

// Appends peers that are in a list.
fn put_peer_list(out: &mut Vec<u8>, list: &[Peer]) -> Result<(), AllocError>
    ensures written { OnOk result
        (out.new.items ≡ out.old.items ++ (number (length list.now) ++ flat_map peer list.now)) }
    ensures fits { OnOk result (AllByRecursion IsPeer list.now) }
    ensures few { OnOk result (length list.now < 2 ^ 64) }
{
    put_number(out, list.len() as u64)?;
    for it in list {
        put_peer(out, it)?;
    }
    Ok(())
}

// Appends peers.
fn put_peers(out: &mut Vec<u8>, all: &Peers) -> Result<(), AllocError>
    ensures written { OnOk result (out.new.items ≡ out.old.items ++ peers all.now) }
    ensures fits { OnOk result (ArePeers all.now) }
{
    put_peer_list(out, all.as_slice())?;
    Ok(())
}

// Appends what a side says of itself.
fn put_own(out: &mut Vec<u8>, it: &Hello) -> Result<(), AllocError>
    ensures written { OnOk result (out.new.items ≡ out.old.items ++ own it.now) }
    ensures fits { OnOk result (IsHello it.now) }
{
    put_number(out, it.writer as u64)?;
    out.extend_from_slice(&it.mark)?;
    put_number(out, it.seed)?;
    put_peers(out, &it.peers)
}

// Appends it, or that there is none.
fn put_hello(out: &mut Vec<u8>, it: Option<&Hello>) -> Result<(), AllocError>
    ensures written { OnOk result
        (out.new.items ≡ out.old.items ++ hello (option_copied it.entry)) }
    ensures fits { OnOk result (IsHelloOrNone (option_copied it.entry)) }
{
    match it {
        None => {
            out.push(0)?;
            Ok(())
        }
        Some(own) => {
            out.push(1)?;
            put_own(out, own)
        }
    }
}

// Appends whether it is so.
fn put_flag(out: &mut Vec<u8>, yes: bool) -> Result<(), AllocError>
    ensures written { OnOk result (out.new.items ≡ out.old.items ++ flag yes) }
{
    if yes {
        out.push(1)?;
    } else {
        out.push(0)?;
    }
    Ok(())
}

// Appends what stands between the head and the checksum of a frame.
pub(crate) fn put_fields(out: &mut Vec<u8>, frame: &Frame) -> Result<(), AllocError>
    ensures written { OnOk result (out.new.items ≡ out.old.items ++ fields (parts_of frame.now)) }
    ensures fits { OnOk result (HasFrameSpelling (parts_of frame.now)) }
{
    put_hello(out, frame.hello.as_ref())?;
    put_prints(out, &frame.prints)?;
    put_asks(out, &frame.asks)?;
    put_store(out, frame.piece.store())?;
    put_flag(out, frame.more)
}
