//! Questions of a node that is asked again, where only what it took since is read again, in words.
use crate::loads::asking::{Asking, asking_of, returned_here, text_of};
use crate::loads::edits::Done;
use fleet_answers::{Question, TrackedReplica};
use replica_store::{Content, Edit, EditFault, Place, Replica, Store, Version, Viewer};
use std::alloc::Global;
use std::thread::Threads;
use worked_lines::{Answer, LineFault, Words};
use worker_rounds::OpenGate;

/// How a node takes edits: one after another, or by one merge of a store that has them.
#[derive(Clone, Copy)]
pub enum Taking {
    Edits,
    Merge,
}

// A node that holds nothing.
fn empty_node(alloc: Global) -> TrackedReplica {
    TrackedReplica::new(Replica::new(alloc, 1))
}

// Checks that a node took an edit, or had nothing to remove.
fn check_taken(version: &Result<Version, EditFault>) -> Done {
    match version {
        Ok(_) | Err(EditFault::Nothing) => Ok(()),
        Err(EditFault::VersionsSpent) => Err(LineFault::Words),
        Err(EditFault::Memory) => Err(LineFault::Memory),
    }
}

// A node removes what is at a place.
fn remove_at(node: &mut TrackedReplica, place: &Place) -> Done {
    let place = place.try_clone()?;
    check_taken(&node.remove(place))
}

// A node puts a content at a place.
fn put_at(node: &mut TrackedReplica, place: &Place, content: &Content) -> Done {
    let place = place.try_clone()?;
    let content = content.try_clone()?;
    check_taken(&node.put(place, content))
}

// A node puts or removes what an edit does.
fn take(node: &mut TrackedReplica, edit: &Edit) -> Done {
    if matches!(edit.content, Content::Gone) {
        remove_at(node, &edit.place)
    } else {
        put_at(node, &edit.place, &edit.content)
    }
}

// A node puts or removes what each of the edits does.
fn take_each(node: &mut TrackedReplica, edits: &[Edit]) -> Done {
    for edit in edits {
        take(node, edit)?;
    }
    Ok(())
}

// A node takes edits by one merge.
fn take_merged(node: &mut TrackedReplica, edits: &[Edit]) -> Done {
    let news = Store::from_edits(node.store().allocator(), edits)?;
    node.merge(&news)?;
    Ok(())
}

// A node takes edits.
fn take_all(node: &mut TrackedReplica, edits: &[Edit], taking: Taking) -> Done {
    match taking {
        Taking::Edits => take_each(node, edits),
        Taking::Merge => take_merged(node, edits),
    }
}

// The answer of a node, by one worker.
fn returned_at<R: Threads + Sync>(
    rt: &R,
    alloc: Global,
    node: &mut TrackedReplica,
    question: &Question,
) -> Result<Vec<u8>, LineFault> {
    let returned = node.answer(rt, alloc, question, 1, &OpenGate);
    text_of(alloc, returned.map(Some))
}

// Writes the answer of a node by one worker, and whether it isn't that of its store by one thread.
fn append_answer<R: Threads + Sync>(
    rt: &R,
    out: &mut Answer,
    node: &mut TrackedReplica,
    question: &Question,
) -> Done {
    let text = returned_at(rt, out.alloc, node, question)?;
    let here = returned_here(out.alloc, node.store(), &[], question)?;
    out.write(&text);
    out.either(text == here, b"", b", and not what is answered here");
    Ok(())
}

// The edits from one number of first edits to another.
fn edits_between(edits: &[Edit], taken: usize, count: usize) -> Result<&[Edit], LineFault> {
    if taken > count || count > edits.len() {
        return Err(LineFault::Words);
    }
    Ok(&edits[taken..count])
}

// A node takes edits, and how many it took by then and what it answers is written.
fn append_taken<R: Threads + Sync>(
    rt: &R,
    out: &mut Answer,
    node: &mut TrackedReplica,
    edits: &[Edit],
    taking: Taking,
    count: usize,
    question: &Question,
) -> Done {
    take_all(node, edits, taking)?;
    out.line_made(format!(in out.alloc; "of {count} edits: "));
    append_answer(rt, out, node, question)
}

// Writes what a node answers that took each of several numbers of first edits, one number after another.
fn append_again<R: Threads + Sync>(
    rt: &R,
    out: &mut Answer,
    edits: &[Edit],
    asking: &Asking,
    taking: Taking,
) -> Done {
    let mut node = empty_node(out.alloc);
    let mut taken = 0;
    for count in &asking.counts {
        let later = edits_between(edits, taken, *count)?;
        append_taken(rt, out, &mut node, later, taking, *count, &asking.question)?;
        taken = *count;
    }
    Ok(())
}

/// Answers a question at a node that took each of several numbers of first edits, one number after another.
pub fn again<R: Threads + Sync>(
    rt: &R,
    words: &mut Words,
    viewer: Viewer,
    taking: Taking,
    out: &mut Answer,
) -> Done {
    let edits = words.edits()?;
    let asking = asking_of(words, viewer)?;
    append_again(rt, out, &edits, &asking, taking)
}

// A place that no unit of a question looks at.
fn place_elsewhere(alloc: Global, number: usize) -> Result<Place, LineFault> {
    let text = format!(in alloc; "/etc/systemd/system/elsewhere.service.d/{number}.conf")?;
    Ok(Place::parse(alloc, text.as_bytes())?)
}

// What is put at such a place.
fn file_elsewhere(alloc: Global) -> Result<Content, LineFault> {
    Ok(Content::file(Vec::from_slice(alloc, b"[Unit]\n")?)?)
}

// A node puts a file at such a place.
fn put_file(node: &mut TrackedReplica, number: usize) -> Done {
    let alloc = node.store().allocator();
    let place = place_elsewhere(alloc, number)?;
    let content = file_elsewhere(alloc)?;
    check_taken(&node.put(place, content))
}

// A node puts a file at so many places, which no unit of a question looks at.
fn put_elsewhere(node: &mut TrackedReplica, count: usize) -> Done {
    for number in 0..count {
        put_file(node, number)?;
    }
    Ok(())
}

// Writes what a node answers, and what behind so many edits elsewhere and another edit.
fn append_behind<R: Threads + Sync>(
    rt: &R,
    out: &mut Answer,
    node: &mut TrackedReplica,
    count: usize,
    last: &Edit,
    question: &Question,
) -> Done {
    out.line(b"before: ");
    append_answer(rt, out, node, question)?;
    put_elsewhere(node, count)?;
    take(node, last)?;
    out.line_made(format!(in out.alloc; "behind {count} edits elsewhere: "));
    append_answer(rt, out, node, question)
}

// Writes what a node answers that took edits, and what behind so many edits elsewhere and the last edit.
fn append_count<R: Threads + Sync>(
    rt: &R,
    out: &mut Answer,
    before: &[Edit],
    count: usize,
    last: &Edit,
    question: &Question,
) -> Done {
    let mut node = empty_node(out.alloc);
    take_each(&mut node, before)?;
    append_behind(rt, out, &mut node, count, last, question)
}

// The same for each of several numbers of edits elsewhere.
fn append_counts<R: Threads + Sync>(
    rt: &R,
    out: &mut Answer,
    edits: &[Edit],
    asking: &Asking,
) -> Done {
    let (last, before) = edits.split_last().ok_or(LineFault::Words)?;
    for count in &asking.counts {
        append_count(rt, out, before, *count, last, &asking.question)?;
    }
    Ok(())
}

/// Answers a question at a node that took all edits but the last, and then, behind each of several numbers of edits elsewhere,
/// the last one too.
pub fn far<R: Threads + Sync>(rt: &R, words: &mut Words, viewer: Viewer, out: &mut Answer) -> Done {
    let edits = words.edits()?;
    let asking = asking_of(words, viewer)?;
    append_counts(rt, out, &edits, &asking)
}
