//! Calls on the trees of hosts: the store as words.
use crate::edits::{append_content, append_store, by_files};
use host_trees::{is_crossed, tree, tree_store};
use replica_store::{HostName, Store, Viewer};
use unit_name::UnitName;
use worked_lines::{Answer, LineFault, Words, asked_of, match_word};

/// Writes the answer to a call on trees.
pub fn answer(words: &mut Words, out: &mut Answer) -> Result<(), LineFault> {
    let (call, host) = asked_of(words.alloc, words.word()?)?;
    match_word!(call;
        b"of" => append_tree(out, &words.store()?, host.as_ref()),
        b"store" => append_tree_store(out, &words.store()?, host.as_ref()),
        b"crossed" => {
            let store = words.store()?;
            append_crossed(out, &store, &by_files(host), &words.spelled_names()?)
        },
    )
}

// Writes the tree of a host, or the tree without a host: each path with its content; `nothing` if there are none.
fn append_tree(out: &mut Answer, store: &Store, host: Option<&HostName>) -> Result<(), LineFault> {
    for pair in &tree(out.alloc, store, host)? {
        out.part(b" ");
        out.write_path(&pair.0);
        append_content(out, &pair.1);
    }
    out.or(b"nothing");
    Ok(())
}

// Writes the store that is made of the tree of a host: each place with its version and content.
fn append_tree_store(
    out: &mut Answer,
    store: &Store,
    host: Option<&HostName>,
) -> Result<(), LineFault> {
    let pairs = tree(out.alloc, store, host)?;
    append_store(out, &tree_store(out.alloc, pairs.as_slice())?)
}

// Writes whether the unit with these names is crossed for a host.
fn append_crossed(
    out: &mut Answer,
    store: &Store,
    viewer: &Viewer,
    names: &[UnitName],
) -> Result<(), LineFault> {
    let pairs = tree(out.alloc, store, viewer.host.as_ref())?;
    let shown = tree_store(out.alloc, pairs.as_slice())?;
    out.either(
        is_crossed(out.alloc, store, viewer, &shown, names)?,
        b"crossed",
        b"alike",
    );
    Ok(())
}
