//! What happens to a node.

use edit_sums::{Content, Edit};
use load_places::Place;

/// What happens to a node that keeps its edits in a log, from the making of the log on.
#[derive(Debug)]
pub enum Happening {
    /// The node writes a content at a place, or a removal, under its next version.
    Put(Place, Content),
    /// The node takes edits of others.
    Take(Vec<Edit>),
    /// A commit, which was answered: all that wasn't in the log yet is in it.
    Commit,
    /// The node ends by a crash or a refused commit, and opens anew. If `whole`, it ended in a commit whose edits all
    /// reached the log. Else what wasn't in the log is lost.
    Restart { whole: bool },
}

impl Drop for Happening {
    fn drop(self) {
        match self {
            Happening::Put(_, _) => (),
            Happening::Take(_) => (),
            Happening::Commit => (),
            Happening::Restart { whole: _ } => (),
        }
    }
}
