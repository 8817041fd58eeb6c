//! How a node's faults are printed.
use crate::faults::NodeFault;
use node_histories::NodeName;
use std::fmt;

/// Prints the code, the name and the values, as `A6 Disagree 2 1`.
impl<N: NodeName> fmt::Display for NodeFault<N> {
    fn fmt<W: fmt::Write>(&self, f: &mut fmt::Formatter<W>) -> fmt::Result {
        match self {
            NodeFault::NoSeat => f.write_str("A2 NoSeat"),
            NodeFault::Pending {
                version: Some(version),
            } => {
                let counter = version.counter;
                let writer = version.writer;
                write!(f, "A3 Pending {counter}.{writer}")
            }
            NodeFault::Pending { version: None } => f.write_str("A3 Pending"),
            NodeFault::TakesSpent(_) => f.write_str("A5 TakesSpent"),
            NodeFault::Disagree(seat, node) => write!(f, "A6 Disagree {seat} {node}"),
            NodeFault::VersionsSpent => f.write_str("E1 VersionsSpent"),
            NodeFault::Memory => f.write_str("out of memory"),
        }
    }
}

impl<N: NodeName> fmt::Debug for NodeFault<N> {
    fn fmt<W: fmt::Write>(&self, f: &mut fmt::Formatter<W>) -> fmt::Result {
        write!(f, "{self}")
    }
}
