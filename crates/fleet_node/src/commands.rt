//! The words of the command line.
use clap::{Arg, ArgAction, Command, value_parser};
use std::alloc::{AllocError, Global};

/// The subcommands that take a file alone, with what each does.
const OVER_FILE: [(&str, &str); 9] = [
    (
        "run",
        "Answer the script on standard input, in which the node is here",
    ),
    (
        "digest",
        "Write the places and versions that the node holds to standard output",
    ),
    (
        "delta",
        "Read another node's digest on standard input, and write the piece that it lacks",
    ),
    ("take", "Read a piece on standard input, and commit it"),
    ("store", "Write all that the node holds to standard output"),
    ("id", "Show the identity of what the node holds"),
    (
        "log",
        "Show each edit of each place, with its version and the time of its commit",
    ),
    (
        "peers",
        "Show the node's number and mark, and those of the nodes that it has met or was told of",
    ),
    (
        "compact",
        "Forget what was overwritten, so that the file holds each place's entry once",
    ),
];

// A word that must be there.
fn word<'a>(alloc: Global, name: &'a str, help: &'a str) -> Arg<'a> {
    Arg::new(alloc, name).required(true).help(help)
}

// A subcommand over the file of a node.
fn over_file<'a>(alloc: Global, name: &'a str, about: &'a str) -> Result<Command<'a>, AllocError> {
    let command = Command::new(alloc, name).about(about);
    command.arg(word(alloc, "FILE", "The file of a node"))
}

fn writer<'a>(alloc: Global) -> Arg<'a> {
    word(
        alloc,
        "WRITER",
        "The number under which the node writes; no other file may have it",
    )
    .value_parser(value_parser!(u32))
}

fn init<'a>(alloc: Global) -> Result<Command<'a>, AllocError> {
    let command = over_file(alloc, "init", "Make the file of a node that holds nothing")?;
    command.arg(writer(alloc))
}

fn place<'a>(alloc: Global) -> Arg<'a> {
    word(
        alloc,
        "PLACE",
        "A path in the load path, or HOST: and a path",
    )
}

fn counter<'a>(alloc: Global) -> Arg<'a> {
    word(alloc, "COUNTER", "The counter of the edit's version").value_parser(value_parser!(u64))
}

fn made_by<'a>(alloc: Global) -> Arg<'a> {
    word(alloc, "WRITER", "The number of the node that made the edit").value_parser(value_parser!(
        u32
    ))
}

fn history<'a>(alloc: Global) -> Result<Command<'a>, AllocError> {
    let command = over_file(
        alloc,
        "history",
        "Show each edit of a place, with its version and the time of its commit",
    )?;
    command.arg(place(alloc))
}

fn content<'a>(alloc: Global) -> Result<Command<'a>, AllocError> {
    let command = over_file(
        alloc,
        "content",
        "Write the bytes that the edit of a place with this version put, to standard output",
    )?;
    let command = command.arg(place(alloc))?;
    let command = command.arg(counter(alloc))?;
    command.arg(made_by(alloc))
}

fn call<'a>(alloc: Global) -> Arg<'a> {
    Arg::new(alloc, "call")
        .long("call")
        .action(ArgAction::SetTrue)
        .help("Begin, and don't wait for the other node to begin")
}

fn exchange<'a>(alloc: Global) -> Result<Command<'a>, AllocError> {
    let command = over_file(
        alloc,
        "exchange",
        "Exchange what differs with another node, over standard input and output",
    )?;
    command.arg(call(alloc))
}

fn host<'a>(alloc: Global) -> Arg<'a> {
    Arg::new(alloc, "host")
        .long("host")
        .value_name("HOST")
        .help("Write what this host sees, and not what the fleet shows")
}

fn tree<'a>(alloc: Global) -> Result<Command<'a>, AllocError> {
    let command = over_file(alloc, "tree", "Write the unit files into a folder")?;
    let command = command.arg(word(
        alloc,
        "DIR",
        "A folder that is empty, missing, or written by an earlier tree",
    ))?;
    command.arg(host(alloc))
}

// One more subcommand, if it was made.
fn with<'a>(
    command: Command<'a>,
    made: Result<Command<'a>, AllocError>,
) -> Result<Command<'a>, AllocError> {
    match made {
        Ok(more) => command.subcommand(more),
        Err(error) => Err(error),
    }
}

// All subcommands that take a file alone.
fn with_all_over_file<'a>(
    alloc: Global,
    mut command: Command<'a>,
) -> Result<Command<'a>, AllocError> {
    for (name, about) in OVER_FILE {
        command = with(command, over_file(alloc, name, about))?;
    }
    Ok(command)
}

/// The program's command line.
pub fn command<'a>(alloc: Global) -> Result<Command<'a>, AllocError> {
    let command = Command::new(alloc, "fleet_node")
        .about("Keep a fleet's unit files in the file of a node")
        .version("1.0")
        .subcommand_required(true)
        .arg_required_else_help(true);
    let command = with(command, init(alloc))?;
    let command = with_all_over_file(alloc, command)?;
    let command = with(command, exchange(alloc))?;
    let command = with(command, history(alloc))?;
    let command = with(command, content(alloc))?;
    with(command, tree(alloc))
}
