//! What the words ask for.
ghost use Rattle.std.specs.Prelude.{◌≡◌, IfSome};
ghost use Rattle.clap.specs.Words.{found_of};
ghost use Rattle.fleet_node.specs.Requests.{Asks, AsksOver};

use clap::ArgMatches;

/// What the words ask for.
#[derive(Clone, Copy, Debug)]
pub enum FileRequest<'a> {
    /// Make the file of a node for this writer.
    Init { file: &'a str, writer: u32 },
    /// Compact the file.
    Compact { file: &'a str },
    /// Open the file, and do something over it.
    Over { file: &'a str, asked: Asked<'a> },
}

/// What is asked for over an open file.
#[derive(Clone, Copy, Debug)]
pub enum Asked<'a> {
    /// Answer the script on standard input, in which the node is `here`.
    Run,
    /// Write the digest.
    Digest,
    /// Write the store.
    Store,
    /// Write the identity.
    Id,
    /// Read a digest, and write what its owner lacks.
    Delta,
    /// Read a piece, and commit it.
    Take,
    /// Exchange what differs with another node: begin, or let it begin.
    Exchange {
        calls: bool,
    },
    /// Write the history of a place.
    History {
        place: &'a str,
    },
    /// Write the whole log.
    Log,
    /// Write the node itself, and those that it knows.
    Peers,
    /// Write the bytes that an edit of a place put.
    Content {
        place: &'a str,
        counter: u64,
        writer: u32,
    },
    /// Write the unit files into a folder: those that a host sees, or the fleet's.
    Tree {
        folder: &'a str,
        host: Option<&'a str>,
    },
}

// What a subcommand and its words ask for over an open file.
fn asked_of<'a>(name: &str, words: &ArgMatches<'a>) -> Option<Asked<'a>>
    ensures asked { IfSome result (AsksOver name.now (found_of words.now)) }
{
    match name {
        "run" => Some(Asked::Run),
        "digest" => Some(Asked::Digest),
        "store" => Some(Asked::Store),
        "id" => Some(Asked::Id),
        "delta" => Some(Asked::Delta),
        "take" => Some(Asked::Take),
        "exchange" => Some(Asked::Exchange {
            calls: words.get_flag("call"),
        }),
        "history" => Some(Asked::History {
            place: words.get_str("PLACE")?,
        }),
        "log" => Some(Asked::Log),
        "peers" => Some(Asked::Peers),
        "content" => Some(Asked::Content {
            place: words.get_str("PLACE")?,
            counter: words.get_one::<u64>("COUNTER")?,
            writer: words.get_one::<u32>("WRITER")?,
        }),
        "tree" => Some(Asked::Tree {
            folder: words.get_str("DIR")?,
            host: words.get_str("host"),
        }),
        _ => None,
    }
}

// What a subcommand and its words ask for.
fn request_of<'a>(name: &str, words: &ArgMatches<'a>) -> Option<FileRequest<'a>>
    ensures asked { IfSome result (Asks name.now (found_of words.now)) }
{
    let file = words.get_str("FILE")?;
    match name {
        "init" => Some(FileRequest::Init {
            file,
            writer: words.get_one::<u32>("WRITER")?,
        }),
        "compact" => Some(FileRequest::Compact { file }),
        _ => Some(FileRequest::Over {
            file,
            asked: asked_of(name, words)?,
        }),
    }
}

/// What the words ask for. None if they name no subcommand, which the parser refuses before.
pub fn request_in<'a>(matches: &ArgMatches<'a>) -> Option<FileRequest<'a>> {
    let (name, words) = matches.subcommand()?;
    request_of(name, words)
}
