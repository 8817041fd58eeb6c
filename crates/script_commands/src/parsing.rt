//! Parsing a line into a command.
ghost use Rattle.std.specs.{Prelude.{◌≡◌}, Str.{bytes_eq}};
ghost use Rattle.script_words.specs.Words.{words_of, text_after};
ghost use Rattle.script_commands.specs.Commands.{asking_this, change_of, command_of, exchange_of, part_command, question_of, unit_question_of, with_node};

use crate::commands::{Command, Inquiry, LineRefusal};
use crate::fields::Fields;

/// Returns the command of a line, or why it isn't one. Linear in the line. Allocates nothing.
pub fn parse(line: &[u8]) -> Result<Command<'_>, LineRefusal>
    ensures command { result ≡ command_of line.now }
{
    let mut fields = Fields::new(line);
    let Ok(verb) = fields.word() else {
        return Err(LineRefusal::UnknownCommand);
    };
    change(verb.as_slice(), fields)
}

// Returns the command that this word begins.
fn change<'a>(verb: &[u8], mut fields: Fields<'a>) -> Result<Command<'a>, LineRefusal>
    ensures command { result ≡ change_of verb.now (words_of fields.entry)
        (text_after 2 fields.entry) }
{
    if is_same(verb, b"node") {
        Ok(Command::Node {
            name: fields.name()?,
            writer: fields.last_number()?,
        })
    } else if is_same(verb, b"put") {
        Ok(Command::Put {
            node: fields.name()?,
            place: fields.word()?,
            text: fields.text(),
        })
    } else if is_same(verb, b"link") {
        Ok(Command::Link {
            node: fields.name()?,
            place: fields.word()?,
            target: fields.last_word()?,
        })
    } else if is_same(verb, b"remove") {
        Ok(Command::Remove {
            node: fields.name()?,
            place: fields.last_word()?,
        })
    } else {
        exchange(verb, fields)
    }
}

// Returns the command that this word begins, if it isn't about one node alone, or changes none.
fn exchange<'a>(verb: &[u8], mut fields: Fields<'a>) -> Result<Command<'a>, LineRefusal>
    ensures command { result ≡ exchange_of verb.now (words_of fields.entry) }
{
    if is_same(verb, b"merge") {
        Ok(Command::Merge {
            from: fields.name()?,
            to: fields.last_name()?,
        })
    } else if is_same(verb, b"part") {
        part(fields)
    } else if is_same(verb, b"send") {
        Ok(Command::Send {
            piece: fields.name()?,
            node: fields.last_name()?,
        })
    } else if is_same(verb, b"sweep") {
        fields.end()?;
        Ok(Command::Sweep)
    } else {
        question(verb, fields)
    }
}

// Returns the command `part` with these fields.
fn part(mut fields: Fields<'_>) -> Result<Command<'_>, LineRefusal>
    ensures command { result ≡ part_command (words_of fields.entry) }
{
    Ok(Command::Part {
        piece: fields.name()?,
        from: fields.name()?,
        to: fields.name()?,
        places: fields.rest(),
    })
}

// Returns the command that this word begins, if it changes no node.
fn question<'a>(verb: &[u8], mut fields: Fields<'a>) -> Result<Command<'a>, LineRefusal>
    ensures command { result ≡ question_of verb.now (words_of fields.entry) }
{
    if is_same(verb, b"files") {
        Ok(Command::Files {
            node: fields.last_name()?,
        })
    } else if is_same(verb, b"text") {
        Ok(Command::Text {
            node: fields.name()?,
            place: fields.last_word()?,
        })
    } else if is_same(verb, b"workers") {
        Ok(Command::Workers {
            count: fields.last_number()?,
        })
    } else if is_same(verb, b"profile") {
        Ok(Command::Profile {
            profile: fields.last_profile()?,
        })
    } else if is_same(verb, b"same") {
        Ok(Command::Same {
            left: fields.name()?,
            right: fields.last_name()?,
        })
    } else if is_same(verb, b"crowd") {
        Ok(Command::Crowd {
            node: fields.name()?,
            seats: fields.number()?,
            edits: fields.last_edit_count()?,
        })
    } else {
        unit_question(verb, fields)
    }
}

// Returns the command that this word begins, if it asks for units of a node.
fn unit_question<'a>(verb: &[u8], mut fields: Fields<'a>) -> Result<Command<'a>, LineRefusal>
    ensures command { result ≡ unit_question_of verb.now (words_of fields.entry) }
{
    if is_same(verb, b"cat") {
        let (node, host) = fields.node_and_host()?;
        let unit = fields.last_word()?;
        Ok(Command::Cat { node, host, unit })
    } else if is_same(verb, b"show") {
        let (node, host) = fields.node_and_host()?;
        let inquiry = Inquiry::Unit(fields.last_word()?);
        Ok(Command::Ask {
            node,
            host,
            inquiry,
        })
    } else if is_same(verb, b"list") {
        let (node, host) = fields.node_and_host()?;
        let inquiry = Inquiry::List(fields.last_word()?);
        Ok(Command::Ask {
            node,
            host,
            inquiry,
        })
    } else if is_same(verb, b"plan") {
        let (node, host) = fields.node_and_host()?;
        let inquiry = Inquiry::Plan(fields.word()?, fields.rest());
        Ok(Command::Ask {
            node,
            host,
            inquiry,
        })
    } else if is_same(verb, b"units") {
        whole_node(fields, Inquiry::Units)
    } else if is_same(verb, b"tree") {
        whole_node(fields, Inquiry::Tree)
    } else {
        Err(LineRefusal::UnknownCommand)
    }
}

// Returns the command that asks this of a node, which is its only field.
fn whole_node<'a>(mut fields: Fields<'a>, inquiry: Inquiry<'a>) -> Result<Command<'a>, LineRefusal>
    ensures command { result ≡ with_node (asking_this inquiry.entry) (words_of fields.entry) }
{
    let (node, host) = fields.node_and_host()?;
    fields.end()?;
    Ok(Command::Ask {
        node,
        host,
        inquiry,
    })
}

// Returns whether two words are equal.
fn is_same(word: &[u8], other: &[u8]) -> bool
    ensures same { result ≡ bytes_eq word.now other.now }
{
    word == other
}
