//! Calls on the lines of scripts and their words.
use script_words::{
    cut_line, cut_word, is_name, is_passed_over, parse_number, text_of_rest, unescape,
};
use worked_lines::{Answer, LineFault, Words, match_word};

/// Writes the answer to a call on lines.
pub fn answer(words: &mut Words, out: &mut Answer) -> Result<(), LineFault> {
    let call = words.word()?;
    match_word!(call;
        b"text" => append_unescaped(out, &words.text()?),
        b"text_behind" => text_after(words, out),
        _ => of_text(call, &words.text()?, out),
    )
}

// The answer to a call on one text.
fn of_text(call: &[u8], text: &[u8], out: &mut Answer) -> Result<(), LineFault> {
    match_word!(call;
        b"lines" => lines(text, out),
        b"passed_over" => out.either(is_passed_over(text), b"yes", b"no"),
        b"words" => parts(text, out),
        b"number" => number(text, out),
        b"name" => out.either(is_name(text), b"yes", b"no"),
        _ => return Err(LineFault::Words),
    );
    Ok(())
}

// Writes the text that a word spells, if it spells one.
fn append_unescaped(out: &mut Answer, word: &[u8]) -> Result<(), LineFault> {
    let text = unescape(out.alloc, word)?;
    out.spell_found(text.as_deref());
    Ok(())
}

// The lines of a script.
fn lines(script: &[u8], out: &mut Answer) {
    let mut rest = script;
    while !rest.is_empty() {
        let (line, later) = cut_line(rest);
        out.part(b" ");
        out.spell(line);
        rest = later;
    }
}

// The words of a line.
fn parts(line: &[u8], out: &mut Answer) {
    let mut rest = line;
    while let Some((word, later)) = cut_word(rest) {
        out.part(b" ");
        out.spell(word);
        rest = later;
    }
    out.or(b"none");
}

// The text after some words of a line.
fn text_after(words: &mut Words, out: &mut Answer) -> Result<(), LineFault> {
    let count = words.number()?;
    let line = words.text()?;
    let mut rest = line.as_slice();
    for _ in 0..count {
        let (_word, later) = cut_word(rest).ok_or(LineFault::Words)?;
        rest = later;
    }
    out.spell(text_of_rest(rest));
    Ok(())
}

// The number that a word writes.
fn number(word: &[u8], out: &mut Answer) {
    match parse_number(word) {
        Some(number) => out.print(&number),
        None => out.write(b"none"),
    }
}
