//! Calls on unit names, escapes and specifiers.
use crate::orders::append_signs;
use unit_name::{ExpandFault, NameFault, UnitName, escape, expand, unescape};
use worked_lines::{Answer, LineFault, Words, match_word};

/// Writes the answer to a call on names.
pub fn answer(words: &mut Words, out: &mut Answer) -> Result<(), LineFault> {
    let call = words.word()?;
    match_word!(call;
        b"order" => {
            append_signs(out, &words.spelled_names()?);
            Ok(())
        },
        b"parse" | b"escape" | b"unescape" => of_text(call, &words.text()?, out),
        _ => of_name(call, &words.name()?, words, out),
    )
}

// The answer to a call on a text.
fn of_text(call: &[u8], text: &[u8], out: &mut Answer) -> Result<(), LineFault> {
    match_word!(call;
        b"parse" => parse(text, out),
        b"escape" => {
            out.spell(&escape(out.alloc, text)?);
            Ok(())
        },
        _ => append_unescaped(out, text),
    )
}

// The answer to a call on a name.
fn of_name(
    call: &[u8],
    name: &UnitName,
    words: &mut Words,
    out: &mut Answer,
) -> Result<(), LineFault> {
    match_word!(call;
        b"parts" => {
            append_parts(out, name);
            Ok(())
        },
        b"template_of" => append_template(out, name),
        b"with_instance" => append_instance(out, name, &words.text()?),
        b"clone" => append_clone(out, name),
        b"expand" => append_expanded(out, name, &words.text()?),
    )
}

// The name that bytes are, or why they aren't one.
fn parse(text: &[u8], out: &mut Answer) -> Result<(), LineFault> {
    match UnitName::parse(out.alloc, text) {
        Ok(name) => out.spell(name.bytes()),
        Err(NameFault::Memory) => return Err(LineFault::Memory),
        Err(fault) => out.print(&fault),
    }
    Ok(())
}

// Writes the bytes of which a text is the escape, if it is one.
fn append_unescaped(out: &mut Answer, text: &[u8]) -> Result<(), LineFault> {
    let bytes = unescape(out.alloc, text)?;
    out.spell_found(bytes.as_deref());
    Ok(())
}

// Writes a name's kind and shape, whether it is a template, and its prefix and instance.
fn append_parts(out: &mut Answer, name: &UnitName) {
    let kind = name.kind();
    let shape = name.shape();
    out.write_made(format!(in out.alloc; "{kind:?} {shape:?} "));
    out.either(name.is_template(), b"template", b"name");
    out.spell_quoted(&[(b' ', name.prefix()), (b' ', name.instance())]);
}

// Writes the template of which a name is an instance, if it is one.
fn append_template(out: &mut Answer, name: &UnitName) -> Result<(), LineFault> {
    let template = name.template_of()?;
    out.spell_name(template.as_ref());
    Ok(())
}

// Writes a name with an instance, if there is one.
fn append_instance(out: &mut Answer, name: &UnitName, instance: &[u8]) -> Result<(), LineFault> {
    let made = name.with_instance(instance)?;
    out.spell_name(made.as_ref());
    Ok(())
}

// Writes a clone of a name, and whether it is the same.
fn append_clone(out: &mut Answer, name: &UnitName) -> Result<(), LineFault> {
    let copy = name.try_clone()?;
    out.spell(copy.bytes());
    out.either(copy == *name, b" same", b" other");
    Ok(())
}

// Writes a value with a name's specifiers expanded, or why it can't be expanded.
fn append_expanded(out: &mut Answer, name: &UnitName, value: &[u8]) -> Result<(), LineFault> {
    match expand(out.alloc, value, name) {
        Ok(bytes) => out.spell(&bytes),
        Err(ExpandFault::Memory) => return Err(LineFault::Memory),
        Err(fault) => out.print(&fault),
    }
    Ok(())
}
