//! Places and entries, appended to bytes. Where memory runs out, part of one may be there.
ghost use Rattle.std.specs.Prelude.{◌++◌, ◌≡◌, OnOk};
ghost use Rattle.load_path.specs.Paths.{IsPath};
ghost use Rattle.load_places.specs.Texts.{IsScope};
ghost use Rattle.store_bytes.specs.Spelling.{content, entry, IsContent, IsEntry, IsPlace, IsVersion, path, place, scope, version};

use byte_fields::{put_long_string, put_number, put_short_string};
use edit_sums::{Content, Entry};
use join_law::Version;
use load_path::Path;
use load_places::{Place, Scope};
use std::alloc::AllocError;

// Appends a path.
pub(crate) fn put_path(out: &mut Vec<u8>, p: &Path) -> Result<(), AllocError>
    ensures written { OnOk result (out.new.items ≡ out.old.items ++ path p.now) }
    ensures fits { OnOk result (IsPath p.now) }
{
    out.push(p.rank())?;
    put_short_string(out, p.folder())?;
    put_short_string(out, p.name())
}

// Appends a scope: an empty host's name for the fleet.
pub(crate) fn put_scope(out: &mut Vec<u8>, s: &Scope) -> Result<(), AllocError>
    ensures written { OnOk result (out.new.items ≡ out.old.items ++ scope s.now) }
    ensures fits { OnOk result (IsScope s.now) }
{
    match s {
        Scope::Fleet => put_short_string(out, &[]),
        Scope::Host(host) => put_short_string(out, host.bytes()),
    }
}

/// Appends a place. Fails only if memory runs out; part of it may then be there.
pub fn put_place(out: &mut Vec<u8>, p: &Place) -> Result<(), AllocError>
    ensures written { OnOk result (out.new.items ≡ out.old.items ++ place p.now) }
    ensures fits { OnOk result (IsPlace p.now) }
{
    put_scope(out, &p.scope)?;
    put_path(out, &p.path)
}

// Appends a version.
pub(crate) fn put_version(out: &mut Vec<u8>, v: Version) -> Result<(), AllocError>
    ensures written { OnOk result (out.new.items ≡ out.old.items ++ version v) }
    ensures fits { IsVersion v }
{
    put_number(out, v.counter)?;
    put_number(out, v.writer as u64)
}

// Appends a content.
fn put_content(out: &mut Vec<u8>, c: &Content) -> Result<(), AllocError>
    ensures written { OnOk result (out.new.items ≡ out.old.items ++ content c.now) }
    ensures fits { OnOk result (IsContent c.now) }
{
    match c {
        Content::Gone => {
            out.push(0)?;
            Ok(())
        }
        Content::Link(target) => {
            out.push(1)?;
            put_long_string(out, target.bytes())
        }
        Content::File(file) => {
            out.push(2)?;
            put_long_string(out, file.bytes())
        }
    }
}

// Appends an entry.
pub(crate) fn put_entry(out: &mut Vec<u8>, x: &Entry) -> Result<(), AllocError>
    ensures written { OnOk result (out.new.items ≡ out.old.items ++ entry x.now) }
    ensures fits { OnOk result (IsEntry x.now) }
{
    put_version(out, x.version)?;
    put_content(out, &x.content)
}
