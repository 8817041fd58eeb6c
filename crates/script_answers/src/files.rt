//! The answer to `cat`: the files of a unit.
ghost use Rattle.std.specs.{Prelude.{◌≡◌, ◌++◌, IfOk, OnOk}, Option.{option_copied}};
ghost use Rattle.edit_sums.specs.Sums.{shown};
ghost use Rattle.path_maps.specs.HostViews.{host_view_of};
ghost use Rattle.fragment_choice.specs.Resolutions.{main};
ghost use Rattle.script_commands.specs.Outcomes.{IsSaid};
ghost use Rattle.script_answers.specs.Files.{AreFiles, IsCat, IsFile, IsFileAt, RendersFiles, RendersFilesOf, entry_lines, file_bytes, borrowed_text};

use dropins::UnitFolders;
use edit_sums::Content;
use fragment_choice::{Choice, Resolution, names_of, resolve};
use place_texts::append_file;
use profiles::Profile;
use replica_store::{HostView, HostViewEntry, Place, Store, Viewer};
use script_commands::{Fault, LineRefusal, Word, read_host};
use std::alloc::{AllocError, Global};
use unit_name::UnitName;

// The bytes of a content that is a file.
fn bytes_of<'a>(content: Option<&'a Content>) -> &'a [u8]
    requires file { IsFile (option_copied content) }
    ensures bytes { result.now ≡ file_bytes (option_copied content.entry) }
{
    match content {
        Some(Content::File(file)) => file.bytes(),
        _ => unreachable!(),
    }
}

// Appends an entry that is a file.
fn append_entry(
    out: &mut Vec<u8>,
    view: &HostView,
    placed: &HostViewEntry,
) -> Result<(), AllocError>
    requires file { IsFile (shown placed.now.1) }
    ensures appended { OnOk result
        (out.new.items ≡ out.old.items ++ entry_lines view.now placed.now) }
{
    append_file(out, &view.place(placed)?, bytes_of(placed.visible()))
}

// The files of a unit: its fragment, and then its drop-ins. Costs time linear in what is written, and one search in the
// store for the fragment.
fn files_text(
    alloc: Global,
    view: &HostView,
    fragment: &Place,
    dropins: &[HostViewEntry],
) -> Result<Vec<u8>, AllocError>
    requires file { IsFileAt view.now fragment.now }
    requires files { AreFiles dropins.now }
    ensures lines { IfOk result
        (λ text. text.items ≡ borrowed_text view.now fragment.now dropins.now) }
{
    let mut out = Vec::new(alloc);
    append_file(&mut out, fragment, bytes_of(view.visible(fragment)))?;
    for placed in dropins {
        append_entry(&mut out, view, placed)?;
    }
    out.extend_from_slice(b"end\n")?;
    Ok(out)
}

// The files of the unit with this main name, whose fragment is at this place.
fn files_of_unit(
    alloc: Global,
    store: &Store,
    viewer: &Viewer,
    unit: &UnitName,
    fragment: &Place,
) -> Result<Vec<u8>, AllocError>
    requires main { main (host_view_of store.now viewer.now) unit.now ≡ unit.now }
    requires file { IsFileAt (host_view_of store.now viewer.now) fragment.now }
    ensures files { IfOk result
        (λ text. IsCat (host_view_of store.now viewer.now) unit.now fragment.now text.items) }
{
    let names = names_of(alloc, store, viewer, unit)?;
    let folders = UnitFolders::of(alloc, &names)?;
    let view = store.host_view(viewer);
    let dropins = folders.drop_ins(alloc, &view)?;
    files_text(alloc, &view, fragment, &dropins)
}

/// Answers with the files of the unit that a word names, as the host that another word names sees them: its fragment,
/// and then its drop-ins. Refuses, in this order, a word that names no host; a word that is no unit name; and a unit
/// that isn't found, is masked or is bad, for which the refusal has the main name.
///
/// Loads only this unit. Linear in what is written, apart from the search for the unit's names.
pub fn render_files(
    alloc: Global,
    store: &Store,
    host: Option<Word<'_>>,
    unit: &[u8],
) -> Result<Vec<u8>, Fault>
    ensures rendered { IsSaid (λ text. text.items) result
        (RendersFiles host.entry unit.now store.now) }
{
    let host = read_host(alloc, host)?;
    let viewer = Viewer {
        host,
        profile: Profile::Files,
    };
    render_files_for(alloc, store, &viewer, unit)
}

// Answers with the files of a unit as a host sees them, or as they are seen without a host.
fn render_files_for(
    alloc: Global,
    store: &Store,
    viewer: &Viewer,
    unit: &[u8],
) -> Result<Vec<u8>, Fault>
    ensures rendered { IsSaid (λ text. text.items) result
        (RendersFilesOf unit.now (host_view_of store.now viewer.now)) }
{
    let name = match UnitName::parse(alloc, unit) {
        Ok(name) => name,
        Err(fault) => return Err(Fault::from(fault)),
    };
    let Resolution { main, choice } = resolve(alloc, store, viewer, &name)?;
    match choice {
        Choice::NotFound => Err(Fault::Refused(LineRefusal::NotFound(main))),
        Choice::Masked => Err(Fault::Refused(LineRefusal::Masked(main))),
        Choice::Fragment(place) => Ok(files_of_unit(alloc, store, viewer, &main, &place)?),
        Choice::Alias(_) => unreachable!(),
        Choice::Bad(_) => Err(Fault::Refused(LineRefusal::Bad(main))),
    }
}
