//! What the workers of a crowd write, and where.
ghost use Rattle.std.specs.Prelude.{◌≡◌, ◌<◌, IfOk};
ghost use Rattle.edit_sums.specs.declared.contents.Content.TheVariants.{File};
ghost use Rattle.crowds.specs.Crowds.{crowd_path, crowd_place, crowd_text};

use edit_sums::Content;
use load_path::Path;
use load_places::{Place, Scope};
use std::alloc::{AllocError, Global};

// The place of a worker's own file, which is for the whole fleet.
pub fn place_of(alloc: Global, worker: usize) -> Result<Place, AllocError>
    ensures place { IfOk result (λ place. place ≡ crowd_place worker) }
{
    Ok(Place {
        scope: Scope::Fleet,
        path: path_of(alloc, worker)?,
    })
}

// The path of a worker's own file.
fn path_of(alloc: Global, worker: usize) -> Result<Path, AllocError>
    ensures path { IfOk result (λ path. path ≡ crowd_path worker) }
{
    let text = format!(in alloc; "/etc/systemd/system/crowd-{worker}.service")?;
    match Path::parse(alloc, text.as_bytes()) {
        Ok(path) => Ok(path),
        Err(_) => Err(AllocError),
    }
}

// What a worker writes in its edit with this number.
pub fn file_of(alloc: Global, worker: usize, number: u64) -> Result<Content, AllocError>
    ensures file { IfOk result (λ content. content ≡ File (crowd_text worker number)) }
{
    let text = format!(in alloc; "[Unit]\nDescription={worker} {number}\n")?;
    match Content::file(text.into_bytes()) {
        Ok(content) => Ok(content),
        Err(_) => Err(AllocError),
    }
}
