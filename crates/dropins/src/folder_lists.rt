//! The folders of names, and what a unit's folders give: its drop-ins, and the units that its link folders name.
ghost use Rattle.std.specs.{List.{Contains, Sorted.{IsStrictlySortedBy}}, Prelude.{[], filter, fold, IfOk, IsTrue, List, map, OnOk, ℕ, ◌↔◌, ◌∷◌, ◌≡◌}};
ghost use Rattle.load_places.specs.Places.{PlaceParts};
ghost use Rattle.path_maps.specs.HostViews.{host_view_of};
ghost use Rattle.unit_name.specs.Names.{is_name, IsName, Name, name_cmp};
ghost use Rattle.dropins.specs.{FolderLists.{folders, folders_of, with_name, with_prefix, with_template}, Listings.{IsKept}, Taken.{AreDropInsOf, AreLinksOf, ending, entry_name, entry_place, file_name, IsDropInAt, IsLinked, IsLinkedOf}};

use crate::dirs::{name_dirs, type_dirs};
use crate::precedence::{Search, taken_entries};
use plain_values::copied;
use replica_store::{HostView, HostViewEntry, Place, Store, Viewer};
use std::alloc::{AllocError, Global};
use std::collections::BTreeSet;
use std::marker::Model;
use std::slice::from_ref;
use unit_name::{NameFault, Shape, UnitName};

// Names in the order of their first occurrence, and the same names in a set.
#[derive(Drop)]
struct Listing {
    names: Vec<UnitName>,
    view: BTreeSet<UnitName>,
}

impl Listing {
    fn new(alloc: Global) -> Listing
        ensures nothing { result.names.items ≡ [] }
        ensures kept { IsKept result }
    {
        Listing {
            names: Vec::new(alloc),
            view: BTreeSet::new(alloc),
        }
    }

    // Adds a name unless it is already listed.
    fn add(&mut self, name: UnitName) -> Result<(), AllocError>
        requires kept { IsKept self.now }
        ensures added { OnOk result (self.new.names.items ≡ with_name self.old.names.items name) }
        ensures kept { OnOk result (IsKept self.new) }
    {
        if self.view.insert(name.try_clone()?)? {
            self.names.push(name)?;
        }
        Ok(())
    }

    // Adds a name, and for an instance its template.
    fn add_with_template(&mut self, name: UnitName) -> Result<(), AllocError>
        requires kept { IsKept self.now }
        ensures added { OnOk result (self.new.names.items ≡ fold with_name self.old.names.items
            (with_template name)) }
        ensures kept { OnOk result (IsKept self.new) }
    {
        let template = name.template_of()?;
        self.add(name)?;
        match template {
            Some(template) => self.add(template),
            None => Ok(()),
        }
    }

    // Adds the folders of one name.
    fn add_folders(&mut self, alloc: Global, name: &UnitName) -> Result<(), AllocError>
        requires kept { IsKept self.now }
        ensures added { OnOk result (self.new.names.items ≡ fold with_name self.old.names.items
            (folders_of name.now)) }
        ensures kept { OnOk result (IsKept self.new) }
    {
        self.add_with_template(name.try_clone()?)?;
        let prefix = name.prefix();
        let mut end = prefix.len();
        while end > 1 {
            end -= 1;
            if prefix[end - 1] == b'-' {
                self.add_with_template(cut_name(alloc, name, &prefix[..end])?)?;
            }
        }
        Ok(())
    }
}

/// Returns the names whose folders hold what is added to a unit with these names (systemd.unit(5), "Description"). For
/// each name these are the name, and its template if it is an instance; then the same for the name with its prefix cut
/// after each of its dashes, from the last dash to the first, if the cut is shorter than the prefix. A repeated name
/// keeps its first position. The folders of types aren't included.
///
/// There are at most two folders for each name and two for each dash in a prefix. Each is looked up in a set of those
/// before it, so the cost is O(n log n). Fails only if memory runs out.
pub fn folders(alloc: Global, names: &[UnitName]) -> Result<Vec<UnitName>, AllocError>
    ensures folders { IfOk result (λ all. all.items ≡ folders names.now) }
{
    if let Some((name, others)) = names.split_first() {
        if others.is_empty() && is_only_folder(name) {
            return copied(alloc, from_ref(name));
        }
    }
    let mut all = Listing::new(alloc);
    for name in names {
        all.add_folders(alloc, name)?;
    }
    Ok(all.names)
}

// Returns true only if a name is its own only folder, as most names are. For such a name no set is made.
fn is_only_folder(name: &UnitName) -> bool
    ensures only { IsTrue result → folders (name.now ∷ []) ≡ name.now ∷ [] }
{
    match name.shape() {
        Shape::Plain | Shape::Template => !name.prefix().contains(&b'-'),
        Shape::Instance => false,
    }
}

/// The folders of a unit, listed once for its drop-ins and its links. In contracts it is the list. The folders of types
/// aren't in it; they follow from the names.
pub struct UnitFolders {
    names: Vec<UnitName>,
}

impl Drop for UnitFolders {
    fn drop(self) {
        let UnitFolders { names: _ } = self;
    }
}

impl Model for UnitFolders {
    ghost use Rattle.std.specs.Prelude.{List};
    ghost use Rattle.unit_name.specs.Names.{Name};

    ghost Value = { List Name };

    ghost view = { λ folders. folders.names.items };
}

impl UnitFolders {
    /// Returns the folders of a unit with these names, as `folders` lists them. Fails only if memory runs out.
    pub fn of(alloc: Global, names: &[UnitName]) -> Result<UnitFolders, AllocError>
        ensures folders { IfOk result (λ all. all ≡ folders names.now) }
    {
        let names = folders(alloc, names)?;
        Ok(UnitFolders { names })
    }

    /// Returns the names of the folders, without an ending.
    pub fn names(&self) -> &[UnitName]
        ensures names { result.now ≡ self.now }
    {
        self.names.as_slice()
    }
}

// Returns the name with another prefix.
fn cut_name(alloc: Global, name: &UnitName, prefix: &[u8]) -> Result<UnitName, AllocError>
    requires well_formed { IsName (with_prefix name.now prefix.now) }
    ensures cut { IfOk result (λ cut. cut ≡ with_prefix name.now prefix.now) }
{
    let mut bytes = Vec::from_slice(alloc, prefix)?;
    bytes.extend_from_slice(&name.bytes()[name.prefix().len()..])?;
    match UnitName::parse(alloc, &bytes) {
        Ok(cut) => Ok(cut),
        Err(fault) => {
            prove!(matches!(&fault, NameFault::Memory));
            Err(AllocError)
        }
    }
}

/// The folders whose links add dependencies (systemd.unit(5), "Description").
#[derive(Clone, Copy, Debug, PartialEq, Eq)]
pub enum Folder {
    /// `NAME.wants`.
    Wants,
    /// `NAME.requires`.
    Requires,
}

impl Folder {
    // Returns what follows the unit's name in the folder's name.
    fn ending(self) -> &'static [u8]
        ensures ending { result.now ≡ ending self }
    {
        match self {
            Folder::Wants => b".wants",
            Folder::Requires => b".requires",
        }
    }
}

impl UnitFolders {
    /// Returns the names that the link folders of a unit with these folders give, in byte order (systemd.unit(5),
    /// "Description").
    ///
    /// Only links count, and a link gives its own file name. For each file name the link at the least level is taken,
    /// and at that level the one in the first folder of the list. If it points to `/dev/null`, or if the file name is
    /// no unit name, it gives nothing. Types have no link folders.
    ///
    /// Costs a search in the store for each folder at each level, and one sort by file name of the entries there. Fails
    /// only if memory runs out.
    pub fn links(
        &self,
        alloc: Global,
        view: &HostView,
        folder: Folder,
    ) -> Result<Vec<UnitName>, AllocError>
        ensures ascending { IfOk result (λ units. IsStrictlySortedBy name_cmp units.items) }
        ensures exact { IfOk result
            (λ units. (n : Name) → Contains units.items n ↔ IsLinkedOf view.now self.now folder n) }
    {
        let dirs = name_dirs(alloc, self.names(), folder.ending())?;
        let taken = taken_entries(alloc, view, Search::Links, &dirs, &[])?;
        unit_names(alloc, &taken)
    }
}

impl UnitFolders {
    /// Returns the links that give the names of `links`, in byte order of their file names (systemd.unit(5),
    /// "Description"), as the borrowed entries that are seen there.
    ///
    /// Costs a search in the store for each folder at each level, and one sort by file name of the entries there. Fails
    /// only if memory runs out. Copies no bytes of an entry.
    pub fn link_entries<'a>(
        &self,
        alloc: Global,
        view: &HostView<'a>,
        folder: Folder,
    ) -> Result<Vec<HostViewEntry<'a>>, AllocError>
        ensures ascending { IfOk result
            (λ links. IsStrictlySortedBy name_cmp (map entry_name links.items)) }
        ensures exact { IfOk result (λ links. AreLinksOf view.now self.now folder links.items) }
    {
        let dirs = name_dirs(alloc, self.names(), folder.ending())?;
        let taken = taken_entries(alloc, view, Search::Links, &dirs, &[])?;
        named_like_units(alloc, taken)
    }
}

/// Returns the names that the link folders of a unit with these names give, in byte order, as a host sees them or as
/// they are seen without a host.
///
/// Lists the folders, and then does the same as `UnitFolders::links`.
pub fn links(
    alloc: Global,
    store: &Store,
    viewer: &Viewer,
    names: &[UnitName],
    folder: Folder,
) -> Result<Vec<UnitName>, AllocError>
    ensures ascending { IfOk result (λ units. IsStrictlySortedBy name_cmp units.items) }
    ensures exact { IfOk result (λ units. (n : Name) → Contains units.items n
        ↔ IsLinked (host_view_of store.now viewer.now) names.now folder n) }
{
    let folders = UnitFolders::of(alloc, names)?;
    folders.links(alloc, &store.host_view(viewer), folder)
}

// Returns the file names that are unit names.
fn unit_names(alloc: Global, taken: &[HostViewEntry]) -> Result<Vec<UnitName>, AllocError>
    ensures names { IfOk result (λ units. units.items ≡ filter is_name (map entry_name taken.now)) }
{
    let mut units = Vec::new(alloc);
    for placed in taken {
        match UnitName::parse(alloc, placed.name().as_slice()) {
            Ok(unit) => units.push(unit)?,
            Err(NameFault::Memory) => return Err(AllocError),
            Err(_) => {}
        }
    }
    Ok(units)
}

// Returns the entries whose file names are unit names.
fn named_like_units<'a>(
    alloc: Global,
    taken: Vec<HostViewEntry<'a>>,
) -> Result<Vec<HostViewEntry<'a>>, AllocError>
    ensures named { IfOk result
        (λ named. named.items ≡ filter (λ p. is_name (entry_name p)) taken.entry.items) }
{
    let mut named = Vec::new(alloc);
    for placed in taken {
        if is_unit_name(alloc, placed.name().as_slice())? {
            named.push(placed)?;
        }
    }
    Ok(named)
}

// Returns whether bytes are a unit name.
fn is_unit_name(alloc: Global, bytes: &[u8]) -> Result<bool, AllocError>
    ensures test { IfOk result (λ test. test ≡ is_name bytes.now) }
{
    match UnitName::parse(alloc, bytes) {
        Ok(_) => Ok(true),
        Err(NameFault::Memory) => Err(AllocError),
        Err(_) => Ok(false),
    }
}

impl UnitFolders {
    /// Returns the drop-ins of a unit with these folders, in byte order of their file names (systemd.unit(5),
    /// "Description"), as the borrowed entries that are seen there.
    ///
    /// A drop-in is a file in one of the folders `NAME.d` or `TYPE.d` whose name ends in `.conf` and is longer than
    /// that; the type of a name is what follows its last dot, such as `service`. For each file name, the folders of
    /// names come first: there the file at the least level is taken, and at that level the one in the first folder of
    /// the list. If they have none, the file at the least level in the folders of types is taken. If the file that is
    /// taken is empty, or is a link to `/dev/null`, there is no drop-in with this file name. Other links don't count.
    ///
    /// Costs a search in the store for each folder at each level, and one sort by file name of the entries there. Fails
    /// only if memory runs out. Copies no bytes of an entry.
    pub fn drop_ins<'a>(
        &self,
        alloc: Global,
        view: &HostView<'a>,
    ) -> Result<Vec<HostViewEntry<'a>>, AllocError>
        ensures ascending { IfOk result
            (λ taken. IsStrictlySortedBy name_cmp (map entry_name taken.items)) }
        ensures exact { IfOk result (λ taken. AreDropInsOf view.now self.now taken.items) }
    {
        let names = name_dirs(alloc, self.names(), b".d")?;
        let types = type_dirs(alloc, self.names(), b".d")?;
        taken_entries(alloc, view, Search::DropIns, &names, &types)
    }
}

/// Returns the places of the drop-ins of a unit with these names, in byte order of their file names, as a host sees
/// them or as they are seen without a host. They come from the folders of the names and of their types.
///
/// Lists the folders, and then does the same as `UnitFolders::drop_ins`.
pub fn order(
    alloc: Global,
    store: &Store,
    viewer: &Viewer,
    names: &[UnitName],
) -> Result<Vec<Place>, AllocError>
    ensures ascending { IfOk result
        (λ places. IsStrictlySortedBy name_cmp (map file_name places.items)) }
    ensures exact { IfOk result (λ places. (p : PlaceParts) → Contains places.items p ↔ IsDropInAt
        (host_view_of store.now viewer.now) names.now p) }
{
    let folders = UnitFolders::of(alloc, names)?;
    let view = store.host_view(viewer);
    let taken = folders.drop_ins(alloc, &view)?;
    places_of(alloc, &view, &taken)
}

/// Returns the places of entries that are seen, in the same order. Fails only if memory runs out. Copies no bytes.
pub fn places_of(
    alloc: Global,
    view: &HostView,
    entries: &[HostViewEntry],
) -> Result<Vec<Place>, AllocError>
    ensures places { IfOk result (λ places. places.items ≡ map (entry_place view.now) entries.now) }
{
    let mut places = Vec::new(alloc);
    for placed in entries {
        places.push(view.place(placed)?)?;
    }
    Ok(places)
}
