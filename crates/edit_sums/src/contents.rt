//! Contents: what a place holds.
ghost use Rattle.std.specs.{Prelude.{◌≡◌, ◌≤◌, ◌⊎◌, length, Err, IsErr, IfOk}, List.{list_all}};
ghost use Rattle.edit_sums.specs.Limits.{is_target, is_graphic};

use plain_values::{Key, SharedBytes, TryClone, same};
use std::alloc::AllocError;
use std::cmp::Ordering;
use std::marker::Model;
use thiserror::Error;

/// The most bytes of a file.
pub const FILE_LIMIT: usize = 65_536;

/// The most bytes of a link's target.
pub const TARGET_LIMIT: usize = 4_095;

/// Why bytes can't become a content.
#[derive(Clone, Copy, Debug, PartialEq, Eq, Error)]
pub enum ContentFault {
    /// C1: a file of more than 65,536 bytes.
    #[error("C1 FileTooLarge")]
    FileTooLarge,
    /// C2: a target that is empty, has more than 4,095 bytes, or has a byte outside 33 to 126.
    #[error("C2 BadLink")]
    BadLink,
    /// Memory ran out.
    #[error("out of memory")]
    Memory,
}

/// The bytes of a file: at most 65,536.
#[derive(Debug)]
pub struct FileBytes {
    inner: SharedBytes,
}

impl Drop for FileBytes {
    fn drop(self) {
        let FileBytes { inner: _ } = self;
    }
}

impl Model for FileBytes {
    ghost use Rattle.std.specs.Prelude.{List, ℕ, IsTrue};
    ghost use Rattle.edit_sums.specs.Limits.{is_file};

    ghost Value = { List ℕ };

    ghost view = { λ b. b.inner };

    ghost invariant = { λ b. IsTrue (is_file b.inner) };

    ghost inverse = { λ v. record { inner = v } };
}

impl FileBytes {
    /// Borrows the bytes. Allocates nothing.
    pub fn bytes(&self) -> &[u8]
        ensures bytes { result.now ≡ self.now }
        ensures within { length result.now ≤ FILE_LIMIT }
    {
        self.inner.as_slice()
    }

    fn try_clone(&self) -> Result<FileBytes, AllocError>
        ensures copy { IfOk result (λ copy. copy ≡ self.now) }
    {
        Ok(FileBytes {
            inner: self.inner.try_clone()?,
        })
    }
}

/// The target of a link: 1 to 4,095 bytes, each from 33 to 126.
#[derive(Debug)]
pub struct LinkTarget {
    target: SharedBytes,
}

impl Drop for LinkTarget {
    fn drop(self) {
        let LinkTarget { target: _ } = self;
    }
}

impl Model for LinkTarget {
    ghost use Rattle.std.specs.Prelude.{List, ℕ, IsTrue};
    ghost use Rattle.edit_sums.specs.Limits.{is_target};

    ghost Value = { List ℕ };

    ghost view = { λ t. t.target };

    ghost invariant = { λ t. IsTrue (is_target t.target) };

    ghost inverse = { λ v. record { target = v } };
}

impl LinkTarget {
    ghost use Rattle.std.specs.Prelude.{IsTrue};
    ghost use Rattle.edit_sums.specs.Limits.{is_target};

    /// Borrows the bytes. Allocates nothing.
    pub fn bytes(&self) -> &[u8]
        ensures bytes { result.now ≡ self.now }
        ensures well_formed { IsTrue (is_target result.now) }
    {
        self.target.as_slice()
    }

    fn try_clone(&self) -> Result<LinkTarget, AllocError>
        ensures copy { IfOk result (λ copy. copy ≡ self.now) }
    {
        Ok(LinkTarget {
            target: self.target.try_clone()?,
        })
    }
}

/// What an edit writes at a place: a removal (tombstone), a symbolic link or a file.
///
/// Removals come before links, links before files; two contents of the same kind are ordered by their bytes. This order
/// decides between edits that have the same version.
#[derive(Debug)]
pub enum Content {
    /// A tombstone: the file or link that was here is removed.
    Gone,
    /// A symbolic link.
    Link(LinkTarget),
    /// A regular file.
    File(FileBytes),
}

impl Drop for Content {
    fn drop(self) {
        match self {
            Content::Gone => (),
            Content::Link(_) => (),
            Content::File(_) => (),
        }
    }
}

// Returns whether bytes are a valid target of a link.
fn is_well_formed_target(target: &[u8]) -> bool
    ensures well_formed { result ≡ is_target target.now }
{
    !target.is_empty() && target.len() <= TARGET_LIMIT && all_graphic(target)
}

fn all_graphic(bytes: &[u8]) -> bool
    ensures graphic { result ≡ list_all is_graphic bytes.now }
{
    bytes.iter().all(|b| is_printable(*b))
}

fn is_printable(b: u8) -> bool
    ensures printable { result ≡ is_graphic b }
{
    (33..=126).contains(&b)
}

impl Content {
    ghost use Rattle.edit_sums.specs.{Contents.{file_of, link_of, sort_of, bytes_of}, declared.contents.Content.TheVariants.{Gone}};

    /// Makes a file of these bytes, or returns `FileTooLarge`. More than 30 bytes are moved, not copied. `Memory` if
    /// memory runs out, which happens only for a valid length.
    pub fn file(bytes: Vec<u8>) -> Result<Content, ContentFault>
        ensures made { (result ≡ Err ContentFault.Memory) ⊎ (result ≡ file_of bytes.items) }
        ensures faults { IsErr (file_of bytes.items) → result ≡ file_of bytes.items }
    {
        if bytes.len() > FILE_LIMIT {
            return Err(ContentFault::FileTooLarge);
        }
        match SharedBytes::from_vec(bytes) {
            Ok(inner) => Ok(Content::File(FileBytes { inner })),
            Err(_) => Err(ContentFault::Memory),
        }
    }

    /// Makes a symbolic link to this target, or returns `BadLink`. A target of more than 30 bytes is moved, not copied.
    /// `Memory` if memory runs out, which happens only for a valid target.
    pub fn link(target: Vec<u8>) -> Result<Content, ContentFault>
        ensures made { (result ≡ Err ContentFault.Memory) ⊎ (result ≡ link_of target.items) }
        ensures faults { IsErr (link_of target.items) → result ≡ link_of target.items }
    {
        if !is_well_formed_target(&target) {
            return Err(ContentFault::BadLink);
        }
        match SharedBytes::from_vec(target) {
            Ok(target) => Ok(Content::Link(LinkTarget { target })),
            Err(_) => Err(ContentFault::Memory),
        }
    }

    /// Returns a removal.
    pub fn gone() -> Content
        ensures made { result ≡ Gone }
    {
        Content::Gone
    }

    // The rank of its kind in the order: removal, link, file.
    fn sort(&self) -> u8
        ensures sort { result ≡ sort_of self.now }
    {
        match self {
            Content::Gone => 0,
            Content::Link(_) => 1,
            Content::File(_) => 2,
        }
    }

    // Its bytes; a removal has none.
    fn bytes(&self) -> &[u8]
        ensures bytes { result.now ≡ bytes_of self.now }
    {
        match self {
            Content::Gone => &[],
            Content::Link(target) => target.bytes(),
            Content::File(file) => file.bytes(),
        }
    }
    /// Returns an equal content that shares its bytes. Fails only if memory runs out.
    pub fn try_clone(&self) -> Result<Content, AllocError>
        ensures copy { IfOk result (λ copy. copy ≡ self.now) }
    {
        match self {
            Content::Gone => Ok(Content::Gone),
            Content::Link(target) => Ok(Content::Link(target.try_clone()?)),
            Content::File(file) => Ok(Content::File(file.try_clone()?)),
        }
    }
}

impl PartialEq for Content {
    ghost use Rattle.std.specs.{Ordering.{eq_by_cmp}, Cmp.{eq_by_cmp_equiv, partial_equiv_from_equiv}};
    ghost use Rattle.edit_sums.specs.{Contents.{content_cmp}, ContentLaws.{content_cmp_total}};

    ghost eq = { eq_by_cmp content_cmp };

    ghost laws = { partial_equiv_from_equiv (eq_by_cmp_equiv content_cmp_total) };

    fn eq(&self, other: &Self) -> bool {
        self.sort() == other.sort() && same(self.bytes(), other.bytes())
    }
}

impl Eq for Content {
    ghost use Rattle.std.specs.Cmp.{eq_by_cmp_equiv};
    ghost use Rattle.edit_sums.specs.ContentLaws.{content_cmp_total};

    ghost laws = { eq_by_cmp_equiv content_cmp_total };
}

impl PartialOrd for Content {
    ghost use Rattle.std.specs.{Ordering.{as_partial_cmp}, Cmp.{partial_order_from_total}};
    ghost use Rattle.edit_sums.specs.{Contents.{content_cmp}, ContentLaws.{content_cmp_total}};

    ghost partial_cmp = { as_partial_cmp content_cmp };

    ghost laws = { partial_order_from_total content_cmp_total };

    fn partial_cmp(&self, other: &Self) -> Option<Ordering> {
        Some(self.cmp(other))
    }
}

impl Ord for Content {
    ghost use Rattle.std.specs.Prelude.{refl};
    ghost use Rattle.edit_sums.specs.{Contents.{content_cmp}, ContentLaws.{content_cmp_total}};

    ghost cmp = { content_cmp };

    ghost total = { content_cmp_total };

    ghost matches_partial_cmp = { λ x y. refl };

    ghost matches_eq = { λ x y. refl };

    fn cmp(&self, other: &Self) -> Ordering {
        self.sort()
            .cmp(&other.sort())
            .then(self.bytes().cmp(&other.bytes()))
    }
}

impl TryClone for Content {
    fn try_clone(&self) -> Result<Content, AllocError> {
        Content::try_clone(self)
    }
}

impl Key for Content {
    ghost use Rattle.edit_sums.specs.ContentLaws.{content_cmp-IsAntisymmetric};

    ghost exact = { content_cmp-IsAntisymmetric };
}
