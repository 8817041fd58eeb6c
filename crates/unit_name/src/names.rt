//! Unit names.
ghost use Rattle.std.specs.{Prelude.{◌≡◌, ◌↔◌, IsTrue, IfOk, IfErr, OnOk, OnErr, Ok, Some, IsSome, is_some}, List.{list_all}};
ghost use Rattle.unit_name.specs.Names.{name_of, IsName, IsFaultOf, is_name_byte, kind, shape, prefix, instance};
ghost use Rattle.unit_name.specs.Forms.{template_of, with_instance, instance_name, is_instance};

use crate::kinds::Kind;
use crate::parts::{bad_place, instance_of, is_name_byte, kind_in, prefix_of, stem_of, suffix_of};
use plain_values::{Bytes, Key, TryClone};
use std::alloc::{AllocError, Global};
use std::cmp::Ordering;
use std::marker::Model;
use thiserror::Error;

/// The most bytes in a name.
const LONGEST: usize = 255;

/// Whether and how a name's stem continues after its first at sign (systemd.unit(5), "Description").
#[derive(Clone, Copy, Debug, PartialEq, Eq)]
pub enum Shape {
    /// There is no at sign.
    Plain,
    /// Nothing follows the at sign.
    Template,
    /// An instance follows the at sign.
    Instance,
}

/// Why bytes aren't a name. The first fault that applies is returned, in the order below; `Memory` only for a valid
/// name.
#[derive(Clone, Copy, Debug, PartialEq, Eq, Error)]
pub enum NameFault {
    #[error("N1 Length: a name has 1 to 255 bytes")]
    Length,
    #[error("N2 Kind: a name ends in a dot and a kind of unit")]
    Kind,
    #[error("N3 EmptyPrefix: nothing stands before the at sign or the last dot")]
    EmptyPrefix,
    /// The index of the first byte before the last dot that isn't an ASCII letter or digit, `:`, `-`, `_`, `.`, `\` or
    /// `@`.
    #[error("N4 BadByte: byte {0} is none of a name")]
    BadByte(usize),
    #[error("out of memory")]
    Memory,
}

/// A name of 1 to 255 bytes: a stem, a dot and the suffix of a kind (systemd.unit(5), "Description"). Names are ordered
/// by bytes; a proper prefix of a name is less. Methods that inspect a name are linear in its bytes and allocate
/// nothing.
#[derive(Debug, PartialEq, Eq, PartialOrd)]
pub struct UnitName {
    bytes: Bytes,
}

impl Drop for UnitName {
    fn drop(self) {
        let UnitName { bytes: _ } = self;
    }
}

impl Model for UnitName {
    ghost use Rattle.std.specs.Prelude.{List, ℕ};
    ghost use Rattle.unit_name.specs.Names.{IsName};

    ghost Value = { List ℕ };

    ghost view = { λ n. n.bytes };

    ghost invariant = { λ n. IsName n.bytes };

    ghost inverse = { λ v. record { bytes = v } };
}

impl UnitName {
    /// Parses a name. Returns the first fault of `Length`, `Kind`, `EmptyPrefix` and `BadByte`; `Memory` if memory runs
    /// out, which happens only for a valid name. An instance may contain more at signs and dots.
    pub fn parse(alloc: Global, bytes: &[u8]) -> Result<UnitName, NameFault>
        ensures name { IfOk result (λ name. name_of bytes.now ≡ Ok name) }
        ensures same { IfOk result (λ name. name ≡ bytes.now) }
        ensures fault { IfErr result (IsFaultOf bytes.now) }
    {
        check(bytes)?;
        match Bytes::from_slice(alloc, bytes) {
            Ok(bytes) => Ok(UnitName { bytes }),
            Err(_) => Err(NameFault::Memory),
        }
    }

    /// Borrows the bytes of the whole name.
    pub fn bytes(&self) -> &[u8]
        ensures bytes { result.now ≡ self.now }
        ensures well_formed { IsName self.now }
    {
        self.bytes.as_slice()
    }

    /// Returns the kind, which the suffix after the last dot says.
    pub fn kind(&self) -> Kind
        ensures kind { kind self.now ≡ Some result }
        ensures well_formed { IsName self.now }
    {
        kind_in(self.bytes.as_slice()).unwrap()
    }

    /// Returns whether the name is plain, a template or an instance.
    pub fn shape(&self) -> Shape
        ensures shape { result ≡ shape self.now }
        ensures well_formed { IsName self.now }
    {
        if !stem_of(self.bytes.as_slice()).contains(&b'@') {
            Shape::Plain
        } else if self.instance().is_empty() {
            Shape::Template
        } else {
            Shape::Instance
        }
    }

    /// Returns whether the name is a template.
    pub fn is_template(&self) -> bool
        ensures template { IsTrue result ↔ (shape self.now ≡ Shape.Template) }
        ensures well_formed { IsName self.now }
    {
        self.shape() == Shape::Template
    }

    /// Returns the part before the first at sign, or before the last dot if there is no at sign. It isn't empty.
    pub fn prefix(&self) -> &[u8]
        ensures prefix { result.now ≡ prefix self.now }
        ensures well_formed { IsName self.now }
    {
        prefix_of(self.bytes.as_slice())
    }

    /// Returns the part between the first at sign and the last dot. It is empty if the name is plain or a template.
    pub fn instance(&self) -> &[u8]
        ensures instance { result.now ≡ instance self.now }
        ensures well_formed { IsName self.now }
    {
        instance_of(self.bytes.as_slice())
    }

    /// Returns the template of an instance: the same name without the instance. `None` for other names.
    pub fn template_of(&self) -> Result<Option<UnitName>, AllocError>
        ensures template { IfOk result (λ template. template ≡ template_of self.now) }
        ensures memory { OnErr result (IsSome (template_of self.now)) }
        ensures well_formed { IsName self.now }
    {
        match self.shape() {
            Shape::Plain | Shape::Template => Ok(None),
            Shape::Instance => {
                let bytes = instance_bytes(
                    self.bytes.allocator(),
                    self.prefix(),
                    &[],
                    suffix_of(self.bytes.as_slice()),
                )?;
                Ok(Some(UnitName { bytes }))
            }
        }
    }

    /// Returns the name of this template with an instance. `None` if this isn't a template, if the instance is empty or
    /// has a byte that isn't allowed in names, and if the name would have more than 255 bytes.
    pub fn with_instance(&self, instance: &[u8]) -> Result<Option<UnitName>, AllocError>
        ensures named { IfOk result (λ named. named ≡ with_instance self.now instance.now) }
        ensures memory { OnErr result (IsSome (with_instance self.now instance.now)) }
        ensures well_formed { IsName self.now }
    {
        if !self.takes(instance) {
            return Ok(None);
        }
        let bytes = instance_bytes(
            self.bytes.allocator(),
            self.prefix(),
            instance,
            suffix_of(self.bytes.as_slice()),
        )?;
        Ok(Some(UnitName { bytes }))
    }

    // Returns whether this is a template that may have this instance.
    fn takes(&self, instance: &[u8]) -> bool
        ensures test { result ≡ is_some (with_instance self.now instance.now) }
        ensures well_formed { IsName self.now }
    {
        match self.shape() {
            Shape::Plain | Shape::Instance => false,
            Shape::Template => is_instance(instance)
                && instance.len() <= LONGEST - self.bytes().len(),
        }
    }

    /// Returns an equal name.
    pub fn try_clone(&self) -> Result<UnitName, AllocError>
        ensures copy { IfOk result (λ copy. copy ≡ self.now) }
    {
        Ok(UnitName {
            bytes: self.bytes.try_clone()?,
        })
    }
}

// Checks whether bytes are a name.
#[tactic(auto, unfolding(crate::specs::Names::name_of))]
fn check(bytes: &[u8]) -> Result<(), NameFault>
    ensures name { OnOk result (name_of bytes.now ≡ Ok bytes.now) }
    ensures fault { IfErr result (IsFaultOf bytes.now) }
{
    if bytes.is_empty() || bytes.len() > LONGEST {
        return Err(NameFault::Length);
    }
    if kind_in(bytes).is_none() {
        return Err(NameFault::Kind);
    }
    if prefix_of(bytes).is_empty() {
        return Err(NameFault::EmptyPrefix);
    }
    match bad_place(stem_of(bytes)) {
        None => Ok(()),
        Some(place) => Err(NameFault::BadByte(place)),
    }
}

// Returns whether a template may have this instance.
fn is_instance(instance: &[u8]) -> bool
    ensures test { result ≡ is_instance instance.now }
{
    !instance.is_empty() && are_name_bytes(instance)
}

fn are_name_bytes(bytes: &[u8]) -> bool
    ensures test { result ≡ list_all is_name_byte bytes.now }
{
    bytes.iter().all(|byte| is_name_byte(*byte))
}

// Returns the bytes of an instance's name.
fn instance_bytes(
    alloc: Global,
    prefix: &[u8],
    instance: &[u8],
    suffix: &[u8],
) -> Result<Bytes, AllocError>
    ensures bytes { IfOk result
        (λ bytes. bytes ≡ instance_name prefix.now instance.now suffix.now) }
{
    let mut bytes = Vec::from_slice(alloc, prefix)?;
    bytes.push(b'@')?;
    bytes.extend_from_slice(instance)?;
    bytes.push(b'.')?;
    bytes.extend_from_slice(suffix)?;
    Bytes::from_vec(bytes)
}

impl Ord for UnitName {
    ghost use Rattle.std.specs.{Prelude.{refl}, Cmp.Lexicographic.{nat_list_cmp_total}};
    ghost use Rattle.unit_name.specs.Names.{name_cmp};

    ghost cmp = { name_cmp };

    ghost total = { nat_list_cmp_total };

    ghost matches_partial_cmp = { λ x y. refl };

    ghost matches_eq = { λ x y. refl };

    fn cmp(&self, other: &Self) -> Ordering {
        self.bytes.cmp(&other.bytes)
    }
}

impl TryClone for UnitName {
    fn try_clone(&self) -> Result<UnitName, AllocError> {
        UnitName::try_clone(self)
    }
}

impl Key for UnitName {
    ghost use Rattle.std.specs.FinMap.{slice_cmp-IsAntisymmetric, nat_cmp-IsAntisymmetric};

    ghost exact = { slice_cmp-IsAntisymmetric nat_cmp-IsAntisymmetric };
}
