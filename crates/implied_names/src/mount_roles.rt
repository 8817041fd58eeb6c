//! What a unit is as a mount or a swap (systemd.mount(5), systemd.swap(5)).
ghost use Rattle.std.specs.{Option.{option_copied}, Prelude.{filter, IfOk, map, ◌≡◌}};
ghost use Rattle.unit_values.specs.Facts.{last_of};
ghost use Rattle.implied_names.specs.Roles.{bare_type, has_quota, has_role, is_bind, is_device_path, is_device_swap, is_early, is_extrinsic, is_local_mount, is_made_mount, is_network, is_network_mount, may_fail, may_have_quota, says_failing, waits_for_device, what};
ghost use Rattle.implied_names.specs.declared.roles.Role.TheVariants.{BoundToDevice, MemoryMount, NeedingDevice, OnDevice, QuotaMount, Unmounted};

use crate::paths::{is_at_or_below, is_below};
use crate::unit_facts::Facts;
use std::alloc::{AllocError, Global};
use unit_name::Kind;
use unit_values::{is_among, is_one_of};

// Types of file systems that need the network.
const NETWORK_TYPES: [&[u8]; 18] = [
    b"afs",
    b"ceph",
    b"cifs",
    b"gfs",
    b"gfs2",
    b"ncp",
    b"ncpfs",
    b"nfs",
    b"nfs4",
    b"ocfs2",
    b"orangefs",
    b"pvfs2",
    b"smb3",
    b"smbfs",
    b"davfs",
    b"glusterfs",
    b"lustre",
    b"sshfs",
];

// Types of file systems that have quotas.
const QUOTA_TYPES: [&[u8]; 6] = [b"ext2", b"ext3", b"ext4", b"reiserfs", b"jfs", b"f2fs"];

// The option by which a mount stops with its device.
const DEVICE_BOUND: &[u8] = b"x-systemd.device-bound";

impl<'a> Facts<'a> {
    /// Returns whether what is mounted is there already.
    pub fn is_bind(&self, alloc: Global) -> Result<bool, AllocError>
        ensures test { IfOk result (λ test. test ≡ is_bind self.now) }
    {
        Ok(
            self.takes(b"bind")
                || self.takes(b"rbind")
                || is_one_of(self.last(alloc, b"Type")?, &[b"bind", b"rbind"]),
        )
    }

    /// Returns whether a mount is there before the manager starts.
    pub fn is_extrinsic(&self) -> bool
        ensures test { result ≡ is_extrinsic self.now }
    {
        is_early(self.place()) || self.takes(b"x-initrd.mount")
    }

    /// Returns whether a mount waits for the network.
    pub fn is_network(&self, alloc: Global) -> Result<bool, AllocError>
        ensures test { IfOk result (λ test. test ≡ is_network self.now) }
    {
        if self.takes(b"_netdev") {
            return Ok(true);
        }
        match self.last(alloc, b"Type")? {
            Some(word) => Ok(is_among(bare_type(word), &NETWORK_TYPES)),
            None => Ok(false),
        }
    }

    /// Returns whether of the options nofail and fail the last is nofail.
    pub fn may_fail(&self) -> bool
        ensures test { result ≡ may_fail self.now }
    {
        is_one_of(last_failing(self.options()), &[b"nofail"])
    }

    /// Returns whether what is mounted or swapped to is a device's path.
    pub fn has_device_path(&self) -> bool
        ensures test { result ≡ is_device_path (what self.now) }
    {
        match self.what() {
            Some(path) => is_below(path, b"/dev") || is_below(path, b"/sys"),
            None => false,
        }
    }

    // Returns whether a mount waits for a device.
    fn waits_for_device(&self, alloc: Global) -> Result<bool, AllocError>
        ensures test { IfOk result (λ test. test ≡ waits_for_device self.now) }
    {
        Ok(
            self.has_device_path()
                && !is_one_of(self.what(), &[b"/dev/root", b"/dev/nfs"])
                && !self.is_bind(alloc)?
                && !is_one_of(self.place(), &[b""]),
        )
    }

    fn is_device_swap(&self) -> bool
        ensures test { result ≡ is_device_swap self.now }
    {
        self.kind() == Kind::Swap && self.has_device_path()
    }

    /// Returns whether it is a mount or a swap that waits for a device.
    pub fn is_on_device(&self, alloc: Global) -> Result<bool, AllocError>
        ensures test { IfOk result (λ test. test ≡ has_role self.now OnDevice) }
    {
        Ok(self.kind() == Kind::Mount && self.waits_for_device(alloc)? || self.is_device_swap())
    }

    /// Returns whether it needs the device.
    pub fn needs_device(&self, alloc: Global) -> Result<bool, AllocError>
        ensures test { IfOk result (λ test. test ≡ has_role self.now NeedingDevice) }
    {
        Ok(
            self.kind() == Kind::Mount && self.waits_for_device(alloc)? && !self.takes(DEVICE_BOUND)
                || self.is_device_swap(),
        )
    }

    /// Returns whether it is a mount that stops with its device.
    pub fn is_bound_to_device(&self, alloc: Global) -> Result<bool, AllocError>
        ensures test { IfOk result (λ test. test ≡ has_role self.now BoundToDevice) }
    {
        Ok(self.kind() == Kind::Mount && self.waits_for_device(alloc)? && self.takes(DEVICE_BOUND))
    }

    /// Returns whether it is a mount with quotas.
    pub fn is_quota_mount(&self, alloc: Global) -> Result<bool, AllocError>
        ensures test { IfOk result (λ test. test ≡ has_role self.now QuotaMount) }
    {
        Ok(
            self.kind() == Kind::Mount
                && self.has_quota()
                && may_have_quota(self.last(alloc, b"Type")?)
                && !self.is_bind(alloc)?,
        )
    }

    fn has_quota(&self) -> bool
        ensures test { result ≡ has_quota self.now }
    {
        self.takes(b"usrquota")
            || self.takes(b"grpquota")
            || self.takes(b"quota")
            || self.takes(b"usrjquota")
            || self.takes(b"grpjquota")
    }

    // Returns whether it is a mount that the manager makes.
    fn is_made_mount(&self) -> bool
        ensures test { result ≡ is_made_mount self.now }
    {
        self.kind() == Kind::Mount && !self.is_extrinsic()
    }

    /// Returns whether it is such a mount of the local system.
    pub fn is_local_mount(&self, alloc: Global) -> Result<bool, AllocError>
        ensures test { IfOk result (λ test. test ≡ is_local_mount self.now) }
    {
        Ok(self.is_made_mount() && !self.is_network(alloc)?)
    }

    /// Returns whether it is such a mount over the network.
    pub fn is_network_mount(&self, alloc: Global) -> Result<bool, AllocError>
        ensures test { IfOk result (λ test. test ≡ is_network_mount self.now) }
    {
        Ok(self.is_made_mount() && self.is_network(alloc)?)
    }

    /// Returns whether it is such a mount of memory.
    pub fn is_memory_mount(&self, alloc: Global) -> Result<bool, AllocError>
        ensures test { IfOk result (λ test. test ≡ has_role self.now MemoryMount) }
    {
        Ok(self.is_made_mount() && is_one_of(self.last(alloc, b"Type")?, &[b"tmpfs"]))
    }

    /// Returns whether it is undone at shutdown.
    pub fn is_unmounted(&self) -> bool
        ensures test { result ≡ has_role self.now Unmounted }
    {
        self.is_made_mount() || matches!(self.kind(), Kind::Automount | Kind::Swap)
    }
}

// Returns whether a place is mounted before the manager starts: the root, /usr, /etc, and the kernel's own trees.
fn is_early(place: Option<&[u8]>) -> bool
    ensures test { result ≡ is_early (option_copied place.entry) }
{
    match place {
        Some(path) => {
            is_among(path, &[b"", b"/usr", b"/etc"])
                || is_at_or_below(path, b"/run/initramfs")
                || is_at_or_below(path, b"/proc")
                || is_at_or_below(path, b"/sys")
                || is_at_or_below(path, b"/dev")
        }
        None => false,
    }
}

// Returns the last of the options nofail and fail.
fn last_failing<'s>(options: &[&'s [u8]]) -> Option<&'s [u8]>
    ensures last { option_copied result
        ≡ last_of (filter says_failing (map (λ option. option.now) options.now)) }
{
    let mut last = None;
    for option in options {
        if says_failing(option) {
            last = Some(*option);
        }
    }
    last
}

fn says_failing(option: &[u8]) -> bool
    ensures test { result ≡ says_failing option.now }
{
    option == b"nofail".as_slice() || option == b"fail".as_slice()
}

// Returns a type of file system without the word of FUSE before it.
fn bare_type(word: &[u8]) -> &[u8]
    ensures bare { result.now ≡ bare_type word.now }
{
    if word.starts_with(b"fuse.") {
        &word[5..]
    } else {
        word
    }
}

// Returns whether a file system of this type may have quotas; if nothing is said, it may.
fn may_have_quota(word: Option<&[u8]>) -> bool
    ensures test { result ≡ may_have_quota (option_copied word.entry) }
{
    match word {
        Some(word) => is_among(word, &QUOTA_TYPES),
        None => true,
    }
}
