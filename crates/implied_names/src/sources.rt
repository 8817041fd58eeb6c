//! Which units a unit names.
ghost use Rattle.std.specs.{Option.{option_copied, option_map}, Prelude.{[], codes, filter, IfOk, map, ◌∷◌, ◌≡◌}};
ghost use Rattle.unit_values.specs.Facts.{last, words};
ghost use Rattle.implied_names.specs.Sources.{activated, block_devices, default_slice, devices, fixed_name, found_by, interface_path, interfaces, is_socket_word, outer_slice, own_journal, served_service, slice_of};

use crate::paths::{is_below, path_of, unit_at};
use crate::unit_facts::Facts;
use std::alloc::{AllocError, Global};
use unit_name::{Kind, Shape, UnitName, escape};
use unit_values::{
    before_last, between, first_other, is_perpetual, last_named, served_service, sister,
};

/// Which units are named: one with a fixed name, or those that the unit's name and values give.
#[derive(Clone, Copy, Debug, PartialEq, Eq)]
pub(crate) enum Source {
    Sysinit,
    Basic,
    Shutdown,
    SocketsTarget,
    PathsTarget,
    TimersTarget,
    TimeSync,
    TimeSet,
    LocalFs,
    LocalFsPre,
    RemoteFs,
    RemoteFsPre,
    Network,
    NetworkOnline,
    SwapTarget,
    Umount,
    RemountFs,
    TmpMount,
    TmpfilesSetup,
    Udevd,
    JournaldSocket,
    DbusSocket,
    QuotaCheck,
    QuotaOn,
    /// The slice that the unit is in.
    Slice,
    /// The sockets of its own journal.
    OwnJournal,
    /// The sockets that are set for a service.
    SetSockets,
    /// The service that a socket starts.
    ServedService,
    /// The unit that a timer or a path starts.
    Activated,
    /// The mount that an automount starts.
    SisterMount,
    /// The device of the network interface that a socket is bound to.
    Interface,
    /// The device that is mounted or swapped to.
    Device,
    /// The target after which an encrypted device is open.
    BlockDevice,
}

impl Source {
    /// Returns the fixed name that the source gives.
    pub fn fixed_name(self) -> Option<&'static [u8]>
        ensures name { option_copied result ≡ fixed_name self }
    {
        match self {
            Source::Sysinit => Some(b"sysinit.target"),
            Source::Basic => Some(b"basic.target"),
            Source::Shutdown => Some(b"shutdown.target"),
            Source::SocketsTarget => Some(b"sockets.target"),
            Source::PathsTarget => Some(b"paths.target"),
            Source::TimersTarget => Some(b"timers.target"),
            Source::TimeSync => Some(b"time-sync.target"),
            Source::TimeSet => Some(b"time-set.target"),
            Source::LocalFs => Some(b"local-fs.target"),
            Source::LocalFsPre => Some(b"local-fs-pre.target"),
            Source::RemoteFs => Some(b"remote-fs.target"),
            Source::RemoteFsPre => Some(b"remote-fs-pre.target"),
            Source::Network => Some(b"network.target"),
            Source::NetworkOnline => Some(b"network-online.target"),
            Source::SwapTarget => Some(b"swap.target"),
            Source::Umount => Some(b"umount.target"),
            Source::RemountFs => Some(b"systemd-remount-fs.service"),
            Source::TmpMount => Some(b"tmp.mount"),
            Source::TmpfilesSetup => Some(b"systemd-tmpfiles-setup.service"),
            Source::Udevd => Some(b"systemd-udevd.service"),
            Source::JournaldSocket => Some(b"systemd-journald.socket"),
            Source::DbusSocket => Some(b"dbus.socket"),
            Source::QuotaCheck => Some(b"systemd-quotacheck.service"),
            Source::QuotaOn => Some(b"quotaon.service"),
            _ => None,
        }
    }
}

impl<'a> Facts<'a> {
    /// Returns the texts that a source gives which depend on the unit. Fails only if memory runs out.
    pub fn found(&self, alloc: Global, source: Source) -> Result<Vec<Vec<u8>>, AllocError>
        ensures texts { IfOk result
            (λ texts. map (λ text. text.items) texts.items ≡ found_by self.now source) }
    {
        match source {
            Source::Slice => self.slice(alloc),
            Source::OwnJournal => own_journal(alloc, self.last(alloc, b"LogNamespace")?),
            Source::SetSockets => self.set_sockets(alloc),
            Source::ServedService => one(alloc, self.served_service(alloc)?),
            Source::Activated => one(alloc, self.activated(alloc)?),
            Source::SisterMount => one(alloc, sister(alloc, b"mount", self.unit())?),
            Source::Interface => self.interface(alloc),
            Source::Device => devices(alloc, self.what()),
            Source::BlockDevice => block_devices(alloc, self.what()),
            _ => Ok(Vec::new(alloc)),
        }
    }

    // Returns the slice that the unit is in, if it is in one.
    fn slice(&self, alloc: Global) -> Result<Vec<Vec<u8>>, AllocError>
        ensures texts { IfOk result
            (λ texts. map (λ text. text.items) texts.items ≡ slice_of self.now) }
    {
        if self.kind() == Kind::Slice {
            return outer_slice(alloc, self.unit());
        }
        let values = self.values(alloc, b"Slice")?;
        match last_named(alloc, &values, Kind::Slice)? {
            Some(text) => one(alloc, Vec::from_slice(alloc, text)?),
            None => one(alloc, self.default_slice(alloc)?),
        }
    }

    // Returns the slice of a unit for which none is set.
    fn default_slice(&self, alloc: Global) -> Result<Vec<u8>, AllocError>
        ensures text { IfOk result (λ text. text.items ≡ default_slice self.now) }
    {
        if self.unit().shape() == Shape::Instance {
            let mut text = Vec::from_slice(alloc, b"system-")?;
            text.extend_from_slice(&escape(alloc, self.unit().prefix())?)?;
            text.extend_from_slice(b".slice")?;
            return Ok(text);
        }
        if is_perpetual(self.unit()) {
            return Vec::from_slice(alloc, b"-.slice");
        }
        if self.kind() == Kind::Mount && self.is_extrinsic() {
            Vec::from_slice(alloc, b"-.slice")
        } else {
            Vec::from_slice(alloc, b"system.slice")
        }
    }

    // Returns the sockets that are set for a service.
    fn set_sockets(&self, alloc: Global) -> Result<Vec<Vec<u8>>, AllocError>
        ensures texts { IfOk result
            (λ texts. map (λ text. text.items) texts.items
            ≡ filter is_socket_word (words self.now (codes "Sockets"))) }
    {
        let mut texts = Vec::new(alloc);
        for word in self.words(alloc, b"Sockets")? {
            if word.ends_with(b".socket") {
                texts.push(Vec::from_slice(alloc, word)?)?;
            }
        }
        Ok(texts)
    }

    // Returns the service that a socket starts.
    fn served_service(&self, alloc: Global) -> Result<Vec<u8>, AllocError>
        ensures text { IfOk result (λ text. text.items ≡ served_service self.now) }
    {
        served_service(alloc, self.unit(), &self.values(alloc, b"Service")?)
    }

    // Returns the unit that a timer or a path starts.
    fn activated(&self, alloc: Global) -> Result<Vec<u8>, AllocError>
        ensures text { IfOk result (λ text. text.items ≡ activated self.now) }
    {
        let values = self.values(alloc, b"Unit")?;
        match first_other(alloc, self.unit(), &values)? {
            Some(name) => Vec::from_slice(alloc, name.bytes()),
            None => sister(alloc, b"service", self.unit()),
        }
    }

    // Returns the device of the network interface that a socket is bound to.
    fn interface(&self, alloc: Global) -> Result<Vec<Vec<u8>>, AllocError>
        ensures texts { IfOk result (λ texts. map (λ text. text.items) texts.items
            ≡ interfaces (last self.now (codes "BindToDevice"))) }
    {
        interfaces(alloc, self.last(alloc, b"BindToDevice")?)
    }
}

// Returns a list of one text.
fn one(alloc: Global, text: Vec<u8>) -> Result<Vec<Vec<u8>>, AllocError>
    ensures texts { IfOk result (λ texts. map (λ text. text.items) texts.items ≡ text.items ∷ []) }
{
    let mut texts = Vec::new(alloc);
    texts.push(text)?;
    Ok(texts)
}

// Returns the slice that a slice is in.
fn outer_slice(alloc: Global, unit: &UnitName) -> Result<Vec<Vec<u8>>, AllocError>
    ensures texts { IfOk result
        (λ texts. map (λ text. text.items) texts.items ≡ outer_slice unit.now) }
{
    if unit.bytes() == b"-.slice".as_slice() {
        return Ok(Vec::new(alloc));
    }
    let stem = before_last(unit.bytes(), b'.');
    if !stem.contains(&b'-') {
        return one(alloc, Vec::from_slice(alloc, b"-.slice")?);
    }
    one(
        alloc,
        between(alloc, before_last(stem, b'-'), b".", b"slice")?,
    )
}

// Returns the two sockets of a journal of its own.
fn own_journal(alloc: Global, name: Option<&[u8]>) -> Result<Vec<Vec<u8>>, AllocError>
    ensures texts { IfOk result
        (λ texts. map (λ text. text.items) texts.items ≡ own_journal (option_copied name.entry)) }
{
    let Some(name) = name else {
        return Ok(Vec::new(alloc));
    };
    let mut texts = one(
        alloc,
        between(alloc, b"systemd-journald@", name, b".socket")?,
    )?;
    texts.push(between(alloc, b"systemd-journald-varlink@", name, b".socket")?)?;
    Ok(texts)
}

// Returns the path of a network interface; the loopback interface waits for none.
fn interface_path(alloc: Global, name: &[u8]) -> Result<Option<Vec<u8>>, AllocError>
    ensures path { IfOk result
        (λ path. option_map (λ bytes. bytes.items) path ≡ interface_path name.now) }
{
    if name == b"lo".as_slice() {
        return Ok(None);
    }
    path_of(
        alloc,
        &between(alloc, b"/sys/subsystem/net/", b"devices/", name)?,
    )
}

// Returns the device of a network interface.
fn interfaces(alloc: Global, name: Option<&[u8]>) -> Result<Vec<Vec<u8>>, AllocError>
    ensures texts { IfOk result
        (λ texts. map (λ text. text.items) texts.items ≡ interfaces (option_copied name.entry)) }
{
    let Some(name) = name else {
        return Ok(Vec::new(alloc));
    };
    match interface_path(alloc, name)? {
        Some(path) => one(alloc, unit_at(alloc, b"device", &path)?),
        None => Ok(Vec::new(alloc)),
    }
}

// Returns the device of a path.
fn devices(alloc: Global, path: Option<&[u8]>) -> Result<Vec<Vec<u8>>, AllocError>
    ensures texts { IfOk result
        (λ texts. map (λ text. text.items) texts.items ≡ devices (option_copied path.entry)) }
{
    match path {
        Some(path) => one(alloc, unit_at(alloc, b"device", path)?),
        None => Ok(Vec::new(alloc)),
    }
}

// Returns the target after which a device below /dev is open.
fn block_devices(alloc: Global, path: Option<&[u8]>) -> Result<Vec<Vec<u8>>, AllocError>
    ensures texts { IfOk result
        (λ texts. map (λ text. text.items) texts.items ≡ block_devices (option_copied path.entry)) }
{
    match path {
        Some(path) if is_below(path, b"/dev") => one(
            alloc,
            between(alloc, b"blockdev@", &escape(alloc, &path[1..])?, b".target")?,
        ),
        _ => Ok(Vec::new(alloc)),
    }
}
