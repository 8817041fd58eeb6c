//! The roles of units.
ghost use Rattle.std.specs.Prelude.{IfOk, ◌≡◌};
ghost use Rattle.implied_names.specs.Roles.{has_role};

use crate::unit_facts::Facts;
use std::alloc::{AllocError, Global};
use unit_name::Kind;

/// What a unit is to the tables: of a type, or of a type for which more holds.
#[derive(Clone, Copy, Debug, PartialEq, Eq)]
pub(crate) enum Role {
    /// A service, socket, mount, swap or slice: what is put in a slice.
    InSlice,
    Service,
    Socket,
    Swap,
    Automount,
    /// A service, socket, path or timer: what waits for the system to be initialized.
    Late,
    /// What is stopped at shutdown: the same, targets and slices.
    Stopped,
    Path,
    Timer,
    /// A unit to which systemd.exec(5) applies and that has state, cache or log directories.
    KeepingProcess,
    /// One with temporary directories of its own.
    PrivateProcess,
    /// One whose root is an image.
    ImageProcess,
    /// One with a journal of its own.
    SeparateProcess,
    /// Any other whose output goes to the journal or the kernel's log.
    LoggingProcess,
    /// A service that takes a name on the bus.
    BusService,
    /// A socket that starts one service for all connections.
    LastingSocket,
    /// A timer or a path: what starts a unit.
    Activator,
    CalendarTimer,
    /// A mount or a swap that waits for a device.
    OnDevice,
    /// One that needs it.
    NeedingDevice,
    /// A mount that stops with it.
    BoundToDevice,
    /// A swap that waits for none.
    FileSwap,
    QuotaMount,
    /// A mount of the local system that the manager makes.
    LocalMount,
    NetworkMount,
    /// One of these that must not fail.
    FirmLocalMount,
    FirmNetworkMount,
    /// A mount of memory.
    MemoryMount,
    /// A mount or automount that the manager makes, or a swap: what is undone at shutdown.
    Unmounted,
}

impl<'a> Facts<'a> {
    /// Returns whether the unit has a role. Fails only if memory runs out.
    pub fn has_role(&self, alloc: Global, role: Role) -> Result<bool, AllocError>
        ensures test { IfOk result (λ test. test ≡ has_role self.now role) }
    {
        match role {
            Role::InSlice => Ok(self.has_slice()),
            Role::Service => Ok(self.kind() == Kind::Service),
            Role::Socket => Ok(self.kind() == Kind::Socket),
            Role::Swap => Ok(self.kind() == Kind::Swap),
            Role::Automount => Ok(self.kind() == Kind::Automount),
            Role::Path => Ok(self.kind() == Kind::Path),
            Role::Timer => Ok(self.kind() == Kind::Timer),
            Role::Late => Ok(self.is_late()),
            Role::Stopped => Ok(self.is_stopped()),
            Role::KeepingProcess => Ok(self.is_process() && self.keeps()),
            Role::PrivateProcess => Ok(self.is_process() && self.is_private()),
            Role::ImageProcess => Ok(self.is_process() && self.has(b"RootImage")),
            Role::SeparateProcess => Ok(self.is_process() && self.has(b"LogNamespace")),
            Role::LoggingProcess => self.is_logging_process(alloc),
            Role::BusService => self.is_bus_service(alloc),
            Role::LastingSocket => self.is_lasting_socket(alloc),
            Role::Activator => Ok(matches!(self.kind(), Kind::Timer | Kind::Path)),
            Role::CalendarTimer => Ok(self.kind() == Kind::Timer && self.has(b"OnCalendar")),
            Role::OnDevice => self.is_on_device(alloc),
            Role::NeedingDevice => self.needs_device(alloc),
            Role::BoundToDevice => self.is_bound_to_device(alloc),
            Role::FileSwap => Ok(self.kind() == Kind::Swap && !self.has_device_path()),
            Role::QuotaMount => self.is_quota_mount(alloc),
            Role::LocalMount => self.is_local_mount(alloc),
            Role::NetworkMount => self.is_network_mount(alloc),
            Role::FirmLocalMount => Ok(self.is_local_mount(alloc)? && !self.may_fail()),
            Role::FirmNetworkMount => Ok(self.is_network_mount(alloc)? && !self.may_fail()),
            Role::MemoryMount => self.is_memory_mount(alloc),
            Role::Unmounted => Ok(self.is_unmounted()),
        }
    }

    fn has_slice(&self) -> bool
        ensures test { result ≡ has_role self.now Role.InSlice }
    {
        matches!(
            self.kind(),
            Kind::Service | Kind::Socket | Kind::Mount | Kind::Swap | Kind::Slice
        )
    }

    fn is_late(&self) -> bool
        ensures test { result ≡ has_role self.now Role.Late }
    {
        matches!(
            self.kind(),
            Kind::Service | Kind::Socket | Kind::Path | Kind::Timer
        )
    }

    fn is_stopped(&self) -> bool
        ensures test { result ≡ has_role self.now Role.Stopped }
    {
        self.is_late() || matches!(self.kind(), Kind::Target | Kind::Slice)
    }
}
