//! What units imply, as tables: which units, by which kinds they name others, and which.
ghost use Rattle.std.specs.Prelude.{◌≡◌};
ghost use Rattle.implied_names.specs.Tables.{default_table, implied_table, kinds_of};

use crate::roles::Role;
use crate::sources::Source;
use setting_rules::DepKind;

/// By which kinds a unit names another.
#[derive(Clone, Copy, Debug, PartialEq, Eq)]
pub(crate) enum Ways {
    After,
    Before,
    Requires,
    BindsTo,
    RequiresAfter,
    RequiresAfterInSlice,
    AfterWants,
    WantsAfterTriggeredBy,
    BeforeTriggers,
    AfterBindsTo,
    BeforeWants,
    BeforeConflicts,
}

impl Ways {
    /// Returns the kinds.
    pub fn kinds(self) -> &'static [DepKind]
        ensures kinds { result.now ≡ kinds_of self }
    {
        match self {
            Ways::After => &[DepKind::After],
            Ways::Before => &[DepKind::Before],
            Ways::Requires => &[DepKind::Requires],
            Ways::BindsTo => &[DepKind::BindsTo],
            Ways::RequiresAfter => &[DepKind::Requires, DepKind::After],
            Ways::RequiresAfterInSlice => &[DepKind::Requires, DepKind::After, DepKind::InSlice],
            Ways::AfterWants => &[DepKind::After, DepKind::Wants],
            Ways::WantsAfterTriggeredBy => &[DepKind::Wants, DepKind::After, DepKind::TriggeredBy],
            Ways::BeforeTriggers => &[DepKind::Before, DepKind::Triggers],
            Ways::AfterBindsTo => &[DepKind::After, DepKind::BindsTo],
            Ways::BeforeWants => &[DepKind::Before, DepKind::Wants],
            Ways::BeforeConflicts => &[DepKind::Before, DepKind::Conflicts],
        }
    }
}

// What is implied whatever a unit says.
const IMPLIED: [(Role, Ways, Source); 20] = [
    (Role::InSlice, Ways::RequiresAfterInSlice, Source::Slice),
    (Role::KeepingProcess, Ways::After, Source::RemountFs),
    (Role::PrivateProcess, Ways::AfterWants, Source::TmpMount),
    (Role::PrivateProcess, Ways::After, Source::TmpfilesSetup),
    (Role::ImageProcess, Ways::After, Source::Udevd),
    (
        Role::SeparateProcess,
        Ways::RequiresAfter,
        Source::OwnJournal,
    ),
    (Role::LoggingProcess, Ways::After, Source::JournaldSocket),
    (
        Role::Service,
        Ways::WantsAfterTriggeredBy,
        Source::SetSockets,
    ),
    (Role::BusService, Ways::RequiresAfter, Source::DbusSocket),
    (
        Role::LastingSocket,
        Ways::BeforeTriggers,
        Source::ServedService,
    ),
    (Role::Socket, Ways::AfterBindsTo, Source::Interface),
    (Role::Activator, Ways::BeforeTriggers, Source::Activated),
    (Role::Automount, Ways::BeforeTriggers, Source::SisterMount),
    (Role::OnDevice, Ways::After, Source::Device),
    (Role::NeedingDevice, Ways::Requires, Source::Device),
    (Role::BoundToDevice, Ways::BindsTo, Source::Device),
    (Role::OnDevice, Ways::After, Source::BlockDevice),
    (Role::QuotaMount, Ways::BeforeWants, Source::QuotaCheck),
    (Role::QuotaMount, Ways::BeforeWants, Source::QuotaOn),
    (Role::FileSwap, Ways::After, Source::RemountFs),
];

// What is implied where default dependencies are asked for.
const DEFAULTS: [(Role, Ways, Source); 19] = [
    (Role::Late, Ways::RequiresAfter, Source::Sysinit),
    (Role::Stopped, Ways::BeforeConflicts, Source::Shutdown),
    (Role::Service, Ways::After, Source::Basic),
    (Role::Socket, Ways::Before, Source::SocketsTarget),
    (Role::Path, Ways::Before, Source::PathsTarget),
    (Role::Timer, Ways::Before, Source::TimersTarget),
    (Role::CalendarTimer, Ways::After, Source::TimeSync),
    (Role::CalendarTimer, Ways::After, Source::TimeSet),
    (Role::LocalMount, Ways::After, Source::LocalFsPre),
    (Role::FirmLocalMount, Ways::Before, Source::LocalFs),
    (Role::NetworkMount, Ways::After, Source::RemoteFsPre),
    (Role::NetworkMount, Ways::After, Source::Network),
    (Role::NetworkMount, Ways::AfterWants, Source::NetworkOnline),
    (Role::FirmNetworkMount, Ways::Before, Source::RemoteFs),
    (Role::MemoryMount, Ways::After, Source::SwapTarget),
    (Role::Automount, Ways::After, Source::LocalFsPre),
    (Role::Automount, Ways::Before, Source::LocalFs),
    (Role::Swap, Ways::Before, Source::SwapTarget),
    (Role::Unmounted, Ways::BeforeConflicts, Source::Umount),
];

/// Returns what is implied whatever a unit says.
pub(crate) fn implied_table() -> &'static [(Role, Ways, Source)]
    ensures table { result.now ≡ implied_table }
{
    &IMPLIED
}

/// Returns what is implied where default dependencies are asked for.
pub(crate) fn default_table() -> &'static [(Role, Ways, Source)]
    ensures table { result.now ≡ default_table }
{
    &DEFAULTS
}
