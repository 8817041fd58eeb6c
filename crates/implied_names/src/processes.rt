//! What a unit is as a process: what systemd.exec(5) makes of its settings.
ghost use Rattle.std.specs.{Option.{option_copied}, Prelude.{codes, IfOk, ◌≡◌}};
ghost use Rattle.unit_values.specs.Facts.{last};
ghost use Rattle.unit_name.specs.Names.{kind};
ghost use Rattle.implied_names.specs.Roles.{default_output, has_role, inherits_journal, is_logging, is_open_input, is_process, is_service, keeps, output, said_output};
ghost use Rattle.implied_names.specs.declared.roles.Role.TheVariants.{BusService, LastingSocket, LoggingProcess};

use crate::unit_facts::Facts;
use std::alloc::{AllocError, Global};
use unit_name::Kind;
use unit_values::{is_among, is_one_of};

// The words for the journal and the kernel's log, alone or beside the console.
const LOGS: [&[u8]; 6] = [
    b"journal",
    b"kmsg",
    b"journal+console",
    b"kmsg+console",
    b"syslog",
    b"syslog+console",
];

impl<'a> Facts<'a> {
    /// Returns whether the settings of systemd.exec(5) apply.
    pub fn is_process(&self) -> bool
        ensures test { result ≡ is_process self.now }
    {
        match self.kind() {
            Kind::Service | Kind::Mount | Kind::Swap => true,
            Kind::Socket => {
                self.has(b"ExecStartPre")
                    || self.has(b"ExecStartPost")
                    || self.has(b"ExecStopPre")
                    || self.has(b"ExecStopPost")
            }
            _ => false,
        }
    }

    /// Returns whether the unit has state, cache or log directories.
    pub fn keeps(&self) -> bool
        ensures test { result ≡ keeps self.now }
    {
        self.has(b"StateDirectory") || self.has(b"CacheDirectory") || self.has(b"LogsDirectory")
    }

    /// Returns whether it is a process without a journal of its own whose output goes to a log.
    pub fn is_logging_process(&self, alloc: Global) -> Result<bool, AllocError>
        ensures test { IfOk result (λ test. test ≡ has_role self.now LoggingProcess) }
    {
        Ok(self.is_process() && !self.has(b"LogNamespace") && self.is_logging(alloc)?)
    }

    // Returns whether output or errors go to the journal or the kernel's log.
    fn is_logging(&self, alloc: Global) -> Result<bool, AllocError>
        ensures test { IfOk result (λ test. test ≡ is_logging self.now) }
    {
        let output = self.output(alloc)?;
        Ok(is_among(output, &LOGS) || is_one_of(self.last(alloc, b"StandardError")?, &LOGS))
    }

    // Returns where output goes.
    fn output(&self, alloc: Global) -> Result<&'a [u8], AllocError>
        ensures output { IfOk result (λ text. text.now ≡ output self.now) }
    {
        let said = self.said_output(alloc)?;
        if self.inherits_journal(alloc, said)? {
            Ok(b"journal")
        } else {
            Ok(said)
        }
    }

    // Returns whether it is a service that inherits its output, and its input isn't open.
    fn inherits_journal(&self, alloc: Global, said: &[u8]) -> Result<bool, AllocError>
        ensures test { IfOk result
            (λ test. test ≡ inherits_journal (is_service (kind self.now.unit))
            (last self.now (codes "StandardInput")) said.now) }
    {
        if self.kind() != Kind::Service {
            return Ok(false);
        }
        Ok(said == b"inherit".as_slice() && !is_open_input(self.last(alloc, b"StandardInput")?))
    }

    // Returns where output is said to go, or else goes.
    fn said_output(&self, alloc: Global) -> Result<&'a [u8], AllocError>
        ensures output { IfOk result (λ text. text.now ≡ said_output self.now) }
    {
        match self.last(alloc, b"StandardOutput")? {
            Some(output) => Ok(output),
            None => Ok(self.default_output()),
        }
    }

    // Returns where output goes if nothing is said.
    fn default_output(&self) -> &'static [u8]
        ensures output { result.now ≡ default_output (kind self.now.unit) self.now.unit }
    {
        if self.kind() == Kind::Service {
            b"inherit"
        } else if self.unit().bytes() == b"-.mount".as_slice() {
            b"null"
        } else {
            b"journal"
        }
    }

    /// Returns whether it is a service that takes a name on the bus.
    pub fn is_bus_service(&self, alloc: Global) -> Result<bool, AllocError>
        ensures test { IfOk result (λ test. test ≡ has_role self.now BusService) }
    {
        if self.kind() != Kind::Service || !self.has(b"BusName") {
            return Ok(false);
        }
        match self.last(alloc, b"Type")? {
            Some(word) => Ok(word == b"dbus".as_slice()),
            None => Ok(true),
        }
    }

    /// Returns whether it is a socket that starts one service for all connections.
    pub fn is_lasting_socket(&self, alloc: Global) -> Result<bool, AllocError>
        ensures test { IfOk result (λ test. test ≡ has_role self.now LastingSocket) }
    {
        Ok(self.kind() == Kind::Socket && !self.yes(alloc, b"Accept")?)
    }
}

// Returns whether input comes from a terminal, a socket or a file descriptor.
fn is_open_input(input: Option<&[u8]>) -> bool
    ensures test { result ≡ is_open_input (option_copied input.entry) }
{
    match input {
        Some(input) => {
            is_among(
                input,
                &[b"tty", b"tty-force", b"tty-fail", b"socket", b"fd"],
            ) || input.starts_with(b"fd:")
        }
        None => false,
    }
}
