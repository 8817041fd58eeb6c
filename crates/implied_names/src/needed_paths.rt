//! The paths that a unit needs: those that it is said to need, those of a process, and those of its type.
ghost use Rattle.std.specs.{List.{filter_map, flat_map}, Option.{option_map}, Prelude.{[], IfOk, map, OnOk, ◌++◌, ◌∷◌, ◌≡◌}};
ghost use Rattle.unit_name.specs.Names.{kind};
ghost use Rattle.unit_values.specs.Facts.{last, values_of};
ghost use Rattle.implied_names.specs.{Paths.{mounts_on, place}, Roles.{what}};
ghost use Rattle.implied_names.specs.Implied.{as_run, directories, directory_in, folder_above, mounted_paths, option_list, own_directories, paths_in, paths_of, private_paths, process_paths, runs, said_path, socket_paths, timer_paths, type_paths, unless_private, watched_paths, working_paths};

use crate::paths::{above, add_mounts, is_at_or_below, path_of};
use crate::unit_facts::Facts;
use std::alloc::{AllocError, Global};
use std::marker::Model;
use unit_name::{Kind, UnitName};
use unit_values::{before_first, between};

/// Paths that a unit needs. Contracts see a list of them.
#[derive(Drop)]
pub(crate) struct NeededPaths {
    alloc: Global,
    paths: Vec<Vec<u8>>,
}

impl Model for NeededPaths {
    ghost use Rattle.std.specs.Prelude.{List, map, ℕ};

    ghost Value = { List (List ℕ) };

    ghost view = { λ needed. map (λ path. path.items) needed.paths.items };
}

impl NeededPaths {
    /// Returns the paths that a unit needs. Fails only if memory runs out.
    #[tactic(auto, unfolding(crate::specs::Implied::paths_of))]
    pub fn of(alloc: Global, facts: &Facts) -> Result<NeededPaths, AllocError>
        ensures paths { IfOk result (λ needed. needed ≡ paths_of facts.now) }
    {
        let mut needed = NeededPaths::new(alloc);
        needed.add_texts(&facts.required(alloc)?)?;
        needed.add_process(facts)?;
        needed.add_type(facts)?;
        Ok(needed)
    }

    fn new(alloc: Global) -> NeededPaths
        ensures empty { result ≡ [] }
    {
        NeededPaths {
            alloc,
            paths: Vec::new(alloc),
        }
    }

    // Adds a path.
    fn add(&mut self, path: &[u8]) -> Result<(), AllocError>
        ensures added { OnOk result (self.new ≡ self.old ++ path.now ∷ []) }
    {
        self.paths.push(Vec::from_slice(self.alloc, path)?)?;
        Ok(())
    }

    // Adds the paths that texts write.
    fn add_texts(&mut self, texts: &[&[u8]]) -> Result<(), AllocError>
        ensures added { OnOk result
            (self.new ≡ self.old ++ paths_in (map (λ text. text.now) texts.now)) }
    {
        for text in texts {
            self.add_text(text)?;
        }
        Ok(())
    }

    // Adds the path that a text writes.
    fn add_text(&mut self, text: &[u8]) -> Result<(), AllocError>
        ensures added { OnOk result (self.new ≡ self.old ++ paths_in (text.now ∷ [])) }
    {
        match path_of(self.alloc, text)? {
            Some(path) => {
                self.paths.push(path)?;
                Ok(())
            }
            None => Ok(()),
        }
    }

    // Adds the paths that the values of a key write.
    fn add_values(&mut self, facts: &Facts, key: &[u8]) -> Result<(), AllocError>
        ensures added { OnOk result
            (self.new ≡ self.old ++ paths_in (values_of facts.now key.now)) }
    {
        self.add_texts(&facts.values(self.alloc, key)?)
    }

    // Adds the path that the last value of a key writes.
    fn add_last(&mut self, facts: &Facts, key: &[u8]) -> Result<(), AllocError>
        ensures added { OnOk result (self.new ≡ self.old ++ said_path (last facts.now key.now)) }
    {
        match facts.last(self.alloc, key)? {
            Some(text) => self.add_text(text),
            None => Ok(()),
        }
    }

    // Adds the paths of a process.
    fn add_process(&mut self, facts: &Facts) -> Result<(), AllocError>
        ensures added { OnOk result (self.new ≡ self.old ++ process_paths facts.now) }
    {
        if facts.is_process() {
            self.add_working(facts)?;
            self.add_private(facts)?;
            self.add_own_directories(facts)?;
        }
        Ok(())
    }

    // Adds where a process works.
    fn add_working(&mut self, facts: &Facts) -> Result<(), AllocError>
        ensures added { OnOk result (self.new ≡ self.old ++ working_paths facts.now) }
    {
        self.add_last(facts, b"WorkingDirectory")?;
        self.add_last(facts, b"RootDirectory")?;
        self.add_last(facts, b"RootImage")?;
        Ok(())
    }

    // Adds where a process with temporary directories of its own has them.
    fn add_private(&mut self, facts: &Facts) -> Result<(), AllocError>
        ensures added { OnOk result (self.new ≡ self.old ++ private_paths facts.now) }
    {
        if facts.is_private() {
            self.add(b"/var/tmp")?;
        }
        Ok(())
    }

    // Adds the directories that the manager makes for a process.
    fn add_own_directories(&mut self, facts: &Facts) -> Result<(), AllocError>
        ensures added { OnOk result (self.new ≡ self.old ++ own_directories facts.now) }
    {
        self.add_directories(facts, b"RuntimeDirectory", b"/run")?;
        self.add_directories(facts, b"StateDirectory", b"/var/lib")?;
        self.add_directories(facts, b"CacheDirectory", b"/var/cache")?;
        self.add_directories(facts, b"LogsDirectory", b"/var/log")?;
        self.add_directories(facts, b"ConfigurationDirectory", b"/etc")?;
        Ok(())
    }

    // Adds the directories that a key names below one of the manager's own.
    fn add_directories(&mut self, facts: &Facts, key: &[u8], top: &[u8]) -> Result<(), AllocError>
        ensures added { OnOk result (self.new ≡ self.old ++ directories facts.now key.now top.now) }
    {
        for word in facts.words(self.alloc, key)? {
            self.add_directory(top, word)?;
        }
        Ok(())
    }

    // Adds the directory that a word names.
    fn add_directory(&mut self, top: &[u8], word: &[u8]) -> Result<(), AllocError>
        ensures added { OnOk result
            (self.new ≡ self.old ++ filter_map (directory_in top.now) (word.now ∷ [])) }
    {
        match directory_in(self.alloc, top, word)? {
            Some(path) => {
                self.paths.push(path)?;
                Ok(())
            }
            None => Ok(()),
        }
    }

    // Adds the paths that units of its type have.
    fn add_type(&mut self, facts: &Facts) -> Result<(), AllocError>
        ensures added { OnOk result
            (self.new ≡ self.old ++ type_paths (kind facts.now.unit) facts.now) }
    {
        match facts.kind() {
            Kind::Socket => self.add_addresses(facts),
            Kind::Path => self.add_watched(facts),
            Kind::Timer => self.add_timers(facts),
            Kind::Mount => {
                self.add_above(facts)?;
                self.add_mounted(facts)?;
                Ok(())
            }
            Kind::Automount => self.add_above(facts),
            Kind::Swap => self.add_what(facts),
            _ => Ok(()),
        }
    }

    // Adds where a socket listens.
    fn add_addresses(&mut self, facts: &Facts) -> Result<(), AllocError>
        ensures added { OnOk result (self.new ≡ self.old ++ socket_paths facts.now) }
    {
        self.add_runs(facts, b"ListenStream")?;
        self.add_runs(facts, b"ListenDatagram")?;
        self.add_runs(facts, b"ListenSequentialPacket")?;
        self.add_runs(facts, b"ListenFIFO")?;
        self.add_values(facts, b"ListenSpecial")?;
        self.add_values(facts, b"ListenUSBFunction")?;
        Ok(())
    }

    // Adds the paths that the values of a key write, where /var/run is read as /run.
    fn add_runs(&mut self, facts: &Facts, key: &[u8]) -> Result<(), AllocError>
        ensures added { OnOk result (self.new ≡ self.old ++ runs facts.now key.now) }
    {
        for text in facts.values(self.alloc, key)? {
            self.add_run(text)?;
        }
        Ok(())
    }

    // Adds the path that a text writes, where /var/run is read as /run.
    fn add_run(&mut self, text: &[u8]) -> Result<(), AllocError>
        ensures added { OnOk result (self.new ≡ self.old ++ map as_run (paths_in (text.now ∷ []))) }
    {
        match path_of(self.alloc, text)? {
            Some(path) => self.add(as_run(&path)),
            None => Ok(()),
        }
    }

    // Adds what a path unit watches.
    fn add_watched(&mut self, facts: &Facts) -> Result<(), AllocError>
        ensures added { OnOk result (self.new ≡ self.old ++ watched_paths facts.now) }
    {
        self.add_values(facts, b"PathExists")?;
        self.add_values(facts, b"PathExistsGlob")?;
        self.add_values(facts, b"PathChanged")?;
        self.add_values(facts, b"PathModified")?;
        self.add_values(facts, b"DirectoryNotEmpty")?;
        Ok(())
    }

    // Adds where a timer keeps its times.
    fn add_timers(&mut self, facts: &Facts) -> Result<(), AllocError>
        ensures added { OnOk result (self.new ≡ self.old ++ timer_paths facts.now) }
    {
        if facts.yes(self.alloc, b"Persistent")? {
            self.add(b"/var/lib/systemd/timers")?;
        }
        Ok(())
    }

    // Adds the folder above a place, unless that is the root.
    fn add_above(&mut self, facts: &Facts) -> Result<(), AllocError>
        ensures added { OnOk result (self.new ≡ self.old ++ folder_above (place facts.now.unit)) }
    {
        match facts.place() {
            Some(path) => {
                if path.is_empty() {
                    Ok(())
                } else {
                    self.add(above(path))
                }
            }
            None => Ok(()),
        }
    }

    // Adds what is mounted, unless it comes over the network.
    fn add_mounted(&mut self, facts: &Facts) -> Result<(), AllocError>
        ensures added { OnOk result (self.new ≡ self.old ++ mounted_paths facts.now) }
    {
        if facts.is_network(self.alloc)? && !facts.is_bind(self.alloc)? && !facts.takes(b"loop") {
            return Ok(());
        }
        self.add_what(facts)
    }

    // Adds what is mounted or swapped to.
    fn add_what(&mut self, facts: &Facts) -> Result<(), AllocError>
        ensures added { OnOk result (self.new ≡ self.old ++ option_list (what facts.now)) }
    {
        match facts.what() {
            Some(path) => self.add(path),
            None => Ok(()),
        }
    }

    /// Returns the names of the mounts of these paths and of all above them, path by path.
    pub fn into_mounts(self) -> Result<Vec<UnitName>, AllocError>
        ensures names { IfOk result (λ names. names.items ≡ flat_map mounts_on self) }
    {
        let NeededPaths { alloc, paths } = self;
        let mut names = Vec::new(alloc);
        for path in paths {
            add_mounts(alloc, &mut names, &path)?;
        }
        Ok(names)
    }
}

// Returns the directory that a word names below one of the manager's own. What follows a colon is no part of it.
fn directory_in(alloc: Global, top: &[u8], word: &[u8]) -> Result<Option<Vec<u8>>, AllocError>
    ensures path { IfOk result
        (λ path. option_map (λ bytes. bytes.items) path ≡ directory_in top.now word.now) }
{
    if word.starts_with(b"/") {
        return Ok(None);
    }
    let text = between(alloc, top, b"/", before_first(word, b':'))?;
    match path_of(alloc, &text)? {
        Some(path) => unless_private(alloc, top, path),
        None => Ok(None),
    }
}

// Returns a path, unless it is among the directories of dynamic users.
fn unless_private(alloc: Global, top: &[u8], path: Vec<u8>) -> Result<Option<Vec<u8>>, AllocError>
    ensures path { IfOk result
        (λ left. option_map (λ bytes. bytes.items) left ≡ unless_private top.now path.items) }
{
    let private = between(alloc, top, b"/", b"private")?;
    if is_at_or_below(&path, &private) {
        Ok(None)
    } else {
        Ok(Some(path))
    }
}

// Returns a path, with /var/run read as /run.
fn as_run(path: &[u8]) -> &[u8]
    ensures path { result.now ≡ as_run path.now }
{
    if is_at_or_below(path, b"/var/run") {
        &path[4..]
    } else {
        path
    }
}
