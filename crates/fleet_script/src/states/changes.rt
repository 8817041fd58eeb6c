//! Commands that change one node, the worker count, or the profile.
ghost use Rattle.std.specs.Prelude.{◌≡◌, ◌<◌, length, vec_len, IfOk, OnOk, OnErr, MatchResult};
ghost use Rattle.script_commands.specs.declared.commands.Command.TheVariants.{Node, Put, Link, Remove, Workers};
ghost use Rattle.script_commands.specs.declared.commands.Command.TheVariants as command;
ghost use Rattle.fleet_script.specs.{Does.{Writes}, Holds.{Executes, Goes, HasNoSite, IsSite, kept_in}};

use crate::states::{Rendered, Shell};
use edit_sums::Content;
use fleet_answers::TrackedReplica;
use load_places::Place;
use plain_values::Bytes;
use profiles::Profile;
use replica_store::Replica;
use script_answers::{WorkerCount, put_done};
use script_commands::{Fault, LineRefusal, read_file, read_link, read_place};
use std::alloc::Global;

impl Shell {
    pub(super) fn node(&mut self, alloc: Global, name: &[u8], writer: u32) -> Rendered
        ensures done { Executes self.old self.new (Node name.now writer) result }
        ensures worker_count { self.new.workers ≡ self.old.workers }
    {
        let name = Bytes::from_slice(alloc, name)?;
        if self.numbers.contains_key(&name) {
            return Err(Fault::Refused(LineRefusal::NodeTaken));
        }
        if self.writers.contains(&writer) {
            return Err(Fault::Refused(LineRefusal::WriterTaken));
        }
        let text = Vec::from_slice(alloc, b"ok\n")?;
        let number = self.nodes.len();
        self.nodes
            .push(TrackedReplica::new(Replica::new(alloc, writer)))?;
        self.writers.insert(writer)?;
        self.numbers.insert(name, number)?;
        Ok(text)
    }

    pub(super) fn put(&mut self, alloc: Global, node: &[u8], place: &[u8], text: &[u8]) -> Rendered
        ensures done { Executes self.old self.new (Put node.now place.now text.now) result }
        ensures worker_count { self.new.workers ≡ self.old.workers }
    {
        let (at, place) = self.site(alloc, node, place)?;
        self.write(alloc, at, place, read_file(alloc, text)?)
    }

    pub(super) fn link(
        &mut self,
        alloc: Global,
        node: &[u8],
        place: &[u8],
        target: &[u8],
    ) -> Rendered
        ensures done { Executes self.old self.new (Link node.now place.now target.now) result }
        ensures worker_count { self.new.workers ≡ self.old.workers }
    {
        let (at, place) = self.site(alloc, node, place)?;
        self.write(alloc, at, place, read_link(alloc, target)?)
    }

    pub(super) fn remove(&mut self, alloc: Global, node: &[u8], place: &[u8]) -> Rendered
        ensures done { Executes self.old self.new (Remove node.now place.now) result }
        ensures worker_count { self.new.workers ≡ self.old.workers }
    {
        let (at, place) = self.site(alloc, node, place)?;
        let version = match self.nodes[at].remove(place) {
            Ok(version) => version,
            Err(fault) => return Err(Fault::from(fault)),
        };
        Ok(put_done(alloc, version)?)
    }

    pub(super) fn workers(&mut self, alloc: Global, count: u32) -> Rendered
        ensures done { Executes self.old self.new (Workers count) result }
        ensures worker_count { OnOk result (self.new.workers ≡ count) }
        ensures same_worker_count { OnErr result (self.new.workers ≡ self.old.workers) }
    {
        let Some(workers) = WorkerCount::of(count) else {
            return Err(Fault::Refused(LineRefusal::Workers));
        };
        let text = Vec::from_slice(alloc, b"ok\n")?;
        self.workers = workers;
        Ok(text)
    }

    pub(super) fn profile(&mut self, alloc: Global, profile: Profile) -> Rendered
        ensures done { Executes self.old self.new (command.Profile profile) result }
        ensures worker_count { self.new.workers ≡ self.old.workers }
    {
        let text = Vec::from_slice(alloc, b"ok\n")?;
        self.profile = profile;
        Ok(text)
    }

    // Where a command writes: the index of the node with a name, and the place that a text writes.
    fn site(&self, alloc: Global, node: &[u8], place: &[u8]) -> Result<(usize, Place), Fault>
        ensures within { IfOk result (λ site. site.0 < length self.now.nodes.items) }
        ensures found { MatchResult result
            (λ site. IsSite (kept_in self.now) node.now place.now site.0 site.1)
            (HasNoSite (kept_in self.now) node.now place.now) }
    {
        let at = self.node_at(alloc, node)?;
        let place = read_place(alloc, place)?;
        Ok((at, place))
    }

    // A node puts its next edit.
    fn write(&mut self, alloc: Global, at: usize, place: Place, content: Content) -> Rendered
        requires within { at < vec_len self.old.nodes }
        ensures done { Goes (kept_in self.old) (kept_in self.new) (λ before outcome after.
            Writes before outcome after at place content) result }
        ensures worker_count { self.new.workers ≡ self.old.workers }
    {
        let version = match self.nodes[at].put(place, content) {
            Ok(version) => version,
            Err(fault) => return Err(Fault::from(fault)),
        };
        Ok(put_done(alloc, version)?)
    }
}
