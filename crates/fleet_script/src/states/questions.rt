//! Commands that only read.
ghost use Rattle.script_commands.specs.declared.commands.Command.TheVariants.{Files, Text, Cat, Same, Crowd};
ghost use Rattle.script_answers.specs.Renders.{RendersInquiry};
ghost use Rattle.fleet_script.specs.{Does.{Reads}, Holds.{Executes, Goes, kept_in}};

use crate::states::{Rendered, Shell};
use place_texts::render_text;
use script_answers::{list_files, render_crowd, render_files, render_inquiry};
use script_commands::{EditCount, Inquiry, Word};
use std::alloc::Global;
use std::sync::Wait;
use std::thread::Threads;

impl Shell {
    pub(super) fn files(&self, alloc: Global, node: &[u8]) -> Rendered
        ensures done { Executes self.now self.now (Files node.now) result }
    {
        let replica = self.replica(alloc, node)?;
        Ok(list_files(alloc, replica.store())?)
    }

    // What is visible at a place.
    pub(super) fn text(&self, alloc: Global, node: &[u8], place: &[u8]) -> Rendered
        ensures done { Executes self.now self.now (Text node.now place.now) result }
    {
        let replica = self.replica(alloc, node)?;
        render_text(alloc, replica.store(), place)
    }

    // The files of a unit, as a host sees them or as they are seen without one: its fragment, and then its drop-ins.
    pub(super) fn cat(
        &self,
        alloc: Global,
        node: &[u8],
        host: Option<Word<'_>>,
        unit: &[u8],
    ) -> Rendered
        ensures done { Executes self.now self.now (Cat node.now host.entry unit.now) result }
    {
        let replica = self.replica(alloc, node)?;
        render_files(alloc, replica.store(), host, unit)
    }

    // The answer to a question about the units of a node, from all that must be loaded of it by the shell's profile.
    pub(super) fn ask<R: Threads + Sync>(
        &mut self,
        rt: &R,
        alloc: Global,
        node: &[u8],
        host: Option<Word<'_>>,
        inquiry: Inquiry<'_>,
    ) -> Rendered
        ensures done { Goes (kept_in self.old) (kept_in self.new)
            (λ before outcome after. Reads before outcome after node.now
            (RendersInquiry before.profile host.entry inquiry.entry)) result }
    {
        let at = self.node_at(alloc, node)?;
        render_inquiry(
            rt,
            alloc,
            &mut self.snapshots,
            &mut self.nodes,
            at,
            host,
            self.profile,
            inquiry,
            &self.workers,
        )
    }

    pub(super) fn same(&self, alloc: Global, left: &[u8], right: &[u8]) -> Rendered
        ensures done { Executes self.now self.now (Same left.now right.now) result }
    {
        let left = self.replica(alloc, left)?;
        let right = self.replica(alloc, right)?;
        if left.store().same(right.store()) {
            Ok(Vec::from_slice(alloc, b"same\n")?)
        } else {
            Ok(Vec::from_slice(alloc, b"differ\n")?)
        }
    }

    // What a crowd leaves on a copy of what a node holds.
    pub(super) fn crowd<R: Threads + Wait + Sync>(
        &self,
        rt: &R,
        alloc: Global,
        node: &[u8],
        seats: u32,
        edits: EditCount,
    ) -> Rendered
        ensures done { Executes self.now self.now (Crowd node.now seats edits) result }
    {
        let replica = self.replica(alloc, node)?;
        render_crowd(rt, alloc, replica, seats, edits)
    }
}
