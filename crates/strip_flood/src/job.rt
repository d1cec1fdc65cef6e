//! A strip's job: all that its flooding takes, and then its links.

ghost use Rattle.std.specs.Prelude.{◌≡◌, ◌+◌, ◌-◌, ◌*◌, ◌^◌, ◌<◌, ◌≤◌, length, true, false, IfOk};
ghost use Rattle.comp_tree.specs.Forest.{no_node};
ghost use Rattle.strip_flood.specs.Jobs.{SuitsStrip, IsStanding, IsStandingWhereFlooded, defined_count, adjacency_count};
ghost use Rattle.strip_flood.specs.Jobs.{IsAll};

use crate::flood::Flood;
use crate::levels::rank_pixels;
use crate::strip::{Strip, offsets};
use comp_tree::{Connect, Plane, Shape};
use costs::{OutOfMemory, Steps};
use std::alloc::Global;
use std::marker::Model;
use std::sync::ledger::Ledger;

/// A strip of a plane, the rows from `first_row` up to and without `end_row`, with all memory that its flooding takes. Its links
/// hold pixel numbers of the whole plane.
#[derive(Drop)]
pub struct StripJob {
    shape: Shape,
    first_row: u32,
    end_row: u32,
    strip: Strip,
    flood: Flood,
    flooded: bool,
}

impl Model for StripJob {
    ghost use Rattle.strip_flood.specs.Jobs.{JobView};
    ghost use Rattle.strip_flood.specs.JobFields.{view_of, HasJobFields};

    ghost Value = { JobView };

    ghost view = { λ j. view_of j.shape.width j.shape.height j.first_row j.end_row j.strip j.flood j.flooded };

    ghost invariant = { λ j. HasJobFields j.shape.width j.shape.height j.first_row j.end_row j.strip j.flood j.flooded };
}

impl StripJob {
    /// A job for these rows, not flooded: of a plane of more than 2^24 pixels they have no more. It takes all memory that the flooding
    /// needs.
    pub fn prepare(
        alloc: Global,
        plane: &Plane,
        connect: Connect,
        first_row: u32,
        end_row: u32,
    ) -> Result<StripJob, OutOfMemory>
        requires rows { first_row < end_row }
        requires inside { end_row ≤ plane.now.shape.height }
        requires short { 2 ^ 24 < plane.now.shape.width * plane.now.shape.height
            → (end_row - first_row) * plane.now.shape.width ≤ 2 ^ 24 }
        ensures fit { IfOk result (λ job. SuitsStrip job plane.now) }
        ensures connect { IfOk result (λ job. job.connect ≡ connect) }
        ensures first_row { IfOk result (λ job. job.first_row ≡ first_row) }
        ensures end_row { IfOk result (λ job. job.end_row ≡ end_row) }
        ensures unflooded { IfOk result (λ job. job.flooded ≡ false) }
        ensures links { IfOk result (λ job. length job.links ≡ length job.values) }
        ensures unlinked { IfOk result (λ job. IsAll job.links no_node) }
    {
        let shape = plane.shape();
        let first = first_row * shape.width;
        let end = end_row * shape.width;
        let ranking = rank_pixels(alloc, plane, first, end)?;
        let flood = Flood::new(
            alloc,
            ranking.ranks.len() as u32,
            ranking.levels.len() as u32,
        )?;
        let strip = Strip {
            connect,
            width: shape.width,
            first,
            ranks: ranking.ranks,
            levels: ranking.levels,
            offsets: offsets(connect, shape.width),
        };
        Ok(StripJob {
            shape,
            first_row,
            end_row,
            strip,
            flood,
            flooded: false,
        })
    }

    /// Whether its links are made.
    pub fn is_flooded(&self) -> bool
        ensures { result ≡ self.now.flooded }
    {
        self.flooded
    }

    /// The first row of the strip.
    pub fn first_row(&self) -> u32
        ensures { result ≡ self.now.first_row }
    {
        self.first_row
    }

    /// The row after the last of the strip.
    pub fn end_row(&self) -> u32
        ensures { result ≡ self.now.end_row }
    {
        self.end_row
    }

    /// The link of each pixel of the strip, in the order of the pixels.
    pub fn parents(&self) -> &[u32]
        ensures links { result.now ≡ self.now.links }
        ensures count { length self.now.links ≡ length self.now.values }
        ensures standing { IsStandingWhereFlooded self.now }
    {
        &self.flood.links
    }

    /// Gives the links out of the job, in the order of the pixels, and lets go of all else.
    pub fn into_parents(self) -> Vec<u32>
        ensures links { result.items ≡ self.links }
        ensures count { length self.links ≡ length self.values }
        ensures standing { IsStandingWhereFlooded self }
    {
        let flood = self.flood;
        flood.links
    }

    /// Floods the strip. It takes no memory, and reads no value of the plane again: the plane is named for the contract alone.
    pub fn flood<A: Ledger, B: Ledger>(
        &mut self,
        plane: &Plane,
        queued: &mut Steps<A>,
        looked: &mut Steps<B>,
    )
        requires fit { SuitsStrip self.old plane.now }
        requires unflooded { self.old.flooded ≡ false }
        ensures flooded { self.new.flooded ≡ true }
        ensures width { self.new.width ≡ self.old.width }
        ensures height { self.new.height ≡ self.old.height }
        ensures connect { self.new.connect ≡ self.old.connect }
        ensures first_row { self.new.first_row ≡ self.old.first_row }
        ensures end_row { self.new.end_row ≡ self.old.end_row }
        ensures values { self.new.values ≡ self.old.values }
        ensures links { length self.new.links ≡ length self.new.values }
        ensures standing { IsStanding self.new plane.now }
        ensures queued { queued.new ≡ queued.old + defined_count self.new plane.now }
        ensures looked { looked.new ≡ looked.old + adjacency_count self.new plane.now }
    {
        self.flood.run(&self.strip, queued, looked);
        self.flooded = true;
    }
}
