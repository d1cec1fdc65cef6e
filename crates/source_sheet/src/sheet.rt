//! A sheet, and where its places are.

ghost use Rattle.std.specs.Prelude.{IfOk, IfSome};
ghost use Rattle.source_sheet.specs.Laid.{IsLaidOut};

use crate::checking::is_laid_out;
use crate::copying::copy_groups;
use crate::groups::large_groups;
use crate::layout::lay_groups;
use comp_tree::{Connect, Plane, Shape};
use costs::OutOfMemory;
use source_pick::Choice;
use std::alloc::Global;
use std::thread::Threads;

/// A window of a plane and its like on the sheet, both of this shape: where the first pixel of each stands.
#[derive(Clone, Copy, PartialEq, Eq, Debug)]
pub struct Place {
    pub left: u32,
    pub top: u32,
    pub to_left: u32,
    pub to_top: u32,
    pub shape: Shape,
}

/// A small plane with the high pixels of a plane of shape `whole`, each group at a place of its own.
#[derive(Drop)]
pub struct Sheet {
    pub plane: Plane,
    pub whole: Shape,
    pub places: Vec<Place>,
}

/// Lays the high pixels of a plane out on a sheet. `None` where the sheet would take more than half of the plane's pixels:
/// then the plane is worked on whole. Threads share the check of the places. The one error is that memory was refused.
pub fn lay_out<R: Threads + Sync>(
    rt: &R,
    alloc: Global,
    plane: &Plane,
    connect: Connect,
    choice: &Choice,
) -> Result<Option<Sheet>, OutOfMemory>
    ensures { IfOk result (λ found. IfSome found (λ sheet. IsLaidOut plane.now connect choice.now sheet)) }
{
    let Some(groups) = large_groups(alloc, plane, connect, choice)? else {
        return Ok(None);
    };
    let whole = plane.shape();
    let Some(layout) = lay_groups(alloc, whole, &groups)? else {
        return Ok(None);
    };
    let copy = copy_groups(alloc, plane, connect, choice, &groups, &layout)?;
    let places = layout.places;
    let good = is_laid_out(
        rt,
        alloc,
        plane,
        &copy,
        connect,
        choice,
        &places,
        &groups.pixels,
    )?;
    if !good {
        return Ok(None);
    }
    Ok(Some(Sheet {
        plane: copy,
        whole,
        places,
    }))
}
