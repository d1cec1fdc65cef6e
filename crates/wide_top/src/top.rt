//! The run by its first word.
ghost use Rattle.command_line.specs.Lines.{texts};
ghost use Rattle.run_relation.specs.Headline.{use_of_input, use_of_output};
ghost use Rattle.wide_top.specs.WideRuns.{IsRunOfWide};

use detect_top::run_within;
use dev_io::{Sink, Source};
use join_top::run_join;
use pixel_plane::Limits;
use std::alloc::Global;
use std::thread::Threads;
use strip_crew::Gate;
use tile_top::run_tile;

/// Does what the words say, over this input, where images have these limits, and answers its status.
pub fn run_wide<R: Threads + Sync, S: Source, O: Sink, N: Sink, G: Gate>(
    rt: &R,
    alloc: Global,
    words: &[&str],
    limits: &Limits,
    input: &mut S,
    output: &mut O,
    notes: &mut N,
    gate: &G,
) -> u8
    ensures { IsRunOfWide limits.now (texts words.now)
        (use_of_input S.left S.ended S.faults input.old input.new)
        (use_of_output O.written O.settled O.faults output.old output.new)
        (use_of_output N.written N.settled N.faults notes.old notes.new) result }
{
    match words.first() {
        Some(word) if *word == "tile" => {
            run_tile(rt, alloc, words, limits, input, output, notes, gate)
        }
        Some(word) if *word == "join" => run_join(alloc, words, input, output, notes),
        _ => run_within(rt, alloc, words, limits, input, output, notes, gate),
    }
}
