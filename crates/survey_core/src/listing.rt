//! The fields with the number of their rows and the sum of their fluxes.
ghost use Rattle.std.specs.Prelude.{◌≡◌, ◌≤◌, ◌++◌, ℕ, List, [], map, Some, IfOk, IfErr, IfSome, OnOk, OnErr, unwrap_or};
ghost use Rattle.std.specs.Option.{ForSome};
ghost use Rattle.std.specs.List.{concat};
ghost use Rattle.dev_io.specs.Causes.{HasCause};
ghost use Rattle.dev_io.specs.Streams.{PutAppends, AppendsPrefix};
ghost use Rattle.dev_io.specs.Blocks.{Moves};
ghost use Rattle.survey_core.specs.Tables.{Table, names_of, cells_of_field};
ghost use Rattle.survey_core.specs.Clauses.{Stays};
ghost use Rattle.survey_core.specs.KeeperCalls.{KeeperCause};
ghost use Rattle.survey_core.specs.Listings.{rows_in, flux_total, table_summary, summary_line};
ghost use Rattle.survey_core.specs.Sessions.{effect};
ghost use Rattle.survey_core.specs.Steps.{Cause};
ghost use Rattle.survey_core.specs.Carrying.{Step, SettledBy};

use crate::catalogue::cell;
use crate::fault::Stop;
use crate::words::Command;
use crate::{Field, Keeper};
use command_line::lines::add_all;
use dev_io::{Block, Failed, Sink};
use fits_write::{CELLS_IN_ROW, FLUX};
use itoa::Buffer;
use std::alloc::Global;

/// What is printed of a field.
#[derive(Drop)]
pub(crate) struct Summary {
    pub(crate) field: Field,
    /// How many rows it has.
    pub(crate) rows: usize,
    /// The sum of their fluxes.
    pub(crate) flux: i128,
}

// The exact sum of the fluxes.
fn flux_total(cells: &[i64]) -> i128
    ensures { result ≡ flux_total cells.now (rows_in cells.now) }
{
    let mut total = 0;
    for row in 0..cells.len() / CELLS_IN_ROW {
        total += i128::from(cell(cells, row, FLUX));
    }
    total
}

#[tactic(auto, unfolding(crate::specs::Listings::table_summary))]
fn summary_of(field: Field, cells: &[i64]) -> Summary
    ensures { result ≡ table_summary (field, cells.now) }
{
    Summary {
        field,
        rows: cells.len() / CELLS_IN_ROW,
        flux: flux_total(cells),
    }
}

/// The fields, in order.
pub(crate) fn names<K: Keeper>(alloc: Global, keeper: &mut K) -> Result<Vec<Field>, Stop>
    ensures told { IfOk result (λ fields. IfSome (K.tables keeper.old) (λ tables. fields.items ≡ names_of tables)) }
    ensures kept { Stays (K.tables keeper.old) (K.tables keeper.new) }
    ensures cause { IfErr result (KeeperCause (K.faults keeper.old) (K.faults keeper.new)) }
    ensures later { K.faults keeper.old ≤ K.faults keeper.new }
{
    match keeper.names(alloc) {
        Ok(names) => Ok(names),
        Err(refused) => Err(Stop::at_keeper(refused)),
    }
}

/// The cells of the field; none where it isn't there.
pub(crate) fn cells_kept<K: Keeper>(
    alloc: Global,
    keeper: &mut K,
    field: Field,
) -> Result<Vec<i64>, Stop>
    ensures told { IfOk result (λ cells. IfSome (K.tables keeper.old) (λ tables. cells.items ≡ unwrap_or (cells_of_field field tables) [])) }
    ensures kept { Stays (K.tables keeper.old) (K.tables keeper.new) }
    ensures cause { IfErr result (KeeperCause (K.faults keeper.old) (K.faults keeper.new)) }
    ensures later { K.faults keeper.old ≤ K.faults keeper.new }
{
    match keeper.rows(alloc, field) {
        Ok(Some(cells)) => Ok(cells),
        Ok(None) => Ok(Vec::new(alloc)),
        Err(refused) => Err(Stop::at_keeper(refused)),
    }
}

fn summarize<K: Keeper>(alloc: Global, keeper: &mut K) -> Result<Vec<Summary>, Stop>
    ensures told { IfOk result (λ summaries. IfSome (K.tables keeper.old) (λ tables. summaries.items ≡ map table_summary tables)) }
    ensures kept { Stays (K.tables keeper.old) (K.tables keeper.new) }
    ensures cause { IfErr result (KeeperCause (K.faults keeper.old) (K.faults keeper.new)) }
    ensures later { K.faults keeper.old ≤ K.faults keeper.new }
{
    let names = match names(alloc, keeper) {
        Ok(names) => names,
        Err(stop) => return Err(stop),
    };
    let mut summaries = Vec::new(alloc);
    for name in &names {
        let cells = match cells_kept(alloc, keeper, name.copy()) {
            Ok(cells) => cells,
            Err(stop) => return Err(stop),
        };
        if summaries.push(summary_of(name.copy(), &cells)).is_err() {
            return Err(Stop::NoMemory);
        }
    }
    Ok(summaries)
}

// Lets the line of a field wait.
fn add_summary<O: Sink>(sink: &mut O, block: &mut Block, summary: &Summary) -> Result<(), Failed>
    ensures ok { OnOk result (Moves (O.written sink.old) (O.written sink.new) (block.old ++ summary_line summary.now) block.new) }
    ensures err { OnErr result (AppendsPrefix (O.written sink.old) (O.written sink.new) (block.old ++ summary_line summary.now)) }
    ensures cause { HasCause (O.faults sink.old) (O.faults sink.new) result }
{
    let mut rows = Buffer::new();
    let mut flux = Buffer::new();
    let pieces: [&[u8]; 6] = [
        summary.field.bytes(),
        b" ",
        rows.format(summary.rows).as_bytes(),
        b" ",
        flux.format(summary.flux).as_bytes(),
        b"\n",
    ];
    add_all(sink, block, &pieces)
}

fn put_summaries<O: Sink>(sink: &mut O, summaries: &[Summary]) -> Result<(), Failed>
    ensures bytes { PutAppends (O.written sink.old) (O.written sink.new) result (concat (map summary_line summaries.now)) }
    ensures cause { HasCause (O.faults sink.old) (O.faults sink.new) result }
{
    let mut block = Block::new();
    for summary in summaries {
        if let Err(failed) = add_summary(sink, &mut block, summary) {
            return Err(failed);
        }
    }
    block.flush(sink)
}

/// Prints a line for each field, in order: its name, the number of its rows, and the sum of their fluxes.
pub(crate) fn list<K: Keeper, O: Sink>(
    alloc: Global,
    keeper: &mut K,
    output: &mut O,
) -> Result<(), Stop>
    ensures told { (bytes : List ℕ) → ForSome (K.tables keeper.old) (λ tables.
        Step (effect bytes tables Command.List) Command.List bytes tables (Some bytes) (K.tables keeper.new)
        (O.written output.old) (O.written output.new) result) }
    ensures cause { IfErr result (λ stop. (source : ℕ) →
        Cause Command.List source source (O.faults output.old) (O.faults output.new) (K.faults keeper.old) (K.faults keeper.new) stop) }
    ensures settled { SettledBy Command.List (O.settled output.old) (O.settled output.new) result }
    ensures write_later { O.faults output.old ≤ O.faults output.new }
    ensures keep_later { K.faults keeper.old ≤ K.faults keeper.new }
{
    let summaries = match summarize(alloc, keeper) {
        Ok(summaries) => summaries,
        Err(stop) => return Err(stop),
    };
    if let Err(_) = put_summaries(output, &summaries) {
        return Err(Stop::WriteFault);
    }
    match output.done() {
        Ok(()) => Ok(()),
        Err(_) => Err(Stop::WriteFault),
    }
}
