//! The rows of all fields with the greatest fluxes.
ghost use Rattle.std.specs.Prelude.{◌≡◌, ◌≤◌, ◌<◌, ◌+◌, ◌*◌, ◌++◌, ◌∷◌, [], ℕ, List, length, map, false, true, refl, get_or, Some, IfOk, IfErr, IfSome, OnOk, OnErr};
ghost use Rattle.std.specs.BinaryHeap.{heap_items, heap_len, IsHeap, KeepsHeap};
ghost use Rattle.std.specs.Cmp.{eq_by_cmp_equiv, partial_equiv_from_equiv, partial_order_from_total};
ghost use Rattle.std.specs.List.{concat, AllByRecursion};
ghost use Rattle.std.specs.List.Sorted.{IsPermutation};
ghost use Rattle.std.specs.Option.{ForSome};
ghost use Rattle.std.specs.Ordering.{as_partial_cmp, eq_by_cmp};
ghost use Rattle.dev_io.specs.Causes.{HasCause};
ghost use Rattle.dev_io.specs.Streams.{PutAppends, AppendsPrefix};
ghost use Rattle.dev_io.specs.Blocks.{Moves};
ghost use Rattle.fits_write.specs.CatalogueColumns.{cells_in_row};
ghost use Rattle.survey_core.specs.Clauses.{Stays};
ghost use Rattle.survey_core.specs.KeeperCalls.{KeeperCause};
ghost use Rattle.survey_core.specs.Ranking.{ranking_row, rows_of, all_rows, row_cmp, ranks_before, ranked, row_line};
ghost use Rattle.survey_core.specs.Ranks.{AreBest, row_order};
ghost use Rattle.survey_core.specs.Sessions.{effect};
ghost use Rattle.survey_core.specs.Steps.{Cause};
ghost use Rattle.survey_core.specs.Carrying.{Step, SettledBy};

use crate::catalogue::cell;
use crate::fault::Stop;
use crate::listing::{cells_kept, names};
use crate::words::Command;
use crate::{Field, Keeper};
use command_line::lines::add_all;
use costs::OutOfMemory;
use dev_io::{Block, Failed, Sink};
use fits_write::{CELLS_IN_ROW, FLUX, NUMBER, XCEN, YCEN};
use itoa::Buffer;
use std::alloc::Global;
use std::cmp::Ordering;
use std::collections::BinaryHeap;

/// What is printed of a row of a catalogue.
#[derive(Drop)]
pub(crate) struct Row {
    pub(crate) field: Field,
    pub(crate) number: i64,
    pub(crate) flux: i64,
    pub(crate) xcen: i64,
    pub(crate) ycen: i64,
}

impl PartialEq for Row {
    ghost eq = { eq_by_cmp row_cmp };

    ghost laws = { partial_equiv_from_equiv (eq_by_cmp_equiv row_order) };

    fn eq(&self, other: &Row) -> bool {
        self.cmp(other).is_eq()
    }
}

impl Eq for Row {
    ghost laws = { eq_by_cmp_equiv row_order };
}

impl PartialOrd for Row {
    ghost partial_cmp = { as_partial_cmp row_cmp };

    ghost laws = { partial_order_from_total row_order };

    fn partial_cmp(&self, other: &Row) -> Option<Ordering> {
        Some(self.cmp(other))
    }
}

// By the greater flux, then by the lesser field, then by the lesser number.
impl Ord for Row {
    ghost cmp = { row_cmp };

    ghost total = { row_order };

    ghost matches_partial_cmp = { λ x y. refl };

    ghost matches_eq = { λ x y. refl };

    fn cmp(&self, other: &Row) -> Ordering {
        other
            .flux
            .cmp(&self.flux)
            .then(self.field.cmp(&other.field))
            .then(self.number.cmp(&other.number))
    }
}

#[tactic(auto, unfolding(crate::specs::Ranking::ranking_row))]
fn ranking_row(field: &Field, cells: &[i64], row: usize) -> Row
    requires { cells_in_row * row + cells_in_row ≤ length cells.now }
    ensures { result ≡ ranking_row field.now cells.now row }
{
    Row {
        field: field.copy(),
        number: cell(cells, row, NUMBER),
        flux: cell(cells, row, FLUX),
        xcen: cell(cells, row, XCEN),
        ycen: cell(cells, row, YCEN),
    }
}

// Whether so many rows that the last of them may stay come before this one.
fn is_late(best: &BinaryHeap<Row>, row: &Row) -> bool
    requires { 0 < heap_len best.now }
    ensures early { result ≡ false → (d : Row) → ranks_before row.now (get_or (heap_items best.now) 0 d) ≡ true }
    ensures late { result ≡ true → IsHeap row_cmp (heap_items best.now) → AllByRecursion (λ r. ranks_before row.now r ≡ false) (heap_items best.now) }
{
    match best.peek() {
        Some(last) => row.cmp(last) != Ordering::Less,
        None => false,
    }
}

fn keep(best: &mut BinaryHeap<Row>, row: Row) -> Result<(), OutOfMemory>
    ensures permutation { OnOk result (IsPermutation (row ∷ heap_items best.old) (heap_items best.new)) }
    ensures len { OnOk result (heap_len best.new ≡ heap_len best.old + 1) }
    ensures heap { OnOk result (KeepsHeap row_cmp (heap_items best.old) (heap_items best.new)) }
{
    match best.push(row) {
        Ok(()) => Ok(()),
        Err(_) => Err(OutOfMemory),
    }
}

// Takes a row in among the `most` best: in place of the last of them, where there are so many.
fn rank(best: &mut BinaryHeap<Row>, most: usize, row: Row) -> Result<(), OutOfMemory>
    requires { 0 < most }
    ensures { (rows : List Row) → AreBest most rows (heap_items best.old) → OnOk result (AreBest most (rows ++ row ∷ []) (heap_items best.new)) }
{
    if best.len() < most {
        return keep(best, row);
    }
    if is_late(best, &row) {
        return Ok(());
    }
    let _ = best.pop();
    keep(best, row)
}

// Ranks all rows of a field.
fn rank_all(
    best: &mut BinaryHeap<Row>,
    most: usize,
    field: &Field,
    cells: &[i64],
) -> Result<(), OutOfMemory>
    requires { 0 < most }
    ensures { (rows : List Row) → AreBest most rows (heap_items best.old) →
        OnOk result (AreBest most (rows ++ rows_of (field.now, cells.now)) (heap_items best.new)) }
{
    for row in 0..cells.len() / CELLS_IN_ROW {
        if let Err(wanted) = rank(best, most, ranking_row(field, cells, row)) {
            return Err(wanted);
        }
    }
    Ok(())
}

fn best_rows<K: Keeper>(alloc: Global, keeper: &mut K, most: usize) -> Result<Vec<Row>, Stop>
    requires { 0 < most }
    ensures told { IfOk result (λ rows. IfSome (K.tables keeper.old) (λ tables. rows.items ≡ ranked (all_rows tables) most)) }
    ensures kept { Stays (K.tables keeper.old) (K.tables keeper.new) }
    ensures cause { IfErr result (KeeperCause (K.faults keeper.old) (K.faults keeper.new)) }
    ensures later { K.faults keeper.old ≤ K.faults keeper.new }
{
    let names = match names(alloc, keeper) {
        Ok(names) => names,
        Err(stop) => return Err(stop),
    };
    let mut best = BinaryHeap::new(alloc);
    for name in &names {
        let cells = match cells_kept(alloc, keeper, name.copy()) {
            Ok(cells) => cells,
            Err(stop) => return Err(stop),
        };
        if let Err(_) = rank_all(&mut best, most, name, &cells) {
            return Err(Stop::NoMemory);
        }
    }
    Ok(best.into_sorted_vec())
}

// Lets the line of a row wait.
fn add_row<O: Sink>(sink: &mut O, block: &mut Block, row: &Row) -> Result<(), Failed>
    ensures ok { OnOk result (Moves (O.written sink.old) (O.written sink.new) (block.old ++ row_line row.now) block.new) }
    ensures err { OnErr result (AppendsPrefix (O.written sink.old) (O.written sink.new) (block.old ++ row_line row.now)) }
    ensures cause { HasCause (O.faults sink.old) (O.faults sink.new) result }
{
    let mut number = Buffer::new();
    let mut flux = Buffer::new();
    let mut xcen = Buffer::new();
    let mut ycen = Buffer::new();
    let pieces: [&[u8]; 10] = [
        row.field.bytes(),
        b" ",
        number.format(row.number).as_bytes(),
        b" ",
        flux.format(row.flux).as_bytes(),
        b" ",
        xcen.format(row.xcen).as_bytes(),
        b" ",
        ycen.format(row.ycen).as_bytes(),
        b"\n",
    ];
    add_all(sink, block, &pieces)
}

fn put_rows<O: Sink>(sink: &mut O, rows: &[Row]) -> Result<(), Failed>
    ensures bytes { PutAppends (O.written sink.old) (O.written sink.new) result (concat (map row_line rows.now)) }
    ensures cause { HasCause (O.faults sink.old) (O.faults sink.new) result }
{
    let mut block = Block::new();
    for row in rows {
        if let Err(failed) = add_row(sink, &mut block, row) {
            return Err(failed);
        }
    }
    block.flush(sink)
}

/// Prints the rows of all fields with the greatest fluxes, at most `most` of them: the name of the field, NUMBER, FLUX, XCEN and YCEN.
pub(crate) fn brightest<K: Keeper, O: Sink>(
    alloc: Global,
    most: usize,
    keeper: &mut K,
    output: &mut O,
) -> Result<(), Stop>
    requires { 0 < most }
    ensures told { (bytes : List ℕ) → ForSome (K.tables keeper.old) (λ tables.
        Step (effect bytes tables (Command.Brightest most)) (Command.Brightest most) bytes tables (Some bytes) (K.tables keeper.new)
        (O.written output.old) (O.written output.new) result) }
    ensures cause { IfErr result (λ stop. (source : ℕ) →
        Cause (Command.Brightest most) source source (O.faults output.old) (O.faults output.new) (K.faults keeper.old) (K.faults keeper.new) stop) }
    ensures settled { SettledBy (Command.Brightest most) (O.settled output.old) (O.settled output.new) result }
    ensures write_later { O.faults output.old ≤ O.faults output.new }
    ensures keep_later { K.faults keeper.old ≤ K.faults keeper.new }
{
    let best = match best_rows(alloc, keeper, most) {
        Ok(best) => best,
        Err(stop) => return Err(stop),
    };
    if let Err(_) = put_rows(output, &best) {
        return Err(Stop::WriteFault);
    }
    match output.done() {
        Ok(()) => Ok(()),
        Err(_) => Err(Stop::WriteFault),
    }
}
