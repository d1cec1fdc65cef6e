//! The rows that a query answers, read as fields and cells.
ghost use Rattle.std.specs.Prelude.{◌≡◌, ◌↔◌, ℕ, ℤ, List, IfOk, OnOk, IfSome, IsTrue, map, Some, Err};
ghost use Rattle.std.specs.declared.option.Option.{Option};
ghost use Rattle.survey_sqlite.specs.Blobs.{blob_cells, IsBlob};
ghost use Rattle.std.specs.Option.{option_map};
ghost use Rattle.survey_core.specs.Tables.{Table, IsNumbered, cells_of_field};
ghost use Rattle.survey_core.specs.Fields.{name_cmp};
ghost use Rattle.survey_sqlite.specs.Steps.{AreRising};
ghost use Rattle.survey_sqlite.specs.Rows.{IsCellsOf, text_in, IsNameRow, SayCells, SayNames};

use crate::blob::cells_in_blob;
use sqlite::Row;
use sqlite_value::value::ValueRef;
use std::alloc::Global;
use std::cmp::Ordering;
use survey_core::Field;

/// Why rows can't be read.
#[derive(Clone, Copy, Debug, PartialEq, Eq)]
pub enum Unread {
    /// A row isn't of the form that is written.
    Malformed,
    OutOfMemory,
}

/// The cells of the one row, if there is one: its blob holds whole rows, each with the number of its place.
pub fn read_cells(alloc: Global, rows: &[Row]) -> Result<Option<Vec<i64>>, Unread>
    ensures cells { (tables : List Table) (field : List ℕ) → IsCellsOf tables field rows.now →
        IfOk result (λ cells. option_map (λ c. c.items) cells ≡ cells_of_field field tables) }
    ensures numbered { IfOk result (λ cells. IfSome cells (λ cells. IsNumbered cells.items)) }
    ensures said { IfOk result (λ cells. SayCells rows.now (option_map (λ c. c.items) cells)) }
    ensures malformed { result ≡ Err Unread.Malformed →
        (said : Option (List ℤ)) → ¬ SayCells rows.now said }
{
    if rows.is_empty() {
        return Ok(None);
    }
    if rows.len() > 1 {
        return Err(Unread::Malformed);
    }
    match rows[0].get_ref(0) {
        Ok(ValueRef::Blob(blob)) => read_blob(alloc, blob),
        _ => Err(Unread::Malformed),
    }
}

fn read_blob(alloc: Global, blob: &[u8]) -> Result<Option<Vec<i64>>, Unread>
    ensures cells { IfOk result (λ cells. option_map (λ c. c.items) cells ≡ Some (blob_cells blob.now)) }
    ensures numbered { IfOk result (λ cells. IfSome cells (λ cells. IsNumbered cells.items)) }
    ensures formed { OnOk result (IsBlob blob.now) }
    ensures malformed { result ≡ Err Unread.Malformed → ¬ IsBlob blob.now }
{
    match cells_in_blob(alloc, blob) {
        Ok(Some(cells)) => Ok(Some(cells)),
        Ok(None) => Err(Unread::Malformed),
        Err(_) => Err(Unread::OutOfMemory),
    }
}

fn read_name(row: &Row) -> Result<Field, Unread>
    ensures text { IfOk result (λ field. field ≡ text_in row.now) }
    ensures formed { OnOk result (IsNameRow row.now) }
    ensures malformed { result ≡ Err Unread.Malformed → ¬ IsNameRow row.now }
{
    match row.get_ref(0) {
        Ok(ValueRef::Text(text)) => match Field::of_bytes(text) {
            Some(field) => Ok(field),
            None => Err(Unread::Malformed),
        },
        _ => Err(Unread::Malformed),
    }
}

fn ranks_before(first: &Field, second: &Field) -> bool
    ensures { IsTrue result ↔ (name_cmp first.now second.now ≡ Ordering.Less) }
{
    matches!(first.bytes().cmp(second.bytes()), Ordering::Less)
}

// Each field comes before the next.
fn are_rising(fields: &[Field]) -> bool
    ensures { IsTrue result ↔ AreRising fields.now }
{
    for at in 1..fields.len() {
        if !ranks_before(&fields[at - 1], &fields[at]) {
            return false;
        }
    }
    true
}

/// The fields, one of each row, which rise.
pub fn read_names(alloc: Global, rows: &[Row]) -> Result<Vec<Field>, Unread>
    ensures names { IfOk result (λ fields. fields.items ≡ map text_in rows.now) }
    ensures rising { IfOk result (λ fields. AreRising fields.items) }
    ensures said { OnOk result (SayNames rows.now) }
    ensures malformed { result ≡ Err Unread.Malformed → ¬ SayNames rows.now }
{
    let mut fields = Vec::new(alloc);
    for row in rows {
        let field = match read_name(row) {
            Ok(field) => field,
            Err(unread) => return Err(unread),
        };
        if fields.push(field).is_err() {
            return Err(Unread::OutOfMemory);
        }
    }
    if !are_rising(&fields) {
        return Err(Unread::Malformed);
    }
    Ok(fields)
}
