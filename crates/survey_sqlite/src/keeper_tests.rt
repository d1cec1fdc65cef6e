//! Fields and keepers, call by call.
ghost use Rattle.std.specs.Prelude.{◌≡◌, ◌*◌, length, IfOk};
ghost use Rattle.fits_write.specs.CatalogueColumns.{cells_in_row};
ghost use Rattle.survey_core.specs.Tables.{IsNumbered};

use crate::FileKeeper;
use fits_write::{CELLS_IN_ROW, NUMBER};
use std::alloc::{AllocError, Global};
use std::fs;
use std::process::Abort;
use std::rt::HostRuntime;
use std::test::Fail;
use survey_core::{Field, Keeper, MemKeeper, Refused};

const NO_NAMES: [&str; 5] = ["", "a b", "a.b", ".", "ABCDEFGHIJKLMNOPQ"];

#[test]
fn names_have_letters(rt: HostRuntime) -> Result<(), Fail> {
    for name in NO_NAMES {
        assert!(rt; Field::of(name).is_none());
    }
    assert!(rt; Field::of("A-z_09").is_some());
    Ok(())
}

/// The field of this name, which is one.
pub(crate) fn field<R: Abort>(rt: &R, name: &str) -> Field {
    match Field::of(name) {
        Some(field) => field,
        None => panic!(rt; "a field"),
    }
}

/// How many fields the keeper names.
pub(crate) fn count_names<K: Keeper>(alloc: Global, keeper: &mut K) -> Option<usize> {
    match keeper.names(alloc) {
        Ok(names) => Some(names.len()),
        Err(_) => None,
    }
}

/// So many rows, numbered from 1, whose other cells are 0.
fn numbered(alloc: Global, rows: u16) -> Result<Vec<i64>, AllocError>
    ensures numbered { IfOk result (λ cells. IsNumbered cells.items) }
    ensures length { IfOk result (λ cells. length cells.items ≡ cells_in_row * rows) }
{
    let mut cells = Vec::new(alloc);
    for row in 0..rows {
        let number = i64::from(row) + 1;
        let mut cells_of_row = [0; CELLS_IN_ROW];
        cells_of_row[NUMBER] = number;
        cells.extend_from_slice(&cells_of_row)?;
    }
    Ok(cells)
}

// Gives the field so many rows, and answers whether that was done.
fn puts<K: Keeper>(alloc: Global, keeper: &mut K, field: &Field, rows: u16) -> Result<bool, Fail> {
    let cells = numbered(alloc, rows)?;
    Ok(keeper.replace(alloc, field.copy(), &cells).is_ok())
}

// Whether the field has exactly so many rows.
fn has<K: Keeper>(alloc: Global, keeper: &mut K, field: &Field, rows: u16) -> Result<bool, Fail> {
    let cells = numbered(alloc, rows)?;
    let kept = keeper.rows(alloc, field.copy());
    Ok(matches!(&kept, Ok(Some(kept)) if kept.as_slice() == cells.as_slice()))
}

fn lacks<K: Keeper>(alloc: Global, keeper: &mut K, field: &Field) -> bool {
    matches!(keeper.rows(alloc, field.copy()), Ok(None))
}

// Whether the field was there to be taken out, unless the keeper refused.
fn takes_out<K: Keeper>(alloc: Global, keeper: &mut K, field: &Field) -> Option<bool> {
    match keeper.remove(alloc, field.copy()) {
        Ok(found) => Some(found),
        Err(_) => None,
    }
}

fn is_fault_to_name<K: Keeper>(alloc: Global, keeper: &mut K) -> bool {
    matches!(keeper.names(alloc), Err(Refused::Fault))
}

#[test]
fn a_named_call_fails(rt: HostRuntime) -> Result<(), Fail> {
    let mut keeper = MemKeeper::new(rt.alloc(), &[1]);
    assert!(rt; is_fault_to_name(rt.alloc(), &mut keeper));
    assert_eq!(rt; count_names(rt.alloc(), &mut keeper), Some(0));
    Ok(())
}

// A table is put in, replaced and taken out.
fn keeps_the_last<K: Keeper, R: Abort>(rt: &R, alloc: Global, keeper: &mut K) -> Result<(), Fail> {
    let a = field(rt, "A-1");
    assert!(rt; puts(alloc, keeper, &a, 2)?);
    assert!(rt; puts(alloc, keeper, &a, 1)?);
    assert!(rt; has(alloc, keeper, &a, 1)?);
    assert_eq!(rt; takes_out(alloc, keeper, &a), Some(true));
    assert_eq!(rt; takes_out(alloc, keeper, &a), Some(false));
    assert!(rt; lacks(alloc, keeper, &a));
    assert!(rt; puts(alloc, keeper, &a, 0)?);
    assert!(rt; has(alloc, keeper, &a, 0)?);
    Ok(())
}

// Beside a field with many rows.
fn keeps_many_rows<K: Keeper, R: Abort>(rt: &R, alloc: Global, keeper: &mut K) -> Result<(), Fail> {
    let (a, b) = (field(rt, "A-1"), field(rt, "B"));
    assert!(rt; puts(alloc, keeper, &b, 10000)?);
    assert!(rt; puts(alloc, keeper, &a, 2)?);
    assert_eq!(rt; count_names(alloc, keeper), Some(2));
    keeps_the_last(rt, alloc, keeper)?;
    assert_eq!(rt; count_names(alloc, keeper), Some(2));
    assert!(rt; has(alloc, keeper, &b, 10000)?);
    Ok(())
}

#[test]
fn many_rows(rt: HostRuntime) -> Result<(), Fail> {
    let alloc = rt.alloc();
    keeps_many_rows(&rt, alloc, &mut MemKeeper::new(alloc, &[]))
}

#[test]
fn many_rows_in_a_file(rt: HostRuntime) -> Result<(), Fail> {
    let _ = fs::remove_dir_all(&rt, "survey_sqlite_many");
    fs::create_dir(&rt, "survey_sqlite_many")?;
    let mut keeper = FileKeeper::at(&rt, "survey_sqlite_many/s.db");
    keeps_many_rows(&rt, rt.alloc(), &mut keeper)?;
    keeper.close();
    fs::remove_dir_all(&rt, "survey_sqlite_many")?;
    Ok(())
}

// The field's two rows are there, and can be taken out once.
fn finds_two<K: Keeper, R: Abort>(rt: &R, alloc: Global, keeper: &mut K) -> Result<(), Fail> {
    let a = field(rt, "A-1");
    assert!(rt; has(alloc, keeper, &a, 2)?);
    assert_eq!(rt; takes_out(alloc, keeper, &a), Some(true));
    assert_eq!(rt; takes_out(alloc, keeper, &a), Some(false));
    Ok(())
}

const FILE: &str = "survey_sqlite_file/s.db";

const NOWHERE: &str = "survey_sqlite_file/none/s.db";

// The keeper is dropped, and not closed.
fn puts_in_file(rt: &HostRuntime, field: &Field, rows: u16) -> Result<bool, Fail> {
    puts(rt.alloc(), &mut FileKeeper::at(rt, FILE), field, rows)
}

#[test]
fn a_file_is_found_again(rt: HostRuntime) -> Result<(), Fail> {
    let alloc = rt.alloc();
    let _ = fs::remove_dir_all(&rt, "survey_sqlite_file");
    fs::create_dir(&rt, "survey_sqlite_file")?;
    assert!(rt; puts_in_file(&rt, &field(&rt, "A-1"), 2)?);
    finds_two(&rt, alloc, &mut FileKeeper::at(&rt, FILE))?;
    assert!(rt; is_fault_to_name(alloc, &mut FileKeeper::at(&rt, NOWHERE)));
    fs::remove_dir_all(&rt, "survey_sqlite_file")?;
    Ok(())
}
