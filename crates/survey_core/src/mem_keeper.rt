//! Tables in memory.
ghost use Rattle.std.specs.Prelude.{◌≡◌, ◌<◌, ◌≤◌, ◌+◌, ◌*◌, ◌^◌, ◌-◌, List, [], length, take, drop, min, map, slice_get, true, false, Some, None, IfSome, IfOk, OnOk, OnErr, IsTrue, is_err, is_some, if◌then◌else◌, slice_set, slice_index_or, ◌==◌};
ghost use Rattle.std.specs.List.{AllByRecursion, list_any};
ghost use Rattle.std.specs.Option.{option_map};
ghost use Rattle.fits_write.specs.CatalogueColumns.{cells_in_row};
ghost use Rattle.survey_core.specs.Catalogues.{most_rows};
ghost use Rattle.survey_core.specs.Fields.{name_cmp, is_name};
ghost use Rattle.survey_core.specs.Tables.{AreTables, AreInOrder, IsNumbered, put, without_field, cells_of_field, names_of};
ghost use Rattle.survey_core.specs.Clauses.{Becomes, Stays, HasFault};
ghost use Rattle.survey_core.specs.Props.{AreTables-prop};
ghost use Rattle.survey_core.specs.Places.{IsPlace};
ghost use Rattle.dev_io.specs.Fakes.{fails_next, one_more};
ghost use Rattle.survey_core.specs.Mem.{tables_kept};
ghost use Rattle.dev_io.specs.Causes.{Rose};
ghost use Rattle.survey_core.specs.declared.mem_keeper.Entry.{Entry};

use crate::{Field, Keeper, Refused};
use costs::OutOfMemory;
use std::alloc::Global;
use std::cmp::Ordering;

/// A field and its cells.
#[derive(Drop)]
pub(crate) struct Entry {
    pub(crate) field: Field,
    pub(crate) cells: Vec<i64>,
}

/// Where the field stands, or where it belongs.
fn place(entries: &[Entry], field: &Field) -> (usize, bool)
    ensures place { IsPlace entries.now field.now result.0 result.1 }
    ensures named { is_name field.now ≡ true }
{
    let name = field.bytes();
    let mut at = 0;
    while at < entries.len() {
        match entries[at].field.bytes().cmp(name) {
            Ordering::Less => at += 1,
            Ordering::Equal => return (at, true),
            Ordering::Greater => return (at, false),
        }
    }
    (at, false)
}

/// Gives the field these cells.
fn put_entry(entries: &mut Vec<Entry>, field: Field, cells: Vec<i64>) -> Result<(), OutOfMemory>
    ensures named { is_name field ≡ true }
    ensures done { OnOk result (tables_kept entries.new.items ≡ put field cells.items (tables_kept entries.old.items)) }
    ensures kept { OnErr result (tables_kept entries.new.items ≡ tables_kept entries.old.items) }
{
    let (at, found) = place(entries.as_slice(), &field);
    if found {
        set_cells(entries, at, cells);
        return Ok(());
    }
    match entries.insert(at, Entry { field, cells }) {
        Ok(()) => Ok(()),
        Err(_) => Err(OutOfMemory),
    }
}

fn set_cells(entries: &mut [Entry], at: usize, cells: Vec<i64>)
    requires { at < length entries.old }
    ensures { (d : Entry) → entries.new ≡ slice_set entries.old at (record (slice_index_or entries.old at d) { cells = cells }) }
{
    entries[at].cells = cells;
}

/// Takes the field out, and answers whether it was there.
fn drop_entry(entries: &mut Vec<Entry>, field: &Field) -> bool
    requires { AreInOrder (tables_kept entries.old.items) }
    ensures done { tables_kept entries.new.items ≡ without_field field.now (tables_kept entries.old.items) }
    ensures found { result ≡ is_some (cells_of_field field.now (tables_kept entries.old.items)) }
{
    let (at, found) = place(entries, field);
    if found {
        entries.remove(at);
    }
    found
}

/// The cells of the field, if it is there.
fn find_cells<'e>(entries: &'e [Entry], field: &Field) -> Option<&'e [i64]>
    requires { AreInOrder (tables_kept entries.now) }
    ensures { option_map (λ cells. cells.now) result ≡ cells_of_field field.now (tables_kept entries.now) }
{
    let (at, found) = place(entries, field);
    if found {
        Some(&entries[at].cells)
    } else {
        None
    }
}

/// A keeper in memory, for tests and for runs whose tables end with them: it fails where it is asked to.
#[derive(Drop)]
pub struct MemKeeper<'a> {
    entries: Vec<Entry>,
    fails: &'a [u32],
    calls: u64,
    faults: u64,
    ghost tables_are: { AreTables (tables_kept entries.items) } by { AreTables-prop (tables_kept entries.items) },
}

impl<'a> MemKeeper<'a> {
    ghost use Rattle.survey_core.specs.Counted.{kept_tables, keeper_calls, keeper_faults, keeper_fails};

    /// A keeper with no field, which takes no memory yet. The calls of `replace`, `remove`, `names` and `rows` are numbered together, from 1: one
    /// whose number stands in `fails` will fail.
    pub fn new(alloc: Global, fails: &'a [u32]) -> MemKeeper<'a>
        ensures empty { kept_tables result ≡ [] }
        ensures fails { keeper_fails result ≡ fails.now }
        ensures calls { keeper_calls result ≡ 0 }
        ensures faults { keeper_faults result ≡ 0 }
    {
        MemKeeper {
            entries: Vec::new(alloc),
            fails,
            calls: 0,
            faults: 0,
        }
    }

    /// Counts a call, and answers whether it is to fail.
    fn fails(&mut self) -> bool
        ensures same { self.new.entries ≡ self.old.entries }
        ensures later { self.old.faults ≤ self.new.faults }
        ensures rose { IsTrue result → Rose self.old.faults self.new.faults }
        ensures told { result ≡ fails_next self.old.fails.now self.old.calls }
        ensures faults { self.new.faults ≡
            (if result then one_more self.old.faults else self.old.faults) }
        ensures calls { self.new.calls ≡ one_more self.old.calls }
        ensures same_fails { self.new.fails ≡ self.old.fails }
    {
        self.calls = self.calls.saturating_add(1);
        let to_fail = is_among(self.calls, self.fails);
        if to_fail {
            self.faults = self.faults.saturating_add(1);
        }
        to_fail
    }
}

/// The number stands among these.
fn is_among(number: u64, numbers: &[u32]) -> bool
    ensures { result ≡ list_any (λ n. n == number) numbers.now }
{
    numbers.iter().any(|n| u64::from(*n) == number)
}

impl Keeper for MemKeeper<'_> {
    ghost use Rattle.survey_core.specs.Counted.{kept_tables, keeper_faults, IsKeeperCall};

    ghost tables = { λ k. Some (kept_tables k) };

    ghost faults = { λ k. keeper_faults k };

    fn replace(&mut self, alloc: Global, field: Field, cells: &[i64]) -> Result<(), Refused>
        requires numbered { IsNumbered cells.now }
        requires few { length cells.now ≤ cells_in_row * most_rows }
        ensures done { OnOk result
            (Becomes (Some (kept_tables self.old)) (Some (kept_tables self.new))
            (put field cells.now)) }
        ensures kept { OnErr result
            (Stays (Some (kept_tables self.old)) (Some (kept_tables self.new))) }
        ensures cause { HasFault (keeper_faults self.old) (keeper_faults self.new) result }
        // It fails where its number is one of those, and at no other call.
        ensures counted { IsKeeperCall self.old self.new result }
    {
        if self.fails() {
            return Err(Refused::Fault);
        }
        let copy = match Vec::from_slice(alloc, cells) {
            Ok(copy) => copy,
            Err(_) => return Err(Refused::OutOfMemory),
        };
        match put_entry(&mut self.entries, field, copy) {
            Ok(()) => Ok(()),
            Err(_) => Err(Refused::OutOfMemory),
        }
    }

    fn remove(&mut self, _alloc: Global, field: Field) -> Result<bool, Refused>
        ensures done { OnOk result
            (Becomes (Some (kept_tables self.old)) (Some (kept_tables self.new))
            (without_field field)) }
        ensures found { IfOk result
            (λ found. IfSome (Some (kept_tables self.old))
            (λ tables. found ≡ is_some (cells_of_field field tables))) }
        ensures kept { OnErr result
            (Stays (Some (kept_tables self.old)) (Some (kept_tables self.new))) }
        ensures cause { HasFault (keeper_faults self.old) (keeper_faults self.new) result }
        // It fails where its number is one of those, and at no other call.
        ensures counted { IsKeeperCall self.old self.new result }
    {
        if self.fails() {
            return Err(Refused::Fault);
        }
        Ok(drop_entry(&mut self.entries, &field))
    }

    fn names(&mut self, alloc: Global) -> Result<Vec<Field>, Refused>
        ensures names { IfOk result
            (λ fields. IfSome (Some (kept_tables self.old))
            (λ tables. fields.items ≡ names_of tables)) }
        ensures kept { Stays (Some (kept_tables self.old)) (Some (kept_tables self.new)) }
        ensures cause { HasFault (keeper_faults self.old) (keeper_faults self.new) result }
        // It fails where its number is one of those, and at no other call.
        ensures counted { IsKeeperCall self.old self.new result }
    {
        if self.fails() {
            return Err(Refused::Fault);
        }
        let mut fields = Vec::new(alloc);
        for entry in &self.entries {
            if fields.push(entry.field.copy()).is_err() {
                return Err(Refused::OutOfMemory);
            }
        }
        Ok(fields)
    }

    fn rows(&mut self, alloc: Global, field: Field) -> Result<Option<Vec<i64>>, Refused>
        ensures rows { IfOk result
            (λ rows. IfSome (Some (kept_tables self.old))
            (λ tables. option_map (λ cells. cells.items) rows ≡ cells_of_field field tables)) }
        ensures kept { Stays (Some (kept_tables self.old)) (Some (kept_tables self.new)) }
        ensures cause { HasFault (keeper_faults self.old) (keeper_faults self.new) result }
        // It fails where its number is one of those, and at no other call.
        ensures counted { IsKeeperCall self.old self.new result }
    {
        if self.fails() {
            return Err(Refused::Fault);
        }
        let Some(cells) = find_cells(&self.entries, &field) else {
            return Ok(None);
        };
        match Vec::from_slice(alloc, cells) {
            Ok(copy) => Ok(Some(copy)),
            Err(_) => Err(Refused::OutOfMemory),
        }
    }

    ghost tables_are = { λ k. k.tables_are };
}
