//! Tables in a database file.
ghost use Rattle.std.specs.Prelude.{◌≡◌, ◌≤◌, ◌*◌, length, None, Some, IfOk, OnOk, OnErr, IfSome, is_some};
ghost use Rattle.std.specs.Option.{option_map};
ghost use Rattle.sqlite.specs.Files.{file_state};
ghost use Rattle.fits_write.specs.CatalogueColumns.{cells_in_row};
ghost use Rattle.survey_core.specs.Catalogues.{most_rows};
ghost use Rattle.survey_core.specs.Tables.{IsNumbered, put, without_field, cells_of_field, names_of};
ghost use Rattle.survey_core.specs.Clauses.{Becomes, Stays, HasFault};
ghost use Rattle.survey_sqlite.specs.Tables.{HasSource};
ghost use Rattle.survey_sqlite.specs.Turns.{Turns, ShowsCells, ShowsNames, ShowsField, IsWorkedOn, Worked, TurnedTo};
ghost use Rattle.survey_sqlite.specs.Calls.{CountsFound, Untouched};
ghost use Rattle.survey_sqlite.specs.Steps.{AreRising};
ghost use Rattle.survey_sqlite.specs.Blobs.{blob_cells};

use crate::blob::blob_of;
use crate::faults::{refused, unshown};
use crate::shown::{Unshown, cells_shown, names_shown};
use crate::statements::{make_table, put_row, remove_row};
use sqlite::{Connection, Error, File, FileStore};
use std::alloc::Global;
use std::rt::HostRuntime;
use survey_core::{Field, Keeper, Refused};

/// A keeper over a file, which its first call opens. It doesn't tell its tables.
#[derive(Drop)]
pub struct FileKeeper<'a> {
    rt: &'a HostRuntime,
    path: &'a str,
    conn: Option<Connection<FileStore<File>>>,
    faults: u64,
}

/// The database of the file, with the table.
fn opened(rt: &HostRuntime, path: &str) -> Result<Connection<FileStore<File>>, Error>
    ensures { IfOk result (λ conn. HasSource conn.schema) }
{
    let mut conn = Connection::open(rt, path)?;
    make_table(&mut conn)?;
    Ok(conn)
}

impl<'a> FileKeeper<'a> {
    ghost use Rattle.survey_sqlite.specs.Seen.{file_faults};

    /// A keeper with no connection yet: its first call opens the file of this path, and makes it where there is none.
    pub fn at(rt: &'a HostRuntime, path: &'a str) -> FileKeeper<'a>
        ensures { file_faults result ≡ 0 }
    {
        FileKeeper {
            rt,
            path,
            conn: None,
            faults: 0,
        }
    }

    /// Takes the connection out, or makes one.
    fn taken(&mut self) -> Result<Connection<FileStore<File>>, Error>
        ensures same { self.new.faults ≡ self.old.faults }
        ensures worked_on { IfOk result (λ conn. IsWorkedOn file_state self.old.conn conn) }
        ensures none { OnErr result ((self.old.conn ≡ None) × (self.new.conn ≡ None)) }
    {
        match self.conn.take() {
            Some(conn) => Ok(conn),
            None => opened(self.rt, self.path),
        }
    }

    /// Puts the connection back. None stands in its place, which `taken` left empty.
    fn put_back(&mut self, conn: Connection<FileStore<File>>)
        ensures same { self.new.faults ≡ self.old.faults }
        ensures there { self.new.conn ≡ Some conn }
    {
        if let Some(other) = self.conn.replace(conn) {
            let _ = other.close();
        }
    }

    /// Gives the field this blob.
    fn put(&mut self, field: &Field, blob: &[u8]) -> Result<usize, Error>
        requires { IsNumbered (blob_cells blob.now) }
        ensures same { self.new.faults ≡ self.old.faults }
        ensures turned { OnOk result (TurnedTo file_state self.old.conn self.new.conn (put field.now (blob_cells blob.now))) }
        ensures untouched { OnErr result (Untouched file_state self.old.conn self.new.conn) }
    {
        match self.taken() {
            Ok(mut conn) => {
                let done = put_row(&mut conn, field, blob);
                self.put_back(conn);
                done
            }
            Err(error) => Err(error),
        }
    }

    /// Takes the field out, and answers how many rows that changed.
    fn take_out(&mut self, field: &Field) -> Result<usize, Error>
        ensures same { self.new.faults ≡ self.old.faults }
        ensures turned { OnOk result (TurnedTo file_state self.old.conn self.new.conn (without_field field.now)) }
        ensures found { IfOk result (λ count. Worked file_state self.old.conn self.new.conn (λ s t. CountsFound s t field.now count)) }
        ensures untouched { OnErr result (Untouched file_state self.old.conn self.new.conn) }
    {
        match self.taken() {
            Ok(mut conn) => {
                let done = remove_row(&mut conn, field);
                self.put_back(conn);
                done
            }
            Err(error) => Err(error),
        }
    }

    /// The fields, in order.
    fn fields(&mut self, alloc: Global) -> Result<Vec<Field>, Unshown>
        ensures same { self.new.faults ≡ self.old.faults }
        ensures rising { IfOk result (λ fields. AreRising fields.items) }
        ensures shown { IfOk result (λ fields. Worked file_state self.old.conn self.new.conn (λ s t. ShowsNames s t fields.items)) }
        ensures untouched { Untouched file_state self.old.conn self.new.conn }
    {
        match self.taken() {
            Ok(mut conn) => {
                let shown = names_shown(alloc, &mut conn);
                self.put_back(conn);
                shown
            }
            Err(error) => Err(Unshown::Refused(error)),
        }
    }

    /// The cells of the field, if it is there.
    fn cells(&mut self, alloc: Global, field: &Field) -> Result<Option<Vec<i64>>, Unshown>
        ensures same { self.new.faults ≡ self.old.faults }
        ensures numbered { IfOk result (λ cells. IfSome cells (λ cells. IsNumbered cells.items)) }
        ensures shown { IfOk result
            (λ cells. Worked file_state self.old.conn self.new.conn (λ s t. ShowsCells s t field.now (option_map (λ c. c.items) cells))) }
        ensures untouched { Untouched file_state self.old.conn self.new.conn }
    {
        match self.taken() {
            Ok(mut conn) => {
                let shown = cells_shown(alloc, &mut conn, field);
                self.put_back(conn);
                shown
            }
            Err(error) => Err(Unshown::Refused(error)),
        }
    }

    /// Copies the file's log into it, so that the file alone holds the tables. Where that fails they stay in the log, where the next
    /// connection finds them.
    pub fn close(self) {
        if let Some(conn) = self.conn {
            let _ = conn.close();
        }
    }
}

impl Keeper for FileKeeper<'_> {
    ghost use Rattle.survey_sqlite.specs.Seen.{file_tables, file_faults};

    ghost tables = { λ k. file_tables k };

    ghost faults = { λ k. file_faults k };

    fn replace(&mut self, alloc: Global, field: Field, cells: &[i64]) -> Result<(), Refused>
        requires numbered { IsNumbered cells.now }
        requires few { length cells.now ≤ cells_in_row * most_rows }
        ensures done { OnOk result (Becomes (file_tables self.old) (file_tables self.new) (put field cells.now)) }
        ensures kept { OnErr result (Stays (file_tables self.old) (file_tables self.new)) }
        ensures cause { HasFault (file_faults self.old) (file_faults self.new) result }
        // As far as the file shows its tables, they become these.
        ensures turned { OnOk result (TurnedTo file_state self.old.conn self.new.conn (put field cells.now)) }
    {
        let blob = match blob_of(alloc, cells) {
            Ok(blob) => blob,
            Err(_) => return Err(Refused::OutOfMemory),
        };
        match self.put(&field, &blob) {
            Ok(_) => Ok(()),
            Err(error) => Err(refused(&mut self.faults, error)),
        }
    }

    fn remove(&mut self, _alloc: Global, field: Field) -> Result<bool, Refused>
        ensures done { OnOk result (Becomes (file_tables self.old) (file_tables self.new) (without_field field)) }
        ensures found { IfOk result (λ found. IfSome (file_tables self.old) (λ tables. found ≡ is_some (cells_of_field field tables))) }
        ensures kept { OnErr result (Stays (file_tables self.old) (file_tables self.new)) }
        ensures cause { HasFault (file_faults self.old) (file_faults self.new) result }
        // As far as the file shows its tables, they become these.
        ensures turned { OnOk result (TurnedTo file_state self.old.conn self.new.conn (without_field field)) }
        // So it tells whether the field was there.
        ensures shown { IfOk result (λ found. Worked file_state self.old.conn self.new.conn (λ s t. ShowsField s t field found)) }
    {
        match self.take_out(&field) {
            Ok(count) => Ok(count == 1),
            Err(error) => Err(refused(&mut self.faults, error)),
        }
    }

    fn names(&mut self, alloc: Global) -> Result<Vec<Field>, Refused>
        ensures names { IfOk result (λ fields. IfSome (file_tables self.old) (λ tables. fields.items ≡ names_of tables)) }
        ensures kept { Stays (file_tables self.old) (file_tables self.new) }
        ensures cause { HasFault (file_faults self.old) (file_faults self.new) result }
        // Whatever the file holds, the fields that come of it rise.
        ensures rising { IfOk result (λ fields. AreRising fields.items) }
        // As far as the file shows its tables, these are their fields.
        ensures shown { IfOk result (λ fields. Worked file_state self.old.conn self.new.conn (λ s t. ShowsNames s t fields.items)) }
    {
        match self.fields(alloc) {
            Ok(fields) => Ok(fields),
            Err(why) => Err(unshown(&mut self.faults, why)),
        }
    }

    fn rows(&mut self, alloc: Global, field: Field) -> Result<Option<Vec<i64>>, Refused>
        ensures rows { IfOk result (λ rows. IfSome (file_tables self.old) (λ tables. option_map (λ cells. cells.items) rows ≡ cells_of_field field tables)) }
        ensures kept { Stays (file_tables self.old) (file_tables self.new) }
        ensures cause { HasFault (file_faults self.old) (file_faults self.new) result }
        // Whatever the file holds, what comes of it is whole rows, each with the number of its place.
        ensures numbered { IfOk result (λ rows. IfSome rows (λ cells. IsNumbered cells.items)) }
        // As far as the file shows its tables, these are the field's cells.
        ensures shown { IfOk result
            (λ rows. Worked file_state self.old.conn self.new.conn (λ s t. ShowsCells s t field (option_map (λ c. c.items) rows))) }
    {
        match self.cells(alloc, &field) {
            Ok(cells) => Ok(cells),
            Err(why) => Err(unshown(&mut self.faults, why)),
        }
    }

    ghost tables_are = { λ _. tt };
}
