//! What a connection shows of the table `source`, over any store: a row of another form is told as one, and never passed over.
ghost use Rattle.std.specs.Prelude.{IfOk, IfSome};
ghost use Rattle.std.specs.Option.{option_map};
ghost use Rattle.survey_core.specs.Tables.{IsNumbered};
ghost use Rattle.sqlite.specs.Held.{state};
ghost use Rattle.survey_sqlite.specs.Steps.{AreRising};
ghost use Rattle.survey_sqlite.specs.Turns.{Turns, StaysOpen, ShowsCells, ShowsNames};

use crate::reading::{Unread, read_cells, read_names};
use crate::statements::{find_blob, list_names};
use sqlite::{Alter, Connection, Error};
use std::alloc::Global;
use survey_core::Field;

/// Why nothing is shown.
#[derive(Drop)]
pub(crate) enum Unshown {
    Refused(Error),
    Unread(Unread),
}

/// The cells of the field, if it is there.
pub(crate) fn cells_shown<S: Alter>(
    alloc: Global,
    conn: &mut Connection<S>,
    field: &Field,
) -> Result<Option<Vec<i64>>, Unshown>
    ensures cells { IfOk result (λ cells. ShowsCells (state S.Store conn.old) (state S.Store conn.new) field.now (option_map (λ c. c.items) cells)) }
    ensures numbered { IfOk result (λ cells. IfSome cells (λ cells. IsNumbered cells.items)) }
    ensures kept { Turns (state S.Store conn.old) (state S.Store conn.new) (λ tables. tables) }
    ensures still { StaysOpen (state S.Store conn.old) (state S.Store conn.new) }
{
    let rows = match find_blob(conn, field) {
        Ok(rows) => rows,
        Err(error) => return Err(Unshown::Refused(error)),
    };
    match read_cells(alloc, &rows) {
        Ok(cells) => Ok(cells),
        Err(unread) => Err(Unshown::Unread(unread)),
    }
}

/// The fields, in order.
pub(crate) fn names_shown<S: Alter>(
    alloc: Global,
    conn: &mut Connection<S>,
) -> Result<Vec<Field>, Unshown>
    ensures names { IfOk result (λ fields. ShowsNames (state S.Store conn.old) (state S.Store conn.new) fields.items) }
    ensures rising { IfOk result (λ fields. AreRising fields.items) }
    ensures kept { Turns (state S.Store conn.old) (state S.Store conn.new) (λ tables. tables) }
    ensures still { StaysOpen (state S.Store conn.old) (state S.Store conn.new) }
{
    let rows = match list_names(conn) {
        Ok(rows) => rows,
        Err(error) => return Err(Unshown::Refused(error)),
    };
    match read_names(alloc, &rows) {
        Ok(fields) => Ok(fields),
        Err(unread) => Err(Unshown::Unread(unread)),
    }
}
