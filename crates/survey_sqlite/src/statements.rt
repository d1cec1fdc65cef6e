//! The statements on the table `source`, over any store.
ghost use Rattle.std.specs.Prelude.{◌≡◌, true, List, OnOk, OnErr, IfOk, IfSome, IsOk, IsErr, is_some};
ghost use Rattle.std.specs.Option.{option_map};
ghost use Rattle.survey_core.specs.Tables.{IsNumbered, put, without_field, cells_of_field};
ghost use Rattle.sqlite.specs.Held.{state};
ghost use Rattle.sqlite.specs.State.{HasCleanDisk};
ghost use Rattle.survey_sqlite.specs.Tables.{HasSource, LacksSource};
ghost use Rattle.survey_sqlite.specs.Blobs.{blob_cells};
ghost use Rattle.survey_sqlite.specs.Steps.{MakesTable};
ghost use Rattle.survey_sqlite.specs.Turns.{Turns, StaysOpen};
ghost use Rattle.survey_sqlite.specs.Calls.{CountsFound};
ghost use Rattle.survey_sqlite.specs.Calls.{AnswersCells, AnswersNames};

use crate::schema::{has_source, lacks_source};
use sqlite::{Alter, Connection, Error, ErrorCode, Row};
use sqlite_value::value::ValueRef;
use survey_core::Field;

// What is refused where the name `source` stands for something else.
const FOREIGN: Error = Error::SqliteFailure(ErrorCode::NameTaken);

/// Makes the table `source`, where nothing has its name: a text and a blob in each row, by the text, and strict. A table of that form
/// stays as it is, and anything else of that name is refused.
pub fn make_table<S: Alter>(conn: &mut Connection<S>) -> Result<(), Error>
    ensures made { HasCleanDisk (state S.Store conn.new) →
        OnOk result (MakesTable (state S.Store conn.old) (state S.Store conn.new)) }
    ensures has { OnOk result (HasSource conn.new.schema) }
    ensures stays { HasSource conn.old.schema → IsOk result × (conn.new ≡ conn.old) }
    ensures foreign { ¬ HasSource conn.old.schema → ¬ LacksSource conn.old.schema →
        IsErr result × (conn.new ≡ conn.old) }
{
    if has_source(conn.schema()) {
        return Ok(());
    }
    if !lacks_source(conn.schema()) {
        return Err(FOREIGN);
    }
    create(conn)
}

fn create<S: Alter>(conn: &mut Connection<S>) -> Result<(), Error>
    ensures made { HasCleanDisk (state S.Store conn.new) →
        OnOk result (MakesTable (state S.Store conn.old) (state S.Store conn.new)) }
    ensures has { OnOk result (HasSource conn.new.schema) }
{
    match conn.execute(
        "CREATE TABLE IF NOT EXISTS source (field TEXT NOT NULL PRIMARY KEY, cells BLOB NOT NULL) STRICT",
        &[],
    ) {
        Ok(_) if has_source(conn.schema()) => Ok(()),
        Ok(_) => Err(FOREIGN),
        Err(error) => Err(error),
    }
}

/// Gives the field this blob.
pub(crate) fn put_row<S: Alter>(
    conn: &mut Connection<S>,
    field: &Field,
    blob: &[u8],
) -> Result<usize, Error>
    requires { IsNumbered (blob_cells blob.now) }
    ensures done { OnOk result (Turns (state S.Store conn.old) (state S.Store conn.new) (put field.now (blob_cells blob.now))) }
    ensures kept { OnErr result (Turns (state S.Store conn.old) (state S.Store conn.new) (λ tables. tables)) }
    ensures still { StaysOpen (state S.Store conn.old) (state S.Store conn.new) }
{
    conn.execute(
        "INSERT INTO source (field, cells) VALUES (?1, ?2) ON CONFLICT (field) DO UPDATE SET cells = ?2",
        &[ValueRef::Text(field.bytes()), ValueRef::Blob(blob)],
    )
}

/// Takes the field out, and answers how many rows that changed.
pub(crate) fn remove_row<S: Alter>(conn: &mut Connection<S>, field: &Field) -> Result<usize, Error>
    ensures done { OnOk result (Turns (state S.Store conn.old) (state S.Store conn.new) (without_field field.now)) }
    ensures found { IfOk result (CountsFound (state S.Store conn.old) (state S.Store conn.new) field.now) }
    ensures kept { OnErr result (Turns (state S.Store conn.old) (state S.Store conn.new) (λ tables. tables)) }
    ensures still { StaysOpen (state S.Store conn.old) (state S.Store conn.new) }
{
    conn.execute(
        "DELETE FROM source WHERE field = ?1",
        &[ValueRef::Text(field.bytes())],
    )
}

/// The rows that have the field's blob, of which there is at most one.
pub(crate) fn find_blob<S: Alter>(
    conn: &mut Connection<S>,
    field: &Field,
) -> Result<Vec<Row>, Error>
    ensures cells { IfOk result (λ rows. AnswersCells (state S.Store conn.old) (state S.Store conn.new) field.now rows.items) }
    ensures kept { Turns (state S.Store conn.old) (state S.Store conn.new) (λ tables. tables) }
    ensures still { StaysOpen (state S.Store conn.old) (state S.Store conn.new) }
{
    conn.query_all(
        "SELECT cells FROM source WHERE field = ?1",
        &[ValueRef::Text(field.bytes())],
    )
}

/// The names of the fields, in order.
pub(crate) fn list_names<S: Alter>(conn: &mut Connection<S>) -> Result<Vec<Row>, Error>
    ensures names { IfOk result (λ rows. AnswersNames (state S.Store conn.old) (state S.Store conn.new) rows.items) }
    ensures kept { Turns (state S.Store conn.old) (state S.Store conn.new) (λ tables. tables) }
    ensures still { StaysOpen (state S.Store conn.old) (state S.Store conn.new) }
{
    conn.query_all("SELECT field FROM source ORDER BY field", &[])
}
