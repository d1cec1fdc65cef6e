//! Databases that another program wrote.

use crate::keeper_tests::field;
use crate::{FileKeeper, Unread, make_table, read_cells, read_names};
use sqlite::{Alter, Connection, Error, File, FileStore, MemStore, Row};
use std::alloc::Global;
use std::fs;
use std::rt::HostRuntime;
use std::test::Fail;
use survey_core::{Field, Keeper, Refused};

const OTHER_FORMS: [&str; 12] = [
    "CREATE TABLE source(field TEXT, cells BLOB)",
    "CREATE TABLE source (field TEXT NOT NULL PRIMARY KEY, cells BLOB NOT NULL)",
    "CREATE TABLE source (field TEXT NOT NULL PRIMARY KEY COLLATE NOCASE, cells BLOB NOT NULL) STRICT",
    "CREATE TABLE source (field TEXT NOT NULL, cells BLOB NOT NULL) STRICT",
    "CREATE TABLE source (field TEXT NOT NULL UNIQUE, cells BLOB NOT NULL) STRICT",
    "CREATE TABLE source (field TEXT NOT NULL PRIMARY KEY, cells ANY NOT NULL) STRICT",
    "CREATE TABLE source (field TEXT NOT NULL PRIMARY KEY, cells BLOB NOT NULL DEFAULT x'') STRICT",
    "CREATE TABLE source (field TEXT NOT NULL PRIMARY KEY, cells BLOB NOT NULL, day INTEGER) STRICT",
    "CREATE TABLE source (field TEXT NOT NULL PRIMARY KEY, cells BLOB NOT NULL CHECK (cells != x'00')) STRICT",
    "CREATE TABLE source (cells BLOB NOT NULL, field TEXT NOT NULL PRIMARY KEY) STRICT",
    "CREATE TABLE Source (field TEXT NOT NULL PRIMARY KEY, cells BLOB NOT NULL) STRICT",
    "CREATE TABLE t (field TEXT); CREATE VIEW source AS SELECT field FROM t",
];

// What stands in a database before, and how many rows the table has behind it.
const OUR_FORM: [(&str, usize); 5] = [
    (
        "CREATE TABLE source (field TEXT NOT NULL PRIMARY KEY, cells BLOB NOT NULL) STRICT; INSERT INTO source VALUES ('A', x'')",
        1,
    ),
    (
        "CREATE TABLE source (field TEXT NOT NULL PRIMARY KEY, cells BLOB NOT NULL) STRICT; INSERT INTO source VALUES ('A', x''); CREATE TABLE source_sum (sum TEXT)",
        1,
    ),
    ("CREATE TABLE other (a)", 0),
    ("", 0),
    // strict tables take no NULL as a key
    (
        "CREATE TABLE source (field TEXT PRIMARY KEY, cells BLOB NOT NULL) STRICT",
        0,
    ),
];

// These have no contract, so that a proof of their callers carries nothing of what the database tells.
fn in_memory(alloc: Global) -> Result<Connection<MemStore>, Fail> {
    Ok(Connection::open_in_memory(alloc)?)
}

fn run_all<S: Alter>(conn: &mut Connection<S>, statements: &str) -> Result<(), Error> {
    conn.execute_batch(statements)
}

fn rows_of<S: Alter>(conn: &mut Connection<S>, query: &str) -> Result<Vec<Row>, Error> {
    conn.query_all(query, &[])
}

fn is_made<S: Alter>(conn: &mut Connection<S>) -> bool {
    make_table(conn).is_ok()
}

// Whether the table is made, or found, over a database that these statements make, and how many rows its name then has.
fn made_over(alloc: Global, statements: &str) -> Result<(bool, usize), Fail> {
    let mut conn = in_memory(alloc)?;
    run_all(&mut conn, statements)?;
    let made = is_made(&mut conn);
    let rows = rows_of(&mut conn, "SELECT * FROM source")?;
    Ok((made, rows.len()))
}

#[test]
fn tables_of_another_form_are_refused(rt: HostRuntime) -> Result<(), Fail> {
    for form in OTHER_FORMS {
        let (made, _) = made_over(rt.alloc(), form)?;
        assert!(rt; !made);
    }
    Ok(())
}

#[test]
fn a_table_of_the_form_stays(rt: HostRuntime) -> Result<(), Fail> {
    for (statements, rows) in OUR_FORM {
        assert_eq!(rt; made_over(rt.alloc(), statements)?, (true, rows));
    }
    Ok(())
}

const FILE: &str = "survey_sqlite_foreign/s.db";

const TWO_ROWS: &str =
    "CREATE TABLE source(field TEXT, cells BLOB); INSERT INTO source VALUES ('A', x''), ('A', x'')";

fn open_file(rt: &HostRuntime) -> Result<Connection<FileStore<File>>, Error> {
    Connection::open(rt, FILE)
}

fn close_file(conn: Connection<FileStore<File>>) -> Result<(), Error> {
    conn.close()
}

// Runs these statements, and answers how many rows the table then has.
fn count_behind<S: Alter>(conn: &mut Connection<S>, statements: &str) -> Result<usize, Error> {
    run_all(conn, statements)?;
    let rows = rows_of(conn, "SELECT field FROM source")?;
    Ok(rows.len())
}

// The same in the file.
fn count_in_file(rt: &HostRuntime, statements: &str) -> Result<usize, Fail> {
    let mut conn = open_file(rt)?;
    let count = count_behind(&mut conn, statements);
    close_file(conn)?;
    Ok(count?)
}

fn is_fault_to_remove<K: Keeper>(alloc: Global, keeper: &mut K, field: Field) -> bool {
    matches!(keeper.remove(alloc, field), Err(Refused::Fault))
}

#[test]
fn rows_of_another_table_stay(rt: HostRuntime) -> Result<(), Fail> {
    let _ = fs::remove_dir_all(&rt, "survey_sqlite_foreign");
    fs::create_dir(&rt, "survey_sqlite_foreign")?;
    assert_eq!(rt; count_in_file(&rt, TWO_ROWS)?, 2);
    let a = field(&rt, "A");
    let mut keeper = FileKeeper::at(&rt, FILE);
    assert!(rt; is_fault_to_remove(rt.alloc(), &mut keeper, a));
    keeper.close();
    assert_eq!(rt; count_in_file(&rt, "")?, 2);
    fs::remove_dir_all(&rt, "survey_sqlite_foreign")?;
    Ok(())
}

const VALUES: &str = "CREATE TABLE t (a ANY) STRICT;
    INSERT INTO t VALUES (NULL), ('A'), (1), (0.5), (x''), (x'00'), (x'0000000000000001')";

const NO_CELLS: [&str; 8] = [
    "SELECT a FROM t WHERE a IS NULL",
    "SELECT a FROM t WHERE a = 'A'",
    "SELECT a FROM t WHERE a = 1",
    "SELECT a FROM t WHERE a = 0.5",
    "SELECT a FROM t WHERE a = x'00'",
    "SELECT a FROM t WHERE a = x'0000000000000001'",
    "SELECT a FROM t WHERE a = x'' OR a = x'00'",
    "SELECT a FROM t",
];

const NO_FIELDS: [&str; 6] = [
    "SELECT a FROM t WHERE a IS NULL",
    "SELECT a FROM t WHERE a = 1",
    "SELECT a FROM t WHERE a = x'00'",
    "SELECT 'A' FROM t WHERE a = 1 OR a = 'A'",
    "SELECT 'a name' FROM t WHERE a = 1",
    "SELECT x'41' FROM t WHERE a = 1",
];

fn answer(alloc: Global, query: &str) -> Result<Vec<Row>, Fail> {
    let mut conn = in_memory(alloc)?;
    run_all(&mut conn, VALUES)?;
    Ok(rows_of(&mut conn, query)?)
}

// How many cells the rows of the query are read as, none where there is no row.
fn count_cells(alloc: Global, query: &str) -> Result<Result<Option<usize>, Unread>, Fail> {
    let rows = answer(alloc, query)?;
    Ok(match read_cells(alloc, &rows) {
        Ok(Some(cells)) => Ok(Some(cells.len())),
        Ok(None) => Ok(None),
        Err(unread) => Err(unread),
    })
}

// How many fields the rows of the query are read as.
fn count_fields(alloc: Global, query: &str) -> Result<Result<usize, Unread>, Fail> {
    let rows = answer(alloc, query)?;
    Ok(match read_names(alloc, &rows) {
        Ok(names) => Ok(names.len()),
        Err(unread) => Err(unread),
    })
}

#[test]
fn rows_of_another_form_are_no_cells(rt: HostRuntime) -> Result<(), Fail> {
    let alloc = rt.alloc();
    for query in NO_CELLS {
        assert_eq!(rt; count_cells(alloc, query)?, Err(Unread::Malformed));
    }
    assert_eq!(rt;
        count_cells(alloc, "SELECT a FROM t WHERE a = x''")?,
        Ok(Some(0))
    );
    assert_eq!(rt;
        count_cells(alloc, "SELECT a FROM t WHERE a = 2")?,
        Ok(None)
    );
    Ok(())
}

#[test]
fn rows_of_another_form_are_no_names(rt: HostRuntime) -> Result<(), Fail> {
    let alloc = rt.alloc();
    for query in NO_FIELDS {
        assert_eq!(rt; count_fields(alloc, query)?, Err(Unread::Malformed));
    }
    assert_eq!(rt;
        count_fields(alloc, "SELECT a FROM t WHERE a = 'A'")?,
        Ok(1)
    );
    Ok(())
}
