//! Whether a schema has the table `source`, in the form that is made.
ghost use Rattle.std.specs.Prelude.{◌≡◌, ◌↔◌, List, IsTrue, [], ◌∷◌, None};
ghost use Rattle.sqlite_value.specs.Keys.{plain};
ghost use Rattle.survey_sqlite.specs.Schemas.{strict_column, source};
ghost use Rattle.survey_sqlite.specs.Tables.{IsAsMade, HasSource, LacksSource};

use sqlite_items::Items;
use sqlite_schema::schema::{Column, Kind, Schema, Stamps, Table};
use sqlite_value::keys::{Collation, Order};
use sqlite_value::value::{Bytes, Value};

const NAME: &[u8] = b"source";

fn is_text(bytes: &Bytes, text: &[u8]) -> bool
    ensures { IsTrue result ↔ (bytes.now ≡ text.now) }
{
    bytes.as_slice() == text
}

fn is_strict_column(column: &Column, name: &[u8], kind: Kind) -> bool
    ensures { IsTrue result ↔ (column.now ≡ strict_column name.now kind) }
{
    is_text(&column.name, name)
        && column.kind == kind
        && column.is_strict
        && column.not_null
        && matches!(column.default, Value::Null)
        && column.collation == Collation::Binary
}

fn are_our_columns(columns: &[Column]) -> bool
    ensures { IsTrue result ↔ (columns.now ≡ source.columns) }
{
    match columns {
        [field, cells] => {
            is_strict_column(field, b"field", Kind::Text)
                && is_strict_column(cells, b"cells", Kind::Blob)
        }
        _ => false,
    }
}

fn is_first_place(places: &Items<usize>) -> bool
    ensures { IsTrue result ↔ (places.now ≡ 1 ∷ []) }
{
    matches!(places.as_slice(), [1])
}

fn is_by_field(uniques: &[Items<usize>], orders: &[Order]) -> bool
    ensures { IsTrue result ↔ ((uniques.now ≡ (1 ∷ []) ∷ []) × (orders.now ≡ plain ∷ [])) }
{
    match (uniques, orders) {
        ([unique], [order]) => is_first_place(unique) && order.digits == 0,
        _ => false,
    }
}

fn are_none(stamps: &Stamps) -> bool
    ensures { IsTrue result ↔ (stamps.now ≡ source.stamps) }
{
    stamps.places.is_empty() && stamps.terms.roots.is_empty() && stamps.formats.is_empty()
}

fn is_source(table: &Table) -> bool
    ensures { IsTrue result ↔ IsAsMade table.now }
{
    is_text(&table.name, NAME)
        && are_our_columns(table.columns.as_slice())
        && table.key.is_none()
        && is_first_place(&table.primary)
        && is_by_field(table.uniques.as_slice(), table.orders.as_slice())
        && table.checks.roots.is_empty()
        && table.references.is_empty()
        && table.computed.is_empty()
        && are_none(&table.stamps)
        && !table.is_counted
}

/// Whether the table `source` is there, in the form that is made.
pub(crate) fn has_source(schema: &Schema) -> bool
    ensures { IsTrue result ↔ HasSource schema.now }
{
    match schema.table_named(NAME) {
        Some(at) => match schema.tables.get(at) {
            Some(table) => is_source(table),
            None => false,
        },
        None => false,
    }
}

/// Whether nothing has the name of the table.
pub(crate) fn lacks_source(schema: &Schema) -> bool
    ensures { IsTrue result ↔ LacksSource schema.now }
{
    schema.table_named(NAME).is_none() && schema.view_named(NAME).is_none()
}
