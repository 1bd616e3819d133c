//! Whether a database has the tables of a store, in one of its forms, and nothing else.

ghost use Rattle.std.specs.Prelude.{◌≡◌, codes, true, false, [], ◌∷◌};
ghost use Rattle.journalstore.specs.Tables.{Form, bare, noted, is_noted, column_of, key_column, number_column, text_column};
ghost use Rattle.journalstore.specs.Tables.{text_columns, table_of, journal_table, map_table, about_table};
ghost use Rattle.journalstore.specs.Tables.{schema_of, IsOfStore};

use sqlite_schema::schema::{Column, Kind, Schema, Stamps, Table};
use sqlite_value::keys::Collation;
use sqlite_value::value::Value;

/// The table of the changes, as it stands in a store's first page.
pub(crate) const JOURNAL: &str =
    "CREATE TABLE journal (epoch INTEGER PRIMARY KEY, change TEXT NOT NULL) STRICT";

/// Whether a column is a plain one of a STRICT table.
fn is_plain(column: &Column) -> bool
    ensures { result ≡ true → column.now ≡ column_of column.now.name column.now.kind column.now.not_null }
{
    column.is_strict
        && matches!(column.default, Value::Null)
        && matches!(column.collation, Collation::Binary)
}

/// Whether a column of this name is a rowid.
fn is_key(column: &Column, name: &[u8]) -> bool
    ensures { result ≡ true → column.now ≡ key_column name.now }
{
    is_plain(column)
        && column.name.as_slice() == name
        && matches!(column.kind, Kind::Integer)
        && !column.not_null
}

/// Whether a column is a number of this name.
fn is_number(column: &Column, name: &[u8]) -> bool
    ensures { result ≡ true → column.now ≡ number_column name.now }
{
    is_plain(column)
        && column.name.as_slice() == name
        && matches!(column.kind, Kind::Integer)
        && column.not_null
}

/// Whether a column is the text of this name.
fn is_text(column: &Column, name: &[u8]) -> bool
    ensures { result ≡ true → column.now ≡ text_column name.now }
{
    is_plain(column)
        && column.name.as_slice() == name
        && matches!(column.kind, Kind::Text)
        && column.not_null
}

/// Whether no default reads the time.
fn is_timeless(stamps: &Stamps) -> bool
    ensures { result ≡ true → stamps.now ≡ record { places = []; terms = []; formats = [] } }
{
    stamps.places.is_empty() && stamps.terms.roots.is_empty() && stamps.formats.is_empty()
}

/// Whether a table has no rules but those of its columns, and the first column is its rowid.
fn is_bare(table: &Table) -> bool
    ensures { result ≡ true → table.now ≡ table_of table.now.name table.now.tree table.now.columns }
{
    table.key == Some(0)
        && table.primary.as_slice() == [0].as_slice()
        && table.uniques.is_empty()
        && table.orders.is_empty()
        && table.checks.roots.is_empty()
        && table.references.is_empty()
        && table.computed.is_empty()
        && is_timeless(&table.stamps)
        && !table.is_counted
}

/// Whether a table has this name and place, and no rules but those of its columns.
fn is_table(table: &Table, name: &[u8], tree: u32) -> bool
    ensures { result ≡ true → table.now ≡ table_of name.now tree table.now.columns }
{
    is_bare(table) && table.name.as_slice() == name && table.tree == tree
}

/// Whether columns are an epoch and a text of this name.
fn has_text(columns: &[Column], text: &[u8]) -> bool
    ensures { result ≡ true → columns.now ≡ text_columns text.now }
{
    match columns {
        [epoch, change] => is_key(epoch, b"epoch".as_slice()) && is_text(change, text),
        _ => false,
    }
}

/// Whether columns are the number of a life, and how many changes are kept.
fn has_facts(columns: &[Column]) -> bool
    ensures { result ≡ true → columns.now ≡ key_column (codes "life") ∷ number_column (codes "keep") ∷ [] }
{
    match columns {
        [life, keep] => is_key(life, b"life".as_slice()) && is_number(keep, b"keep".as_slice()),
        _ => false,
    }
}

/// Whether a table is the journal.
fn is_journal(table: &Table) -> bool
    ensures { result ≡ true → table.now ≡ journal_table }
{
    is_table(table, b"journal".as_slice(), 0)
        && has_text(table.columns.as_slice(), b"change".as_slice())
}

/// Whether a table is that of the first map.
fn is_map(table: &Table) -> bool
    ensures { result ≡ true → table.now ≡ map_table }
{
    is_table(table, b"map".as_slice(), 1) && has_text(table.columns.as_slice(), b"text".as_slice())
}

/// Whether a table is that of what is noted of the store.
fn is_about(table: &Table) -> bool
    ensures { result ≡ true → table.now ≡ about_table }
{
    is_table(table, b"store".as_slice(), 2) && has_facts(table.columns.as_slice())
}

/// Whether a schema has tables alone, and those are a store's without notes.
fn is_bare_store(schema: &Schema) -> bool
    ensures { result ≡ true → schema.now ≡ schema_of bare }
{
    if !schema.indexes.is_empty() || !schema.views.is_empty() {
        return false;
    }
    match schema.tables.as_slice() {
        [journal, map] => is_journal(journal) && is_map(map),
        _ => false,
    }
}

/// Whether a schema has tables alone, and those are a store's with notes.
fn is_noted_store(schema: &Schema) -> bool
    ensures { result ≡ true → schema.now ≡ schema_of noted }
{
    if !schema.indexes.is_empty() || !schema.views.is_empty() {
        return false;
    }
    match schema.tables.as_slice() {
        [journal, map, about] => is_journal(journal) && is_map(map) && is_about(about),
        _ => false,
    }
}

/// Whether a schema is that of a store.
pub(crate) fn is_store(schema: &Schema) -> bool
    ensures { result ≡ true → IsOfStore schema.now }
{
    is_bare_store(schema) || is_noted_store(schema)
}

/// Whether a store's schema has a place for notes.
pub(crate) fn is_for_notes(schema: &Schema) -> bool
    ensures { (f : Form) → schema.now ≡ schema_of f → result ≡ is_noted f }
{
    schema.tables.len() == 3
}

/// Whether a schema has nothing in it.
pub(crate) fn is_blank(schema: &Schema) -> bool
    ensures { result ≡ true → schema.now ≡ record { tables = []; indexes = []; views = [] } }
{
    schema.tables.is_empty() && schema.indexes.is_empty() && schema.views.is_empty()
}
