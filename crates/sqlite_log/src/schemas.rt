//! Whether a schema is that of a log.
ghost use Rattle.std.specs.Prelude.{◌≡◌, [], codes, IsTrue};
ghost use Rattle.sqlite.specs.Kind.TheVariants.{Integer, Text, Blob};
ghost use Rattle.sqlite.specs.Collation.TheVariants.{Binary};
ghost use Rattle.sqlite.specs.declared.types.Value.TheVariants.{Null};
ghost use Rattle.sqlite_log.specs.Tables.{edit_columns, edit_table, full_column, id_column, log_schema, meta_columns, meta_table, no_schema, peer_columns, peer_table, plain_table};

use sqlite_schema::code::Terms;
use sqlite_schema::schema::{Column, Kind, Schema, Table};
use sqlite_value::keys::Collation;
use sqlite_value::value::Value;

fn is_null(value: &Value) -> bool
    ensures null { IsTrue result → value.now ≡ Null }
{
    match value {
        Value::Null => true,
        _ => false,
    }
}

// Whether a column of a strict table has this name and kind, and no default.
fn is_strict_column(column: &Column, name: &[u8], kind: Kind) -> bool
    ensures column { IsTrue result
        → column.now ≡ record (full_column name.now kind) { not_null = column.now.not_null } }
{
    column.name.as_slice() == name
        && column.kind == kind
        && column.is_strict
        && is_null(&column.default)
        && column.collation == Collation::Binary
}

fn is_id(column: &Column) -> bool
    ensures column { IsTrue result → column.now ≡ id_column }
{
    is_strict_column(column, b"id", Kind::Integer) && !column.not_null
}

fn is_full(column: &Column, name: &[u8], kind: Kind) -> bool
    ensures column { IsTrue result → column.now ≡ full_column name.now kind }
{
    is_strict_column(column, name, kind) && column.not_null
}

fn are_key_columns(id: &Column, place: &Column, counter: &Column, writer: &Column) -> bool
    ensures id { IsTrue result → id.now ≡ id_column }
    ensures place { IsTrue result → place.now ≡ full_column (codes "place") Text }
    ensures counter { IsTrue result → counter.now ≡ full_column (codes "counter") Integer }
    ensures writer { IsTrue result → writer.now ≡ full_column (codes "writer") Integer }
{
    is_id(id)
        && is_full(place, b"place", Kind::Text)
        && is_full(counter, b"counter", Kind::Integer)
        && is_full(writer, b"writer", Kind::Integer)
}

fn are_content_columns(kind: &Column, content: &Column, time: &Column) -> bool
    ensures kind { IsTrue result → kind.now ≡ full_column (codes "kind") Integer }
    ensures content { IsTrue result → content.now ≡ full_column (codes "content") Blob }
    ensures time { IsTrue result → time.now ≡ full_column (codes "time") Integer }
{
    is_full(kind, b"kind", Kind::Integer)
        && is_full(content, b"content", Kind::Blob)
        && is_full(time, b"time", Kind::Integer)
}

fn are_edit_columns(columns: &[Column]) -> bool
    ensures columns { IsTrue result → columns.now ≡ edit_columns }
{
    let [id, place, counter, writer, kind, content, time] = columns else {
        return false;
    };
    are_key_columns(id, place, counter, writer) && are_content_columns(kind, content, time)
}

fn are_meta_columns(columns: &[Column]) -> bool
    ensures columns { IsTrue result → columns.now ≡ meta_columns }
{
    let [id, format, writer, mark] = columns else {
        return false;
    };
    is_id(id)
        && is_full(format, b"format", Kind::Integer)
        && is_full(writer, b"writer", Kind::Integer)
        && is_full(mark, b"mark", Kind::Blob)
}

fn are_peer_columns(columns: &[Column]) -> bool
    ensures columns { IsTrue result → columns.now ≡ peer_columns }
{
    let [id, mark, writer, seen] = columns else {
        return false;
    };
    is_id(id)
        && is_full(mark, b"mark", Kind::Blob)
        && is_full(writer, b"writer", Kind::Integer)
        && is_full(seen, b"seen", Kind::Integer)
}

fn has_no_terms(terms: &Terms) -> bool
    ensures none { IsTrue result → terms.now ≡ [] }
{
    terms.roots.is_empty()
}

// Whether a table has this name and tree, rows with numbers, and no other rule.
fn is_plain(table: &Table, name: &[u8], tree: u32) -> bool
    ensures plain { IsTrue result → table.now ≡ plain_table name.now tree table.now.columns }
{
    table.name.as_slice() == name
        && table.tree == tree
        && table.key == Some(0)
        && table.primary.as_slice() == [0].as_slice()
        && table.uniques.is_empty()
        && table.orders.is_empty()
        && has_no_terms(&table.checks)
        && table.references.is_empty()
        && table.computed.is_empty()
        && table.stamps.places.is_empty()
        && has_no_terms(&table.stamps.terms)
        && table.stamps.formats.is_empty()
        && !table.is_counted
}

fn is_edit_table(table: &Table) -> bool
    ensures table { IsTrue result → table.now ≡ edit_table }
{
    is_plain(table, b"edit", 0) && are_edit_columns(table.columns.as_slice())
}

fn is_meta_table(table: &Table) -> bool
    ensures table { IsTrue result → table.now ≡ meta_table }
{
    is_plain(table, b"meta", 1) && are_meta_columns(table.columns.as_slice())
}

fn is_peer_table(table: &Table) -> bool
    ensures table { IsTrue result → table.now ≡ peer_table }
{
    is_plain(table, b"peer", 2) && are_peer_columns(table.columns.as_slice())
}

// Whether the schema is that of a log.
pub(crate) fn is_log(schema: &Schema) -> bool
    ensures log { IsTrue result → schema.now ≡ log_schema }
{
    let [edit, meta, peer] = schema.tables.as_slice() else {
        return false;
    };
    is_edit_table(edit)
        && is_meta_table(meta)
        && is_peer_table(peer)
        && schema.indexes.is_empty()
        && schema.views.is_empty()
}

// Whether the schema has no object.
pub(crate) fn is_blank(schema: &Schema) -> bool
    ensures blank { IsTrue result → schema.now ≡ no_schema }
{
    schema.tables.is_empty() && schema.indexes.is_empty() && schema.views.is_empty()
}
