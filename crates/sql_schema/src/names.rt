//! The names of the tables and indexes, looked for in a schema.
ghost use Rattle.std.specs.Prelude.{◌≡◌, is_some};
ghost use Rattle.std.specs.List.{list_all};
ghost use Rattle.sqlite.specs.Change.{is_used};
ghost use Rattle.sqlite_schema.specs.Names.{index_named};
ghost use Rattle.sql_schema.specs.Names.{has_all_indexes, uses_key_table};

use sqlite_schema::schema::Schema;

// The name of the table that format 1 lacks.
const KEY_TABLE: &str = "chall_key";

// The names of the eight indexes.
const INDEXES: [&str; 8] = [
    "nonce_issued",
    "ord_account",
    "ord_status_expires",
    "authz_account_name",
    "authz_status_expires",
    "ord_authz_authz",
    "chall_authz",
    "chall_status",
];

// Whether a table, an index or a view has this name.
fn uses(schema: &Schema, name: &str) -> bool
    ensures { result ≡ is_used schema.now name.now }
{
    schema.table_named(name.as_bytes()).is_some()
        || schema.index_named(name.as_bytes()).is_some()
        || schema.view_named(name.as_bytes()).is_some()
}

/// Whether a table, an index or a view has the name of the table that format 1 lacks, in any case of its ASCII letters.
pub fn uses_key_table(schema: &Schema) -> bool
    ensures { result ≡ uses_key_table schema.now }
{
    uses(schema, KEY_TABLE)
}

// Whether an index has this name.
fn has_index(schema: &Schema, name: &str) -> bool
    ensures { result ≡ is_some (index_named schema.now name.now) }
{
    schema.index_named(name.as_bytes()).is_some()
}

// Whether there is an index of each of these names.
fn has_each(schema: &Schema, names: &[&str]) -> bool
    ensures { result ≡ list_all (λ name. is_some (index_named schema.now name.now)) names.now }
{
    names.iter().all(|name| has_index(schema, name))
}

/// Whether there is an index of each name that an index of a desk has.
pub fn has_indexes(schema: &Schema) -> bool
    ensures { result ≡ has_all_indexes schema.now }
{
    has_each(schema, &INDEXES)
}
