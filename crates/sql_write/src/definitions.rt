//! The statements that make the tables and indexes of an empty database.
ghost use Rattle.std.specs.Prelude.{◌≡◌, ◌<◌, [], IfErr, OnOk, length, map, slice_index_or};
ghost use Rattle.sqlite.specs.{State.Survives, Held.state};
ghost use Rattle.sql_schema.specs.Advances.{Advances, KeepsLast};
ghost use Rattle.sql_schema.specs.{Defined.AddsKeyTable, Defined.Defines, Definitions.definition_at};
ghost use Rattle.sql_write.specs.{Numbers.IsNotTooLarge, Refusals.HasWritten, Refusals.Ran};
ghost use Rattle.sql_write.specs.Statements.{defines, defines_before};

use crate::fault::SaveFault;
use crate::statements::{execute, execute_or_fault};
use sql_schema::DEFINITIONS;
use sqlite::{Alter, Transaction};

// The text at this place.
fn text_at(texts: &[&'static str], place: usize) -> &'static str
    requires { place < length texts.now }
    ensures { result.now ≡ slice_index_or (map (λ text. text.now) texts.now) place [] }
{
    texts[place]
}

// The text of the statement at this place.
fn definition(step: usize) -> &'static str
    requires { step < 16 }
    ensures { result.now ≡ definition_at step }
{
    text_at(&DEFINITIONS, step)
}

/// Makes the tables and indexes of a desk inside a transaction, where the database has no object.
///
/// # Errors
///
/// `Statement` with the error of the one that failed; the transaction then holds the objects made before it, or is over.
pub(crate) fn define_all<S: Alter>(tx: &mut Transaction<'_, S>) -> Result<(), SaveFault>
    ensures same_reference { tx.new.conn.ghost_name ≡ tx.old.conn.ghost_name }
    ensures ok { OnOk result (Advances (state S.Store tx.old.conn.now) (state S.Store tx.new.conn.now) (Defines 16)) }
    ensures kept { KeepsLast (state S.Store tx.old.conn.now) (state S.Store tx.new.conn.now) }
    ensures survives { Survives (state S.Store tx.old.conn.now) (state S.Store tx.new.conn.now) (λ _. ⊥) }
    ensures fits { IfErr result IsNotTooLarge }
    ensures told { Ran S.Store (defines_before 16) tx.old.conn.now tx.new.conn.now result }
{
    for step in 0..DEFINITIONS.len() {
        execute(tx, definition(step), &[])?;
    }
    Ok(())
}

/// Makes the table that format 1 lacks inside a transaction, where the database has the tables and indexes of format 1.
///
/// # Errors
///
/// `Statement`, as `define_all`.
pub(crate) fn define_key_table<S: Alter>(tx: &mut Transaction<'_, S>) -> Result<(), SaveFault>
    ensures same_reference { tx.new.conn.ghost_name ≡ tx.old.conn.ghost_name }
    ensures writes { HasWritten S.Store (defines 15) AddsKeyTable tx.old.conn.now tx.new.conn.now result }
    ensures fits { IfErr result IsNotTooLarge }
{
    execute_or_fault(tx, definition(DEFINITIONS.len() - 1), &[])
}
