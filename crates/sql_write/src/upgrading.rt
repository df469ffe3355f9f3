//! A database of format 1 becomes one of format 2.
ghost use Rattle.std.specs.Prelude.{◌≡◌, false, OnOk, OnErr, IfErr};
ghost use Rattle.sqlite.specs.State.{HasCleanDisk, Survives};
ghost use Rattle.sqlite.specs.Held.{state};
ghost use Rattle.desk_model.specs.Kept.{EachOf};
ghost use Rattle.sql_write.specs.Committing.{GoesBack, HasCommitted, IsBeforeCommit, IsLeft};
ghost use Rattle.sql_write.specs.Numbers.{FitsUpgrade, IsNotTooLarge};
ghost use Rattle.sql_write.specs.Refusals.{HasWritten, IsCause};
ghost use Rattle.sql_write.specs.Statements.{upgrade_statements};
ghost use Rattle.sql_write.specs.Upgrading.{Upgrades};
ghost use Rattle.sql_write.specs.Fits.{FitsKey, FitsMeta};

use crate::children::write_keys;
use crate::definitions::define_key_table;
use crate::fault::SaveFault;
use crate::meta::write_meta;
use crate::statements::end;
use crate::stored::Write;
use desk_model::Meta;
use sqlite::{Alter, Connection, Transaction};
use store_columns::AnswerKey;

// Makes the table that format 1 lacks, puts the keys of answers, then the row of `meta`, which sets the format.
fn widen<S: Alter>(
    tx: &mut Transaction<'_, S>,
    meta: &Meta,
    keys: &[AnswerKey],
) -> Result<(), SaveFault>
    ensures same_reference { tx.new.conn.ghost_name ≡ tx.old.conn.ghost_name }
    ensures writes { HasWritten S.Store (upgrade_statements meta.now keys.now) (Upgrades meta.now keys.now) tx.old.conn.now tx.new.conn.now result }
    ensures fits { FitsMeta meta.now → EachOf FitsKey keys.now → IfErr result IsNotTooLarge }
{
    define_key_table(tx)?;
    write_keys(tx, keys)?;
    write_meta(tx, Write::Upsert, meta)
}

/// Makes of a database of format 1 one of format 2, in one transaction: all of it, or nothing. The row of `meta` and the keys
/// of all answers are given.
///
/// # Errors
///
/// As `save_all`.
pub fn upgrade_tables<S: Alter>(
    conn: &mut Connection<S>,
    meta: &Meta,
    keys: &[AnswerKey],
) -> Result<(), SaveFault>
    requires idle { conn.old.in_transaction ≡ false }
    ensures idle { conn.new.in_transaction ≡ false }
    ensures ok { HasCleanDisk (state S.Store conn.new)
        → OnOk result (HasCommitted (state S.Store conn.old) (state S.Store conn.new) (Upgrades meta.now keys.now)) }
    ensures err { HasCleanDisk (state S.Store conn.new) → OnErr result (GoesBack (state S.Store conn.old) (state S.Store conn.new)) }
    ensures before { IfErr result (λ why. IsBeforeCommit why → Survives (state S.Store conn.old) (state S.Store conn.new) (λ _. ⊥)) }
    ensures left { Survives (state S.Store conn.old) (state S.Store conn.new) (IsLeft (Upgrades meta.now keys.now (state S.Store conn.old).now)) }
    ensures fits { FitsMeta meta.now → EachOf FitsKey keys.now → IfErr result IsNotTooLarge }
    ensures cause { IfErr result (IsCause S.Store (FitsUpgrade meta.now keys.now) (upgrade_statements meta.now keys.now) conn.old conn.new) }
{
    let mut tx = conn.transaction();
    let widened = widen(&mut tx, meta, keys);
    end(tx, widened)
}
