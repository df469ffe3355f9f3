//! The making of a desk's database.
ghost use Rattle.std.specs.Prelude.{◌≡◌, false, OnOk, OnErr, IfErr};
ghost use Rattle.sqlite.specs.State.{HasCleanDisk, Survives};
ghost use Rattle.sqlite.specs.Held.{state};
ghost use Rattle.sql_write.specs.Committing.{GoesBack, HasCommitted, IsBeforeCommit, IsLeft};
ghost use Rattle.sql_write.specs.{Making.MakesDesk, Numbers.IsNotTooLarge, Statements.make_statements, Fits.FitsMeta};
ghost use Rattle.sql_write.specs.Refusals.{HasWritten, IsCause};

use crate::definitions::define_all;
use crate::fault::SaveFault;
use crate::meta::write_meta;
use crate::statements::end;
use crate::stored::Write;
use desk_model::Meta;
use sqlite::{Alter, Connection, Transaction};

// Makes the tables, the indexes and the row of `meta`.
fn define_desk<S: Alter>(tx: &mut Transaction<'_, S>, meta: &Meta) -> Result<(), SaveFault>
    ensures same_reference { tx.new.conn.ghost_name ≡ tx.old.conn.ghost_name }
    ensures writes { HasWritten S.Store (make_statements meta.now) (MakesDesk meta.now) tx.old.conn.now tx.new.conn.now result }
    ensures fits { FitsMeta meta.now → IfErr result IsNotTooLarge }
{
    define_all(tx)?;
    write_meta(tx, Write::Upsert, meta)
}

/// Makes the tables and indexes of a desk in a database that has no object, and puts its row of `meta`, in one transaction: all
/// of it, or nothing.
///
/// # Errors
///
/// As `save_all`.
pub fn make_tables<S: Alter>(conn: &mut Connection<S>, meta: &Meta) -> Result<(), SaveFault>
    requires idle { conn.old.in_transaction ≡ false }
    ensures idle { conn.new.in_transaction ≡ false }
    ensures ok { HasCleanDisk (state S.Store conn.new) → OnOk result (HasCommitted (state S.Store conn.old) (state S.Store conn.new) (MakesDesk meta.now)) }
    ensures err { HasCleanDisk (state S.Store conn.new) → OnErr result (GoesBack (state S.Store conn.old) (state S.Store conn.new)) }
    ensures before { IfErr result (λ why. IsBeforeCommit why → Survives (state S.Store conn.old) (state S.Store conn.new) (λ _. ⊥)) }
    ensures left { Survives (state S.Store conn.old) (state S.Store conn.new) (IsLeft (MakesDesk meta.now (state S.Store conn.old).now)) }
    ensures fits { FitsMeta meta.now → IfErr result IsNotTooLarge }
    ensures cause { IfErr result (IsCause S.Store (FitsMeta meta.now) (make_statements meta.now) conn.old conn.new) }
{
    let mut tx = conn.transaction();
    let defined = define_desk(&mut tx, meta);
    end(tx, defined)
}
