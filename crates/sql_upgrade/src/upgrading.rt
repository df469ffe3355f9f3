//! The upgrade of a database, by what is added to it.
ghost use Rattle.std.specs.Prelude.{◌≡◌, false, OnOk, OnErr, IfErr};
ghost use Rattle.sqlite.specs.State.{HasCleanDisk, Survives};
ghost use Rattle.sqlite.specs.Held.{state};
ghost use Rattle.sql_write.specs.Committing.{GoesBack, HasCommitted, IsBeforeCommit, IsLeft};
ghost use Rattle.sql_write.specs.{Numbers.FitsUpgrade, Refusals.IsCause, Statements.upgrade_statements};
ghost use Rattle.sql_upgrade.specs.FirstDesks.{BringsDesk, UpgradesDesk};

use crate::additions::Additions;
use sql_write::{SaveFault, upgrade_tables};
use sqlite::{Alter, Connection};

/// Makes of a desk in format 1 the same desk in format 2, in one transaction: all of it, or nothing.
///
/// # Errors
///
/// As `sql_write::upgrade_tables`.
#[tactic(auto, using(crate::proofs::FirstDesksKept::committed_as, crate::proofs::FirstDesksKept::desk_brought, crate::proofs::FirstDesksKept::desks_upgrade, crate::proofs::FirstDesksKept::left_as, sqlite::proofs::StateLemmas::survives_weaker))]
pub fn upgrade<S: Alter>(conn: &mut Connection<S>, additions: &Additions) -> Result<(), SaveFault>
    requires idle { conn.old.in_transaction ≡ false }
    ensures idle { conn.new.in_transaction ≡ false }
    ensures ok { HasCleanDisk (state S.Store conn.new)
        → OnOk result (HasCommitted (state S.Store conn.old) (state S.Store conn.new) (UpgradesDesk additions.now)) }
    ensures desk { HasCleanDisk (state S.Store conn.new)
        → OnOk result (BringsDesk additions.now (state S.Store conn.old) (state S.Store conn.new)) }
    ensures err { (state S.Store conn.old).now ≡ (state S.Store conn.old).committed → HasCleanDisk (state S.Store conn.new)
        → OnErr result (GoesBack (state S.Store conn.old) (state S.Store conn.new)) }
    ensures before { IfErr result (λ why. IsBeforeCommit why → Survives (state S.Store conn.old) (state S.Store conn.new) (λ _. ⊥)) }
    ensures left { Survives (state S.Store conn.old) (state S.Store conn.new) (IsLeft (UpgradesDesk additions.now (state S.Store conn.old).now)) }
    ensures cause { IfErr result (IsCause S.Store (FitsUpgrade additions.now.meta additions.now.keys.items)
        (upgrade_statements additions.now.meta additions.now.keys.items) conn.old conn.new) }
{
    upgrade_tables(conn, &additions.meta, additions.keys.as_slice())
}
