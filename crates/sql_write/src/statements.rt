//! Statements inside a transaction and its end, and parts of rows as their parameters.
ghost use Rattle.std.specs.Prelude.{◌≡◌, ◌⊎◌, ◌≤◌, ◌^◌, IfErr, OnErr, false, Err, IsOk, OnOk, IsTrue, pos, IfOk, MatchResult, map, option_map};
ghost use Rattle.sqlite.specs.State.{Survives, HasCleanDisk, IsRolledBack};
ghost use Rattle.sqlite.specs.Values.{bound, bound_value};
ghost use Rattle.sqlite.specs.{Held.state, declared.types.Value.TheVariants.Text as SqlText};
ghost use Rattle.sql_write.specs.{Numbers.IsNotTooLarge, Statements.sql_by, Fits.Fits, declared.fault.WriteFault.TheVariants.TooLarge};
ghost use Rattle.sql_write.specs.Refusals.{IsRun, Runs, FailedCommit};
ghost use Rattle.sql_schema.specs.Advances.{Declines, KeepsLast, Performs};
ghost use Rattle.sql_write.specs.Committing.{HasCommitted, IsBeforeCommit};
ghost use Rattle.sqlite_value.specs.Value.{owned};
ghost use Rattle.sql_tables.specs.Images.{int_or_null, text_or_null};
ghost use Rattle.desk_model.specs.Kept.{EachOf};
ghost use Rattle.store_columns.specs.{Columns.wildcard_column, Limits.IfRecorded};

use crate::fault::{SaveFault, WriteFault};
use crate::stored::Write;
use desk_model::Text;
use sql_schema::Writing;
use sqlite::types::ValueRef;
use sqlite::{Alter, Error, Transaction};

/// Runs a statement with these parameters, and answers how many rows it wrote or removed.
///
/// # Errors
///
/// As `Transaction::execute`: where the statement is refused, the transaction goes on as it was; where memory or the disk
/// fails, it is over.
#[tactic(auto, using(sql_schema::proofs::AdvanceLemmas::declines_unless_answered, sql_schema::proofs::AdvanceLemmas::performs_keeps))]
pub(crate) fn execute<S: Alter>(
    tx: &mut Transaction<'_, S>,
    text: &str,
    params: &[ValueRef<'_>],
) -> Result<usize, Error>
    ensures same_reference { tx.new.conn.ghost_name ≡ tx.old.conn.ghost_name }
    ensures runs { Performs text.now (bound params.now) (state S.Store tx.old.conn.now) (state S.Store tx.new.conn.now) result }
    ensures err { OnErr result (Declines (state S.Store tx.old.conn.now) (state S.Store tx.new.conn.now)) }
    ensures kept { KeepsLast (state S.Store tx.old.conn.now) (state S.Store tx.new.conn.now) }
    ensures survives { Survives (state S.Store tx.old.conn.now) (state S.Store tx.new.conn.now) (λ _. ⊥) }
    ensures told { Runs S.Store (record { text = text.now; params = bound params.now }) tx.old.conn.now tx.new.conn.now result }
{
    tx.execute(text, params)
}

/// Runs a statement that writes or removes a row.
///
/// # Errors
///
/// `Statement`, as `execute`.
pub(crate) fn execute_or_fault<S: Alter>(
    tx: &mut Transaction<'_, S>,
    text: &str,
    params: &[ValueRef<'_>],
) -> Result<(), SaveFault>
    ensures same_reference { tx.new.conn.ghost_name ≡ tx.old.conn.ghost_name }
    ensures ran { IsRun S.Store (record { text = text.now; params = bound params.now }) tx.old.conn.now tx.new.conn.now result }
    ensures fits { IfErr result IsNotTooLarge }
{
    match execute(tx, text, params) {
        Ok(_) => Ok(()),
        Err(error) => Err(SaveFault::Statement(error)),
    }
}

/// Runs the statement by which a row is written so, with all its parameters, or with those that renew it.
pub(crate) fn write_row<S: Alter>(
    tx: &mut Transaction<'_, S>,
    write: Write,
    texts: Writing,
    all: &[ValueRef<'_>],
    updates: &[ValueRef<'_>],
) -> Result<(), SaveFault>
    ensures same_reference { tx.new.conn.ghost_name ≡ tx.old.conn.ghost_name }
    ensures ran { IsRun S.Store (sql_by texts.entry.0.now texts.entry.1.now texts.entry.2.now write (bound all.now) (bound updates.now))
        tx.old.conn.now tx.new.conn.now result }
    ensures fits { IfErr result IsNotTooLarge }
{
    let (insert, upsert, update) = texts;
    match write {
        Write::Upsert => execute_or_fault(tx, upsert, all),
        Write::Insert => execute_or_fault(tx, insert, all),
        Write::Update => execute_or_fault(tx, update, updates),
    }
}

// ---- the end of a transaction

/// Commits what was done in the transaction, or undoes it where it failed. It takes the result for the proof: each of its callers
/// has one exit so.
pub(crate) fn end<S: Alter>(
    tx: Transaction<'_, S>,
    done: Result<(), SaveFault>,
) -> Result<(), SaveFault>
    ensures ended { tx.exit.0.now.in_transaction ≡ false }
    ensures done { OnOk result (IsOk done) }
    ensures ok { HasCleanDisk (state S.Store tx.exit.0.now)
        → OnOk result (HasCommitted (state S.Store tx.entry.conn.now) (state S.Store tx.exit.0.now) (λ now db. db ≡ now)) }
    ensures err { HasCleanDisk (state S.Store tx.exit.0.now)
        → OnErr result (OnOk done (IsTrue (state S.Store tx.entry.conn.now).in_transaction)
        → IsRolledBack (state S.Store tx.entry.conn.now) (state S.Store tx.exit.0.now)) }
    ensures before { IfErr result (λ why. IsBeforeCommit why → Survives (state S.Store tx.entry.conn.now) (state S.Store tx.exit.0.now) (λ _. ⊥)) }
    ensures left { Survives (state S.Store tx.entry.conn.now) (state S.Store tx.exit.0.now) (λ db. IsOk done
        × (db ≡ (state S.Store tx.entry.conn.now).now.trees)) }
    ensures cause { IfErr result (λ why. (done ≡ Err why) ⊎ (IsOk done × FailedCommit S.Store tx.entry.conn.now tx.exit.0.now why)) }
    ensures fits { IfErr done IsNotTooLarge → IfErr result IsNotTooLarge }
{
    done?;
    match tx.commit() {
        Ok(()) => Ok(()),
        Err(error) => Err(SaveFault::Commit(error)),
    }
}

// ---- parts of rows

/// A text, as TEXT.
pub(crate) fn text<'a>(text: &'a str) -> ValueRef<'a>
    ensures { bound_value (owned result) ≡ SqlText text.now }
{
    ValueRef::Text(text.as_bytes())
}

/// A number, or NULL.
pub(crate) fn int_or_null<'a>(number: &Option<i64>) -> ValueRef<'a>
    ensures { bound_value (owned result) ≡ int_or_null number.now }
{
    match number {
        Some(number) => ValueRef::Int(*number),
        None => ValueRef::Null,
    }
}

/// A text, or NULL.
pub(crate) fn text_or_null<'a>(text: &'a Option<Text>) -> ValueRef<'a>
    ensures { bound_value (owned result) ≡ text_or_null text.now }
{
    match text {
        Some(text) => ValueRef::Text(text.as_str().as_bytes()),
        None => ValueRef::Null,
    }
}

// ---- numbers and marks as INTEGER columns

/// A number as a column.
///
/// # Errors
///
/// `TooLarge`, where it is above 2^63 - 1.
pub(crate) fn number_column(number: u64) -> Result<i64, WriteFault>
    ensures { MatchResult result (λ column. column ≡ pos number) (λ why. (why ≡ TooLarge) × (2 ^ 63 ≤ number)) }
{
    if number <= i64::MAX as u64 {
        Ok(number as i64)
    } else {
        Err(WriteFault::TooLarge)
    }
}

/// Numbers as columns.
///
/// # Errors
///
/// `TooLarge`, where one of them is above 2^63 - 1.
pub(crate) fn number_columns<const N: usize>(numbers: [u64; N]) -> Result<[i64; N], WriteFault>
    ensures columns { IfOk result (λ columns. columns ≡ map (λ n. pos n) numbers.entry) }
    ensures fits { EachOf Fits numbers.entry → IsOk result }
{
    let mut columns = [0; N];
    for i in 0..N {
        columns[i] = number_column(numbers[i])?;
    }
    Ok(columns)
}

/// A date as a column, or NULL.
pub(crate) fn date_column(date: Option<u64>) -> Result<Option<i64>, WriteFault>
    ensures column { IfOk result (λ column. column ≡ option_map (λ n. pos n) date) }
    ensures fits { IfRecorded Fits date → IsOk result }
{
    match date {
        Some(date) => {
            let column = number_column(date)?;
            Ok(Some(column))
        }
        None => Ok(None),
    }
}

/// The mark of a wildcard as a column.
pub(crate) fn wildcard_column(wildcard: bool) -> i64
    ensures { result ≡ wildcard_column wildcard }
{
    if wildcard { 1 } else { 0 }
}
