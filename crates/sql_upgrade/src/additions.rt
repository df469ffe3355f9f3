//! What format 2 adds to a desk of format 1.
ghost use Rattle.std.specs.Prelude.{◌≡◌, ◌⊎◌, IfErr, IfOk, IfSome, IsSome, MatchOption, None, OnOk};
ghost use Rattle.sqlite.specs.State.{HasCleanDisk, IsUnchanged};
ghost use Rattle.sqlite.specs.Held.{state};
ghost use Rattle.desk_model.specs.Tables.{Tables};
ghost use Rattle.sql_read.specs.{AllTables.FailsAtFirst, FirstRows.HasNoFirstBook, FirstRows.IsFirstReadable, Reads.Reads};
ghost use Rattle.sql_read.specs.Failures.{HasTexts, IsMet, IsOutOfMemory, MayRead};
ghost use Rattle.sql_read.specs.First.{AreFirstShown, ForFirst};
ghost use Rattle.sql_schema.specs.{Failing.IsFailure, Stays.Asks};
ghost use Rattle.sql_upgrade.specs.{Checked.AreChecked, FoundKeys.HasKeys, FoundKeys.LacksThumbs};
ghost use Rattle.sql_upgrade.specs.FirstDesks.{AreOfDesks};
ghost use Rattle.store_book.specs.IsBook.{IsBookOfStored, IsStoredBook};
ghost use Rattle.store_columns.specs.declared.columns.StoredRows.{StoredRows};

use crate::answer_keys::read_keys;
use desk_model::Meta;
use sql_read::first_meta;
use sqlite::{Alter, Connection, Error};
use std::alloc::Global;
use store_columns::AnswerKey;

/// What format 2 adds to a desk of format 1: the format in the row of the desk, and the keys of all answers.
#[derive(Drop)]
pub struct Additions {
    /// The row of the desk.
    pub meta: Meta,
    /// The keys of all answers.
    pub keys: Vec<AnswerKey>,
}

// This row with the keys of all answers.
#[tactic(auto, using(sql_read::proofs::FirstChecked::reads_err, sql_read::proofs::FirstChecked::reads_ok))]
fn with_keys<S: Alter>(
    alloc: Global,
    conn: &mut Connection<S>,
    meta: Meta,
) -> Result<Option<Additions>, Error>
    ensures { Reads S.Store conn.old conn.new (λ found. MatchOption found (LacksThumbs S.Store (state S.Store conn.old).now)
        (HasKeys S.Store (state S.Store conn.old).now meta)) (IsFirstReadable S.Store conn.old)
        (λ e. IsOutOfMemory e ⊎ FailsAtFirst S.Store conn.old e) result }
{
    match read_keys(alloc, conn) {
        Ok(Some(keys)) => Ok(Some(Additions { meta, keys })),
        Ok(None) => Ok(None),
        Err(error) => Err(error),
    }
}

// As `read_additions`.
#[tactic(auto, using(sql_read::proofs::FirstChecked::reads_err, sql_read::proofs::FirstChecked::reads_ok))]
fn checked_additions<S: Alter>(
    alloc: Global,
    conn: &mut Connection<S>,
) -> Result<Option<Additions>, Error>
    ensures { Reads S.Store conn.old conn.new (λ found. MatchOption found (HasNoFirstBook S.Store conn.old) (AreChecked S.Store conn.old))
        (IsFirstReadable S.Store conn.old) (λ e. IsOutOfMemory e ⊎ FailsAtFirst S.Store conn.old e) result }
{
    match first_meta(alloc, conn) {
        Ok(Some(meta)) => with_keys(alloc, conn, meta),
        Ok(None) => Ok(None),
        Err(error) => Err(error),
    }
}

/// What is added, where the rows of the tables of format 1 are those of a book: in the order of their keys each passes; they are read
/// up to the first that does not. One row is held at a time; of the rows before it numbers, thumbprints and the keys of accounts, and
/// the keys of answers.
///
/// # Errors
///
/// The engine's; the connection is as it was, or what was not committed is undone.
#[tactic(auto, using(sql_read::proofs::Results::found_then, crate::proofs::KeyReadings::has_checked_book, crate::proofs::KeyReadings::is_found, sql_read::proofs::Results::none_said, sql_read::proofs::Results::read_then, crate::proofs::KeyReadings::some_said))]
pub fn read_additions<S: Alter>(
    alloc: Global,
    conn: &mut Connection<S>,
) -> Result<Option<Additions>, Error>
    ensures book { HasCleanDisk (state S.Store conn.new) → IfOk result (λ answer. IsSome answer
        → (stored : StoredRows) × AreFirstShown S.Store conn.old stored × (T : Tables) × IsBookOfStored stored T) }
    ensures added { HasCleanDisk (state S.Store conn.new)
        → IfOk result (λ answer. IfSome answer (AreOfDesks (state S.Store conn.old).now)) }
    ensures none { HasCleanDisk (state S.Store conn.new) → IfOk result (λ answer. answer ≡ None → HasNoFirstBook S.Store conn.old) }
    ensures found { ForFirst (state S.Store conn.old) (state S.Store conn.new) (λ T. IsStoredBook T → IfOk result IsSome) }
    ensures fails { ForFirst (state S.Store conn.old) (state S.Store conn.new) (λ T. MayRead (state S.Store conn.old) → HasTexts T → IfErr result IsFailure) }
    ensures refused { HasCleanDisk (state S.Store conn.new) → IfErr result (λ e. IsOutOfMemory e ⊎ FailsAtFirst S.Store conn.old e) }
    ensures met { HasCleanDisk (state S.Store conn.new) → IfErr result (IsMet (state S.Store conn.old) (state S.Store conn.new)) }
    ensures unchanged { HasCleanDisk (state S.Store conn.new) → OnOk result (IsUnchanged (state S.Store conn.old) (state S.Store conn.new)) }
    ensures asks { Asks (state S.Store conn.old) (state S.Store conn.new) }
{
    checked_additions(alloc, conn)
}
