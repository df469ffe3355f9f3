//! The rows that belong to another, written one after the other.
ghost use Rattle.std.specs.Prelude.{◌≡◌, ℕ, IfErr, option_copied, option_to_list};
ghost use Rattle.std.specs.List.{flat_map};
ghost use Rattle.store_columns.specs.Flat.{answer_key, key_rows, owned_by};
ghost use Rattle.desk_model.specs.Kept.{EachOf};
ghost use Rattle.sql_write.specs.Makes.{PutsAll, PutsAllOver, PutsChallenges, PutsOver, WritesListed, challenge_under, key_under};
ghost use Rattle.sql_write.specs.{Numbers.IsNotTooLarge, Refusals.HasWritten, Stored.stored_key};
ghost use Rattle.sql_write.specs.Statements.{key_writing, lacks_key, saves_answer, saves_challenge, saves_challenges, saves_key, writes, writes_listed};
ghost use Rattle.sql_write.specs.declared.stored.Write.TheVariants.{Upsert};
ghost use Rattle.sql_tables.specs.Layouts.{challenge_layout, key_layout};
ghost use Rattle.sql_write.specs.Fits.{FitsChallenge, FitsKey, FitsListed};

use crate::authorizations::{write_challenge, write_key};
use crate::fault::SaveFault;
use crate::orders::write_listed;
use crate::stored::{Write, challenge_difference, key_difference, stored_challenge};
use desk_model::{AuthorizationRow, ChallengeRow, Listed};
use sqlite::{Alter, Transaction};
use store_columns::AnswerKey;

// ---- challenges

// Saves a challenge of an authorization, without the key of its answer.
fn save_challenge<S: Alter>(
    tx: &mut Transaction<'_, S>,
    stored: Option<&AuthorizationRow>,
    last: u64,
    authorization: u64,
    row: &ChallengeRow,
) -> Result<(), SaveFault>
    ensures same_reference { tx.new.conn.ghost_name ≡ tx.old.conn.ghost_name }
    ensures writes { HasWritten S.Store (saves_challenge (option_copied stored.entry) last authorization row.now)
        (PutsOver challenge_layout (challenge_under (option_copied stored.entry) (record { owner = authorization; row = row.now }))
        (record { owner = authorization; row = row.now })) tx.old.conn.now tx.new.conn.now result }
    ensures fits { FitsChallenge (record { owner = authorization; row = row.now }) → IfErr result IsNotTooLarge }
{
    let difference = challenge_difference(stored_challenge(stored, row.number), row);
    match Write::of(difference, row.number > last) {
        Some(write) => write_challenge(tx, write, authorization, row),
        None => Ok(()),
    }
}

// Saves the challenges of an authorization, without the keys of their answers.
fn save_bare_challenges<S: Alter>(
    tx: &mut Transaction<'_, S>,
    stored: Option<&AuthorizationRow>,
    last: u64,
    authorization: u64,
    rows: &[ChallengeRow],
) -> Result<(), SaveFault>
    ensures same_reference { tx.new.conn.ghost_name ≡ tx.old.conn.ghost_name }
    ensures writes { HasWritten S.Store (flat_map (saves_challenge (option_copied stored.entry) last authorization) rows.now)
        (PutsAllOver challenge_layout (challenge_under (option_copied stored.entry)) (owned_by authorization rows.now)) tx.old.conn.now tx.new.conn.now result }
    ensures fits { EachOf FitsChallenge (owned_by authorization rows.now) → IfErr result IsNotTooLarge }
{
    for row in rows {
        save_challenge(tx, stored, last, authorization, row)?;
    }
    Ok(())
}

// ---- the keys of their answers

// The key of a challenge's answer.
fn answer_key(row: &ChallengeRow) -> Option<AnswerKey>
    ensures { result ≡ answer_key row.now }
{
    let answer = row.answered?;
    let thumb = answer.thumb;
    Some(AnswerKey {
        challenge: row.number,
        thumb,
    })
}

// The key of the answer of a challenge that is known.
fn stored_key(stored: Option<&AuthorizationRow>, number: u64) -> Option<AnswerKey>
    ensures { result ≡ stored_key (option_copied stored.entry) number }
{
    answer_key(stored_challenge(stored, number)?)
}

// Whether no key stands in the place of that of a challenge, where none is known: the challenge is known, or it is new.
fn lacks_key(stored: Option<&ChallengeRow>, last: u64, number: u64) -> bool
    ensures { result ≡ lacks_key (option_copied stored.entry) last number }
{
    stored.is_some() || number > last
}

// Saves the key of an answer, over the one that is known.
fn save_key<S: Alter>(
    tx: &mut Transaction<'_, S>,
    stored: Option<&AuthorizationRow>,
    last: u64,
    key: &AnswerKey,
) -> Result<(), SaveFault>
    ensures same_reference { tx.new.conn.ghost_name ≡ tx.old.conn.ghost_name }
    ensures writes { HasWritten S.Store (saves_key (option_copied stored.entry) last key.now)
        (PutsOver key_layout (key_under (option_copied stored.entry) key.now) key.now)
        tx.old.conn.now tx.new.conn.now result }
    ensures fits { FitsKey key.now → IfErr result IsNotTooLarge }
{
    let difference = key_difference(stored_key(stored, key.challenge), key);
    let is_new = lacks_key(stored_challenge(stored, key.challenge), last, key.challenge);
    match Write::of(difference, is_new) {
        Some(write) => write_key(tx, write, key),
        None => Ok(()),
    }
}

// Saves the key of a challenge's answer, if it has one.
fn save_answer<S: Alter>(
    tx: &mut Transaction<'_, S>,
    stored: Option<&AuthorizationRow>,
    last: u64,
    row: &ChallengeRow,
) -> Result<(), SaveFault>
    ensures same_reference { tx.new.conn.ghost_name ≡ tx.old.conn.ghost_name }
    ensures writes { HasWritten S.Store (saves_answer (option_copied stored.entry) last row.now)
        (PutsAllOver key_layout (key_under (option_copied stored.entry)) (option_to_list (answer_key row.now))) tx.old.conn.now tx.new.conn.now result }
    ensures fits { (owner : ℕ) → FitsChallenge (record { owner = owner; row = row.now }) → IfErr result IsNotTooLarge }
{
    match answer_key(row) {
        Some(key) => save_key(tx, stored, last, &key),
        None => Ok(()),
    }
}

// Saves the keys of the answers of challenges.
fn save_answers<S: Alter>(
    tx: &mut Transaction<'_, S>,
    stored: Option<&AuthorizationRow>,
    last: u64,
    authorization: u64,
    rows: &[ChallengeRow],
) -> Result<(), SaveFault>
    ensures same_reference { tx.new.conn.ghost_name ≡ tx.old.conn.ghost_name }
    ensures writes { HasWritten S.Store (flat_map (saves_answer (option_copied stored.entry) last) rows.now)
        (PutsAllOver key_layout (key_under (option_copied stored.entry)) (key_rows (owned_by authorization rows.now))) tx.old.conn.now tx.new.conn.now result }
    ensures fits { EachOf FitsChallenge (owned_by authorization rows.now) → IfErr result IsNotTooLarge }
{
    for row in rows {
        save_answer(tx, stored, last, row)?;
    }
    Ok(())
}

/// Saves the challenges of an authorization, of which this row is stored, and the keys of their answers.
pub(crate) fn save_challenges<S: Alter>(
    tx: &mut Transaction<'_, S>,
    stored: Option<&AuthorizationRow>,
    last: u64,
    authorization: u64,
    rows: &[ChallengeRow],
) -> Result<(), SaveFault>
    ensures same_reference { tx.new.conn.ghost_name ≡ tx.old.conn.ghost_name }
    ensures writes { HasWritten S.Store (saves_challenges (option_copied stored.entry) last authorization rows.now)
        (PutsChallenges (option_copied stored.entry) authorization rows.now) tx.old.conn.now tx.new.conn.now result }
    ensures fits { EachOf FitsChallenge (owned_by authorization rows.now) → IfErr result IsNotTooLarge }
{
    save_bare_challenges(tx, stored, last, authorization, rows)?;
    save_answers(tx, stored, last, authorization, rows)
}

/// Puts the keys of answers.
pub(crate) fn write_keys<S: Alter>(
    tx: &mut Transaction<'_, S>,
    rows: &[AnswerKey],
) -> Result<(), SaveFault>
    ensures same_reference { tx.new.conn.ghost_name ≡ tx.old.conn.ghost_name }
    ensures writes { HasWritten S.Store (flat_map (writes key_writing Upsert) rows.now) (PutsAll key_layout rows.now) tx.old.conn.now tx.new.conn.now result }
    ensures fits { EachOf FitsKey rows.now → IfErr result IsNotTooLarge }
{
    for row in rows {
        write_key(tx, Write::Upsert, row)?;
    }
    Ok(())
}

// ---- what an order lists

/// Writes what an order lists, as the order is written.
pub(crate) fn write_all_listed<S: Alter>(
    tx: &mut Transaction<'_, S>,
    write: Write,
    order: u64,
    rows: &[Listed],
) -> Result<(), SaveFault>
    ensures same_reference { tx.new.conn.ghost_name ≡ tx.old.conn.ghost_name }
    ensures writes { HasWritten S.Store (flat_map (writes_listed write order) rows.now) (WritesListed write (owned_by order rows.now))
        tx.old.conn.now tx.new.conn.now result }
    ensures fits { EachOf FitsListed (owned_by order rows.now) → IfErr result IsNotTooLarge }
{
    for row in rows {
        write_listed(tx, write, order, row)?;
    }
    Ok(())
}
