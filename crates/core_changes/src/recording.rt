//! What a call records, change by change.
ghost use Rattle.model_laws.specs.Ordered.{IsOrdered};
ghost use Rattle.desk_model.specs.{Change.recorded_changes, Effect.swept, Entry.entry_of, Tables.Tables, declared.entry.Entry.Entry as EntryOf};
ghost use Rattle.desk_model.specs.Limits.{last_moment, last_number};
ghost use Rattle.desk_model.specs.Run.{count_new, count_tokens};
ghost use Rattle.core_changes.specs.Made.{AreReusable, next_account, next_order, next_rows, ordered_counters};
ghost use Rattle.std.specs.Prelude.{◌≡◌, ◌<◌, ◌≤◌, map, ◌+◌, ◌++◌, ◌∷◌, [], IfOk, OnOk, ℕ, List, option_copied};
ghost use Rattle.core_changes.specs.Moved.{AreMoved};
ghost use Rattle.core_changes.specs.Recorded.{GoesOn, IsRecorded, IsUntouched, book_moves, last_account, last_order};
ghost use Rattle.desk_model.specs.declared.entry.Entry.TheVariants.{Issued as issued, Spent as spent, Opened as opened, Ordered as ordered};
ghost use Rattle.desk_model.specs.declared.rows.Change.TheVariants.{PutMeta, PutNonce, RemoveNonce, PutAccount, PutAuthorization, PutOrder};

use crate::moved::{MovedRows, record_rows};
use crate::orders::{Making, made_order, push_authorizations};
use desk_book::{Book, sweep_changes};
use desk_model::{
    AccountRow, AccountStatus, AuthorizationRow, Change, Clock, Counters, Jwk, Meta, Move, Nonce,
    OrderRow, Policy, Sequence, Text, Wanted,
};
use std::alloc::{AllocError, Global};

/// The changes of rows that a call makes so far, and the counters after them.
#[derive(Drop)]
pub struct Recording {
    /// In their order: the sweep's, then those of each entry.
    pub changes: Vec<Change>,
    /// The clock is the moment of the call, the counts are those after the entries so far.
    pub counters: Counters,
}

impl Recording {
    /// Begins with the passing of time up to a moment.
    ///
    /// # Errors
    ///
    /// Where there is no memory for the changes of the sweep.
    pub fn begin(alloc: Global, book: &Book, moment: u64) -> Result<Recording, AllocError>
        requires { moment ≤ last_moment }
        ensures recorded { IfOk result (λ r. IsRecorded moment book.now [] r.changes.items r.counters) }
        ensures counters { IfOk result (λ r. r.counters ≡ record book.now.meta.counters { clock = moment }) }
    {
        let changes = sweep_changes(alloc, book, moment)?;
        let mut counters = book.meta().counters;
        counters.clock = Clock::at(moment);
        Ok(Recording { changes, counters })
    }

    /// All changes of the call: at the end the meta row, with the counters after the entries.
    ///
    /// # Errors
    ///
    /// Where there is no memory for the meta row.
    pub fn finish(self, policy: &Policy) -> Result<Vec<Change>, AllocError>
        ensures changes { IfOk result (λ v. v.items ≡ self.changes.items ++ PutMeta (record { policy = policy.now; counters = self.counters }) ∷ []) }
        ensures recorded { IfOk result (λ v. (m : ℕ) (B : Tables) (e : EntryOf) (es : List EntryOf) → B.meta.policy ≡ policy.now
            → IsRecorded m B (e ∷ es) self.changes.items self.counters → v.items ≡ recorded_changes m B (e ∷ es)) }
    {
        let Recording {
            mut changes,
            counters,
        } = self;
        let policy = policy.clone()?;
        push_change(&mut changes, Change::PutMeta(Meta { policy, counters }))?;
        Ok(changes)
    }

    // Records a change.
    fn push(&mut self, change: Change) -> Result<(), AllocError>
        ensures changes { OnOk result (self.new.changes.items ≡ self.old.changes.items ++ change ∷ []) }
        ensures counters { OnOk result (self.new.counters ≡ self.old.counters) }
    {
        push_change(&mut self.changes, change)
    }

    /// Spends the nonce of a serial.
    ///
    /// # Errors
    ///
    /// Where there is no memory for the change; what was recorded is then of no use.
    pub fn spend(&mut self, serial: u64) -> Result<(), AllocError>
        ensures changes { OnOk result (self.new.changes.items ≡ self.old.changes.items ++ RemoveNonce serial ∷ []) }
        ensures counters { OnOk result (self.new.counters ≡ self.old.counters) }
        ensures recorded { OnOk result ((m : ℕ) (B : Tables) (es : List EntryOf) → GoesOn m B es (spent serial ∷ []) self.old self.new) }
    {
        self.push(Change::RemoveNonce(serial))
    }

    /// Issues the next nonce with these random bytes.
    ///
    /// # Errors
    ///
    /// Where there is no memory for the change; what was recorded is then of no use.
    pub fn issue(&mut self, random: [u8; 16]) -> Result<(), AllocError>
        requires { self.old.counters.nonces < last_number }
        ensures changes { OnOk result (self.new.changes.items ≡ self.old.changes.items
            ++ PutNonce (record { serial = self.old.counters.nonces + 1; random = random; issued = self.old.counters.clock }) ∷ []) }
        ensures counters { OnOk result (self.new.counters ≡ record self.old.counters { nonces = self.old.counters.nonces + 1 }) }
        ensures recorded { OnOk result ((m : ℕ) (B : Tables) (es : List EntryOf) → GoesOn m B es (issued random ∷ []) self.old self.new) }
    {
        self.counters.nonces += 1;
        let nonce = Nonce {
            serial: self.counters.nonces,
            random,
            issued: self.counters.clock.moment(),
        };
        self.push(Change::PutNonce(nonce))
    }

    /// Opens the next account, whose row the last change then puts.
    ///
    /// # Errors
    ///
    /// Where there is no memory for the change; what was recorded is then of no use.
    pub fn open(&mut self, key: Jwk, contacts: Sequence<Text>) -> Result<(), AllocError>
        requires { self.old.counters.accounts < last_number }
        ensures changes { OnOk result (self.new.changes.items ≡ self.old.changes.items ++ PutAccount (next_account self.old.counters key contacts) ∷ []) }
        ensures counters { OnOk result (self.new.counters ≡ record self.old.counters { accounts = self.old.counters.accounts + 1 }) }
        ensures recorded { OnOk result ((m : ℕ) (B : Tables) (es : List EntryOf) → GoesOn m B es (opened key contacts ∷ []) self.old self.new) }
    {
        self.counters.accounts += 1;
        let row = AccountRow {
            number: self.counters.accounts,
            key,
            contacts,
            opened: self.counters.clock.moment(),
            ended: None,
            status: AccountStatus::Valid,
        };
        self.push(Change::PutAccount(row))
    }

    /// The account that the last change puts.
    pub fn last_account(&self) -> Option<&AccountRow>
        ensures { option_copied result ≡ last_account self.now.changes.items }
    {
        match self.changes.last()? {
            Change::PutAccount(row) => Some(row),
            _ => None,
        }
    }

    /// Records a move of rows of a book, as they stand at the moment, and gives the rows that it touches, as it leaves them.
    ///
    /// # Errors
    ///
    /// Where there is no memory for the rows that it moves; what was recorded is then of no use.
    pub fn shift(
        &mut self,
        alloc: Global,
        book: &Book,
        motion: &Move,
    ) -> Result<MovedRows, AllocError>
        ensures changes { OnOk result (self.new.changes.items ≡ self.old.changes.items ++ book_moves self.old.counters.clock book.now (entry_of motion.now)) }
        ensures counters { OnOk result (self.new.counters ≡ self.old.counters) }
        ensures rows { IfOk result (λ r. AreMoved self.old.counters.clock book.now (entry_of motion.now) r.accounts.items
            r.authorizations.items r.orders.items) }
        ensures recorded { OnOk result ((m : ℕ) (es : List EntryOf) → IsUntouched m book.now es
            → GoesOn m book.now es (entry_of motion.now ∷ []) self.old self.new) }
    {
        let moment = self.counters.clock.moment();
        let mut rows = MovedRows {
            accounts: Vec::new(alloc),
            authorizations: Vec::new(alloc),
            orders: Vec::new(alloc),
        };
        record_rows(&mut self.changes, alloc, &mut rows, book, motion, moment)?;
        Ok(rows)
    }

    /// Makes the next order of an account, with an authorization for each of these names that gets a new one. The last change
    /// then puts the row of the order.
    ///
    /// # Errors
    ///
    /// Where there is no memory for its rows; what was recorded is then of no use.
    pub fn order(
        &mut self,
        alloc: Global,
        policy: &Policy,
        account: u64,
        wanted: &[Wanted],
    ) -> Result<(), AllocError>
        requires orders { self.old.counters.orders < last_number }
        requires authorizations { self.old.counters.authorizations + count_new wanted.now ≤ last_number }
        requires challenges { self.old.counters.challenges + count_tokens wanted.now ≤ last_number }
        ensures changes { OnOk result (self.new.changes.items ≡ self.old.changes.items
            ++ (map PutAuthorization (next_rows policy.now self.old.counters account wanted.now)
            ++ PutOrder (next_order policy.now self.old.counters account wanted.now) ∷ [])) }
        ensures counters { OnOk result (self.new.counters ≡ ordered_counters policy.now self.old.counters account wanted.now) }
        ensures recorded { OnOk result ((m : ℕ) (B : Tables) (es : List EntryOf) → B.meta.policy ≡ policy.now → IsOrdered B → IsUntouched m B es
            → AreReusable (swept m B).authorizations wanted.now → GoesOn m B es (ordered account wanted.now ∷ []) self.old self.new) }
    {
        let first = self.counters.authorizations + 1;
        let rows = self.make_rows(alloc, policy, account, wanted)?;
        record_authorizations(&mut self.changes, rows)?;
        let order = made_order(alloc, policy, &self.counters, account, wanted, first)?;
        self.counters.orders += 1;
        self.push(Change::PutOrder(order))
    }

    /// The order that the last change puts.
    pub fn last_order(&self) -> Option<&OrderRow>
        ensures { option_copied result ≡ last_order self.now.changes.items }
    {
        match self.changes.last()? {
            Change::PutOrder(row) => Some(row),
            _ => None,
        }
    }

    // The authorizations of the next order, which are counted.
    fn make_rows(
        &mut self,
        alloc: Global,
        policy: &Policy,
        account: u64,
        wanted: &[Wanted],
    ) -> Result<Vec<AuthorizationRow>, AllocError>
        requires authorizations { self.old.counters.authorizations + count_new wanted.now ≤ last_number }
        requires challenges { self.old.counters.challenges + count_tokens wanted.now ≤ last_number }
        ensures rows { IfOk result (λ v. v.items ≡ next_rows policy.now self.old.counters account wanted.now) }
        ensures counters { OnOk result (self.new.counters
            ≡ record (ordered_counters policy.now self.old.counters account wanted.now) { orders = self.old.counters.orders }) }
        ensures changes { OnOk result (self.new.changes.items ≡ self.old.changes.items) }
    {
        let mut rows = Vec::new(alloc);
        let making = self.next_making(policy, account);
        let number = self.counters.authorizations + 1;
        let challenge = self.counters.challenges + 1;
        let next = push_authorizations(alloc, &mut rows, making, wanted, number, challenge)?;
        self.counters.authorizations += rows.len() as u64;
        self.counters.challenges = next - 1;
        Ok(rows)
    }

    // What the authorizations of the next order have in common.
    fn next_making(&self, policy: &Policy, account: u64) -> Making
        ensures { result ≡ record { account = account; date = self.now.counters.clock; expires = self.now.counters.clock + policy.now.authz_life } }
    {
        Making {
            account,
            date: self.counters.clock.moment(),
            expires: self.counters.clock.moment() + policy.authz_life(),
        }
    }
}

// Puts the authorizations of a new order.
fn record_authorizations(
    changes: &mut Vec<Change>,
    rows: Vec<AuthorizationRow>,
) -> Result<(), AllocError>
    ensures { OnOk result (changes.new.items ≡ changes.old.items ++ map PutAuthorization rows.items) }
{
    for row in rows {
        push_change(changes, Change::PutAuthorization(row))?;
    }
    Ok(())
}

/// Adds a change to the changes.
pub(crate) fn push_change(changes: &mut Vec<Change>, change: Change) -> Result<(), AllocError>
    ensures { OnOk result (changes.new.items ≡ changes.old.items ++ change ∷ []) }
{
    changes.push(change)?;
    Ok(())
}
