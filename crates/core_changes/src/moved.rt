//! Rows as a move leaves them, and the changes that this makes.
ghost use Rattle.std.specs.Prelude.{◌≡◌, ◌==◌, ◌++◌, ◌∷◌, [], ⊤, Bool, List, cond, map, find, option_copied, option_map, IfOk, OnOk};
ghost use Rattle.std.specs.List.{filter};
ghost use Rattle.desk_model.specs.Derived.{authorization_numbered, numbers_of, stored_statuses};
ghost use Rattle.desk_model.specs.Entry.{entry_of};
ghost use Rattle.desk_model.specs.Effect.{has_row, swept_authorization, swept_order, noted_account, touches_account, touches_authorization};
ghost use Rattle.desk_model.specs.Effect.{touches_order};
ghost use Rattle.desk_model.specs.Change.{account_differs, authorization_differs, order_differs, moved_rows};
ghost use Rattle.desk_model.specs.declared.rows.{AuthorizationRow.AuthorizationRow as AuthorizationOf, Change.Change as ChangeOf};
ghost use Rattle.desk_model.specs.declared.rows.Change.TheVariants.{PutAccount, PutAuthorization, PutOrder};
ghost use Rattle.core_changes.specs.Moved.{AreMoved, moved_one, row_of, swept_rows, stated_authorization, stated_order, stepped_rows, touched_one};
ghost use Rattle.core_changes.specs.Moved.{touched_rows};
ghost use Rattle.core_changes.specs.{Recorded.book_moves, declared.moved.Step.Step as StepOf};

use crate::noted::{
    account_end_by, challenges_differ, end_after, is_gained, note_contacts, note_key,
    noted_challenges, same_texts, touches_authorization, touches_order,
};
use crate::orders::{note_dates, order_differs};
use crate::recording::push_change;
use desk_book::{
    Book, Row, Table, authorization_status, derived_account, derived_authorization, derived_order,
    has_challenge, order_status,
};
use desk_model::{
    AccountRow, AuthorizationRow, AuthzStatus, Change, Listed, Move, OrderRow, is_same_text,
};
use std::alloc::{AllocError, Global};

// The row of a number among these.
fn row_numbered<R: Row>(rows: &[R], number: u64) -> Option<&R>
    ensures { option_copied result ≡ find (λ row. R.number row == number) rows.now }
{
    rows.iter().find(|row| row.number() == number)
}

/// The rows that a move touches, as it leaves them.
#[derive(Drop)]
pub struct MovedRows {
    /// The account that it changes or ends.
    pub accounts: Vec<AccountRow>,
    /// That of its challenge, the one that it ends, or those of its account.
    pub authorizations: Vec<AuthorizationRow>,
    /// The one that it names, and those that list one of the authorizations.
    pub orders: Vec<OrderRow>,
}

impl MovedRows {
    /// The account of a number.
    pub fn account(&self, number: u64) -> Option<&AccountRow>
        ensures { option_copied result ≡ find (λ a. a.number == number) self.now.accounts.items }
    {
        row_numbered(&self.accounts, number)
    }

    /// The authorization of a number.
    pub fn authorization(&self, number: u64) -> Option<&AuthorizationRow>
        ensures { option_copied result ≡ find (λ a. a.number == number) self.now.authorizations.items }
    {
        row_numbered(&self.authorizations, number)
    }

    /// The authorization that a challenge is of.
    pub fn owner(&self, challenge: u64) -> Option<&AuthorizationRow>
        ensures { option_copied result ≡ find (has_row challenge) self.now.authorizations.items }
    {
        self.authorizations
            .iter()
            .find(|row| has_challenge(row, challenge))
    }

    /// The order of a number.
    pub fn order(&self, number: u64) -> Option<&OrderRow>
        ensures { option_copied result ≡ find (λ o. o.number == number) self.now.orders.items }
    {
        row_numbered(&self.orders, number)
    }
}

// Adds a row to the rows, or a status to the statuses, if there is one.
fn push_row<R: Drop>(rows: &mut Vec<R>, row: Option<R>) -> Result<(), AllocError>
    ensures { OnOk result (rows.new.items ≡ rows.old.items ++ row_of row) }
{
    if let Some(row) = row {
        rows.push(row)?;
    }
    Ok(())
}

// ---- rows of any table

/// A move of the rows of a book at a moment.
#[derive(Clone, Copy)]
struct Step<'a> {
    alloc: Global,
    book: &'a Book,
    motion: &'a Move,
    moment: u64,
}

/// A row that a move may touch.
trait Movable: Row {
    // Whether a step touches it.
    ghost touched: { StepOf → Self → Bool };

    // The row at its moment.
    ghost swept: { StepOf → Self → Self };

    // The row as the step leaves it, with the status that it ought to have.
    ghost stated: { StepOf → Self → Self };

    // Whether a row after a step differs from the row before it.
    ghost differs: { (before after : Self) → Bool };

    // The change that puts it.
    ghost puts: { Self → ChangeOf };

    // What is known of the authorizations that the step touches, as it leaves them.
    ghost Knows: { StepOf → List AuthorizationOf → Type 0 };

    /// Whether a step touches the row.
    fn is_touched(&self, step: &Step) -> bool
        ensures { result ≡ touched step.now (swept step.now self.now) };

    /// Brings the row to the moment of a step.
    fn sweep(&mut self, step: &Step)
        ensures { self.new ≡ swept step.now self.old };

    /// Notes a step in the row, with the status that it then ought to have.
    fn restate(&mut self, step: &Step, after: &[AuthorizationRow]) -> Result<(), AllocError>
        requires { Knows step.now after.now }
        ensures { OnOk result (self.new ≡ stated step.now self.old) };

    /// Whether the row after a step differs from this one.
    fn differs(&self, after: &Self) -> bool
        ensures { result ≡ differs self.now after.now };

    /// The change that puts the row.
    fn put(self) -> Change
        ensures { result ≡ puts self };
}

// Puts the row in which a move was noted, where it differs from the one before it. The change has a row of its own, since the
// row itself stays among those that the move touches: statuses of orders and the reply are read there.
fn record_noted<R: Movable + Drop>(
    changes: &mut Vec<Change>,
    before: &R,
    after: &R,
) -> Result<(), AllocError>
    ensures { OnOk result (changes.new.items ≡ changes.old.items
        ++ map R.puts (cond (R.differs before.now after.now) (after.now ∷ []) [])) }
{
    if !before.differs(after) {
        return Ok(());
    }
    push_change(changes, after.clone()?.put())
}

// A row that a step touches, as it leaves it, with the change that this makes.
fn restate_row<R: Movable + Drop>(
    changes: &mut Vec<Change>,
    step: &Step,
    after: &[AuthorizationRow],
    swept: &R,
) -> Result<R, AllocError>
    requires { R.Knows step.now after.now }
    ensures changes { OnOk result (changes.new.items ≡ changes.old.items
        ++ map R.puts (cond (R.differs swept.now (R.stated step.now swept.now)) (R.stated step.now swept.now ∷ []) [])) }
    ensures row { IfOk result (λ r. r ≡ R.stated step.now swept.now) }
{
    let mut next = swept.clone()?;
    next.restate(step, after)?;
    record_noted(changes, swept, &next)?;
    Ok(next)
}

// The row as a step leaves it, if it touches it, with the change that this makes.
fn move_row<R: Movable + Drop>(
    changes: &mut Vec<Change>,
    step: &Step,
    after: &[AuthorizationRow],
    row: &R,
) -> Result<Option<R>, AllocError>
    requires { R.Knows step.now after.now }
    ensures changes { OnOk result (changes.new.items ≡ changes.old.items
        ++ map R.puts (moved_one (R.touched step.now) R.differs (R.stated step.now) (R.swept step.now row.now))) }
    ensures row { IfOk result (λ o. o ≡ touched_one (R.touched step.now) (R.stated step.now) (R.swept step.now row.now)) }
{
    if !row.is_touched(step) {
        return Ok(None);
    }
    let mut swept = row.clone()?;
    swept.sweep(step);
    let next = restate_row(changes, step, after, &swept)?;
    Ok(Some(next))
}

// Puts the rows of a table that a step changes, and adds those that it touches to the rows.
fn record_moved<R: Movable + Drop>(
    changes: &mut Vec<Change>,
    rows: &mut Vec<R>,
    table: &Table<R>,
    step: &Step,
    after: &[AuthorizationRow],
) -> Result<(), AllocError>
    requires { R.Knows step.now after.now }
    ensures changes { OnOk result (changes.new.items ≡ changes.old.items
        ++ map R.puts (moved_rows (R.touched step.now) R.differs (R.stated step.now) (map (R.swept step.now) table.now))) }
    ensures rows { OnOk result (rows.new.items ≡ rows.old.items
        ++ map (R.stated step.now) (filter (R.touched step.now) (map (R.swept step.now) table.now))) }
{
    for row in table.iter() {
        let next = move_row(changes, step, after, row)?;
        push_row(rows, next)?;
    }
    Ok(())
}

// ---- accounts

impl Movable for AccountRow {
    ghost touched = { λ s. touches_account (entry_of s.motion.now) };

    ghost swept = { λ s row. row };

    ghost stated = { λ s. noted_account (entry_of s.motion.now) s.moment };

    ghost differs = { account_differs };

    ghost puts = { PutAccount };

    ghost Knows = { λ s after. ⊤ };

    fn is_touched(&self, step: &Step) -> bool {
        match step.motion {
            Move::ContactsChanged(number, _) => *number == self.number,
            Move::KeyChanged(number, _) => *number == self.number,
            Move::AccountEnded(number, _) => *number == self.number,
            _ => false,
        }
    }

    fn sweep(&mut self, _step: &Step) {}

    fn restate(&mut self, step: &Step, _after: &[AuthorizationRow]) -> Result<(), AllocError> {
        note_contacts(self, step.motion)?;
        note_key(self, step.motion)?;
        let end = account_end_by(step.motion, step.moment, self.number);
        self.ended = self.ended.or(end);
        self.status = derived_account(self);
        Ok(())
    }

    fn differs(&self, after: &AccountRow) -> bool {
        !is_same_text(self.key.canonical(), after.key.canonical())
            || !same_texts(self.contacts.as_slice(), after.contacts.as_slice())
            || is_gained(&self.ended, &after.ended)
            || self.status != after.status
    }

    fn put(self) -> Change {
        Change::PutAccount(self)
    }
}

// ---- authorizations

impl Movable for AuthorizationRow {
    ghost touched = { λ s. touches_authorization (entry_of s.motion.now) };

    ghost swept = { λ s. swept_authorization s.moment };

    ghost stated = { λ s. stated_authorization (entry_of s.motion.now) s.moment s.book.now.accounts };

    ghost differs = { authorization_differs };

    ghost puts = { PutAuthorization };

    ghost Knows = { λ s after. ⊤ };

    #[tactic(auto, using(model_laws::proofs::SweptParts::touches_swept))]
    fn is_touched(&self, step: &Step) -> bool {
        touches_authorization(step.motion, self)
    }

    fn sweep(&mut self, step: &Step) {
        self.status = authorization_status(step.moment, self);
    }

    fn restate(&mut self, step: &Step, _after: &[AuthorizationRow]) -> Result<(), AllocError> {
        let key = step.book.account_key(self.account);
        let rows = self.challenges.as_slice();
        let challenges = noted_challenges(step.alloc, step.motion, step.moment, key, rows)?;
        self.ended = end_after(step.motion, step.moment, self);
        self.challenges = challenges;
        self.status = derived_authorization(step.moment, self);
        Ok(())
    }

    fn differs(&self, after: &AuthorizationRow) -> bool {
        is_gained(&self.ended, &after.ended)
            || self.status != after.status
            || challenges_differ(self.challenges.as_slice(), after.challenges.as_slice())
    }

    fn put(self) -> Change {
        Change::PutAuthorization(self)
    }
}

// ---- orders

// The status of the authorization of a number after a step, by those that it touches.
fn status_after(step: &Step, after: &[AuthorizationRow], number: u64) -> Option<AuthzStatus>
    requires { after.now ≡ touched_rows step.now }
    ensures { result ≡ option_map (λ r. r.status) (authorization_numbered number (stepped_rows step.now)) }
{
    let row = step.book.authorization(number)?;
    if !touches_authorization(step.motion, row) {
        return Some(authorization_status(step.moment, row));
    }
    let next = row_numbered(after, number)?;
    Some(next.status)
}

#[tactic(auto, using(std::proofs::lemmas::List::at_drop_all, std::proofs::lemmas::Grind::common_steps))]
fn statuses_after(
    step: &Step,
    after: &[AuthorizationRow],
    listed: &[Listed],
) -> Result<Vec<AuthzStatus>, AllocError>
    requires { after.now ≡ touched_rows step.now }
    ensures { IfOk result (λ v. v.items ≡ stored_statuses (stepped_rows step.now) (numbers_of listed.now)) }
{
    let mut statuses = Vec::new(step.alloc);
    for listed in listed {
        let status = status_after(step, after, listed.authorization);
        push_row(&mut statuses, status)?;
    }
    Ok(statuses)
}

impl Movable for OrderRow {
    ghost touched = { λ s. touches_order (entry_of s.motion.now) (swept_rows s.moment s.book.now.authorizations) };

    ghost swept = { λ s. swept_order s.moment s.book.now.authorizations };

    ghost stated = { λ s. stated_order (entry_of s.motion.now) s.moment s.book.now.accounts s.book.now.authorizations };

    ghost differs = { order_differs };

    ghost puts = { PutOrder };

    ghost Knows = { λ s after. after ≡ touched_rows s };

    #[tactic(auto, using(crate::proofs::RowMoves::touches_swept_rows))]
    fn is_touched(&self, step: &Step) -> bool {
        touches_order(step.motion, step.book, self)
    }

    fn sweep(&mut self, step: &Step) {
        self.status = order_status(step.book, step.moment, self);
    }

    fn restate(&mut self, step: &Step, after: &[AuthorizationRow]) -> Result<(), AllocError> {
        let statuses = statuses_after(step, after, self.listed.as_slice())?;
        note_dates(self, step.motion, step.moment)?;
        self.status = derived_order(step.moment, self, &statuses);
        Ok(())
    }

    fn differs(&self, after: &OrderRow) -> bool {
        order_differs(self, after)
    }

    fn put(self) -> Change {
        Change::PutOrder(self)
    }
}

// ---- all of them

/// Puts the rows that a move changes, and adds those that it touches to rows that were none.
pub(crate) fn record_rows<'a>(
    changes: &mut Vec<Change>,
    alloc: Global,
    rows: &mut MovedRows,
    book: &'a Book,
    motion: &'a Move,
    moment: u64,
) -> Result<(), AllocError>
    requires accounts { rows.old.accounts.items ≡ [] }
    requires authorizations { rows.old.authorizations.items ≡ [] }
    requires orders { rows.old.orders.items ≡ [] }
    ensures changes { OnOk result (changes.new.items ≡ changes.old.items ++ book_moves moment book.now (entry_of motion.now)) }
    ensures rows { OnOk result (AreMoved moment book.now (entry_of motion.now) rows.new.accounts.items rows.new.authorizations.items
        rows.new.orders.items) }
{
    let step = Step {
        alloc,
        book,
        motion,
        moment,
    };
    record_moved(changes, &mut rows.accounts, book.accounts(), &step, &[])?;
    let authorizations = book.authorizations();
    record_moved(
        changes,
        &mut rows.authorizations,
        authorizations,
        &step,
        &[],
    )?;
    record_moved(
        changes,
        &mut rows.orders,
        book.orders(),
        &step,
        &rows.authorizations,
    )
}
