//! Tables of rows, each with the rows that belong to it.
ghost use Rattle.std.specs.Prelude.{◌≡◌, List, [], ◌∷◌, IfOk, IsPermutation, MatchOption, map, refl};
ghost use Rattle.std.specs.List.Sorted.{IsSorted};
ghost use Rattle.model_laws.specs.Ordered.{Ascends};
ghost use Rattle.desk_model.specs.declared.rows.OrderRow.{OrderRow as Order};
ghost use Rattle.store_columns.specs.Flat.{listed_rows, without_listed};
ghost use Rattle.store_book.specs.Nesting.{IsNesting, IsNestOf, behind, by_owner, first_of, nested};

use desk_book::{Row, Table};
use desk_model::{AuthorizationRow, ChallengeRow, Listed, OrderRow, Sequence};
use std::alloc::{AllocError, Global};
use std::collections::VecDeque;
use store_columns::Owned;

/// A row that has rows of a kind under it.
pub(crate) trait Parent<T: Row>: Row {
    ghost children: { Self → List T };

    ghost with_children: { Self → List T → Self };

    /// The row with these under it.
    fn with_children(self, rows: Vec<T>) -> Self
        ensures { result ≡ with_children self rows.items };

    ghost nests: { IsNesting (λ row. Self.number row) children with_children };
}

impl Parent<ChallengeRow> for AuthorizationRow {
    ghost children = { λ row. row.challenges };

    ghost with_children = { λ row rows. record row { challenges = rows } };

    ghost nests = { record { number_kept = λ p ts. refl; children_are = λ p ts. refl; last_are = λ p ts us. refl; same = λ p. refl } };

    fn with_children(self, rows: Vec<ChallengeRow>) -> AuthorizationRow
        ensures { result ≡ record self { challenges = rows.items } }
    {
        AuthorizationRow {
            challenges: Sequence::new(rows),
            ..self
        }
    }
}

impl Parent<Listed> for OrderRow {
    ghost children = { λ row. row.listed };

    ghost with_children = { λ row rows. record row { listed = rows } };

    ghost nests = { record { number_kept = λ p ts. refl; children_are = λ p ts. refl; last_are = λ p ts us. refl; same = λ p. refl } };

    fn with_children(self, rows: Vec<Listed>) -> OrderRow
        ensures { result ≡ record self { listed = rows.items } }
    {
        OrderRow {
            listed: Sequence::new(rows),
            ..self
        }
    }
}

// The owner of a row, and its own number.
fn place_of<R: Row>(row: &Owned<R>) -> (u64, u64)
    ensures { result ≡ (row.now.owner, R.number row.now.row) }
{
    (row.owner, row.row.number())
}

// Sorts rows by owner, those of one owner by number.
fn sort_by_owner<R: Row>(rows: &mut Vec<Owned<R>>)
    ensures permutation { IsPermutation rows.old.items rows.new.items }
    ensures sorted { IsSorted (by_owner (λ row. R.number row)) rows.new.items }
{
    rows.sort_unstable_by_key(place_of);
}

// Takes the first row, if it is of this owner.
fn pop_first<R: Drop>(rows: &mut VecDeque<Owned<R>>, owner: u64) -> Option<R>
    ensures { MatchOption result
        ((first_of owner rows.old.items ≡ []) × (behind owner rows.old.items ≡ rows.old.items) × (rows.new.items ≡ rows.old.items))
        (λ row. rows.old.items ≡ (record { owner = owner; row = row }) ∷ rows.new.items) }
{
    let is_owned = match rows.front() {
        Some(first) => first.owner == owner,
        None => false,
    };
    if !is_owned {
        return None;
    }
    let first = rows.pop_front()?;
    Some(first.row)
}

// Takes the first rows, as many as are of this owner.
fn take_first<R: Drop>(
    rows: &mut VecDeque<Owned<R>>,
    alloc: Global,
    owner: u64,
) -> Result<Vec<R>, AllocError>
    ensures { IfOk result (λ taken. (taken.items ≡ first_of owner rows.old.items) × (rows.new.items ≡ behind owner rows.old.items)) }
{
    let mut taken = Vec::new(alloc);
    while let Some(row) = pop_first(rows, owner) {
        taken.push(row)?;
    }
    Ok(taken)
}

// The parents, each with its first children of those that the parents before it left.
fn nest<T: Row + Drop, P: Parent<T> + Drop>(
    alloc: Global,
    parents: Vec<P>,
    children: Vec<Owned<T>>,
) -> Result<Vec<P>, AllocError>
    ensures { IfOk result (λ rows. rows.items ≡ nested (λ row. P.Row.number row) P.with_children parents.items children.items) }
{
    let mut rest = VecDeque::from(children);
    let mut rows = Vec::new(alloc);
    for parent in parents {
        let taken = take_first(&mut rest, alloc, parent.number())?;
        rows.push(parent.with_children(taken))?;
    }
    Ok(rows)
}

/// The orders, each with what it lists, of orders without it and of what they list, both in the order of their keys.
///
/// # Errors
///
/// Where there is no memory for them.
pub fn with_listed(
    alloc: Global,
    orders: Vec<OrderRow>,
    listed: Vec<Owned<Listed>>,
) -> Result<Vec<OrderRow>, AllocError>
    ensures { IfOk result (λ all. (rows : List Order) → Ascends (λ o. o.number) 1 rows → orders.items ≡ map without_listed rows
        → listed.items ≡ listed_rows rows → all.items ≡ rows) }
{
    nest(alloc, orders, listed)
}

/// The table of rows whose numbers ascend.
///
/// # Errors
///
/// Where there is no memory for the table.
#[tactic(auto, using(std::proofs::lemmas::List::nil_from_length, model_laws::proofs::RowLists::puts_ascending))]
pub(crate) fn table_of<R: Row + Drop>(alloc: Global, rows: Vec<R>) -> Result<Table<R>, AllocError>
    requires { Ascends (λ row. R.number row) 1 rows.items }
    ensures { IfOk result (λ table. table ≡ rows.items) }
{
    let mut table = Table::new(alloc);
    for row in rows {
        table.put(row)?;
    }
    Ok(table)
}

/// The table of parents whose numbers ascend, each with its own of these children, by number.
///
/// # Errors
///
/// Where there is no memory for the table.
pub(crate) fn nested_table_of<T: Row + Drop, P: Parent<T> + Drop>(
    alloc: Global,
    parents: Vec<P>,
    children: Vec<Owned<T>>,
) -> Result<Table<P>, AllocError>
    requires { Ascends (λ row. P.Row.number row) 1 parents.items }
    ensures { IfOk result (λ table. (rows : List P) →
        IsNestOf (λ row. P.Row.number row) P.children P.with_children (λ child. T.number child) parents.items children.items rows → table ≡ rows) }
{
    let mut children = children;
    sort_by_owner(&mut children);
    let rows = nest(alloc, parents, children)?;
    table_of(alloc, rows)
}
