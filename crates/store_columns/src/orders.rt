//! Rows of the table `ord`, and of `ord_authz`, which has what an order lists.
ghost use Rattle.std.specs.Prelude.{◌≡◌, ◌↔◌, string_bytes, IfOk, IsTrue, refl};
ghost use Rattle.store_columns.specs.Columns.{dated_problem_columns, order_columns, listed_columns, summary_columns};
ghost use Rattle.store_columns.specs.Limits.{IfRecorded, IsDatedProblem, IsStoredOrder, IsStoredSummary, IsProblem, IsStoredListed};
ghost use Rattle.store_columns.specs.{Alike.AreAlikeOrders, Reading.IsRead};
ghost use Rattle.serde_json.specs.View.{view};
ghost use Rattle.store_columns.specs.Spelling.{problem_document, problem_text};

use crate::columns::{OrderAuthzColumns, OrderColumns, OrderSummaryColumns, Owned};
use crate::facts::{
    Columns, read_dated_bytes, read_dated_problem, read_expiry, read_moment, read_number,
    read_place,
};
use desk_model::{
    DatedProblem, Listed, OrderProblem, OrderRow, OrderStatus, Sequence, is_same_text,
};
use json_texts::order_problem;
use serde_json::{Value, json};
use std::alloc::{AllocError, Global};

// The order with these columns and nothing listed, which has failed so, if it has, or `None` where none in its limits has
// them.
fn read_order(
    alloc: Global,
    failed: Option<DatedProblem>,
    columns: OrderColumns,
) -> Option<OrderRow>
    requires problem { (columns.failed ≡ (dated_problem_columns failed).0) × (columns.problem ≡ (dated_problem_columns failed).1) }
    requires limits { IfRecorded IsDatedProblem failed }
    ensures { IsRead order_columns IsStoredOrder columns result }
{
    let number = read_number(columns.num)?;
    let account = read_number(columns.account)?;
    let made = read_moment(columns.made)?;
    let expires = read_expiry(columns.expires)?;
    let status = OrderStatus::from_text(columns.status.as_str())?;
    let finalized = read_dated_bytes(columns.finalized, columns.csr)?;
    let certified = read_dated_bytes(columns.certified, columns.cert)?;
    Some(OrderRow {
        number,
        account,
        made,
        expires,
        listed: Sequence::new(Vec::new(alloc)),
        finalized,
        certified,
        failed,
        status,
    })
}

impl Columns for OrderColumns {
    type Row = OrderRow;

    ghost write = { order_columns };

    ghost IsStored = { IsStoredOrder };

    ghost AreAlike = { AreAlikeOrders };

    fn read(self, alloc: Global) -> Result<Option<OrderRow>, AllocError> {
        match read_dated_problem(alloc, self.failed, &self.problem)? {
            Some(failed) => Ok(read_order(alloc, failed, self)),
            None => Ok(None),
        }
    }

    ghost alike_itself = { λ row. record { number = refl; account = refl } };
}

// ---- an order in summary

// The summary of an order with these columns, or `None` where no order in its limits has it.
fn read_summary(alloc: Global, summary: &OrderSummaryColumns) -> Option<OrderRow>
    ensures { IsRead summary_columns IsStoredSummary summary.now result }
{
    let number = read_number(summary.num)?;
    let account = read_number(summary.account)?;
    let made = read_moment(summary.made)?;
    let expires = read_expiry(summary.expires)?;
    let status = OrderStatus::from_text(summary.status.as_str())?;
    Some(OrderRow {
        number,
        account,
        made,
        expires,
        listed: Sequence::new(Vec::new(alloc)),
        finalized: None,
        certified: None,
        failed: None,
        status,
    })
}

impl Columns for OrderSummaryColumns {
    type Row = OrderRow;

    ghost write = { summary_columns };

    ghost IsStored = { IsStoredSummary };

    fn read(self, alloc: Global) -> Result<Option<OrderRow>, AllocError> {
        Ok(read_summary(alloc, &self))
    }

    ghost alike_itself = { λ row. refl };
}

// ---- the column `problem`: a compact JSON object of a detail and a type

/// The problem that a column spells.
#[tactic(auto, using(crate::proofs::ProblemTexts::none_of_none))]
pub(crate) fn read_problem(alloc: Global, text: &str) -> Result<Option<OrderProblem>, AllocError>
    ensures { IfOk result (λ problem. IsRead problem_text IsProblem text.now problem) }
{
    let Some(problem) = order_problem(alloc, text)? else {
        return Ok(None);
    };
    Ok(spells_problem(alloc, text, &problem)?.then_some(problem))
}

// Whether a problem is of a known type and a text is that of its object.
fn spells_problem(alloc: Global, text: &str, problem: &OrderProblem) -> Result<bool, AllocError>
    ensures { IfOk result (λ spells. IsTrue spells ↔ IsProblem problem.now × (text.now ≡ problem_text problem.now)) }
{
    if !OrderProblem::is_kind(problem.kind.as_str()) {
        return Ok(false);
    }
    let written = problem_text(alloc, problem)?;
    Ok(is_same_text(text, written.as_str()))
}

/// The text of a problem as a column, a JSON object of its detail and its type.
///
/// # Errors
///
/// Where there is no memory for it.
pub fn problem_text(alloc: Global, problem: &OrderProblem) -> Result<String, AllocError>
    ensures { IfOk result (λ text. string_bytes text ≡ problem_text problem.now) }
{
    problem_value(alloc, problem)?.to_string(alloc)
}

// The value of a problem.
fn problem_value(alloc: Global, problem: &OrderProblem) -> Result<Value, AllocError>
    ensures { IfOk result (λ value. view value ≡ problem_document problem.now) }
{
    let detail = problem.detail.as_str();
    let kind = problem.kind.as_str();
    json!(in alloc; {"detail": detail, "type": kind})
}

// ---- what an order lists

// The listed authorization with these columns, under its order, or `None` where none in its limits has them.
fn read_listed(columns: OrderAuthzColumns) -> Option<Owned<Listed>>
    ensures { IsRead listed_columns IsStoredListed columns result }
{
    let owner = read_number(columns.ord)?;
    let place = read_place(columns.place)?;
    let authorization = read_number(columns.authz)?;
    Some(Owned {
        owner,
        row: Listed {
            place,
            authorization,
        },
    })
}

impl Columns for OrderAuthzColumns {
    type Row = Owned<Listed>;

    ghost write = { listed_columns };

    ghost IsStored = { IsStoredListed };

    fn read(self, _alloc: Global) -> Result<Option<Owned<Listed>>, AllocError> {
        Ok(read_listed(self))
    }

    ghost alike_itself = { λ row. refl };
}
