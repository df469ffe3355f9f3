//! Orders, each with what it lists, read from the rows of answers and looked up.
ghost use Rattle.std.specs.Prelude.{◌≡◌, IfErr, IfOk, Ok, map};
ghost use Rattle.store_columns.specs.Alike.{without_bytes};
ghost use Rattle.sql_read.specs.Failures.{IsOfNoDevice, IsOutOfMemory};
ghost use Rattle.std.specs.List.{flat_map};
ghost use Rattle.store_columns.specs.Flat.{without_listed};
ghost use Rattle.model_parts.specs.Above.{first_of, orders_above};
ghost use Rattle.model_parts.specs.LookUps.{orders_listing, orders_numbered, orders_processing, orders_where, summaries_of};
ghost use Rattle.sql_read.specs.Earliest.{TellsEarliest, order_ends};
ghost use Rattle.sql_read.specs.{Looking.LooksUp, Queries.asked, Queries.order_query, Under.HasItsListed};
ghost use Rattle.sql_read.specs.Spelled.{FitsListed, FitsOrder, FitsSummary, listed_in, order_in, summary_in};

use crate::fault::ReadFault;
use crate::rows::{
    Parted, Query, Selected, earliest, find_rows, find_wholes, if_of_kinds, without_owners,
};
use crate::values::{
    both, bytes_or_none, no_bytes_or_none, numbers, numbers_or_none, text, text_or_none,
};
use desk_model::{OrderRow, OrderStatus, Sequence};
use model_parts::OrdersWhere;
use sql_schema::{listed, orders};
use sqlite::{Alter, Connection, Error, Row};
use std::alloc::Global;
use store_columns::{Columns, OrderAuthzColumns, OrderColumns, OrderSummaryColumns};

// The columns of an order with this CSR and this certificate.
fn order_with(
    row: &Row,
    csr: Result<Option<Sequence<u8>>, Error>,
    cert: Result<Option<Sequence<u8>>, Error>,
) -> Result<OrderColumns, Error>
    ensures read { IfOk result (λ c. (csr ≡ Ok c.csr) × (cert ≡ Ok c.cert)
        × (c ≡ record (order_in row.now) { csr = c.csr; cert = c.cert })) }
    ensures fails { FitsOrder row.now → IfErr csr IsOutOfMemory → IfErr cert IsOutOfMemory → IfErr result IsOutOfMemory }
    ensures kind { IfErr csr IsOfNoDevice → IfErr cert IsOfNoDevice → IfErr result IsOfNoDevice }
{
    let [num, account, made, expires] = numbers(row, [0, 1, 2, 3])?;
    let [finalized, certified, failed] = numbers_or_none(row, [4, 6, 8])?;
    let ((csr, cert), (problem, status)) = both(
        both(csr, cert),
        both(text_or_none(row, 9), text(row, 10)),
    )?;
    Ok(OrderColumns {
        num,
        account,
        made,
        expires,
        finalized,
        csr,
        certified,
        cert,
        failed,
        problem,
        status,
    })
}

// The columns of an order without the bytes of its CSR and its certificate.
fn order_without_bytes(alloc: Global, row: &Row) -> Result<OrderColumns, Error>
    ensures read { IfOk result (λ c. c ≡ without_bytes (order_in row.now)) }
    ensures fails { FitsOrder row.now → IfErr result IsOutOfMemory }
    ensures kind { IfErr result IsOfNoDevice }
{
    let csr = no_bytes_or_none(alloc, row, 5);
    order_with(row, csr, no_bytes_or_none(alloc, row, 7))
}

impl Selected for OrderColumns {
    ghost spelled = { order_in };

    ghost Fits = { FitsOrder };

    fn of(row: &Row) -> Result<OrderColumns, Error> {
        order_with(row, bytes_or_none(row, 5), bytes_or_none(row, 7))
    }

    fn like(alloc: Global, row: &Row) -> Result<Option<OrderRow>, Error> {
        let Some(columns) = if_of_kinds(order_without_bytes(alloc, row))? else {
            return Ok(None);
        };
        Ok(columns.read(alloc)?)
    }
}

impl Selected for OrderSummaryColumns {
    ghost spelled = { summary_in };

    ghost Fits = { FitsSummary };

    fn of(row: &Row) -> Result<OrderSummaryColumns, Error> {
        let [num, account, made, expires] = numbers(row, [0, 1, 2, 3])?;
        let status = text(row, 4)?;
        Ok(OrderSummaryColumns {
            num,
            account,
            made,
            expires,
            status,
        })
    }
}

impl Selected for OrderAuthzColumns {
    ghost spelled = { listed_in };

    ghost Fits = { FitsListed };

    fn of(row: &Row) -> Result<OrderAuthzColumns, Error> {
        let [ord, place, authz] = numbers(row, [0, 1, 2])?;
        Ok(OrderAuthzColumns { ord, place, authz })
    }
}

// An order, which has what it lists in another table.
impl Parted for OrderRow {
    type Whole = OrderRow;

    ghost bare = { without_listed };

    ghost HasItsPart = { λ T. HasItsListed T.orders };

    #[tactic(auto, using(crate::proofs::Results::failed_as, crate::proofs::Looking::finds_as, crate::proofs::ListedOrder::listed_by_find, crate::proofs::LookUpReadings::listed_by_reading, crate::proofs::Looking::query_as, crate::proofs::Looking::step_failed, crate::proofs::Looking::step_made))]
    fn complete<S: Alter>(
        self,
        alloc: Global,
        conn: &mut Connection<S>,
    ) -> Result<OrderRow, ReadFault> {
        let query = Query::number(listed::SELECT_OF, self.number);
        let rows = find_rows::<S, OrderAuthzColumns>(alloc, conn, query)?;
        let listed = Sequence::new(without_owners(alloc, rows)?);
        Ok(OrderRow { listed, ..self })
    }
}

// The query, with its text and its parameters.
fn query_of<'a>(which: OrdersWhere) -> Query<'a>
    ensures { asked result ≡ order_query which }
{
    match which {
        OrdersWhere::Any => Query::all(orders::SELECT),
        OrdersWhere::Number(number) => Query::number(orders::SELECT_NUMBERED, number),
        OrdersWhere::Past(status, moment) => {
            Query::text_and_number(orders::SELECT_PAST, status.as_str(), moment)
        }
        OrdersWhere::Processing => {
            Query::text(orders::SELECT_WITH_STATUS, OrderStatus::Processing.as_str())
        }
    }
}

/// The orders of a query, by number, each with what it lists.
///
/// # Errors
///
/// As of each reading (`lib.rt`).
pub fn find_orders<S: Alter>(
    alloc: Global,
    conn: &mut Connection<S>,
    which: OrdersWhere,
) -> Result<Vec<OrderRow>, ReadFault>
    ensures { LooksUp S.Store conn.old conn.new (λ T rows. rows.items ≡ orders_where T which) result }
{
    find_wholes::<S, OrderColumns, _>(alloc, conn, query_of(which))
}

/// The orders that are stored as waiting for a certificate, by number, without what they list.
///
/// # Errors
///
/// As of each reading (`lib.rt`).
pub fn processing_orders<S: Alter>(
    alloc: Global,
    conn: &mut Connection<S>,
) -> Result<Vec<OrderRow>, ReadFault>
    ensures { LooksUp S.Store conn.old conn.new (λ T rows. rows.items ≡ map without_listed (orders_processing T)) result }
{
    let query = query_of(OrdersWhere::Processing);
    find_rows::<S, OrderColumns>(alloc, conn, query)
}

/// The orders of an account, by number, in summary.
///
/// # Errors
///
/// As of each reading (`lib.rt`).
pub fn summaries_of<S: Alter>(
    alloc: Global,
    conn: &mut Connection<S>,
    account: u64,
) -> Result<Vec<OrderRow>, ReadFault>
    ensures { LooksUp S.Store conn.old conn.new (λ T rows. rows.items ≡ summaries_of T account) result }
{
    let query = Query::number(orders::SELECT_SUMMARIES_OF, account);
    find_rows::<S, OrderSummaryColumns>(alloc, conn, query)
}

/// The orders that list an authorization, by number, each with what it lists, as often as it lists it.
///
/// # Errors
///
/// As of each reading (`lib.rt`).
pub fn orders_with_authorization<S: Alter>(
    alloc: Global,
    conn: &mut Connection<S>,
    number: u64,
) -> Result<Vec<OrderRow>, ReadFault>
    ensures { LooksUp S.Store conn.old conn.new (λ T rows. rows.items ≡ flat_map (orders_numbered T) (orders_listing T number)) result }
{
    let query = Query::number(orders::SELECT_LISTING, number);
    find_wholes::<S, OrderColumns, _>(alloc, conn, query)
}

/// The order of the least number above this one, if there is one.
///
/// # Errors
///
/// As of each reading (`lib.rt`).
pub fn order_above<S: Alter>(
    alloc: Global,
    conn: &mut Connection<S>,
    number: u64,
) -> Result<Vec<OrderRow>, ReadFault>
    ensures { LooksUp S.Store conn.old conn.new (λ T rows. rows.items ≡ first_of (orders_above T number)) result }
{
    find_wholes::<S, OrderColumns, _>(alloc, conn, Query::number(orders::SELECT_ABOVE, number))
}

/// The earliest end, in seconds since 1970, of an order of a stored status, or `None` where there is none.
///
/// # Errors
///
/// As of each reading (`lib.rt`).
pub fn earliest_order_end<S: Alter>(
    conn: &mut Connection<S>,
    status: OrderStatus,
) -> Result<Option<u64>, ReadFault>
    ensures { TellsEarliest S.Store conn.old conn.new (λ T. order_ends T status) result }
{
    earliest(conn, Query::text(orders::SELECT_EARLIEST, status.as_str()))
}
