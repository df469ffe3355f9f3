//! Which rows the words of a list ask for.
ghost use Rattle.std.specs.Prelude.{IfErr, IfOk};
ghost use Rattle.app_tasks.specs.Filters.{AreRight, AsksForAuthorizations, AsksForName, AsksForOrders, AsksForStatus, IsUnasked, NamesStatus, StandsForName};

use crate::fault::Wrong;
use app_reports::{AuthorizationFilter, OrderFilter};
use app_words::{AuthorizationListing, OrderListing};
use desk_model::{DnsName, OrderStatus};
use identifiers::{NameFault, read_name};
use std::alloc::{AllocError, Global};

/// Why the words of a list ask for no rows.
#[derive(Clone, Copy)]
pub enum Unasked {
    /// They are wrong.
    Wrong(Wrong),
    /// There is no memory for them.
    Memory,
}

impl From<AllocError> for Unasked {
    ghost use Rattle.std.specs.Prelude.{◌≡◌};
    ghost use Rattle.app_tasks.specs.declared.filters.Unasked.TheVariants.{Memory};

    ghost from_gives = { λ refused why. why ≡ Memory };

    fn from(_refused: AllocError) -> Unasked {
        Unasked::Memory
    }
}

/// The orders that the words ask for.
///
/// # Errors
///
/// `Wrong` where the word of their status names none, or the text of a name stands for none; `Memory` where there is no memory.
pub fn order_filter(alloc: Global, listing: OrderListing<'_>) -> Result<OrderFilter, Unasked>
    ensures asked { IfOk result (AsksForOrders listing.entry) }
    ensures unasked { IfErr result (IsUnasked (AreRight listing.entry)) }
{
    Ok(OrderFilter {
        account: listing.account,
        status: status(listing.status)?,
        name: name(alloc, listing.name)?,
    })
}

/// The authorizations that the words ask for.
///
/// # Errors
///
/// `Wrong` where the text of a name stands for none, `Memory` where there is no memory.
pub fn authorization_filter(
    alloc: Global,
    listing: AuthorizationListing<'_>,
) -> Result<AuthorizationFilter, Unasked>
    ensures asked { IfOk result (AsksForAuthorizations listing.entry) }
    ensures unasked { IfErr result (IsUnasked (StandsForName listing.entry.name)) }
{
    Ok(AuthorizationFilter {
        account: listing.account,
        name: name(alloc, listing.name)?,
    })
}

// The status that a word names, if there is one.
fn status(word: Option<&str>) -> Result<Option<OrderStatus>, Unasked>
    ensures asked { IfOk result (λ status. NamesStatus word.entry × AsksForStatus word.entry status) }
    ensures unasked { IfErr result (IsUnasked (NamesStatus word.entry)) }
{
    match word {
        Some(word) => match OrderStatus::from_text(word) {
            Some(status) => Ok(Some(status)),
            None => Err(Unasked::Wrong(Wrong::Status)),
        },
        None => Ok(None),
    }
}

// The name that a text stands for, if there is one.
fn name(alloc: Global, text: Option<&str>) -> Result<Option<DnsName>, Unasked>
    ensures asked { IfOk result (λ name. StandsForName text.entry × AsksForName text.entry name) }
    ensures unasked { IfErr result (IsUnasked (StandsForName text.entry)) }
{
    match text {
        Some(text) => match read_name(alloc, text) {
            Ok(name) => Ok(Some(name)),
            Err(NameFault::Refused) => Err(Unasked::Wrong(Wrong::Name)),
            Err(NameFault::Memory) => Err(Unasked::Memory),
        },
        None => Ok(None),
    }
}
