//! Look-ups in the tables of a desk, and its rows one by one.
ghost use Rattle.std.specs.Prelude.{◌≡◌, [], ◌∷◌, map};
ghost use Rattle.model_parts.specs.LookUps.{accounts_where, authorizations_where, nonces_where, orders_where, AreWaiting, bare_authorizations};
ghost use Rattle.model_parts.specs.LookUps.{authorizations_numbered, orders_listing, orders_numbered, orders_processing, owners_of, summaries_of};
ghost use Rattle.store_columns.specs.Flat.{listed_rows, without_listed};
ghost use Rattle.std.specs.List.{flat_map};
ghost use Rattle.model_laws.specs.Ordered.{IsOrdered};
ghost use Rattle.store_api.specs.Sight.{Gives};
ghost use Rattle.model_parts.specs.Above.{accounts_above, authorizations_above, challenges_above, first_of, orders_above};
ghost use Rattle.desk_model.specs.{Kept.EachOf, Tables.Tables};
ghost use Rattle.store_book.specs.IsBook.{IsBook};

use crate::fault::StorageFault;
use crate::kept::Kept;
use desk_model::{AccountRow, AuthorizationRow, ChallengeRow, Listed, Meta, Nonce, OrderRow};
use model_parts::{AccountsWhere, AuthorizationsWhere, NoncesWhere, OrdersWhere};
use std::alloc::Global;
use store_columns::{JoinedChallenge, Owned};

/// What a look-up of rows gives.
pub type Found<R> = Result<Vec<R>, StorageFault>;

/// The tables of a desk, in which rows are looked up by queries, and by the numbers of others.
///
/// A look-up changes nothing, and may fail by `Memory`, where a growth was refused, or by `Device` or `Reopen`, where the
/// tables could not be read.
pub trait LookUps: Kept {
    /// The row of the desk.
    fn meta_row(&mut self, alloc: Global) -> Result<Meta, StorageFault>
        ensures { Gives Self.sight self.old self.new (λ T meta. meta ≡ T.meta) result };

    /// The nonces of a query, by serial.
    fn find_nonces(&mut self, alloc: Global, which: NoncesWhere) -> Found<Nonce>
        ensures { Gives Self.sight self.old self.new (λ T rows. rows.items ≡ nonces_where T which) result };

    /// The accounts of a query, by number.
    fn find_accounts(&mut self, alloc: Global, which: AccountsWhere<'_>) -> Found<AccountRow>
        ensures { Gives Self.sight self.old self.new (λ T rows. rows.items ≡ accounts_where T which.entry) result };

    /// The orders of a query, by number.
    fn find_orders(&mut self, alloc: Global, which: OrdersWhere) -> Found<OrderRow>
        ensures { Gives Self.sight self.old self.new (λ T rows. rows.items ≡ orders_where T which) result };

    /// The authorizations of a query, by number.
    fn find_authorizations(
        &mut self,
        alloc: Global,
        which: AuthorizationsWhere<'_>,
    ) -> Found<AuthorizationRow>
        ensures { Gives Self.sight self.old self.new (λ T rows. rows.items ≡ authorizations_where T which.entry) result };

    /// The orders of an account, by number, in summary: without what they list, and without what calls have recorded of them.
    fn summaries_of(&mut self, alloc: Global, account: u64) -> Found<OrderRow>
        ensures { Gives Self.sight self.old self.new (λ T rows. rows.items ≡ summaries_of T account) result };

    /// The orders that are stored as waiting for a certificate, by number, without what they list.
    fn processing_orders(&mut self, alloc: Global) -> Found<OrderRow>
        ensures { Gives Self.sight self.old self.new (λ T rows. rows.items ≡ map without_listed (orders_processing T)) result };

    /// What these orders list, by order and place, each place beside its authorization, without challenges.
    fn processing_places(&mut self, alloc: Global) -> Found<(Owned<Listed>, AuthorizationRow)>
        ensures { Gives Self.sight self.old self.new (λ T rows. (map (λ p. p.0) rows.items ≡ listed_rows (orders_processing T))
            × EachOf (λ p. (p.1.number ≡ p.0.row.authorization) × (bare_authorizations T p.1.number ≡ p.1 ∷ [])) rows.items) result };

    /// The authorization of a number, without its challenges.
    fn bare_authorizations(&mut self, alloc: Global, number: u64) -> Found<AuthorizationRow>
        ensures { Gives Self.sight self.old self.new (λ T rows. rows.items ≡ bare_authorizations T number) result };

    /// The orders that list an authorization, by number, each as often as it lists it.
    fn orders_with_authorization(&mut self, alloc: Global, authorization: u64) -> Found<OrderRow>
        ensures { Gives Self.sight self.old self.new (λ T rows. rows.items ≡ flat_map (orders_numbered T) (orders_listing T authorization)) result };

    /// The authorization of a challenge, with all its challenges.
    fn authorizations_with_challenge(
        &mut self,
        alloc: Global,
        challenge: u64,
    ) -> Found<AuthorizationRow>
        ensures { Gives Self.sight self.old self.new (λ T rows. rows.items ≡ flat_map (authorizations_numbered T) (owners_of T challenge)) result };

    /// The challenges that are stored as waiting for the validator, each beside its authorization; those of one authorization
    /// by number.
    fn waiting_challenges(&mut self, alloc: Global) -> Found<JoinedChallenge>
        ensures { Gives Self.sight self.old self.new (λ T rows. IsOrdered T
            → AreWaiting T (map (λ w. (w.authorization.number, w.challenge)) rows.items)
            × EachOf (λ w. bare_authorizations T w.authorization.number ≡ w.authorization ∷ []) rows.items) result };
}

// ---- rows one by one, by number

/// The rows of a desk one by one: of each table, the one of the least number above another.
///
/// A look-up gives at most one row. It changes nothing, and may fail by `Memory`, where a growth was refused, or by `Device`
/// or `Reopen`, where the tables could not be read.
pub trait RowsAbove: LookUps {
    /// The account of the least number above this one, if there is one.
    fn account_above(&mut self, alloc: Global, number: u64) -> Found<AccountRow>
        ensures { Gives Self.sight self.old self.new (λ T rows. rows.items ≡ first_of (accounts_above T number)) result };

    /// The order of the least number above this one, if there is one.
    fn order_above(&mut self, alloc: Global, number: u64) -> Found<OrderRow>
        ensures { Gives Self.sight self.old self.new (λ T rows. rows.items ≡ first_of (orders_above T number)) result };

    /// The authorization of the least number above this one, if there is one.
    fn authorization_above(&mut self, alloc: Global, number: u64) -> Found<AuthorizationRow>
        ensures { Gives Self.sight self.old self.new (λ T rows. rows.items ≡ first_of (authorizations_above T number)) result };

    /// The challenge of the least number above this one, through all authorizations, if there is one.
    fn challenge_above(&mut self, alloc: Global, number: u64) -> Found<ChallengeRow>
        ensures { Gives Self.sight self.old self.new (λ T rows. rows.items ≡ first_of (challenges_above T number)) result };

    // Whatever tables the source has are a book.
    ghost books: { (source : Self) (T : Tables) → Self.sight.holds source T → IsBook T };
}
