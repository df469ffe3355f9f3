//! The store as a source of rows: one statement a look-up, and one more for the children of each row, but where they are joined;
//! none for what it knows.
ghost use Rattle.desk_store.specs.Desks.{store_sight, HasTables};
ghost use Rattle.std.specs.Prelude.{◌≡◌, [], None, IfOk, IsTrue};
ghost use Rattle.desk_model.specs.Tables.{Tables};
ghost use Rattle.model_parts.specs.Above.{orders_above};
ghost use Rattle.store_passes.specs.Left.{faults_above, faults_of};
ghost use Rattle.model_parts.specs.LookUps.{authorizations_past, authorizations_where, nonces_before, nonces_where, orders_past, orders_where};
ghost use Rattle.store_api.specs.Sight.{ForTables, Reads};

use crate::store::Store;
use desk_model::{
    AccountRow, AuthorizationRow, AuthzStatus, ChallengeRow, Listed, Meta, Nonce, OrderRow,
    OrderStatus,
};
use model_parts::{AccountsWhere, AuthorizationsWhere, NoncesWhere, OrdersWhere};
use sql_read as rows;
use sqlite::Alter;
use std::alloc::Global;
use store_api::{Found, LookUps, RowsAbove, StorageFault};
use store_columns::{JoinedChallenge, Owned};
use store_passes::{FaultKind, Orders, StatusFaults};

impl<S: Alter> LookUps for Store<S> {
    fn meta_row(&mut self, alloc: Global) -> Result<Meta, StorageFault> {
        match self.known.meta()? {
            Some(meta) => Ok(meta),
            None => self.read_meta(alloc),
        }
    }

    fn find_nonces(&mut self, alloc: Global, which: NoncesWhere) -> Found<Nonce> {
        match self.known.find_nonces(alloc, which)? {
            Some(known) => Ok(known),
            None => self.read_nonces(alloc, which),
        }
    }

    fn find_accounts(&mut self, alloc: Global, which: AccountsWhere<'_>) -> Found<AccountRow> {
        let read = rows::find_accounts(alloc, &mut self.conn, which);
        self.or_fault(read)
    }

    fn find_orders(&mut self, alloc: Global, which: OrdersWhere) -> Found<OrderRow> {
        if self.has_no_orders(which)? {
            return Ok(Vec::new(alloc));
        }
        let read = rows::find_orders(alloc, &mut self.conn, which);
        self.or_fault(read)
    }

    fn find_authorizations(
        &mut self,
        alloc: Global,
        which: AuthorizationsWhere<'_>,
    ) -> Found<AuthorizationRow> {
        if self.has_no_authorizations(which)? {
            return Ok(Vec::new(alloc));
        }
        let read = rows::find_authorizations(alloc, &mut self.conn, which);
        self.or_fault(read)
    }

    fn summaries_of(&mut self, alloc: Global, account: u64) -> Found<OrderRow> {
        let read = rows::summaries_of(alloc, &mut self.conn, account);
        self.or_fault(read)
    }

    fn processing_orders(&mut self, alloc: Global) -> Found<OrderRow> {
        let read = rows::processing_orders(alloc, &mut self.conn);
        self.or_fault(read)
    }

    fn processing_places(&mut self, alloc: Global) -> Found<(Owned<Listed>, AuthorizationRow)> {
        let read = rows::processing_places(alloc, &mut self.conn);
        self.or_fault(read)
    }

    fn bare_authorizations(&mut self, alloc: Global, number: u64) -> Found<AuthorizationRow> {
        let read = rows::bare_authorizations(alloc, &mut self.conn, number);
        self.or_fault(read)
    }

    fn orders_with_authorization(&mut self, alloc: Global, authorization: u64) -> Found<OrderRow> {
        let read = rows::orders_with_authorization(alloc, &mut self.conn, authorization);
        self.or_fault(read)
    }

    fn authorizations_with_challenge(
        &mut self,
        alloc: Global,
        challenge: u64,
    ) -> Found<AuthorizationRow> {
        let read = rows::authorizations_with_challenge(alloc, &mut self.conn, challenge);
        self.or_fault(read)
    }

    fn waiting_challenges(&mut self, alloc: Global) -> Found<JoinedChallenge> {
        let read = rows::waiting_challenges(alloc, &mut self.conn);
        self.or_fault(read)
    }
}

// ---- rows one by one

impl<S: Alter> RowsAbove for Store<S> {
    fn account_above(&mut self, alloc: Global, number: u64) -> Found<AccountRow> {
        let read = rows::account_above(alloc, &mut self.conn, number);
        self.or_fault(read)
    }

    fn order_above(&mut self, alloc: Global, number: u64) -> Found<OrderRow> {
        let read = rows::order_above(alloc, &mut self.conn, number);
        self.or_fault(read)
    }

    fn authorization_above(&mut self, alloc: Global, number: u64) -> Found<AuthorizationRow> {
        let read = rows::authorization_above(alloc, &mut self.conn, number);
        self.or_fault(read)
    }

    fn challenge_above(&mut self, alloc: Global, number: u64) -> Found<ChallengeRow> {
        let read = rows::challenge_above(alloc, &mut self.conn, number);
        self.or_fault(read)
    }

    ghost books = { λ store T has. has.desk.desk.book.book };
}

// ---- passes through its rows, one object at a time

impl<S: Alter> Store<S> {
    /// A pass through the orders of the desk, by number, which keeps one order's rows at most: `next` gives each, one after the
    /// other. Nothing is left open where it is dropped.
    pub fn orders(&mut self) -> Orders<'_, Store<S>>
        ensures same_store { result.source.ghost_name ≡ self.entry.ghost_name }
        ensures unread { result.source.now ≡ self.old }
        ensures unfailed { result.fault ≡ None }
        ensures all { (T : Tables) → HasTables S.Store self.old T → orders_above T result.above ≡ T.orders }
    {
        Orders::new(self)
    }

    /// A pass through the status faults of one kind of object (RFC 8555, 7.1.6), by number, which keeps one object's rows at
    /// most: those at a moment, in seconds since 1970, which is that of the desk's clock (`store_passes::moment_of`).
    pub fn faults(&mut self, kind: FaultKind, moment: u64) -> StatusFaults<'_, Store<S>>
        ensures same_store { result.source.ghost_name ≡ self.entry.ghost_name }
        ensures unread { result.source.now ≡ self.old }
        ensures unfailed { result.fault ≡ None }
        ensures all { (T : Tables) → HasTables S.Store self.old T → moment ≡ T.meta.counters.clock
            → faults_above T result.kind result.moment result.above ≡ faults_of T kind }
    {
        StatusFaults::new(self, kind, moment)
    }
}

// ---- whether rows are past, by what is known; the earliest of them is asked for where too little is

impl<S: Alter> Store<S> {
    /// The desk's own row, read and kept.
    ///
    /// # Errors
    ///
    /// As of a look-up.
    pub(crate) fn read_meta(&mut self, alloc: Global) -> Result<Meta, StorageFault>
        ensures reads { Reads (store_sight S.Store) self.old self.new result }
        ensures found { ForTables (store_sight S.Store) self.old self.new (λ T. IfOk result (λ meta. meta ≡ T.meta)) }
    {
        let read = rows::meta_row(alloc, &mut self.conn);
        match self.or_fault(read) {
            Ok(meta) => {
                self.known.learn_meta(&meta);
                Ok(meta)
            }
            Err(fault) => Err(fault),
        }
    }

    /// Whether no nonce was issued before a moment, in seconds since 1970; where it answers `false`, some may be.
    ///
    /// # Errors
    ///
    /// As of a look-up.
    fn has_no_nonce_before(&mut self, moment: u64) -> Result<bool, StorageFault>
        ensures reads { Reads (store_sight S.Store) self.old self.new result }
        ensures found { ForTables (store_sight S.Store) self.old self.new (λ T. IfOk result (λ none. IsTrue none → nonces_before T moment ≡ [])) }
    {
        if self.known.first_issue() >= moment {
            return Ok(true);
        }
        let read = rows::earliest_issue(&mut self.conn);
        match self.or_fault(read) {
            Ok(earliest) => {
                self.known.learn_issue(earliest);
                Ok(self.known.first_issue() >= moment)
            }
            Err(fault) => Err(fault),
        }
    }

    /// Whether no order of a status ends before a moment; where it answers `false`, some may.
    ///
    /// # Errors
    ///
    /// As of a look-up.
    fn has_no_order_past(&mut self, status: OrderStatus, moment: u64) -> Result<bool, StorageFault>
        ensures reads { Reads (store_sight S.Store) self.old self.new result }
        ensures found { ForTables (store_sight S.Store) self.old self.new (λ T. IfOk result (λ none. IsTrue none → orders_past T status moment ≡ [])) }
    {
        if self.known.order_end(status) >= moment {
            return Ok(true);
        }
        let read = rows::earliest_order_end(&mut self.conn, status);
        match self.or_fault(read) {
            Ok(earliest) => {
                self.known.learn_order_end(status, earliest);
                Ok(self.known.order_end(status) >= moment)
            }
            Err(fault) => Err(fault),
        }
    }

    /// Whether no authorization of a status ends before a moment; where it answers `false`, some may.
    ///
    /// # Errors
    ///
    /// As of a look-up.
    fn has_no_authorization_past(
        &mut self,
        status: AuthzStatus,
        moment: u64,
    ) -> Result<bool, StorageFault>
        ensures reads { Reads (store_sight S.Store) self.old self.new result }
        ensures found { ForTables (store_sight S.Store) self.old self.new (λ T.
            IfOk result (λ none. IsTrue none → authorizations_past T status moment ≡ [])) }
    {
        if self.known.authorization_end(status) >= moment {
            return Ok(true);
        }
        let read = rows::earliest_authorization_end(&mut self.conn, status);
        match self.or_fault(read) {
            Ok(earliest) => {
                self.known.learn_authorization_end(status, earliest);
                Ok(self.known.authorization_end(status) >= moment)
            }
            Err(fault) => Err(fault),
        }
    }

    /// The nonces of a query, read where there may be some.
    ///
    /// # Errors
    ///
    /// As of a look-up.
    pub(crate) fn read_nonces(
        &mut self,
        alloc: Global,
        which: NoncesWhere,
    ) -> Result<Vec<Nonce>, StorageFault>
        ensures reads { Reads (store_sight S.Store) self.old self.new result }
        ensures found { ForTables (store_sight S.Store) self.old self.new (λ T. IfOk result (λ rows. rows.items ≡ nonces_where T which)) }
    {
        if self.has_no_nonces(which)? {
            return Ok(Vec::new(alloc));
        }
        let read = rows::find_nonces(alloc, &mut self.conn, which);
        self.or_fault(read)
    }

    /// Whether a query has no nonces; where it answers `false`, it may have some.
    ///
    /// # Errors
    ///
    /// As of a look-up.
    fn has_no_nonces(&mut self, which: NoncesWhere) -> Result<bool, StorageFault>
        ensures reads { Reads (store_sight S.Store) self.old self.new result }
        ensures found { ForTables (store_sight S.Store) self.old self.new (λ T. IfOk result (λ none. IsTrue none → nonces_where T which ≡ [])) }
    {
        match which {
            NoncesWhere::IssuedBefore(moment) => self.has_no_nonce_before(moment),
            _ => Ok(false),
        }
    }

    /// Whether a query has no orders; where it answers `false`, it may have some.
    ///
    /// # Errors
    ///
    /// As of a look-up.
    pub(crate) fn has_no_orders(&mut self, which: OrdersWhere) -> Result<bool, StorageFault>
        ensures reads { Reads (store_sight S.Store) self.old self.new result }
        ensures found { ForTables (store_sight S.Store) self.old self.new (λ T. IfOk result (λ none. IsTrue none → orders_where T which ≡ [])) }
    {
        match which {
            OrdersWhere::Past(status, moment) => self.has_no_order_past(status, moment),
            _ => Ok(false),
        }
    }

    /// Whether a query has no authorizations; where it answers `false`, it may have some.
    ///
    /// # Errors
    ///
    /// As of a look-up.
    pub(crate) fn has_no_authorizations(
        &mut self,
        which: AuthorizationsWhere<'_>,
    ) -> Result<bool, StorageFault>
        ensures reads { Reads (store_sight S.Store) self.old self.new result }
        ensures found { ForTables (store_sight S.Store) self.old self.new (λ T. IfOk result (λ none. IsTrue none → authorizations_where T which.entry ≡ [])) }
    {
        match which {
            AuthorizationsWhere::Past(status, moment) => {
                self.has_no_authorization_past(status, moment)
            }
            _ => Ok(false),
        }
    }
}
