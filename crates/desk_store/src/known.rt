//! What a store knows of its tables from one call to the next: nobody else writes them, so what was read of them and saved since is
//! so of them.
ghost use Rattle.std.specs.Prelude.{◌≡◌, ◌<◌, IfOk, IfSome, Some, slice_index, slice_set};
ghost use Rattle.desk_model.specs.Change.{applied, applied_one};
ghost use Rattle.desk_model.specs.Derived.{authz_code, order_code};
ghost use Rattle.desk_model.specs.Tables.{Tables};
ghost use Rattle.model_laws.specs.Ordered.{Ascends};
ghost use Rattle.model_parts.specs.LookUps.{nonces_where};
ghost use Rattle.desk_store.specs.Known.{IsKnownOf, bound_of, earlier, known_nonce, lowered, nonce_place, nothing, without};

use desk_model::{AuthzStatus, Change, Meta, Nonce, OrderStatus};
use model_parts::NoncesWhere;
use std::alloc::{AllocError, Global};

/// What is known of the tables of a store without asking for it.
#[derive(Drop)]
pub(crate) struct Known {
    // The desk's own row, where it was read or saved.
    meta: Option<Meta>,
    // Nonces that are there, each in the place of its serial: the newest of those that were saved.
    nonces: [Option<Nonce>; 8],
    // A moment, in seconds since 1970, before which no nonce was issued that is there.
    first_issue: u64,
    // For each status of an order, a moment, in seconds since 1970, before which no order of that status ends.
    order_ends: [u64; 5],
    // For each status of an authorization, a moment before which none of that status ends.
    authorization_ends: [u64; 6],
}

// The place of a serial among the nonces.
fn nonce_place(serial: u64) -> usize
    ensures place { result ≡ nonce_place serial }
    ensures in_range { result < 8 }
{
    (serial % 8) as usize
}

// The moment from which rows are there, where the earliest of them is found.
fn bound_of(earliest: Option<u64>) -> u64
    ensures { result ≡ bound_of earliest }
{
    earliest.unwrap_or(u64::MAX)
}

// The earlier of two moments.
fn earlier(m: u64, n: u64) -> u64
    ensures { result ≡ earlier m n }
{
    if m <= n { m } else { n }
}

// Lowers the moment in a place to an end.
fn lower<const N: usize>(ends: &mut [u64; N], place: usize, end: u64)
    requires { place < N }
    ensures { ends.new ≡ lowered ends.old place end }
{
    ends[place] = earlier(ends[place], end);
}

impl Known {
    /// Nothing is known.
    pub(crate) fn nothing() -> Known
        ensures { result ≡ nothing }
    {
        Known {
            meta: None,
            nonces: [None; 8],
            first_issue: 0,
            order_ends: [0; 5],
            authorization_ends: [0; 6],
        }
    }

    /// A copy of the desk's own row, or `None` where it is not known.
    ///
    /// # Errors
    ///
    /// Where there is no memory for it.
    pub(crate) fn meta(&self) -> Result<Option<Meta>, AllocError>
        ensures { IfOk result (λ copy. copy ≡ self.now.meta) }
    {
        match &self.meta {
            Some(meta) => Ok(Some(meta.clone()?)),
            None => Ok(None),
        }
    }

    // The nonce of a serial, or `None` where it is not known that there is one.
    fn nonce(&self, serial: u64) -> Option<Nonce>
        ensures { result ≡ known_nonce self.now.nonces serial }
    {
        let kept = self.nonces[nonce_place(serial)];
        match kept {
            Some(nonce) if nonce.serial == serial => Some(nonce),
            _ => None,
        }
    }

    /// The nonces that a query has, or `None` where these are not known.
    ///
    /// # Errors
    ///
    /// Where there is no memory for them.
    #[tactic(auto, using(crate::proofs::Knowing::serial_found))]
    pub(crate) fn find_nonces(
        &self,
        alloc: Global,
        which: NoncesWhere,
    ) -> Result<Option<Vec<Nonce>>, AllocError>
        ensures { (T : Tables) → IsKnownOf self.now T → Ascends (λ n. n.serial) 1 T.nonces
            → IfOk result (λ found. IfSome found (λ nonces. nonces.items ≡ nonces_where T which)) }
    {
        let NoncesWhere::Serial(serial) = which else {
            return Ok(None);
        };
        match self.nonce(serial) {
            Some(nonce) => Ok(Some(vec![in alloc; nonce]?)),
            None => Ok(None),
        }
    }

    /// A moment, in seconds since 1970, before which no nonce was issued that is there.
    pub(crate) fn first_issue(&self) -> u64
        ensures { result ≡ self.now.first_issue }
    {
        self.first_issue
    }

    /// A moment, in seconds since 1970, before which no order of a status ends.
    pub(crate) fn order_end(&self, status: OrderStatus) -> u64
        ensures { result ≡ slice_index self.now.order_ends (order_code status) }
    {
        self.order_ends[status.place()]
    }

    /// A moment, in seconds since 1970, before which no authorization of a status ends.
    pub(crate) fn authorization_end(&self, status: AuthzStatus) -> u64
        ensures { result ≡ slice_index self.now.authorization_ends (authz_code status) }
    {
        self.authorization_ends[status.place()]
    }

    /// Keeps a copy of the desk's own row, if there is memory for it.
    pub(crate) fn learn_meta(&mut self, meta: &Meta)
        ensures meta { IfSome self.new.meta (λ copy. copy ≡ meta.now) }
        ensures rest { self.new ≡ record self.old { meta = self.new.meta } }
    {
        self.meta = meta.clone().ok();
    }

    /// Keeps when the earliest nonce was issued.
    pub(crate) fn learn_issue(&mut self, earliest: Option<u64>)
        ensures { self.new ≡ record self.old { first_issue = bound_of earliest } }
    {
        self.first_issue = bound_of(earliest);
    }

    /// Keeps when the earliest order of a status ends.
    pub(crate) fn learn_order_end(&mut self, status: OrderStatus, earliest: Option<u64>)
        ensures { self.new ≡ record self.old { order_ends = slice_set self.old.order_ends (order_code status) (bound_of earliest) } }
    {
        self.order_ends[status.place()] = bound_of(earliest);
    }

    /// Keeps when the earliest authorization of a status ends.
    pub(crate) fn learn_authorization_end(&mut self, status: AuthzStatus, earliest: Option<u64>)
        ensures { self.new ≡ record self.old { authorization_ends = slice_set self.old.authorization_ends (authz_code status) (bound_of earliest) } }
    {
        self.authorization_ends[status.place()] = bound_of(earliest);
    }

    // Knows a nonce that is put.
    fn add_nonce(&mut self, nonce: &Nonce)
        ensures { self.new ≡ record self.old {
          first_issue = earlier self.old.first_issue nonce.now.issued;
          nonces = slice_set self.old.nonces (nonce_place nonce.now.serial) (Some nonce.now);
        } }
    {
        self.first_issue = earlier(self.first_issue, nonce.issued);
        self.nonces[nonce_place(nonce.serial)] = Some(*nonce);
    }

    // Knows no nonce of a serial that is removed.
    fn remove_nonce(&mut self, serial: u64)
        ensures { self.new ≡ record self.old { nonces = without self.old.nonces serial } }
    {
        if self.nonce(serial).is_some() {
            self.nonces[nonce_place(serial)] = None;
        }
    }

    // What is known after a change.
    fn follow_one(&mut self, change: &Change)
        ensures { (T : Tables) → IsKnownOf self.old T → IsKnownOf self.new (applied_one change.now T) }
    {
        match change {
            Change::PutMeta(meta) => self.learn_meta(meta),
            Change::PutNonce(nonce) => self.add_nonce(nonce),
            Change::PutAuthorization(row) => lower(
                &mut self.authorization_ends,
                row.status.place(),
                row.expires,
            ),
            Change::PutOrder(row) => lower(&mut self.order_ends, row.status.place(), row.expires),
            Change::RemoveNonce(serial) => self.remove_nonce(*serial),
            Change::PutAccount(_) => {}
        }
    }

    /// Knows of the tables after these changes what was known of those before them, but for the moments that the changes lower.
    #[tactic(auto, using(crate::proofs::Knowing::followed_all, crate::proofs::Knowing::followed_one))]
    pub(crate) fn follow(&mut self, changes: &[Change])
        ensures { (T : Tables) → IsKnownOf self.old T → IsKnownOf self.new (applied changes.now T) }
    {
        for change in changes {
            self.follow_one(change);
        }
    }
}
