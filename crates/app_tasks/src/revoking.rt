//! What the operator revokes.
ghost use Rattle.std.specs.Prelude.{◌≡◌, OnOk, false};
ghost use Rattle.std.specs.Io.KnownBytes.{Appends};
ghost use Rattle.app_tasks.specs.Asked.{IsSaid, revoked_line};
ghost use Rattle.app_tasks.specs.Deeds.{Revokes, RevokesTarget, ask_of};

use crate::desks::adopt;
use crate::fault::Fault;
use crate::tasks::Task;
use app_words::Revocation;
use desk::Desk;
use desk_model::OfficeAsk;
use std::alloc::Global;
use std::io::{self, Write};
use store_api::{RowsAbove, Storage};

/// Revokes an authorization or an account at a moment.
#[derive(Drop)]
pub struct Revoke {
    /// What allocates.
    pub alloc: Global,
    /// What is revoked.
    pub target: Revocation,
    /// The moment, in seconds since 1970-01-01T00:00:00Z.
    pub at: u64,
}

impl Revoke {
    // Revokes it by a desk, and says so; gives the exit status.
    fn revoke<K: Storage + Drop, W: Write>(
        &mut self,
        desk: &mut Desk<K>,
        out: &mut W,
    ) -> Result<u8, Fault>
        requires opened { desk.old.is_closed ≡ false }
        ensures { Revokes K.Kept.sight self.old.target self.old.at desk.old desk.new result }
    {
        match desk.answer_office(self.alloc, self.at, ask_of(self.target))? {
            Some(refusal) => Err(Fault::Refused(refusal)),
            None => tell_revoked(self.target, out),
        }
    }
}

impl Task for Revoke {
    type Fault = Fault;

    ghost does = { λ task. RevokesTarget task.target task.at };

    fn run<K: Storage + RowsAbove + Drop, W: Write>(
        &mut self,
        store: K,
        out: &mut W,
    ) -> (K, Result<u8, Fault>) {
        let mut desk = match adopt(self.alloc, store) {
            Ok(desk) => desk,
            Err((store, fault)) => return (store, Err(fault)),
        };
        let outcome = self.revoke(&mut desk, out);
        (desk.into_store(), outcome)
    }
}

/// Says what is revoked, and gives the exit status.
pub(crate) fn tell_revoked<W: Write>(target: Revocation, out: &mut W) -> Result<u8, Fault>
    ensures { IsSaid target (W.contents out.old) (W.contents out.new) result }
{
    match write_revoked(target, out) {
        Ok(()) => Ok(0),
        Err(_) => Err(Fault::Output),
    }
}

// Writes the line that says what is revoked.
fn write_revoked<W: Write>(target: Revocation, out: &mut W) -> io::Result<()>
    ensures { OnOk result (Appends (W.contents out.old) (W.contents out.new) (revoked_line target)) }
{
    match target {
        Revocation::Authorization(number) => writeln!(out, "authz {number} revoked"),
        Revocation::Account(number) => writeln!(out, "account {number} revoked"),
    }
}

// What is asked of the desk.
fn ask_of(target: Revocation) -> OfficeAsk
    ensures { result ≡ ask_of target }
{
    match target {
        Revocation::Authorization(number) => OfficeAsk::RevokeAuthz(number),
        Revocation::Account(number) => OfficeAsk::RevokeAccount(number),
    }
}
