//! What a desk is, and how many rows of each table have each status.
ghost use Rattle.std.specs.Prelude.{◌≡◌, ◌==◌, ◌<◌, ◌+◌, ◌-◌, ◌^◌, ℕ, IfOk, OnOk, cond, min, slice_index, List};
ghost use Rattle.std.specs.Io.KnownBytes.{Appends};
ghost use Rattle.store_api.specs.Sight.{ForTables, Reads};
ghost use Rattle.app_reports.specs.Reported.{Reports};
ghost use Rattle.app_reports.specs.Tallied.{IsTally, accounts_said, authorizations_said, challenges_said, ended_said, orders_said, tally_of, unended_said};
ghost use Rattle.desk_model.specs.Derived.{account_code, authz_code, chall_code, order_code};
ghost use Rattle.app_reports.specs.About.{about_text, base_said, clock_said, lives_said, meta_said, statuses_said};

use crate::beside::{Beside, seconds_ahead};
use crate::fault::ReportFault;
use desk_book::Row;
use desk_model::{AccountRow, AuthorizationRow, ChallengeRow, Meta, OrderRow, Policy};
use moments::capped_moment_text;
use std::alloc::Global;
use std::io::{self, Write};
use store_api::{RowsAbove, StorageFault};
use store_passes::{PassedRow, row_after};

// The most statuses that an object may have.
const MOST: usize = 6;

// A row with a status, of which there are six at most.
trait Stated: PassedRow + Drop {
    // The place of its stored status among those of its kind.
    ghost place: { Self → ℕ };

    // The line that says how many rows there are, by the place of their status.
    ghost said: { (ℕ → ℕ) → List ℕ };

    /// The place of its stored status among those of its kind.
    fn place(&self) -> usize
        ensures place { result ≡ place self.now }
        ensures below { result < 6 };

    /// Writes how many rows have each status.
    fn write_counts<W: Write>(out: &mut W, counts: &[u64; MOST]) -> io::Result<()>
        ensures { OnOk result (Appends (W.contents out.old) (W.contents out.new) (said (λ k. slice_index counts.now k))) };
}

impl Stated for AccountRow {
    ghost place = { λ row. account_code row.status };

    ghost said = { accounts_said };

    fn place(&self) -> usize {
        self.status.place()
    }

    fn write_counts<W: Write>(out: &mut W, counts: &[u64; MOST]) -> io::Result<()> {
        writeln!(
            out,
            "accounts: {} valid, {} deactivated, {} revoked",
            counts[0], counts[1], counts[2]
        )
    }
}

impl Stated for AuthorizationRow {
    ghost place = { λ row. authz_code row.status };

    ghost said = { authorizations_said };

    fn place(&self) -> usize {
        self.status.place()
    }

    fn write_counts<W: Write>(out: &mut W, counts: &[u64; MOST]) -> io::Result<()> {
        write_unended(out, counts)?;
        write_ended(out, counts)
    }
}

// Writes how many authorizations have not ended, or are invalid.
fn write_unended<W: Write>(out: &mut W, counts: &[u64; MOST]) -> io::Result<()>
    ensures { OnOk result (Appends (W.contents out.old) (W.contents out.new) (unended_said (λ k. slice_index counts.now k))) }
{
    write!(
        out,
        "authorizations: {} pending, {} valid, {} invalid",
        counts[0], counts[1], counts[2]
    )
}

// Writes how many authorizations ended otherwise.
fn write_ended<W: Write>(out: &mut W, counts: &[u64; MOST]) -> io::Result<()>
    ensures { OnOk result (Appends (W.contents out.old) (W.contents out.new) (ended_said (λ k. slice_index counts.now k))) }
{
    writeln!(
        out,
        ", {} deactivated, {} expired, {} revoked",
        counts[3], counts[4], counts[5]
    )
}

impl Stated for ChallengeRow {
    ghost place = { λ row. chall_code row.status };

    ghost said = { challenges_said };

    fn place(&self) -> usize {
        self.status.place()
    }

    fn write_counts<W: Write>(out: &mut W, counts: &[u64; MOST]) -> io::Result<()> {
        writeln!(
            out,
            "challenges: {} pending, {} processing, {} valid, {} invalid",
            counts[0], counts[1], counts[2], counts[3]
        )
    }
}

impl Stated for OrderRow {
    ghost place = { λ row. order_code row.status };

    ghost said = { orders_said };

    fn place(&self) -> usize {
        self.status.place()
    }

    fn write_counts<W: Write>(out: &mut W, counts: &[u64; MOST]) -> io::Result<()> {
        writeln!(
            out,
            "orders: {} pending, {} ready, {} processing, {} valid, {} invalid",
            counts[0], counts[1], counts[2], counts[3], counts[4]
        )
    }
}

// Counts one more at a place.
fn raise(counts: &mut [u64; MOST], place: usize)
    requires below { place < 6 }
    ensures { (k : ℕ) → slice_index counts.new k ≡ cond (place == k) (min (slice_index counts.old k + 1) (2 ^ 64 - 1)) (slice_index counts.old k) }
{
    counts[place] = counts[place].saturating_add(1);
}

// How many rows of a table have each status, by its place.
fn tally<R: Stated, K: RowsAbove>(
    alloc: Global,
    source: &mut K,
) -> Result<[u64; MOST], StorageFault>
    ensures reads { Reads K.sight source.old source.new result }
    ensures counted { ForTables K.sight source.old source.new (λ T. IfOk result (λ counts. IsTally R.place (R.rows T) counts)) }
{
    let mut counts = [0; MOST];
    let mut above: u64 = 0;
    while let Some(row) = row_after::<R, K>(alloc, source, above)? {
        above = row.number();
        raise(&mut counts, row.place());
    }
    Ok(counts)
}

// Writes how many rows of a table have each status.
fn write_tally<R: Stated, K: RowsAbove, W: Write>(
    alloc: Global,
    source: &mut K,
    out: &mut W,
) -> Result<(), ReportFault>
    ensures reads { Reports K.sight source.old source.new result }
    ensures printed { ForTables K.sight source.old source.new (λ T. OnOk result
        (Appends (W.contents out.old) (W.contents out.new) (R.said (tally_of R.place (R.rows T))))) }
{
    let counts = tally::<R, K>(alloc, source)?;
    R::write_counts(out, &counts)?;
    Ok(())
}

// ---- about a desk

/// Writes what a desk was made with, its clock, how many of its objects have each stored status, and the size of its log. It
/// keeps one object's rows at most.
///
/// # Errors
///
/// `Storage` where a growth was refused or the rows could not be read, `Output` where the writer failed.
pub fn tell_about<K: RowsAbove, W: Write>(
    alloc: Global,
    source: &mut K,
    out: &mut W,
    beside: Beside,
) -> Result<(), ReportFault>
    ensures reads { Reports K.sight source.old source.new result }
    ensures printed { ForTables K.sight source.old source.new (λ T. OnOk result (Appends (W.contents out.old) (W.contents out.new) (about_text beside T))) }
{
    write_meta(alloc, source, out, beside.now)?;
    write_statuses(alloc, source, out)?;
    writeln!(out, "log: {}", beside.log)?;
    Ok(())
}

// Writes what the desk was made with, and its clock.
fn write_meta<K: RowsAbove, W: Write>(
    alloc: Global,
    source: &mut K,
    out: &mut W,
    now: Option<u64>,
) -> Result<(), ReportFault>
    ensures reads { Reports K.sight source.old source.new result }
    ensures printed { ForTables K.sight source.old source.new (λ T. OnOk result (Appends (W.contents out.old) (W.contents out.new) (meta_said now T.meta))) }
{
    let meta = source.meta_row(alloc)?;
    write_known(alloc, out, &meta, now)?;
    Ok(())
}

// Writes what the desk's own row tells.
fn write_known<W: Write>(
    alloc: Global,
    out: &mut W,
    meta: &Meta,
    now: Option<u64>,
) -> io::Result<()>
    ensures { OnOk result (Appends (W.contents out.old) (W.contents out.new) (meta_said now meta.now)) }
{
    let clock = meta.counters.clock.moment();
    write_base(out, &meta.policy)?;
    write_lives(out, &meta.policy)?;
    write_clock(alloc, out, clock, seconds_ahead(clock, now))
}

// Writes the format, which is today's in each file that was opened, and what each URL begins with.
fn write_base<W: Write>(out: &mut W, policy: &Policy) -> io::Result<()>
    ensures { OnOk result (Appends (W.contents out.old) (W.contents out.new) (base_said policy.now)) }
{
    let base = policy.base();
    writeln!(out, "format: 2\nbase: {base}")
}

// Writes the lives that the desk was made with.
fn write_lives<W: Write>(out: &mut W, policy: &Policy) -> io::Result<()>
    ensures { OnOk result (Appends (W.contents out.old) (W.contents out.new) (lives_said policy.now)) }
{
    let nonce = policy.nonce_life();
    let order = policy.order_life();
    let authz = policy.authz_life();
    writeln!(
        out,
        "nonce life: {nonce}\norder life: {order}\nauthorization life: {authz}"
    )
}

// Writes the clock of the desk, and by how many seconds it is ahead of the machine's, if it is.
fn write_clock<W: Write>(
    alloc: Global,
    out: &mut W,
    clock: u64,
    ahead: Option<u64>,
) -> io::Result<()>
    ensures { OnOk result (Appends (W.contents out.old) (W.contents out.new) (clock_said clock ahead)) }
{
    let text = capped_moment_text(alloc, clock)?;
    let text = text.as_str();
    match ahead {
        Some(seconds) => {
            writeln!(
                out,
                "clock: {text}, {seconds} seconds ahead of the machine's"
            )
        }
        None => writeln!(out, "clock: {text}"),
    }
}

/// Writes how many objects of each kind have each stored status. It keeps one object's rows at most.
///
/// # Errors
///
/// As `tell_about`.
pub fn write_statuses<K: RowsAbove, W: Write>(
    alloc: Global,
    source: &mut K,
    out: &mut W,
) -> Result<(), ReportFault>
    ensures reads { Reports K.sight source.old source.new result }
    ensures printed { ForTables K.sight source.old source.new (λ T. OnOk result (Appends (W.contents out.old) (W.contents out.new) (statuses_said T))) }
{
    write_tally::<AccountRow, K, W>(alloc, source, out)?;
    write_tally::<AuthorizationRow, K, W>(alloc, source, out)?;
    write_tally::<ChallengeRow, K, W>(alloc, source, out)?;
    write_tally::<OrderRow, K, W>(alloc, source, out)
}
