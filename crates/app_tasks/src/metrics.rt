//! The numbers by which a desk that is served is watched, in the text format of OpenMetrics 1.0.
ghost use Rattle.std.specs.Prelude.{◌≡◌, OnOk};
ghost use Rattle.std.specs.{Io.KnownBytes.Appends, List.flat_map};
ghost use Rattle.app_reports.specs.Reported.{Reports};
ghost use Rattle.app_tasks.specs.Metrics.{TellsMetrics, calls_text, class_text, classes_text, clock_text, counted_routes, fault_numbers, fault_text, files_text};
ghost use Rattle.app_tasks.specs.Metrics.{label_of, made_text, metrics_text, number_text, seconds_text, served_text, slowest_text, waiting_text};
ghost use Rattle.store_api.specs.Sight.{ForTables};

use crate::snapshot::{Reading, Snapshot, take_snapshot};
use crate::totals::{COUNTED, CallCounts, FAULT_NUMBERS, Totals};
use app_reports::ReportFault;
use desk_model::Counters;
use http_routes::Route;
use std::alloc::Global;
use std::io::{self, Write};
use store_api::LookUps;

// What stands before the numbers: what each is, and its name.
const CONNECTIONS: &str =
    "# TYPE desk_connections counter\n# HELP desk_connections Connections that were taken.\ndesk_connections_total ";

const CALLS: &str =
    "# TYPE desk_calls counter\n# HELP desk_calls Calls, by their route and the class of the status that was sent.\n";

const SECONDS: &str =
    "# TYPE desk_call_seconds counter\n# UNIT desk_call_seconds seconds\n# HELP desk_call_seconds Time in calls, each from its request to its reply.\n";

const SLOWEST: &str =
    "# TYPE desk_slowest_call_seconds gauge\n# UNIT desk_slowest_call_seconds seconds\n# HELP desk_slowest_call_seconds Time of the slowest call since the last reading.\ndesk_slowest_call_seconds ";

const FAULTS: &str = "# TYPE desk_faults counter\n# HELP desk_faults Faults, by their number.\n";

const ACCOUNTS: &str =
    "# TYPE desk_accounts counter\n# HELP desk_accounts Accounts that were made: the last number that was given.\ndesk_accounts_total ";

const ORDERS: &str =
    "# TYPE desk_orders counter\n# HELP desk_orders Orders that were made: the last number that was given.\ndesk_orders_total ";

const AUTHORIZATIONS: &str =
    "# TYPE desk_authorizations counter\n# HELP desk_authorizations Authorizations that were made: the last number that was given.\ndesk_authorizations_total ";

const CHALLENGES: &str =
    "# TYPE desk_challenges counter\n# HELP desk_challenges Challenges that were made: the last number that was given.\ndesk_challenges_total ";

const CLOCK: &str =
    "# TYPE desk_clock_timestamp_seconds gauge\n# UNIT desk_clock_timestamp_seconds seconds\n# HELP desk_clock_timestamp_seconds The desk's clock: the latest moment that it recorded.\ndesk_clock_timestamp_seconds ";

const AHEAD: &str =
    "# TYPE desk_clock_ahead_seconds gauge\n# UNIT desk_clock_ahead_seconds seconds\n# HELP desk_clock_ahead_seconds How far the desk's clock is ahead of the machine's.\ndesk_clock_ahead_seconds ";

const FILE: &str =
    "# TYPE desk_file_bytes gauge\n# UNIT desk_file_bytes bytes\n# HELP desk_file_bytes The size of the desk's file.\ndesk_file_bytes ";

const LOG: &str =
    "# TYPE desk_log_bytes gauge\n# UNIT desk_log_bytes bytes\n# HELP desk_log_bytes The size of its log.\ndesk_log_bytes ";

const WAITING_CHALLENGES: &str =
    "# TYPE desk_waiting_challenges gauge\n# HELP desk_waiting_challenges Challenges that wait for the validator.\ndesk_waiting_challenges ";

const WAITING_ORDERS: &str =
    "# TYPE desk_waiting_orders gauge\n# HELP desk_waiting_orders Orders that wait for the signing office.\ndesk_waiting_orders ";

/// Writes the numbers by which a desk that is served is watched.
///
/// # Errors
///
/// `Storage` where a growth was refused or the rows could not be read, `Output` where the writer failed.
pub(crate) fn tell_metrics<K: LookUps, W: Write>(
    alloc: Global,
    source: &mut K,
    out: &mut W,
    reading: &Reading,
) -> Result<(), ReportFault>
    ensures reads { Reports K.sight source.old source.new result }
    ensures printed { ForTables K.sight source.old source.new (λ T. OnOk result (TellsMetrics reading.now T (W.contents out.old) (W.contents out.new))) }
{
    let snapshot = take_snapshot(alloc, source, reading)?;
    write_snapshot(out, &snapshot)?;
    Ok(())
}

// Writes the text of a snapshot.
fn write_snapshot<W: Write>(out: &mut W, snapshot: &Snapshot) -> io::Result<()>
    ensures { OnOk result (Appends (W.contents out.old) (W.contents out.new) (metrics_text snapshot.now)) }
{
    write_served(out, &snapshot.served)?;
    write_made(out, snapshot.counters)?;
    write_clock(out, snapshot.counters.clock.moment(), snapshot.ahead)?;
    write_files(out, snapshot.file, snapshot.log)?;
    write_waiting(out, snapshot.challenges, snapshot.orders)
}

// Writes what was counted.
fn write_served<W: Write>(out: &mut W, served: &Totals) -> io::Result<()>
    ensures { OnOk result (Appends (W.contents out.old) (W.contents out.new) (served_text served.now)) }
{
    write_number(out, CONNECTIONS, served.connections)?;
    write_text(out, CALLS)?;
    write_calls(out, served)?;
    write_text(out, SECONDS)?;
    write_seconds(out, served)?;
    write_slowest(out, served.slowest)?;
    write_text(out, FAULTS)?;
    write_faults(out, served)
}

// Writes a text.
fn write_text<W: Write>(out: &mut W, text: &str) -> io::Result<()>
    ensures { OnOk result (Appends (W.contents out.old) (W.contents out.new) text.now) }
{
    out.write_all(text.as_bytes())
}

// Writes what stands before a number, and the number.
fn write_number<W: Write>(out: &mut W, head: &str, number: u64) -> io::Result<()>
    ensures { OnOk result (Appends (W.contents out.old) (W.contents out.new) (number_text head.now number)) }
{
    writeln!(out, "{head}{number}")
}

// Writes how many calls each route had, by what was sent.
fn write_calls<W: Write>(out: &mut W, served: &Totals) -> io::Result<()>
    ensures { OnOk result (Appends (W.contents out.old) (W.contents out.new) (flat_map (calls_text served.now) counted_routes)) }
{
    for route in COUNTED {
        write_calls_of(out, served, route)?;
    }
    Ok(())
}

// Writes how many calls one route had.
fn write_calls_of<W: Write>(out: &mut W, served: &Totals, route: Option<Route>) -> io::Result<()>
    ensures { OnOk result (Appends (W.contents out.old) (W.contents out.new) (calls_text served.now route)) }
{
    write_classes(out, label_of(route), served.calls_of(route))
}

// Writes how many calls a route had, by the class of what was sent.
fn write_classes<W: Write>(out: &mut W, route: &str, calls: CallCounts) -> io::Result<()>
    ensures { OnOk result (Appends (W.contents out.old) (W.contents out.new) (classes_text route.now calls)) }
{
    write_class(out, route, "2xx", calls.replies)?;
    write_class(out, route, "4xx", calls.refusals)?;
    write_class(out, route, "5xx", calls.inabilities)?;
    write_class(out, route, "none", calls.unsent)
}

// Writes how many calls of a route had a status of one class.
fn write_class<W: Write>(out: &mut W, route: &str, class: &str, count: u64) -> io::Result<()>
    ensures { OnOk result (Appends (W.contents out.old) (W.contents out.new) (class_text route.now class.now count)) }
{
    writeln!(
        out,
        "desk_calls_total{{route=\"{route}\",status=\"{class}\"}} {count}"
    )
}

// Writes how long the calls of each route took.
fn write_seconds<W: Write>(out: &mut W, served: &Totals) -> io::Result<()>
    ensures { OnOk result (Appends (W.contents out.old) (W.contents out.new) (flat_map (seconds_text served.now) counted_routes)) }
{
    for route in COUNTED {
        write_seconds_of(out, served, route)?;
    }
    Ok(())
}

// Writes how long the calls of one route took. Microseconds are told exactly, as so many times a millionth of a second.
#[tactic(auto, unfolding(crate::specs::Metrics::seconds_text))]
fn write_seconds_of<W: Write>(out: &mut W, served: &Totals, route: Option<Route>) -> io::Result<()>
    ensures { OnOk result (Appends (W.contents out.old) (W.contents out.new) (seconds_text served.now route)) }
{
    let label = label_of(route);
    let micros = served.calls_of(route).micros;
    writeln!(
        out,
        "desk_call_seconds_total{{route=\"{label}\"}} {micros}e-6"
    )
}

// Writes how long the slowest call took.
fn write_slowest<W: Write>(out: &mut W, micros: u64) -> io::Result<()>
    ensures { OnOk result (Appends (W.contents out.old) (W.contents out.new) (slowest_text micros)) }
{
    writeln!(out, "{}{micros}e-6", SLOWEST)
}

// Writes how many faults there were of each number.
fn write_faults<W: Write>(out: &mut W, served: &Totals) -> io::Result<()>
    ensures { OnOk result (Appends (W.contents out.old) (W.contents out.new) (flat_map (fault_text served.now) fault_numbers)) }
{
    for number in FAULT_NUMBERS {
        write_faults_of(out, served, number)?;
    }
    Ok(())
}

// Writes how many faults there were of one number.
fn write_faults_of<W: Write>(out: &mut W, served: &Totals, number: u8) -> io::Result<()>
    ensures { OnOk result (Appends (W.contents out.old) (W.contents out.new) (fault_text served.now number)) }
{
    let count = served.faults_of(number);
    writeln!(out, "desk_faults_total{{number=\"{number}\"}} {count}")
}

// Writes the last numbers that the desk gave.
fn write_made<W: Write>(out: &mut W, counters: Counters) -> io::Result<()>
    ensures { OnOk result (Appends (W.contents out.old) (W.contents out.new) (made_text counters)) }
{
    write_number(out, ACCOUNTS, counters.accounts)?;
    write_number(out, ORDERS, counters.orders)?;
    write_number(out, AUTHORIZATIONS, counters.authorizations)?;
    write_number(out, CHALLENGES, counters.challenges)
}

// Writes the clock of the desk, and how far it is ahead.
fn write_clock<W: Write>(out: &mut W, clock: u64, ahead: u64) -> io::Result<()>
    ensures { OnOk result (Appends (W.contents out.old) (W.contents out.new) (clock_text clock ahead)) }
{
    write_number(out, CLOCK, clock)?;
    write_number(out, AHEAD, ahead)
}

// Writes the sizes of its file and of its log.
fn write_files<W: Write>(out: &mut W, file: u64, log: u64) -> io::Result<()>
    ensures { OnOk result (Appends (W.contents out.old) (W.contents out.new) (files_text file log)) }
{
    write_number(out, FILE, file)?;
    write_number(out, LOG, log)
}

// Writes what waits for the validator and for the signing office.
fn write_waiting<W: Write>(out: &mut W, challenges: u64, orders: u64) -> io::Result<()>
    ensures { OnOk result (Appends (W.contents out.old) (W.contents out.new) (waiting_text challenges orders)) }
{
    write_number(out, WAITING_CHALLENGES, challenges)?;
    write_number(out, WAITING_ORDERS, orders)
}

// What a route is called: its paths, with `N` for their number.
fn label_of(route: Option<Route>) -> &'static str
    ensures { result.now ≡ label_of route }
{
    match route {
        Some(Route::Directory) => "/directory",
        Some(Route::NewNonce) => "/new-nonce",
        Some(Route::NewAccount) => "/new-account",
        Some(Route::KeyChange) => "/key-change",
        Some(Route::NewOrder) => "/new-order",
        Some(Route::Account) => "/account/N",
        Some(Route::Orders) => "/account/N/orders",
        Some(Route::Order) => "/order/N",
        Some(Route::Finalize) => "/order/N/finalize",
        Some(Route::Cert) => "/cert/N",
        Some(Route::Authz) => "/authz/N",
        Some(Route::Chall) => "/chall/N",
        Some(Route::Key) => "/office/key/N",
        Some(Route::ChallengeWork) => "/office/challenges",
        Some(Route::OrderWork) => "/office/orders",
        Some(Route::Report) => "/office/report/N",
        Some(Route::Certify) => "/office/certify/N",
        Some(Route::FailOrder) => "/office/fail/N",
        Some(Route::RevokeAuthz) => "/office/revoke-authz/N",
        Some(Route::RevokeAccount) => "/office/revoke-account/N",
        Some(Route::Page) => "/office/page",
        Some(Route::Look) => "/office/look",
        Some(Route::Metrics) => "/office/metrics",
        Some(Route::Backup) => "/office/backup",
        None => "other",
    }
}
