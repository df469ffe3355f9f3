//! The list of status faults.
ghost use Rattle.std.specs.Prelude.{◌≡◌, ◌↔◌, ◌≢◌, [], IfOk, IsTrue, OnOk, false};
ghost use Rattle.std.specs.Io.KnownBytes.{Appends};
ghost use Rattle.desk_model.specs.Derived.{status_faults};
ghost use Rattle.store_passes.specs.Left.{faults_of};
ghost use Rattle.store_api.specs.Sight.{ForTables};
ghost use Rattle.app_reports.specs.Printed.{fault_line, faults_text, line_of, lines_of};
ghost use Rattle.app_reports.specs.{Reported.Reports, declared.form.Form.Form as ReportForm, declared.form.Form.TheVariants.Text};

use crate::fault::ReportFault;
use crate::form::Form;
use desk_model::StatusFault;
use std::alloc::Global;
use std::io::{self, Write};
use store_api::RowsAbove;
use store_passes::{FaultKind, StatusFaults, moment_of};

// A row whose status is not the one that its columns give.
struct FaultLine {
    kind: &'static str,
    number: u64,
    stored: &'static str,
    derived: &'static str,
}

// The parts of the line of a fault.
fn parts_of(fault: StatusFault) -> FaultLine
    ensures { (form : ReportForm) → fault_line form result.kind.now result.number result.stored.now result.derived.now ≡ line_of form fault }
{
    let (kind, number, stored, derived) = match fault {
        StatusFault::Account {
            number,
            stored,
            derived,
        } => ("account", number, stored.as_str(), derived.as_str()),
        StatusFault::Order {
            number,
            stored,
            derived,
        } => ("order", number, stored.as_str(), derived.as_str()),
        StatusFault::Authz {
            number,
            stored,
            derived,
        } => ("authz", number, stored.as_str(), derived.as_str()),
        StatusFault::Chall {
            number,
            stored,
            derived,
        } => ("chall", number, stored.as_str(), derived.as_str()),
    };
    FaultLine {
        kind,
        number,
        stored,
        derived,
    }
}

// The line of a fault. No member of the document needs an escape.
fn write_fault<W: Write>(out: &mut W, form: Form, line: FaultLine) -> io::Result<()>
    ensures { OnOk result (Appends (W.contents out.old) (W.contents out.new)
        (fault_line form line.kind.now line.number line.stored.now line.derived.now)) }
{
    let FaultLine {
        kind,
        number,
        stored,
        derived,
    } = line;
    match form {
        Form::Text => writeln!(out, "{kind} {number}: stored {stored}, derived {derived}"),
        Form::Json => writeln!(
            out,
            "{{\"kind\":\"{kind}\",\"number\":{number},\"stored\":\"{stored}\",\"derived\":\"{derived}\"}}"
        ),
    }
}

// Writes a line for each status fault of a kind at a moment, and says whether there is one.
fn write_kind<K: RowsAbove, W: Write>(
    alloc: Global,
    source: &mut K,
    out: &mut W,
    form: Form,
    kind: FaultKind,
    moment: u64,
) -> Result<bool, ReportFault>
    ensures reads { Reports K.sight source.old source.new result }
    ensures found { ForTables K.sight source.old source.new (λ T. moment ≡ T.meta.counters.clock →
        IfOk result (λ found. IsTrue found ↔ faults_of T kind ≢ [])) }
    ensures printed { ForTables K.sight source.old source.new (λ T. moment ≡ T.meta.counters.clock →
        OnOk result (Appends (W.contents out.old) (W.contents out.new) (lines_of form (faults_of T kind)))) }
{
    let mut found = false;
    let mut faults = StatusFaults::new(source, kind, moment);
    while let Some(fault) = faults.next(alloc)? {
        write_fault(out, form, parts_of(fault))?;
        found = true;
    }
    Ok(found)
}

// Writes a line for each status fault, one kind after the other, and says whether there is one.
#[tactic(auto, using(std::proofs::lemmas::List::drop_all, store_passes::proofs::Alls::kinds_make_all, crate::proofs::Searching::tells, crate::proofs::Printing::writes_all))]
fn write_kinds<K: RowsAbove, W: Write>(
    alloc: Global,
    source: &mut K,
    out: &mut W,
    form: Form,
    moment: u64,
) -> Result<bool, ReportFault>
    ensures reads { Reports K.sight source.old source.new result }
    ensures found { ForTables K.sight source.old source.new (λ T. moment ≡ T.meta.counters.clock →
        IfOk result (λ found. IsTrue found ↔ status_faults T ≢ [])) }
    ensures printed { ForTables K.sight source.old source.new (λ T. moment ≡ T.meta.counters.clock →
        OnOk result (Appends (W.contents out.old) (W.contents out.new) (lines_of form (status_faults T)))) }
{
    let mut found = false;
    for kind in FaultKind::ALL {
        if write_kind(alloc, source, out, form, kind, moment)? {
            found = true;
        }
    }
    Ok(found)
}

// Whether a line says that there is no fault.
fn says_none(found: bool, form: Form) -> bool
    ensures { IsTrue result ↔ ((found ≡ false) × (form ≡ Text)) }
{
    match form {
        Form::Text => !found,
        Form::Json => false,
    }
}

/// What a list of wrong statuses found.
#[derive(Clone, Copy)]
pub struct Checked {
    /// Whether there is one.
    pub found: bool,
    /// The desk's clock.
    pub clock: u64,
}

/// Writes a line for each stored status of a desk that is wrong, by kind and number, and says whether there is one; as text,
/// where there is none, a line says so. It keeps the rows of one object at most.
///
/// # Errors
///
/// `Storage` where a growth was refused or the rows could not be read, `Output` where the writer failed.
pub fn list_faults<K: RowsAbove, W: Write>(
    alloc: Global,
    source: &mut K,
    out: &mut W,
    form: Form,
) -> Result<Checked, ReportFault>
    ensures reads { Reports K.sight source.old source.new result }
    ensures found { ForTables K.sight source.old source.new (λ T.
        IfOk result (λ checked. IsTrue checked.found ↔ status_faults T ≢ [])) }
    ensures clock { ForTables K.sight source.old source.new (λ T. IfOk result (λ checked. checked.clock ≡ T.meta.counters.clock)) }
    ensures printed { ForTables K.sight source.old source.new (λ T.
        OnOk result (Appends (W.contents out.old) (W.contents out.new) (faults_text form (status_faults T)))) }
{
    let moment = moment_of(alloc, source)?;
    let found = write_kinds(alloc, source, out, form, moment)?;
    if says_none(found, form) {
        writeln!(out, "no fault")?;
    }
    Ok(Checked {
        found,
        clock: moment,
    })
}
