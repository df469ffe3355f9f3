//! The words of the command line, done.
ghost use Rattle.std.specs.Prelude.{◌≡◌, ◌≤◌, ◌⊎◌, IfErr, IfOk, MatchOption, MatchResult, true, false};
ghost use Rattle.sqlite.specs.WalFiles.{image_at};
ghost use Rattle.desk_model.specs.Terms.{are_terms};
ghost use Rattle.desk.specs.declared.fault.DeskFault.TheVariants as deskfault;
ghost use Rattle.app_tasks.specs.Deeds.{ChecksStatuses, ListsRows, TellsPage, form_of};
ghost use Rattle.app_tasks.specs.{Faults.IsOfDesk, GivenTerms.terms_of};
ghost use Rattle.app_commands.specs.Statuses.{Ends, EndsAbout, EndsBy, EndsMake, EndsOverFiles, EndsReport, EndsRevoke, EndsServe, EndsUnasked, IsToldMade};
ghost use Rattle.app_commands.specs.Statuses.{BySyncs, EndsSo, IsToldWords, status_of, supposes, syncs_of, terms_in_memory};
ghost use Rattle.app_words.specs.declared.command.Command.{Command as CommandValue};
ghost use Rattle.app_words.specs.declared.fault.WordsFault.{WordsFault as WordsFaultValue};
ghost use Rattle.app_reports.specs.Listed.{roster};
ghost use Rattle.app_files.specs.Endings.{EndsInMemory};
ghost use Rattle.app_tasks.specs.declared.fault.Fault.TheVariants as fault;

use crate::backing_up::{back_up, back_up_served};
use crate::explaining::explain;
use crate::restoring::restore;
use app_files::{Left, Unknown, Wary, desk_fault, make_desk, run_in_memory, run_over_file};
use app_reports::{AllAccounts, RowList};
use app_tasks::{
    AnswerLines, CheckStatuses, Fault, ListRows, Revoke, ServeConnections, ShowPage, Task,
    TellAbout, Unasked, VisibleLines, Wrong, authorization_filter, form, known_beside, look_served,
    order_filter, refuse, revoke_served, wait_for, write_fault,
};
use app_words::{
    AUTHZ_LIFE, Asked, Command, NONCE_LIFE, ORDER_LIFE, Report, Revocation, Serving, SyncedFile,
    Syncs, Terms, WordsFault, read_words,
};
use desk::DeskFault;
use desk_http::moment;
use desk_model::Policy;
use desk_store::OpenFault;
use sqlite::{FileFrom, Start};
use sqlite_disk::Disk;
use std::alloc::Global;
use std::io::{Read, Write};

// The terms of a desk that is made in memory.
const TERMS: Terms<'static> = Terms {
    base: "https://ca.example",
    nonce_life: NONCE_LIFE.seconds,
    order_life: ORDER_LIFE.seconds,
    authz_life: AUTHZ_LIFE.seconds,
};

// What is said of a word that is not UTF-8.
const NOT_TEXT: &str = "error: a word is not UTF-8\n\nFor more information, try '--help'.\n";

/// Does what the words of a command line ask for, of which the first is the program's name, and gives the exit status: 0 where
/// it is done, 1 after a fault or a refusal, 2 where the words are wrong or a limit is broken, 3 where a stored status is wrong.
/// Where the words say nothing of the causes of faults, these are said if standard error is a terminal.
pub fn run_words<R: Read + Drop, W: Write, E: Write>(
    rt: &HostRuntime,
    words: &[String],
    is_terminal: bool,
    reader: R,
    out: &mut W,
    errors: &mut E,
) -> u8
    ensures small { result ≤ 3 }
    ensures ends { ((command : CommandValue) × BySyncs
        (EndsSo ⟦<FileFrom<Unknown> as Disk>⟧ (image_at ⟦<Unknown as Start>⟧) (R.remaining reader) (W.contents out.old) (W.contents out.new) command result)
        (EndsSo ⟦<FileFrom<Wary> as Disk>⟧ (image_at ⟦<Wary as Start>⟧) (R.remaining reader) (W.contents out.old) (W.contents out.new) command result)
        (syncs_of command)) ⊎ ((why : WordsFaultValue) × IsToldWords why (W.contents out.old) (W.contents out.new) result) }
{
    match read_words(rt.alloc(), words, is_terminal) {
        Ok(asked) => run_asked(rt, asked, reader, out, errors),
        Err(fault) => tell_words(&fault, out, errors),
    }
}

// Waits for the file, as long as the words say, does what they ask for, and gives the exit status.
fn run_asked<R: Read + Drop, W: Write, E: Write>(
    rt: &HostRuntime,
    asked: Asked<'_>,
    reader: R,
    out: &mut W,
    errors: &mut E,
) -> u8
    ensures small { result ≤ 3 }
    ensures ends { BySyncs
        (EndsSo ⟦<FileFrom<Unknown> as Disk>⟧ (image_at ⟦<Unknown as Start>⟧) (R.remaining reader) (W.contents out.old) (W.contents out.new)
        asked.entry.command result)
        (EndsSo ⟦<FileFrom<Wary> as Disk>⟧ (image_at ⟦<Wary as Start>⟧) (R.remaining reader) (W.contents out.old) (W.contents out.new)
        asked.entry.command result)
        (syncs_of asked.entry.command) }
{
    if let Some(file) = asked.command.waited_file() {
        wait_for(rt, file, asked.wait);
    }
    match syncs_of(asked.command) {
        Syncs::Once => run_from(rt, asked, Unknown, reader, out, errors),
        Syncs::Twice => run_from(rt, asked, Wary, reader, out, errors),
    }
}

/// Says that there is no memory for the words of a command line, and gives the exit status.
pub fn tell_no_memory<E: Write>(errors: &mut E) -> u8
    ensures { result ≡ 1 }
{
    write_fault(errors, Fault::Desk(DeskFault::Memory))
}

/// Says that a word of a command line is not UTF-8, as wrong words are told, and gives the exit status.
pub fn tell_not_text<E: Write>(errors: &mut E) -> u8
    ensures { result ≡ 2 }
{
    write_wrong(errors, NOT_TEXT)
}

// Says what is wrong with the words, and gives the exit status.
fn write_wrong<E: Write>(errors: &mut E, text: &str) -> u8
    ensures { result ≡ 2 }
{
    let _ = write!(errors, "{}", VisibleLines(text));
    2
}

// Does a command, gives up what is left of its files, and gives the exit status.
fn run_from<S: Start, R: Read + Drop, W: Write, E: Write>(
    rt: &HostRuntime,
    asked: Asked<'_>,
    start: S,
    reader: R,
    out: &mut W,
    errors: &mut E,
) -> u8
    requires start { S.Start.is_mixing ≡ supposes (syncs_of asked.command) }
    ensures small { result ≤ 3 }
    ensures ends { EndsSo ⟦<FileFrom<S> as Disk>⟧ (image_at S.Start) (R.remaining reader) (W.contents out.old) (W.contents out.new) asked.entry.command
        result }
{
    let (status, left) = run_command(
        rt,
        asked.command,
        asked.is_verbose,
        start,
        reader,
        out,
        errors,
    );
    drop(left);
    status
}

/// Does a command, and gives the exit status, as `run_words` does, and what is left of its files. After a fault, and where a
/// limit is broken, it says the cause on a second line, if it is to be verbose.
///
/// What is done over a file is said of the bytes that `start` stands for, whatever they are; no clause ties them to the path. Commits
/// sync as `start` asks for, which is as the command says: twice by one like `Wary`, once by one like `Unknown`.
pub fn run_command<S: Start, R: Read + Drop, W: Write, E: Write>(
    rt: &HostRuntime,
    command: Command<'_>,
    is_verbose: bool,
    start: S,
    reader: R,
    out: &mut W,
    errors: &mut E,
) -> (u8, Left<FileFrom<S>>)
    requires start { S.Start.is_mixing ≡ supposes (syncs_of command) }
    ensures { EndsBy ⟦<FileFrom<S> as Disk>⟧ (image_at S.Start) (R.remaining reader) (W.contents out.old) (W.contents out.new) command.entry result.0 result.1 }
{
    let (how, left) = try_command(rt, command, start, reader, out, errors);
    let status = exit_status(errors, how);
    explain(rt, errors, is_verbose, command, how, &left);
    (status, left)
}

// Says the fault of a command, where one ended it, and gives the exit status.
fn exit_status<E: Write>(errors: &mut E, how: Result<u8, Fault>) -> u8
    ensures { result ≡ status_of how }
{
    match how {
        Ok(status) => status,
        Err(fault) => write_fault(errors, fault),
    }
}

// Does a command, and gives the exit status where no fault ends it.
fn try_command<S: Start, R: Read + Drop, W: Write, E: Write>(
    rt: &HostRuntime,
    command: Command<'_>,
    start: S,
    reader: R,
    out: &mut W,
    errors: &mut E,
) -> (Result<u8, Fault>, Left<FileFrom<S>>)
    ensures { Ends ⟦<FileFrom<S> as Disk>⟧ (image_at S.Start) (R.remaining reader) (W.contents out.old) (W.contents out.new) command.entry result.0 result.1 }
{
    match command {
        Command::Make { file, terms } => make_file(rt, file, terms, start, out, errors),
        Command::Serve { file, serving } => serve_file(rt, file, serving, start, out, errors),
        Command::Report { file, report } => report_on(rt, file, report, start, out, errors),
        Command::Look { place, report } => {
            (look_served(rt, place, report, out, errors), Left::Untouched)
        }
        Command::BackUp { file, to } => back_up(rt, file, to, start, out, errors),
        Command::BackUpServed { place, to } => back_up_served(rt, place, to, start, out, errors),
        Command::Restore { copy, file } => restore(rt, copy, file, start, out, errors),
        Command::Revoke { file, target } => revoke_over(rt, file, target, start, out),
        Command::RevokeServed { place, target } => {
            (revoke_served(rt, place, target, out), Left::Untouched)
        }
        Command::Batch { file } => answer_lines(rt, file, start, reader, out, errors),
    }
}

// Makes a desk in a new file, where its terms keep the limits.
fn make_file<S: Start, W: Write, E: Write>(
    rt: &HostRuntime,
    file: &str,
    terms: Terms<'_>,
    start: S,
    out: &mut W,
    errors: &mut E,
) -> (Result<u8, Fault>, Left<FileFrom<S>>)
    ensures { EndsMake ⟦<FileFrom<S> as Disk>⟧ (image_at S.Start) (terms_of terms.entry) (W.contents out.old) (W.contents out.new) result.0 result.1 }
{
    match policy(rt.alloc(), terms) {
        Ok(Some(policy)) => {
            let (made, left) = make_desk(rt, file, start, policy);
            (tell_made(out, made), left)
        }
        Ok(None) => (Ok(refuse(errors, Wrong::Policy)), Left::Untouched),
        Err(fault) => (Err(fault), Left::Untouched),
    }
}

// Says that a desk is made, where it is, and gives the exit status.
fn tell_made<W: Write>(out: &mut W, made: Result<(), OpenFault>) -> Result<u8, Fault>
    ensures { IsToldMade made result }
{
    match made {
        Ok(()) => match writeln!(out, "made") {
            Ok(()) => Ok(0),
            Err(_) => Err(Fault::Output),
        },
        Err(fault) => Err(Fault::Desk(desk_fault(fault))),
    }
}

// Serves the desk in a file.
fn serve_file<S: Start, W: Write, E: Write>(
    rt: &HostRuntime,
    file: SyncedFile<'_>,
    serving: Serving<'_>,
    start: S,
    out: &mut W,
    errors: &mut E,
) -> (Result<u8, Fault>, Left<FileFrom<S>>)
    ensures { EndsServe ⟦<FileFrom<S> as Disk>⟧ (image_at S.Start) serving.entry (W.contents out.old) (W.contents out.new) result.0 result.1 }
{
    let task = ServeConnections {
        rt,
        path: file.path,
        serving,
        now: moment(rt).ok(),
        errors,
    };
    run_over_file(rt, file.path, start, task, out)
}

// Reports on the desk in a file.
fn report_on<S: Start, W: Write, E: Write>(
    rt: &HostRuntime,
    file: &str,
    report: Report<'_>,
    start: S,
    out: &mut W,
    errors: &mut E,
) -> (Result<u8, Fault>, Left<FileFrom<S>>)
    ensures { EndsReport ⟦<FileFrom<S> as Disk>⟧ (image_at S.Start) report.entry (W.contents out.old) (W.contents out.new) result.0 result.1 }
{
    match report {
        Report::About => about_file(rt, file, start, out),
        Report::Page => show_page(rt, file, start, out),
        Report::Orders(listing) => {
            let filter = order_filter(rt.alloc(), listing);
            list_asked(rt, file, filter, listing.json, start, out, errors)
        }
        Report::Accounts { json } => list_over(rt, file, AllAccounts, json, start, out),
        Report::Authorizations(listing) => {
            let filter = authorization_filter(rt.alloc(), listing);
            list_asked(rt, file, filter, listing.json, start, out, errors)
        }
        Report::Check { json } => check_file(rt, file, json, start, out, errors),
    }
}

// Tells about the desk in a file, and how large the log beside it was.
fn about_file<S: Start, W: Write>(
    rt: &HostRuntime,
    file: &str,
    start: S,
    out: &mut W,
) -> (Result<u8, Fault>, Left<FileFrom<S>>)
    ensures { EndsAbout ⟦<FileFrom<S> as Disk>⟧ (image_at S.Start) (W.contents out.old) (W.contents out.new) result.0 result.1 }
{
    let beside = match known_beside(rt, file) {
        Ok(beside) => beside,
        Err(fault) => return (Err(Fault::Desk(fault)), Left::Untouched),
    };
    let task = TellAbout {
        alloc: rt.alloc(),
        beside,
    };
    run_over_file(rt, file, start, task, out)
}

// Revokes an authorization or an account of the desk in a file, at the machine's clock, which is read once.
fn revoke_over<S: Start, W: Write>(
    rt: &HostRuntime,
    file: &str,
    target: Revocation,
    start: S,
    out: &mut W,
) -> (Result<u8, Fault>, Left<FileFrom<S>>)
    ensures { EndsRevoke ⟦<FileFrom<S> as Disk>⟧ (image_at S.Start) target (W.contents out.old) (W.contents out.new) result.0 result.1 }
{
    let at = match moment(rt) {
        Ok(at) => at,
        Err(fault) => return (Err(Fault::Serve(fault)), Left::Untouched),
    };
    let task = Revoke {
        alloc: rt.alloc(),
        target,
        at,
    };
    run_over_file(rt, file, start, task, out)
}

// Shows the desk in a file as a page.
fn show_page<S: Start, W: Write>(
    rt: &HostRuntime,
    file: &str,
    start: S,
    out: &mut W,
) -> (Result<u8, Fault>, Left<FileFrom<S>>)
    ensures { EndsOverFiles ⟦<FileFrom<S> as Disk>⟧ (image_at S.Start) TellsPage (W.contents out.old) (W.contents out.new) result.0 result.1 }
{
    let task = ShowPage { alloc: rt.alloc() };
    run_over_file(rt, file, start, task, out)
}

// Checks the stored statuses of the desk in a file.
fn check_file<S: Start, W: Write, E: Write>(
    rt: &HostRuntime,
    file: &str,
    json: bool,
    start: S,
    out: &mut W,
    errors: &mut E,
) -> (Result<u8, Fault>, Left<FileFrom<S>>)
    ensures { EndsOverFiles ⟦<FileFrom<S> as Disk>⟧ (image_at S.Start) (ChecksStatuses (form_of json)) (W.contents out.old) (W.contents out.new) result.0
        result.1 }
{
    let task = CheckStatuses {
        alloc: rt.alloc(),
        form: form(json),
        now: moment(rt).ok(),
        errors,
    };
    run_over_file(rt, file, start, task, out)
}

// Lists rows of the desk in a file, where the words ask for some.
fn list_asked<S: Start, L: RowList + Drop, W: Write, E: Write>(
    rt: &HostRuntime,
    file: &str,
    list: Result<L, Unasked>,
    json: bool,
    start: S,
    out: &mut W,
    errors: &mut E,
) -> (Result<u8, Fault>, Left<FileFrom<S>>)
    ensures { MatchResult list
        (λ l. EndsOverFiles ⟦<FileFrom<S> as Disk>⟧ (image_at S.Start) (ListsRows (roster L.Item.rows (L.keeps l) L.line L.noun (form_of json)))
        (W.contents out.old) (W.contents out.new) result.0 result.1)
        (λ why. EndsUnasked ⟦<FileFrom<S> as Disk>⟧ (image_at S.Start) why (W.contents out.old) (W.contents out.new) result.0 result.1) }
{
    match list {
        Ok(list) => list_over(rt, file, list, json, start, out),
        Err(Unasked::Wrong(wrong)) => (Ok(refuse(errors, wrong)), Left::Untouched),
        Err(Unasked::Memory) => (Err(Fault::Desk(DeskFault::Memory)), Left::Untouched),
    }
}

// Lists rows of the desk in a file.
fn list_over<S: Start, L: RowList + Drop, W: Write>(
    rt: &HostRuntime,
    file: &str,
    list: L,
    json: bool,
    start: S,
    out: &mut W,
) -> (Result<u8, Fault>, Left<FileFrom<S>>)
    ensures { EndsOverFiles ⟦<FileFrom<S> as Disk>⟧ (image_at S.Start) (ListsRows (roster L.Item.rows (L.keeps list) L.line L.noun (form_of json)))
        (W.contents out.old) (W.contents out.new) result.0 result.1 }
{
    let task = ListRows {
        alloc: rt.alloc(),
        form: form(json),
        list,
    };
    run_over_file(rt, file, start, task, out)
}

// Answers the lines of a reader, by the desk of a file or by a new one in memory.
fn answer_lines<S: Start, R: Read + Drop, W: Write, E: Write>(
    rt: &HostRuntime,
    file: Option<SyncedFile<'_>>,
    start: S,
    mut reader: R,
    out: &mut W,
    errors: &mut E,
) -> (Result<u8, Fault>, Left<FileFrom<S>>)
    ensures { Ends ⟦<FileFrom<S> as Disk>⟧ (image_at S.Start) (R.remaining reader) (W.contents out.old) (W.contents out.new)
        (Command.Batch file.entry) result.0 result.1 }
{
    let alloc = rt.alloc();
    let task = AnswerLines {
        alloc,
        reader: &mut reader,
        errors,
    };
    match file {
        Some(file) => run_over_file(rt, file.path, start, task, out),
        None => (answer_in_memory(alloc, task, out), Left::Untouched),
    }
}

// Does a task by a new desk in memory.
fn answer_in_memory<T: Task<Fault = Fault> + Drop, W: Write>(
    alloc: Global,
    task: T,
    out: &mut W,
) -> Result<u8, Fault>
    ensures { EndsInMemory IsOfDesk terms_in_memory (T.Task.does task) (W.contents out.old) (W.contents out.new) result }
{
    run_in_memory(alloc, default_policy(alloc)?, task, out)
}

// How often a commit syncs that a command makes.
fn syncs_of(command: Command<'_>) -> Syncs
    ensures { result ≡ syncs_of command.entry }
{
    match command {
        Command::Make { .. } => Syncs::Twice,
        Command::Serve { file, .. } => file.syncs,
        Command::Report { .. } => Syncs::Twice,
        Command::Look { .. } => Syncs::Twice,
        Command::BackUp { .. } => Syncs::Twice,
        Command::BackUpServed { .. } => Syncs::Twice,
        Command::Restore { .. } => Syncs::Twice,
        Command::Revoke { .. } => Syncs::Twice,
        Command::RevokeServed { .. } => Syncs::Twice,
        Command::Batch { file: Some(file) } => file.syncs,
        Command::Batch { file: None } => Syncs::Twice,
    }
}

// Says what the words lack, or the help that they ask for.
fn tell_words<W: Write, E: Write>(fault: &WordsFault, out: &mut W, errors: &mut E) -> u8
    ensures { IsToldWords fault.now (W.contents out.old) (W.contents out.new) result }
{
    match fault {
        WordsFault::Help(text) => match write!(out, "{text}") {
            Ok(()) => 0,
            Err(_) => write_fault(errors, Fault::Output),
        },
        WordsFault::Wrong(text) => write_wrong(errors, text.as_str()),
        WordsFault::Memory => tell_no_memory(errors),
    }
}

// The policy of terms, or `None` where they break a limit.
fn policy(alloc: Global, terms: Terms<'_>) -> Result<Option<Policy>, Fault>
    ensures told { IfOk result (λ made. MatchOption made (are_terms (terms_of terms.entry) ≡ false)
        (λ policy. (are_terms (terms_of terms.entry) ≡ true) × (policy ≡ terms_of terms.entry))) }
    ensures failed { IfErr result (λ f. f ≡ fault.Desk deskfault.Memory) }
{
    match Policy::new(
        alloc,
        terms.base,
        terms.nonce_life,
        terms.order_life,
        terms.authz_life,
    ) {
        Ok(policy) => Ok(policy),
        Err(_) => Err(Fault::Desk(DeskFault::Memory)),
    }
}

// The policy of a desk that is made in memory.
fn default_policy(alloc: Global) -> Result<Policy, Fault>
    ensures made { IfOk result (λ policy. policy ≡ terms_in_memory) }
    ensures failed { IfErr result (λ f. f ≡ fault.Desk deskfault.Memory) }
{
    match policy(alloc, TERMS)? {
        Some(policy) => Ok(policy),
        None => unreachable!(),
    }
}
