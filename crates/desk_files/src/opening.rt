//! Desks in two files, for all bytes that these may hold.
ghost use Rattle.std.specs.Prelude.{◌≡◌, None, IfErr, IfOk, IfSome};
ghost use Rattle.sqlite.specs.Files.{IsOpened, file_state};
ghost use Rattle.sqlite.specs.{Held.IsNew, Start.FindsIn, State.HasCleanDisk, WalFiles.image_at};
ghost use Rattle.desk_files.specs.Opening.{FailedOver, FailedToMakeOver, FailsToMake, FoundNothing, LeavesAnOpening, LeavesAsFound, MakesFiles};
ghost use Rattle.desk_files.specs.Opening.{OpensFiles, OpensKnown, RefusedBy, RefusesNoDatabase, RefusesNoDesk, RefusesObjects};
ghost use Rattle.desk_store.specs.Making.{IsOfStorage};

use crate::fault::refusal_fault;
use crate::tables::{First, begin};
use desk_model::{Clock, Policy};
use desk_store::{OpenFault, Store};
use sqlite::{Alter, Connection, FileFrom, FileStore, Leftover, Start};
use sqlite_disk::Disk;

/// Why no desk is opened or made, and what there is of the files.
///
/// The files are in one place: `refused` where the engine did not open them, `conn` where it did and they hold no desk, or
/// none could be made in them. Where neither is there, the files could not be reached at all, and the fault is `Storage`.
#[derive(Drop)]
pub struct NotOpened<A: Alter, D: Disk> {
    /// Of the disk and the engine, or of what the files hold.
    pub fault: OpenFault,
    /// The files, if the engine refused them.
    pub refused: Option<Leftover<D>>,
    /// The connection to the files, if they were opened.
    pub conn: Option<Connection<A>>,
}

// A connection to the files at a path, which are made where there are none.
fn connect<S: Start>(
    rt: &HostRuntime,
    path: &str,
    start: S,
) -> Result<Connection<FileStore<FileFrom<S>>>, NotOpened<FileStore<FileFrom<S>>, FileFrom<S>>>
    ensures fresh { IfOk result IsNew }
    ensures opened { IfOk result (λ conn. HasCleanDisk (file_state conn) → IsOpened conn) }
    ensures found { IfOk result (λ conn. HasCleanDisk (file_state conn) → FindsIn (image_at S.Start) (file_state conn)) }
    ensures unconnected { IfErr result (λ un. un.conn ≡ None) }
    ensures unreached { IfErr result (λ un. un.refused ≡ None → IsOfStorage un.fault) }
    ensures refused { IfErr result (λ un. IfSome un.refused (RefusesNoDatabase (image_at S.Start) un.fault)) }
    ensures cause { IfErr result (λ un. IfSome un.refused (RefusedBy (image_at S.Start) un.fault)) }
{
    match Connection::open_from(rt, path, false, start) {
        Ok(conn) => Ok(conn),
        Err((error, refused)) => Err(NotOpened {
            fault: refusal_fault(error),
            refused,
            conn: None,
        }),
    }
}

// Opens the desk that the files at a path hold, or makes one of these terms in them.
fn begin_from<S: Start>(
    rt: &HostRuntime,
    path: &str,
    start: S,
    first: Option<First>,
) -> Result<Store<FileStore<FileFrom<S>>>, NotOpened<FileStore<FileFrom<S>>, FileFrom<S>>>
    ensures opened { first ≡ None → IfOk result (OpensFiles (image_at S.Start)) }
    ensures shows { first ≡ None → IfOk result (OpensKnown (image_at S.Start)) }
    ensures made { IfSome first (λ it. IfOk result (MakesFiles it.policy it.at)) }
    ensures unreached { IfErr result (λ un. un.conn ≡ None → un.refused ≡ None → IsOfStorage un.fault) }
    ensures refused { IfErr result (λ un. IfSome un.refused (RefusesNoDatabase (image_at S.Start) un.fault)) }
    ensures cause { IfErr result (λ un. IfSome un.refused (RefusedBy (image_at S.Start) un.fault)) }
    ensures unopened { first ≡ None → IfErr result (λ un. IfSome un.conn (RefusesNoDesk (image_at S.Start) un.fault)) }
    ensures left { first ≡ None → IfErr result (λ un. IfSome un.conn (LeavesAnOpening (image_at S.Start))) }
    ensures spared { first ≡ None → IfErr result (λ un. IfSome un.conn (LeavesAsFound (image_at S.Start) un.fault)) }
    ensures unmade { IfSome first (λ it. IfErr result (λ un. IfSome un.conn (FailsToMake it.policy it.at (image_at S.Start) un.fault))) }
    ensures free { IfSome first (λ _. IfOk result (FoundNothing (image_at S.Start))) }
    ensures taken { IfSome first (λ _. IfErr result (λ un. IfSome un.conn (RefusesObjects (image_at S.Start) un.fault))) }
    ensures failed { first ≡ None → IfErr result (λ un. IfSome un.conn (FailedOver (image_at S.Start) un.fault)) }
    ensures making { IfSome first (λ it. IfErr result (λ un. IfSome un.conn (FailedToMakeOver it.policy it.at (image_at S.Start) un.fault))) }
{
    let conn = match connect(rt, path, start) {
        Ok(conn) => conn,
        Err(unconnected) => return Err(unconnected),
    };
    match begin(rt.alloc(), conn, first) {
        Ok(store) => Ok(store),
        Err(unopened) => Err(NotOpened {
            fault: unopened.fault,
            refused: None,
            conn: Some(unopened.conn),
        }),
    }
}

/// Opens the desk that the files at a path hold, where `S` stands for their bytes. No clause ties these to the path.
///
/// What a log holds that was not copied into the database file is read with it, so that a desk whose program was stopped is
/// opened as its last commit left it. A desk in format 1 becomes the same desk in today's format, by one transaction: a stop
/// meanwhile leaves it in one of the two. Beside that, opening writes nothing that changes the desk.
///
/// # Errors
///
/// `Storage` where the files or their store failed, `NotADesk` where the engine refuses the files as corrupt or
/// because their rows break their schema. On a connection: as `Store::open`.
pub fn open_from<S: Start>(
    rt: &HostRuntime,
    path: &str,
    start: S,
) -> Result<Store<FileStore<FileFrom<S>>>, NotOpened<FileStore<FileFrom<S>>, FileFrom<S>>>
    ensures opened { IfOk result (OpensFiles (image_at S.Start)) }
    ensures shows { IfOk result (OpensKnown (image_at S.Start)) }
    ensures unreached { IfErr result (λ un. un.conn ≡ None → un.refused ≡ None → IsOfStorage un.fault) }
    ensures refused { IfErr result (λ un. IfSome un.refused (RefusesNoDatabase (image_at S.Start) un.fault)) }
    ensures cause { IfErr result (λ un. IfSome un.refused (RefusedBy (image_at S.Start) un.fault)) }
    ensures unopened { IfErr result (λ un. IfSome un.conn (RefusesNoDesk (image_at S.Start) un.fault)) }
    ensures left { IfErr result (λ un. IfSome un.conn (LeavesAnOpening (image_at S.Start))) }
    ensures spared { IfErr result (λ un. IfSome un.conn (LeavesAsFound (image_at S.Start) un.fault)) }
    ensures failed { IfErr result (λ un. IfSome un.conn (FailedOver (image_at S.Start) un.fault)) }
{
    begin_from(rt, path, start, None)
}

/// Makes a desk with a policy at a moment in the files at a path, where `S` stands for their bytes.
///
/// The tables and the first row are written by one transaction, so there is no desk without its policy. Beside any table, index or
/// view none is made. A caller that must not write into other files either looks first whether there are any.
///
/// # Errors
///
/// `Storage` where the files or their store failed, `NotADesk` where the engine refuses the files as corrupt or
/// because their rows break their schema. On a connection: as `Store::make`.
pub fn make_from<S: Start>(
    rt: &HostRuntime,
    path: &str,
    start: S,
    policy: Policy,
    at: Clock,
) -> Result<Store<FileStore<FileFrom<S>>>, NotOpened<FileStore<FileFrom<S>>, FileFrom<S>>>
    ensures made { IfOk result (MakesFiles policy at) }
    ensures unreached { IfErr result (λ un. un.conn ≡ None → un.refused ≡ None → IsOfStorage un.fault) }
    ensures refused { IfErr result (λ un. IfSome un.refused (RefusesNoDatabase (image_at S.Start) un.fault)) }
    ensures cause { IfErr result (λ un. IfSome un.refused (RefusedBy (image_at S.Start) un.fault)) }
    ensures unmade { IfErr result (λ un. IfSome un.conn (FailsToMake policy at (image_at S.Start) un.fault)) }
    ensures free { IfOk result (FoundNothing (image_at S.Start)) }
    ensures taken { IfErr result (λ un. IfSome un.conn (RefusesObjects (image_at S.Start) un.fault)) }
    ensures failed { IfErr result (λ un. IfSome un.conn (FailedToMakeOver policy at (image_at S.Start) un.fault)) }
{
    begin_from(rt, path, start, Some(First { policy, at }))
}
