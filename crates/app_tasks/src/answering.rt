//! Lines and connections, answered by a desk.
ghost use Rattle.app_tasks.specs.Deeds.{AnswersReader, Serves, ServesByMoment, ServesClients, ServesUnlessAhead};

use crate::ahead::{is_too_far, lacks_moment, tell_ahead};
use crate::desks::{adopt, clock_of};
use crate::fault::Fault;
use crate::listening::{take, tell_listening};
use crate::overseeing::{FileOverseer, Files};
use crate::showing::Reports;
use crate::tasks::Task;
use crate::totals::Counted;
use app_batch::batch;
use app_reports::seconds_ahead;
use app_words::Serving;
use desk::Desk;
use desk_http::{Listener, MomentBound, Routes, ServeFault, Watch, serve_connections};
use std::alloc::Global;
use std::io::{Read, Write};
use store_api::{RowsAbove, Storage};

/// Answers the lines of a reader.
#[derive(Drop)]
pub struct AnswerLines<'r, 'e, R: Read, E: Write> {
    /// What allocates.
    pub alloc: Global,
    /// The lines.
    pub reader: &'r mut R,
    /// Where it says why lines are not answered.
    pub errors: &'e mut E,
}

impl<'r, 'e, R: Read, E: Write> Task for AnswerLines<'r, 'e, R, E> {
    type Fault = Fault;

    ghost does = { λ task. AnswersReader (R.remaining task.reader.now) };

    fn run<K: Storage + RowsAbove + Drop, W: Write>(
        &mut self,
        store: K,
        out: &mut W,
    ) -> (K, Result<u8, Fault>) {
        let mut desk = match adopt(self.alloc, store) {
            Ok(desk) => desk,
            Err((store, fault)) => return (store, Err(fault)),
        };
        let status = batch(self.alloc, &mut *self.reader, out, self.errors, &mut desk);
        (desk.into_store(), Ok(status))
    }
}

/// Serves connections at a port, at a socket, or at both.
#[derive(Drop)]
pub struct ServeConnections<'a, E: Write> {
    /// The machine.
    pub rt: &'a HostRuntime,
    /// The path of the desk's file.
    pub path: &'a str,
    /// Where, how many, how they are noted, and whether the cause is said where one fails.
    pub serving: Serving<'a>,
    /// The machine's moment, in seconds since 1970-01-01T00:00:00Z, or `None` where its clock tells none.
    pub now: Option<u64>,
    /// Where it says that the desk's clock is ahead, and that a connection failed.
    pub errors: &'a mut E,
}

impl<'a, E: Write> ServeConnections<'a, E> {
    // Serves a desk whose clock stands so, unless the machine's tells no moment, and how far it is ahead of that is limited; gives the
    // exit status.
    fn start<K: Storage + RowsAbove + Drop, W: Write>(
        &mut self,
        desk: &mut Desk<K>,
        clock: u64,
        out: &mut W,
    ) -> Result<u8, Fault>
        ensures { ServesByMoment K.Kept.sight K.Storage.causes self.old.serving self.old.now clock desk.old desk.new result }
    {
        if lacks_moment(self.now, self.serving.max_ahead) {
            return Err(Fault::Serve(ServeFault::Clock));
        }
        self.start_unless_ahead(desk, clock, out)
    }

    // Serves a desk whose clock stands so, unless that is too far ahead of the machine's; gives the exit status.
    fn start_unless_ahead<K: Storage + RowsAbove + Drop, W: Write>(
        &mut self,
        desk: &mut Desk<K>,
        clock: u64,
        out: &mut W,
    ) -> Result<u8, Fault>
        ensures { ServesUnlessAhead K.Kept.sight K.Storage.causes self.old.serving self.old.now clock desk.old desk.new result }
    {
        let lead = seconds_ahead(clock, self.now);
        tell_ahead(self.errors, lead);
        if is_too_far(lead, self.serving.max_ahead) {
            return Err(Fault::Ahead);
        }
        self.serve(desk, clock, out)
    }

    // Takes where connections are to be taken, says so, and serves a desk whose clock stands so; gives the exit status.
    fn serve<K: Storage + RowsAbove + Drop, W: Write>(
        &mut self,
        desk: &mut Desk<K>,
        clock: u64,
        out: &mut W,
    ) -> Result<u8, Fault>
        ensures { Serves K.Kept.sight K.Storage.causes self.old.serving clock desk.old desk.new result }
    {
        let Ok(files) = Files::at(self.rt, self.path) else {
            return Err(Fault::Serve(ServeFault::Replaced));
        };
        let (mut listener, address) = take(self.rt, self.serving.listening)?;
        if tell_listening(out, self.serving.listening, address).is_err() {
            return Err(Fault::Output);
        }
        let counted = Counted::new();
        let overseer = FileOverseer {
            rt: self.rt,
            files,
            routes: Routes::new(),
            counted: &counted,
            log: self.serving.log,
            out,
        };
        self.serve_overseen(desk, clock, &mut listener, overseer)
    }

    // Serves a desk whose clock stands so to the connections that come, which are overseen so; gives the exit status.
    fn serve_overseen<K: Storage + RowsAbove + Drop, W: Write>(
        &mut self,
        desk: &mut Desk<K>,
        clock: u64,
        listener: &mut Listener,
        overseer: FileOverseer<'_, W>,
    ) -> Result<u8, Fault>
        ensures { Serves K.Kept.sight K.Storage.causes self.old.serving clock desk.old desk.new result }
    {
        let reports = Reports {
            rt: self.rt,
            path: self.path,
            counted: overseer.counted,
        };
        let mut watch = Watch {
            overseer,
            bound: MomentBound::new(self.serving.max_step, clock),
        };
        serve_connections(
            self.rt.alloc(),
            self.rt,
            listener,
            &reports,
            desk,
            self.serving.count,
            &mut watch,
            self.errors,
            self.serving.is_verbose,
        )?;
        Ok(0)
    }
}

impl<'a, E: Write> Task for ServeConnections<'a, E> {
    type Fault = Fault;

    ghost does = { λ task. ServesClients task.serving task.now };

    fn run<K: Storage + RowsAbove + Drop, W: Write>(
        &mut self,
        store: K,
        out: &mut W,
    ) -> (K, Result<u8, Fault>) {
        let mut store = store;
        let clock = match clock_of(self.rt.alloc(), &mut store) {
            Ok(clock) => clock,
            Err(fault) => return (store, Err(fault)),
        };
        let mut desk = match adopt(self.rt.alloc(), store) {
            Ok(desk) => desk,
            Err((store, fault)) => return (store, Err(fault)),
        };
        let outcome = self.start(&mut desk, clock, out);
        (desk.into_store(), outcome)
    }
}
