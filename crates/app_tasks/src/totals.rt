//! How many connections a desk that is served had, how its calls ended and how long they took.
ghost use Rattle.std.specs.Prelude.{◌≡◌, ◌<◌};
ghost use Rattle.app_tasks.specs.Totals.{calls_of, class_of, counted, faults_of, is_fault, no_totals, place, with_call, with_connection, with_fault};

use desk_http::Entry;
use http_routes::Route;
use std::cell::Cell;

/// The routes of which calls are counted; `None` is that of whatever leads nowhere.
pub(crate) const COUNTED: [Option<Route>; ROUTES] = [
    Some(Route::Directory),
    Some(Route::NewNonce),
    Some(Route::NewAccount),
    Some(Route::KeyChange),
    Some(Route::NewOrder),
    Some(Route::Account),
    Some(Route::Orders),
    Some(Route::Order),
    Some(Route::Finalize),
    Some(Route::Cert),
    Some(Route::Authz),
    Some(Route::Chall),
    Some(Route::Key),
    Some(Route::ChallengeWork),
    Some(Route::OrderWork),
    Some(Route::Report),
    Some(Route::Certify),
    Some(Route::FailOrder),
    Some(Route::RevokeAuthz),
    Some(Route::RevokeAccount),
    Some(Route::Page),
    Some(Route::Look),
    Some(Route::Metrics),
    Some(Route::Backup),
    None,
];

const ROUTES: usize = 25;

// The place of a route among those of which calls are counted.
fn place(route: Option<Route>) -> usize
    ensures place { result ≡ place route }
    ensures below { result < 25 }
{
    match route {
        Some(Route::Directory) => 0,
        Some(Route::NewNonce) => 1,
        Some(Route::NewAccount) => 2,
        Some(Route::KeyChange) => 3,
        Some(Route::NewOrder) => 4,
        Some(Route::Account) => 5,
        Some(Route::Orders) => 6,
        Some(Route::Order) => 7,
        Some(Route::Finalize) => 8,
        Some(Route::Cert) => 9,
        Some(Route::Authz) => 10,
        Some(Route::Chall) => 11,
        Some(Route::Key) => 12,
        Some(Route::ChallengeWork) => 13,
        Some(Route::OrderWork) => 14,
        Some(Route::Report) => 15,
        Some(Route::Certify) => 16,
        Some(Route::FailOrder) => 17,
        Some(Route::RevokeAuthz) => 18,
        Some(Route::RevokeAccount) => 19,
        Some(Route::Page) => 20,
        Some(Route::Look) => 21,
        Some(Route::Metrics) => 22,
        Some(Route::Backup) => 23,
        None => 24,
    }
}

/// What was sent to a client.
#[derive(Clone, Copy)]
pub(crate) enum Sent {
    /// A reply that did what was asked, of a status below 400.
    Reply,
    /// A refusal of what the client asked, of a status from 400 on.
    Refusal,
    /// That the desk could not act, of a status from 500 on.
    Inability,
    /// Nothing.
    Nothing,
}

impl Sent {
    /// What was sent with a status, or without one.
    pub(crate) fn of(status: Option<u16>) -> Sent
        ensures { result ≡ class_of status }
    {
        match status {
            Some(status) if status < 400 => Sent::Reply,
            Some(status) if status < 500 => Sent::Refusal,
            Some(_) => Sent::Inability,
            None => Sent::Nothing,
        }
    }
}

/// How many calls of a route ended each way, and how many microseconds they took together.
#[derive(Clone, Copy)]
pub(crate) struct CallCounts {
    /// Those that did what was asked.
    pub(crate) replies: u64,
    /// Those that were refused.
    pub(crate) refusals: u64,
    /// Those in which the desk could not act.
    pub(crate) inabilities: u64,
    /// Those whose client was sent nothing.
    pub(crate) unsent: u64,
    /// The microseconds.
    pub(crate) micros: u64,
}

impl CallCounts {
    // Counts one more call.
    fn count(&mut self, sent: Sent, micros: u64)
        ensures { self.new ≡ counted sent micros self.old }
    {
        match sent {
            Sent::Reply => self.replies = self.replies.saturating_add(1),
            Sent::Refusal => self.refusals = self.refusals.saturating_add(1),
            Sent::Inability => self.inabilities = self.inabilities.saturating_add(1),
            Sent::Nothing => self.unsent = self.unsent.saturating_add(1),
        }
        self.micros = self.micros.saturating_add(micros);
    }
}

// The least number of a fault, and how many there are.
const FIRST_FAULT: u8 = 20;

const FAULTS: usize = 8;

/// The numbers of faults.
pub(crate) const FAULT_NUMBERS: [u8; FAULTS] = [20, 21, 22, 23, 24, 25, 26, 27];

// Whether a number is that of a fault.
fn is_fault(number: u8) -> bool
    ensures { result ≡ is_fault number }
{
    number >= FIRST_FAULT && number < FIRST_FAULT + FAULTS as u8
}

/// What is counted of a desk that is served. Each number stops at the greatest one.
#[derive(Clone, Copy)]
pub(crate) struct Totals {
    /// The connections.
    pub(crate) connections: u64,
    /// The microseconds of the longest call since this was last looked at.
    pub(crate) slowest: u64,
    /// The calls, by the places of their routes.
    pub(crate) calls: [CallCounts; ROUTES],
    /// The faults, by their numbers from 20 on.
    pub(crate) faults: [u64; FAULTS],
}

impl Totals {
    /// Those of a desk that was not served yet.
    pub(crate) fn new() -> Totals
        ensures { result ≡ no_totals }
    {
        Totals {
            connections: 0,
            slowest: 0,
            calls: [NO_CALLS; ROUTES],
            faults: [0; FAULTS],
        }
    }

    /// The calls of a route.
    pub(crate) fn calls_of(&self, route: Option<Route>) -> CallCounts
        ensures { result ≡ calls_of self.now route }
    {
        self.calls[place(route)]
    }

    /// Counts one more connection.
    pub(crate) fn note_connection(&mut self)
        ensures { self.new ≡ with_connection self.old }
    {
        self.connections = self.connections.saturating_add(1);
    }

    /// Counts one more call of a route, which took so many microseconds.
    pub(crate) fn note_call(&mut self, route: Option<Route>, sent: Sent, micros: u64)
        ensures { self.new ≡ with_call route sent micros self.old }
    {
        let at = place(route);
        self.calls[at].count(sent, micros);
        self.slowest = self.slowest.max(micros);
    }

    /// How many faults there were of a number.
    pub(crate) fn faults_of(&self, number: u8) -> u64
        ensures { result ≡ faults_of self.now number }
    {
        if is_fault(number) {
            self.faults[(number - FIRST_FAULT) as usize]
        } else {
            0
        }
    }

    /// Counts one more of the fault of a number; nothing where it is the number of a refusal.
    pub(crate) fn note_fault(&mut self, number: u8)
        ensures { self.new ≡ with_fault number self.old }
    {
        if is_fault(number) {
            let place = (number - FIRST_FAULT) as usize;
            self.faults[place] = self.faults[place].saturating_add(1);
        }
    }
}

const NO_CALLS: CallCounts = CallCounts {
    replies: 0,
    refusals: 0,
    inabilities: 0,
    unsent: 0,
    micros: 0,
};

/// What is counted, where who serves the desk notes it and who shows it reads it. No clause says what it holds.
#[derive(Drop)]
pub(crate) struct Counted {
    totals: Cell<Totals>,
}

impl Counted {
    /// Of a desk that was not served yet.
    pub(crate) fn new() -> Counted {
        Counted {
            totals: Cell::new(Totals::new()),
        }
    }

    /// Notes a connection that was served, and the call of a route that was made by it, if one was.
    pub(crate) fn note(&self, route: Option<Route>, entry: Entry<'_>) {
        let mut totals = self.totals.get();
        totals.note_connection();
        if let Some(micros) = entry.micros {
            totals.note_call(route, Sent::of(entry.status), micros);
        }
        if let Some(number) = entry.number {
            totals.note_fault(number);
        }
        self.totals.set(totals);
    }

    /// What was counted. The slowest call from here on is another one.
    pub(crate) fn read(&self) -> Totals {
        let read = self.totals.get();
        let mut rest = read;
        rest.slowest = 0;
        self.totals.set(rest);
        read
    }
}
