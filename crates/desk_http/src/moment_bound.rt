//! Which readings of the machine's clock are taken for true.
ghost use Rattle.std.specs.Prelude.{◌≡◌};
ghost use Rattle.desk_http.specs.MomentBounds.{admits, followed, is_near, moment_for};

use desk_model::LAST_MOMENT;

// A moment at which a desk refuses each call, by fault 24.
const PAST_THE_LAST: u64 = LAST_MOMENT + 1;

/// How far the machine's moment may be above the latest that is known, in seconds since 1970-01-01T00:00:00Z.
#[derive(Clone, Copy)]
pub struct MomentBound {
    // The most seconds above it, or `None` where any moment will do.
    pub(crate) step: Option<u64>,
    // The latest that is known: the clock of the desk, or the moment of a call; 0 where none is.
    pub(crate) latest: u64,
}

impl MomentBound {
    /// The bound of a desk whose clock stands so, by the most seconds of a step, `None` for any number.
    pub fn new(step: Option<u64>, clock: u64) -> MomentBound
        ensures step { result.step ≡ step }
        ensures latest { result.latest ≡ clock }
    {
        MomentBound {
            step,
            latest: clock,
        }
    }

    /// The moment at which a call is made that came at this one of the machine: at the same, which is known from then on; or,
    /// where that is refused, at one past the last, at which a desk changes nothing and tells fault 24.
    pub fn moment_for(&mut self, at: u64) -> u64
        ensures moment { result ≡ moment_for self.old at }
        ensures followed { self.new ≡ followed self.old at }
    {
        if !admits(self.latest, self.step, at) {
            return PAST_THE_LAST;
        }
        self.latest = self.latest.max(at);
        at
    }
}

/// Whether a call may be made at a moment, by the latest that is known and the most seconds above it. Where none is known the
/// desk holds nothing that could end, and any will do.
pub fn admits(latest: u64, step: Option<u64>, at: u64) -> bool
    ensures { result ≡ admits latest step at }
{
    match step {
        Some(step) => at <= LAST_MOMENT && is_near(latest, step, at),
        None => true,
    }
}

// Whether a moment is no more than so many seconds above the latest that is known, or none is.
fn is_near(latest: u64, step: u64, at: u64) -> bool
    ensures { result ≡ is_near latest step at }
{
    latest == 0 || at <= latest.saturating_add(step)
}
