//! The law of stores over time.
ghost use Rattle.desk.specs.SeenRuns.{RunsAreSeen};
ghost use Rattle.desk.specs.Seen.{EndedSeenStays, NoncesSeenOnce, RepliesAreKept, SeenIsLived, SeenIsOfCalls};

use store_api::Storage;

/// What is seen of a desk over any store is a life, and a run of calls is so seen.
#[tactic(auto, using(crate::proofs::Living::ended_seen_stays, crate::proofs::Living::nonces_seen_once, crate::proofs::Living::replies_are_kept, crate::proofs::Seeing::runs_are_seen, crate::proofs::Living::seen_is_lived, crate::proofs::Living::seen_is_of_calls))]
pub fn stores_live<K: Storage>()
    ensures lived { SeenIsLived K.Kept.sight }
    ensures of_calls { SeenIsOfCalls K.Kept.sight }
    ensures kept { RepliesAreKept K.Kept.sight }
    ensures nonces { NoncesSeenOnce K.Kept.sight }
    ensures ended { EndedSeenStays K.Kept.sight }
    ensures runs { RunsAreSeen K.Kept.sight }
{}
