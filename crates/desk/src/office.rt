//! What an office asks of a desk.
ghost use Rattle.std.specs.Prelude.{◌≡◌, ◌<◌, ◌↔◌, IsTrue, false, Err, IfErr};
ghost use Rattle.desk.specs.declared.fault.DeskFault.TheVariants as fault;
ghost use Rattle.desk.specs.{Answers.is_closed_after, Causes.IsCaused};
ghost use Rattle.desk.specs.Office.{AnswersOffice, refusal_in};
ghost use Rattle.desk_model.specs.Limits.{last_moment};

use crate::desk::Desk;
use crate::fault::DeskFault;
use desk_model::{Ask, Body, Call, OfficeAsk, Refusal, Sequence};
use std::alloc::Global;
use store_api::Storage;

// The refusal that a body gives.
fn refusal_in(body: &Body) -> Option<Refusal>
    ensures { result ≡ refusal_in body.now }
{
    match body {
        Body::Problem(problem) => Some(problem.refusal),
        _ => None,
    }
}

impl<K: Storage + Drop> Desk<K> {
    /// Answers what an office asks at a moment, in seconds since 1970, with no random bytes, and gives the refusal, if it is
    /// refused (RFC 8555, 6.7).
    ///
    /// # Errors
    ///
    /// Those of `answer` to that call.
    pub fn answer_office(
        &mut self,
        alloc: Global,
        at: u64,
        ask: OfficeAsk,
    ) -> Result<Option<Refusal>, DeskFault>
        ensures closed { IsTrue self.old.is_closed → (result ≡ Err fault.Reopen) × (self.new ≡ self.old) }
        ensures late { self.old.is_closed ≡ false → (result ≡ Err fault.Moment) ↔ (last_moment < at) }
        ensures unmade { last_moment < at → self.new ≡ self.old }
        ensures caused { self.old.is_closed ≡ false
            → IfErr result (IsCaused K.Kept.sight K.Storage.causes self.old.store self.new.store) }
        ensures exit { self.old.is_closed ≡ false → AnswersOffice K.Kept.sight at ask self.old.store self.new.store result }
        ensures flag { self.old.is_closed ≡ false → self.new.is_closed ≡ is_closed_after result }
        ensures policy { self.new.policy ≡ self.old.policy }
    {
        let call = Call {
            at,
            random: Sequence::new(Vec::new(alloc)),
            ask: Ask::Office(ask),
        };
        let answered = self.answer(alloc, &call);
        drop(call);
        match answered {
            Ok(reply) => Ok(refusal_in(&reply.body)),
            Err(fault) => Err(fault),
        }
    }
}
