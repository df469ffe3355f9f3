//! The rules on orders (RFC 8555, 7.4).
ghost use Rattle.std.specs.Prelude.{◌≡◌, IfOk, MatchResult};
ghost use Rattle.desk_model.specs.{Order.is_ready, Rules.csr_in, declared.verdict.Verdict.TheVariants.Moves as moves};
ghost use Rattle.desk_model.specs.Verdict.{check, given};
ghost use Rattle.desk_model.specs.declared.entry.Move.TheVariants as move;
ghost use Rattle.core_rules.specs.declared.fault.CoreFault.TheVariants.{Memory};

use crate::fault::CoreFault;
use crate::judging::refused;
use desk_model::{LONGEST_CSR, Move, OrderStatus, Refusal, Sequence, Verdict};
use keys::from_base64url;
use std::alloc::{AllocError, Global};

// The CSR that a text spells, `None` where it spells none, or one that is empty or too long.
fn csr_in(alloc: Global, text: &str) -> Result<Option<Sequence<u8>>, AllocError>
    ensures { IfOk result (λ o. o ≡ csr_in text.now) }
{
    let Some(csr) = from_base64url(alloc, text)? else {
        return Ok(None);
    };
    if csr.is_empty() || csr.len() > LONGEST_CSR {
        return Ok(None);
    }
    Ok(Some(Sequence::new(csr)))
}

/// A CSR for an order of this status (RFC 8555, 7.4).
#[tactic(auto, unfolding(desk_model::specs::Verdict::check, desk_model::specs::Verdict::given))]
pub(crate) fn finalize_verdict(
    alloc: Global,
    number: u64,
    status: OrderStatus,
    text: &str,
) -> Result<Verdict, CoreFault>
    ensures { MatchResult result
        (λ v. v ≡ check (is_ready status) Refusal.OrderNotReady (given (csr_in text.now) Refusal.BadCsr (λ csr. moves (move.Finalized number csr))))
        (λ e. e ≡ Memory) }
{
    if !status.is_ready() {
        return Ok(refused(alloc, Refusal::OrderNotReady));
    }
    match csr_in(alloc, text)? {
        Some(csr) => Ok(Verdict::Moves(Move::Finalized(number, csr))),
        None => Ok(refused(alloc, Refusal::BadCsr)),
    }
}
