//! What passes rest on, and what they give together.
ghost use Rattle.std.specs.Prelude.{◌≡◌, [], ◌∷◌};
ghost use Rattle.store_passes.specs.Laws.{BooksAreInOrder, KindsMakeAllFaults};

use crate::fault_kind::FaultKind;

/// The tables of each book are in the order that passes ask for, whatever statuses they store.
#[tactic(auto, using(crate::proofs::Alls::books_in_order))]
pub fn books_are_in_order()
    ensures { BooksAreInOrder }
{}

/// The status faults of accounts, orders, authorizations and challenges, one kind after the other, are all that there are.
pub fn kinds_make_all_faults()
    ensures kinds { FaultKind.ALL ≡ FaultKind.Account ∷ FaultKind.Order ∷ FaultKind.Authorization ∷ FaultKind.Challenge ∷ [] }
    ensures all { KindsMakeAllFaults }
{}
