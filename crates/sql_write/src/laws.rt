//! Which changes may be saved, and what a stop leaves.
ghost use Rattle.sql_write.specs.{Committing.LeftTablesAreFound, Fitting.OrderedChangesFit};

/// Changes that keep children may be saved where the tables with all of them stand by number.
#[tactic(auto, using(crate::proofs::OrderedFit::ordered_fit))]
pub fn ordered_changes_fit()
    ensures { OrderedChangesFit }
{}

/// The tables that a stop left are those that the next opening finds.
#[tactic(auto, using(sql_tables::proofs::Holding::holds_again))]
pub fn left_tables_are_found()
    ensures { LeftTablesAreFound }
{}
