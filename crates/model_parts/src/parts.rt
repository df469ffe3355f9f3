//! The rows that a call touches, and that they are enough for it.
ghost use Rattle.model_parts.specs.PartsLaws.{TouchedRowsAreEnough};

/// A part of the tables that holds the rows which a call touches answers it as the whole does.
pub fn touched_rows_are_enough()
    ensures { TouchedRowsAreEnough }
{}
