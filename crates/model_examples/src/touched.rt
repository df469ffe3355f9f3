//! The rows that a call touches.
ghost use Rattle.model_examples.specs.TouchedRows.{RowsAreTouched};

/// Which rows a call touches: what it names, what falls by the passing of time, and what hangs on these.
pub fn rows_are_touched()
    ensures { RowsAreTouched }
{}
