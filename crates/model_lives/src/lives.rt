//! The laws of all lives of a desk.
ghost use Rattle.desk_model.specs.Life.{HistoriesAreLegal, HistoriesAreOfCalls, AcknowledgedStays, RepliesAreDecided, NoncesServeOnce, EndedStays};
ghost use Rattle.model_lives.specs.CallLaws.{CallsKeepLegal};

/// What a call records may follow what was recorded before it, and keeps the history legal.
pub fn calls_keep_legal()
    ensures { CallsKeepLegal }
{}

/// What holds over every life of a desk.
pub fn lives_hold()
    ensures legal { HistoriesAreLegal }
    ensures of_calls { HistoriesAreOfCalls }
    ensures acknowledged { AcknowledgedStays }
    ensures replies { RepliesAreDecided }
    ensures nonces { NoncesServeOnce }
    ensures ended { EndedStays }
{}
