//! The laws that tie the tables of a desk to its history. The crates of the families core, store, sql and desk stand on it.
#![tactic(auto)]

ghost use Rattle.model_laws.specs.{ChangeLaws.ChangesMakePictures, LegalLaws.LegalHistoriesKeep, PartLaws.PartsAreEnough};
ghost use Rattle.model_laws.specs.TableLaws.{RowsSayWhatMayFollow, TablesFollowFacts, TablesHaveNoFaults};

/// The tables of a history change as `swept` says by the passing of time, and as `effect` says by each entry.
pub fn tables_follow_facts()
    ensures { TablesFollowFacts }
{}

/// At each moment the tables of a legal history have no status fault.
pub fn pictures_have_no_faults()
    ensures { TablesHaveNoFaults }
{}

/// Which entry may follow a history can be told from its tables.
pub fn rows_say_what_may_follow()
    ensures { RowsSayWhatMayFollow }
{}

/// What is recorded, as changes of rows, makes the picture of the longer history, puts no row that stands already, keeps the
/// children of each row that it replaces, and brings with each new row children that stand nowhere yet.
pub fn changes_make_pictures()
    ensures { ChangesMakePictures }
{}

/// A part of the tables answers, moves and records as the whole, where it has what is looked for.
pub fn parts_are_enough()
    ensures { PartsAreEnough }
{}

/// What holds of every legal history, whatever was recorded.
pub fn legal_histories_keep()
    ensures { LegalHistoriesKeep }
{}
