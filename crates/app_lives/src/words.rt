//! What the words of the program leave of a desk's files.
ghost use Rattle.app_lives.specs.{Again.WordsGoOn, Left.WordsLeave};

use sqlite_disk::Disk;

/// Whatever word is done with the desk of two files, and however it ends: files that held the desk of a legal history, in either
/// format, hold it as it was behind the reports. Behind the other words they hold the desk of a life from that history on, in
/// which just the calls that were replied to have these replies, and one call more at most was cut off by a fault. So it is of the files
/// that are closed, and of those that a stop leaves; and what holds over every life (`lives_hold` of model_lives) holds of them. The
/// calls of `batch` are those that its reader's lines spell, in turn, all but the last at most; a revocation has that of its target, or none.
///
/// Words that are done one after the other, each over the files that the one before left, go on with one life, to which the reports add
/// nothing; so do files whose opening failed, the copy of a backup, and the copy that is restored; and so do, until then, the files whose
/// place that takes. A desk that is made begins one.
pub fn words_live<D: Disk>()
    ensures left { WordsLeave D.Disk }
    ensures again { WordsGoOn D.Disk }
{}
