//! What a stop left of a desk's files is what the next opening finds, in format 1 or in today's.
ghost use Rattle.desk_files.specs.Openings.{EmptyFilesAreOpened, FirstFilesAreOpened, FoundFilesAreOpened};
ghost use Rattle.desk_files.specs.Openings.{KeptFilesAreFound, LeftFilesAreFound, UpgradedFilesAreFound};

use sqlite_disk::Disk;

/// Whatever a stop leaves of the two files of a desk holds one of the databases that the store may leave; where it cuts off an
/// opening, the desk that the files held, in one of the formats. A connection that is newly opened on files with a desk's
/// tables has that desk, in their format; on an empty file it has no object.
#[tactic(auto, using(crate::proofs::Finding::empty_files_are_opened, crate::proofs::Finding::first_files_are_opened, crate::proofs::Finding::found_files_are_opened, crate::proofs::Finding::kept_files_are_found, crate::proofs::Finding::left_files_are_found, crate::proofs::Finding::upgraded_files_are_found))]
pub fn left_files_are_opened<D: Disk>()
    ensures found { LeftFilesAreFound D.Disk }
    ensures kept { KeptFilesAreFound D.Disk }
    ensures upgraded { UpgradedFilesAreFound D.Disk }
    ensures opened { FoundFilesAreOpened D.Disk }
    ensures first { FirstFilesAreOpened D.Disk }
    ensures empty { EmptyFilesAreOpened D.Disk }
{}
