//! The life of a desk over two files, which may hold it in format 1 until it is opened.
ghost use Rattle.desk.specs.Seen.{EndedSeenStays, NoncesSeenOnce, RepliesAreKept, SeenIsLived, SeenIsOfCalls};
ghost use Rattle.desk_files.specs.LeftFiles.{file_sight};
ghost use Rattle.app_lives.specs.SeenFiles.{FailuresAreSeen, FilesAreSeen};

use sqlite_disk::Disk;

/// What is seen of a desk over two files, with the bytes that stops leave and openings find, is seen of a store whose
/// stops leave tables; so it is a life, and what is promised of lives holds of it. It may begin in bytes that hold the desk in
/// format 1, and an opening that brings it into today's format may be cut off like any other.
pub fn files_live<D: Disk>()
    ensures seen { FilesAreSeen D.Disk }
    ensures failed { FailuresAreSeen D.Disk }
    ensures lived { SeenIsLived (file_sight D.Disk) }
    ensures of_calls { SeenIsOfCalls (file_sight D.Disk) }
    ensures kept { RepliesAreKept (file_sight D.Disk) }
    ensures nonces { NoncesSeenOnce (file_sight D.Disk) }
    ensures ended { EndedSeenStays (file_sight D.Disk) }
{}
