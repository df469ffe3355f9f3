//! What is left of the files of a desk.
ghost use Rattle.std.specs.Prelude.{◌↔◌, IsTrue};
ghost use Rattle.app_files.specs.Endings.{IsUnreached};

use desk_files::NotOpened;
use sqlite::{FileStore, Files};
use sqlite_disk::Disk;

/// What is left of the two files of a desk, for a caller to give up. It is handed back, so that what is promised of the end is
/// promised of these files and not of any.
pub enum Left<D: Disk> {
    /// The files, closed.
    Closed(Files<D>),
    /// What the engine keeps of files that it could not close.
    Unclosed(FileStore<D>),
    /// Files in which no desk was opened or made.
    Unopened(NotOpened<FileStore<D>, D>),
    /// Nothing: no file was opened.
    Untouched,
}

impl<D: Disk> Left<D> {
    /// Whether no file was reached: none was opened, or the engine could open none.
    pub fn is_unreached(&self) -> bool
        ensures { IsTrue result ↔ IsUnreached self.now }
    {
        match self {
            Left::Closed(_) => false,
            Left::Unclosed(_) => false,
            Left::Unopened(files) => files.conn.is_none() && files.refused.is_none(),
            Left::Untouched => true,
        }
    }
}

// It is written out, so that a caller does not prove again how each part is dropped.
impl<D: Disk + Drop> Drop for Left<D> {
    fn drop(self) {
        match self {
            Left::Closed(_files) => {}
            Left::Unclosed(_store) => {}
            Left::Unopened(_not_opened) => {}
            Left::Untouched => {}
        }
    }
}
