//! What is said of words that may ask a desk which is served, where they have too much.
use crate::arguments;
use crate::command::Place;
use crate::subcommand::Subcommand;

/// What is said of such words.
#[derive(Clone, Copy)]
pub(crate) struct Served {
    /// The argument that stands beside a place only where a file does.
    pub(crate) beside: &'static str,
    file_beside_port: &'static str,
    file_beside_socket: &'static str,
    /// What is said where they have two places.
    pub(crate) two_places: &'static str,
}

// What is said of a word: what it lacks beside a place, what it then has in the place of a file, and what its port is called.
macro_rules! served {
    ($beside:ident, $file:literal, $instead:literal, $port:literal) => {
        Served {
            beside: arguments::$beside,
            file_beside_port: concat!(
                "with --port the desk that is served there is asked, and no FILE ", $file, ": desk WORD", $instead, " --port ", $port
            ),
            file_beside_socket: concat!(
                "with --socket the desk that is served there is asked, and no FILE ", $file, ": desk WORD", $instead, " --socket PATH"
            ),
            two_places: concat!(
                "one desk is asked, by --port or by --socket: desk WORD", $instead, " --port ", $port, ", or desk WORD", $instead, " --socket PATH"
            ),
        }
    };
}

const REPORT: Served = served!(FILE, "is given", "", "N");

const BACKUP: Served = served!(TO, "stands before TO", " TO", "N");

const REVOCATION: Served = served!(NUMBER, "stands before N", " N", "P");

impl Served {
    /// What is said of the words of a subcommand, where they may ask a desk that is served.
    pub(crate) fn of(subcommand: Subcommand) -> Option<Served> {
        match subcommand {
            Subcommand::Make | Subcommand::Serve | Subcommand::Batch | Subcommand::Restore => None,
            Subcommand::About
            | Subcommand::Page
            | Subcommand::Status
            | Subcommand::Accounts
            | Subcommand::Authorizations
            | Subcommand::Check => Some(REPORT),
            Subcommand::BackUp => Some(BACKUP),
            Subcommand::RevokeAuthorization | Subcommand::RevokeAccount => Some(REVOCATION),
        }
    }

    /// What is said where a file stands beside a place.
    pub(crate) fn file_beside(self, place: Place<'_>) -> &'static str {
        match place {
            Place::Port(_) => self.file_beside_port,
            Place::Socket(_) => self.file_beside_socket,
        }
    }
}
