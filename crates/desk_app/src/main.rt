//! The program `desk`: it gives the words of its command line to `app_commands`, and ends by the exit status. Nothing stands on it.
#![tactic(auto)]

use app_commands::{run_words, tell_no_memory, tell_not_text};
use std::io::{self, ErrorKind, IsTerminal};
use std::process::ExitCode;

fn main(rt: HostRuntime) -> ExitCode {
    let status = match words_given(&rt) {
        Ok(words) => run_words(
            &rt,
            words.as_slice(),
            rt.stderr().is_terminal(),
            rt.reader(),
            &mut io::writer(&rt),
            &mut rt.stderr(),
        ),
        Err(error) if error.kind() == ErrorKind::InvalidData => tell_not_text(&mut rt.stderr()),
        Err(_) => tell_no_memory(&mut rt.stderr()),
    };
    ExitCode::from(status)
}

// The words of the command line, the program's name first.
fn words_given(rt: &HostRuntime) -> io::Result<Vec<String>> {
    Ok(std::env::args(rt)?.collect(rt.alloc())?)
}
