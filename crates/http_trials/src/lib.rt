//! Trials of requests over HTTP: streams that fail, what is asked of a desk, the first calls in one run. Nothing stands on it.
#![tactic(auto)]

#[cfg(test)]
mod asking;
#[cfg(test)]
mod failing_streams;
#[cfg(test)]
mod nonces;
#[cfg(test)]
mod tests;
#[cfg(test)]
mod trial;
#[cfg(test)]
mod worked_run;
