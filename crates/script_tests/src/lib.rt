//! What only a call of the libraries of dry runs shows: a list of requests, which no tool asks for at once, what a session counts of runs
//! and imports, and what it hands out if a stream fails. It is apart from these libraries, so that they are proved once.
#![tactic(auto)]

#[cfg(test)]
mod counted_changes;
#[cfg(test)]
mod request_lists;
#[cfg(test)]
mod session_ends;
