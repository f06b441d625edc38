//! What only a call of the libraries up to the session shows: checksums and images without a file, how many names a session changed,
//! and the value that a write hands out. They are apart from those crates, so that each of them is proved once.
#![tactic(auto)]

#[cfg(test)]
mod images;
#[cfg(test)]
mod session_requests;
