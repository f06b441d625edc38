//! That calls of `devices` and `device_files` succeed, which no contract says. They are apart from these crates, so that
//! these are proved once.
#![tactic(auto)]

#[cfg(test)]
mod in_files;
#[cfg(test)]
mod in_memory;
