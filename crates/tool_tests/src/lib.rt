//! What only calls of the program over files in memory show: each call of a file failing in turn, in what order files are locked, read
//! and written, and the reasons of faults that no file here gives. They are apart from `fw_tools`, so that it is proved once. What the
//! program prints is in scripts/differential.
#![tactic(auto)]

#[cfg(test)]
mod disk;
#[cfg(test)]
mod file_calls;
#[cfg(test)]
mod locks;
#[cfg(test)]
mod opened;
#[cfg(test)]
mod reasons;
