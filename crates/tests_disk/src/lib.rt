//! Tests of what brings bytes in and out: sources and sinks, volumes, those over files for which files in memory stand in, the
//! bytes of log entries, and what is kept of them.
#![tactic(auto)]

#[cfg(test)]
mod crashes;
#[cfg(test)]
mod file_volumes;
#[cfg(test)]
mod folder_volumes;
#[cfg(test)]
mod kept_entries;
#[cfg(test)]
mod log_entries;
#[cfg(test)]
mod memory_files;
#[cfg(test)]
mod outside;
#[cfg(test)]
mod uses;
#[cfg(test)]
mod volumes;
