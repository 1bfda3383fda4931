//! Tests of images and of recovery over volumes in memory, whose files are written out by hand, of what a volume is told as, and of the generated script.
#![tactic(auto)]

#[cfg(test)]
mod changed_images;
#[cfg(test)]
mod cut_logs;
#[cfg(test)]
mod dumps;
#[cfg(test)]
mod entry_tables;
#[cfg(test)]
mod files;
#[cfg(test)]
mod first_run;
#[cfg(test)]
mod flips;
#[cfg(test)]
mod gates;
#[cfg(test)]
mod generated;
#[cfg(test)]
mod limits;
#[cfg(test)]
mod next_entries;
#[cfg(test)]
mod outcomes;
#[cfg(test)]
mod stopped_runs;
#[cfg(test)]
mod stops;
