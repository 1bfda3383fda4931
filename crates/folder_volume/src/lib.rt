//! A volume whose four files lie in a folder: that of the system, and one in memory for tests.
#![tactic(auto)]

mod disk;
mod folder;
mod handles;
mod kept;
mod memory_files;
mod memory_folder;
mod names;
mod opening;
mod system;
mod whole;

pub use disk::{FileVolume, FolderVolume};
pub use folder::Folder;
pub use memory_files::MemFile;
pub use memory_folder::{MemFolder, MemHandle};
pub use names::names_differ;
pub use system::SystemFolder;
