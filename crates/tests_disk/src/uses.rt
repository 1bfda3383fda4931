//! What is done to the files of a volume, whatever they stand on.

use jet_io::Failed;
use jet_volume::{File, Volume};

// The four files, and where those of the volume `folder/volume` lie.
pub const FILES: [(File, &str); 4] = [
    (File::Database, "folder/volume.edb"),
    (File::CheckpointA, "folder/volume0.chk"),
    (File::CheckpointB, "folder/volume1.chk"),
    (File::Log, "folder/volume.log"),
];

// Writes behind a gap, syncs, and answers the size and how many bytes are read from the second on.
fn use_file<V: Volume>(
    volume: &mut V,
    file: File,
    bytes: &mut [u8; 8],
) -> Result<(u64, usize), Failed> {
    volume.write_at(file, 2, b"piece")?;
    volume.sync(file)?;
    let size = volume.size(file)?;
    let count = volume.read(file, 1, bytes)?;
    Ok((size, count))
}

// Whether `use_file` gives what it has to.
pub fn is_used<V: Volume>(volume: &mut V, file: File) -> bool {
    let mut bytes = [9; 8];
    use_file(volume, file, &mut bytes) == Ok((7, 6))
        && bytes.as_slice() == b"\0piece\x09\x09".as_slice()
}

// Whether a file is read as its own path.
pub fn has_own_path<V: Volume>(volume: &mut V, file: File, path: &str) -> bool {
    let mut bytes = [0; 32];
    match volume.read(file, 0, &mut bytes) {
        Ok(count) => bytes.get(..count) == Some(path.as_bytes()),
        Err(_) => false,
    }
}

// Writes the four files, and syncs one of them.
pub fn sync_one<V: Volume>(volume: &mut V, file: File) -> Result<(), Failed> {
    for (other, _) in FILES {
        volume.write_at(other, 0, b"x")?;
    }
    volume.sync(file)
}
