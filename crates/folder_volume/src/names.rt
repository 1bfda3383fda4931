//! The names of a volume's files.

ghost use Rattle.std.specs.Prelude.{◌≡◌, ℕ, List, IfOk};
ghost use Rattle.std.specs.String.{string_bytes};
ghost use Rattle.folder_volume.specs.Names.{ending_of, file_path};
ghost use Rattle.jet_volume.specs.declared.files.File.{File};

use jet_volume::File;
use std::alloc::AllocError;

/// The path of a file: the name of the volume with the file's ending.
pub fn path_to(name: &String, file: File) -> Result<String, AllocError>
    ensures { IfOk result (λ path. string_bytes path ≡ file_path (string_bytes name.now) file) }
{
    let mut path = name.clone()?;
    path.push_str(ending(file))?;
    Ok(path)
}

fn ending(file: File) -> &'static str
    ensures { result.now ≡ ending_of file }
{
    match file {
        File::Database => ".edb",
        File::CheckpointA => "0.chk",
        File::CheckpointB => "1.chk",
        File::Log => ".log",
    }
}

/// Two files of a volume have two paths. It does nothing: its clause is the law.
pub fn names_differ()
    ensures { (name : List ℕ) (f g : File) → file_path name f ≡ file_path name g → f ≡ g }
{}
