//! A volume that is lent is a volume.

use crate::files::File;
use crate::volume::Volume;
use jet_io::Failed;

impl<V: Volume> Volume for &mut V {
    ghost tells_contents = { V.tells_contents };

    ghost seen = { λ v. V.seen v.now };

    ghost moment = { λ v. V.moment v.now };

    ghost left_at = { λ v k image. V.left_at v.now k image };

    ghost faults = { λ v. V.faults v.now };

    ghost identity = { λ v. v.ghost_name };

    ghost seen_may_stay = { λ v t. V.seen_may_stay v.now t };

    fn size(&mut self, file: File) -> Result<u64, Failed> {
        Volume::size(&mut **self, file)
    }

    fn read(&mut self, file: File, at: u64, into: &mut [u8]) -> Result<usize, Failed> {
        Volume::read(&mut **self, file, at, into)
    }

    fn write_at(&mut self, file: File, at: u64, piece: &[u8]) -> Result<(), Failed> {
        Volume::write_at(&mut **self, file, at, piece)
    }

    fn sync(&mut self, file: File) -> Result<(), Failed> {
        Volume::sync(&mut **self, file)
    }

    fn faults(&self) -> u64 {
        Volume::faults(&**self)
    }
}
