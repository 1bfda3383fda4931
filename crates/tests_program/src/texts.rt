//! A text that the program tells of itself.

use esentutl::esentutl;
use jet_io::{MemSink, MemSource};
use memory_volume::MemoryVolume;
use std::test::Fail;

const VERSION: &str = concat!(
    "esentutl, the tool of the database engine Loheviwun\n",
    "file format written: 1\n",
);

// The script would be refused, if it were read.
#[test]
fn the_version_is_told(rt: HostRuntime) -> Result<(), Fail> {
    let alloc = rt.alloc();
    let mut words = Vec::new(alloc);
    words.push(String::from_str(alloc, "--version")?)?;
    let mut from = MemSource::new(Vec::from_slice(alloc, b"1 Fly\n")?, Vec::new(alloc));
    let mut out = MemSink::new(alloc, 200, Vec::new(alloc))?;
    let mut volume = MemoryVolume::new(alloc);
    assert_eq!(rt;
        esentutl(alloc, &words, &mut volume, &mut from, &mut out),
        0
    );
    assert_eq!(rt; out.taken(), VERSION.as_bytes());
    Ok(())
}
