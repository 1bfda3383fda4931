//! What the program tells of itself.

ghost use Rattle.std.specs.Prelude.{◌≡◌};
ghost use Rattle.esentutl.specs.About.{text_about, Tells};

use crate::report::tell_text;
use crate::words::Topic;
use jet_io::Sink;

/// How the program is called.
const HELP: &str = concat!(
    "Usage:\n",
    "  esentutl VOLUME run ordered [versions N] [depth N]   runs a script of session calls, one reply a line\n",
    "  esentutl VOLUME /r                                   recovers the volume, and tells what it holds\n",
    "  esentutl VOLUME /g                                   tells whether the volume is consistent, or what is found first\n",
    "  esentutl VOLUME /mh                                  tells whether the database was closed, and what it recovers to\n",
    "  esentutl VOLUME /mk                                  tells the checkpoint that stands\n",
    "  esentutl VOLUME /ml                                  tells the log entries behind that checkpoint\n",
    "  esentutl VOLUME /ms                                  tells the pages of the database, and of each of its trees\n",
    "  esentutl --help                                      prints this text\n",
    "  esentutl --version                                   prints the name and the file format written\n",
    "\n",
    "VOLUME names a database in the files VOLUME.edb, VOLUME0.chk, VOLUME1.chk and VOLUME.log, which are made if need be.\n",
    "The volume - is in memory, and is gone at the end.\n",
    "/g, /mh, /mk, /ml and /ms only look at the volume: they write nothing to it, and read no script.\n",
    "The script is read from standard input, behind the opening of the volume, and checked before its first line runs.\n",
    "versions N: the limit of the version store's span, 4,096 to 67,108,864 bytes; without it 4,194,304.\n",
    "depth N: where so many bytes of log stand behind a checkpoint, the next one follows, 1 to 4,194,304; without it 1,048,576.\n",
    "\n",
    "Example:\n",
    "  ./esentutl - run ordered < examples/first-table.script\n",
    "\n",
    "Exit status:\n",
    "  0  every line ran, or what was asked for was done and printed\n",
    "  1  the words are of no form above\n",
    "  2  a line is outside the grammar, and the first one is named; or the script has more than 16,777,216 bytes\n",
    "  3  the volume is refused, and the reason is named\n",
    "  4  the volume could not be read or written\n",
    "  5  the script could not be read\n",
    "  6  the output could not be written\n",
    "  7  out of memory, outside a line of the script\n",
    "  8  /g: the volume is not consistent, and what is found first is named\n",
    "\n",
    "docs/SCRIPT.md describes scripts, replies and statuses, docs/FILES.md the files.\n",
);

/// The program's name, and which file format it writes.
const VERSION: &str = concat!(
    "esentutl, the tool of the database engine Loheviwun\n",
    "file format written: 1\n",
);

/// The text about a topic.
fn text(topic: Topic) -> &'static str
    ensures { result.now ≡ text_about topic }
{
    match topic {
        Topic::Help => HELP,
        Topic::Version => VERSION,
    }
}

/// Prints the text about a topic, and answers the exit status.
pub fn tell_about<K: Sink>(topic: Topic, out: &mut K) -> u8
    ensures { Tells (K.taken out.old) (K.taken out.new) (K.faults out.old) (K.faults out.new) (text_about topic) result }
{
    tell_text(text(topic), out)
}
