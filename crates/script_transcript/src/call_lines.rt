//! The names of the calls. Each stands here alone: a script is read by it, and a transcript is printed with it.

/// The room in bytes for the answer of a call that succeeded and shows nothing.
pub(crate) const ANSWER_ROOM: usize = 40;

// How such an answer ends: the name of the reply, and byte 0A.
const SUCCESS: &[u8] = b"JET_errSuccess\n";

/// What is written of a call.
#[derive(Clone, Copy)]
pub struct CallLine {
    /// The name of the call, of at most 17 bytes, as a script and a transcript have it.
    pub name: &'static [u8],
    /// What stands behind the head of a line whose call succeeded and shows nothing: the name of the call and that of the reply,
    /// with a space before each, and byte 0A.
    ///
    /// Spaces fill it up to one size, so that it is copied by a few words and no call.
    pub(crate) answer: [u8; ANSWER_ROOM],
    /// How many bytes the answer has without these spaces.
    pub(crate) count: usize,
}

// The byte of an answer at a place. A constant's value calls no function, so each byte is chosen by itself.
macro_rules! answer_byte {
    ($name:literal, $at:literal) => {
        if 0 < $at && $at <= $name.len() {
            $name[$at - 1]
        } else if $name.len() + 1 < $at && $at < $name.len() + 2 + SUCCESS.len() {
            SUCCESS[$at - $name.len() - 2]
        } else {
            b' '
        }
    };
}

// The bytes of an answer at these places.
macro_rules! answer_bytes {
    ($name:literal: $($at:literal)*) => {
        [$(answer_byte!($name, $at)),*]
    };
}

// What is written of the call of a name.
macro_rules! call_line {
    ($name:literal) => {
        CallLine {
            name: $name,
            answer: answer_bytes!(
                $name: 0 1 2 3 4 5 6 7 8 9 10 11 12 13 14 15 16 17 18 19
                20 21 22 23 24 25 26 27 28 29 30 31 32 33 34 35 36 37 38 39
            ),
            count: 1 + $name.len() + 1 + SUCCESS.len(),
        }
    };
}

pub const BEGIN_SESSION: CallLine = call_line!(b"BeginSession");

pub const END_SESSION: CallLine = call_line!(b"EndSession");

pub const BEGIN_TRANSACTION: CallLine = call_line!(b"BeginTransaction");

pub const COMMIT_TRANSACTION: CallLine = call_line!(b"CommitTransaction");

pub const ROLLBACK: CallLine = call_line!(b"Rollback");

pub const CREATE_TABLE: CallLine = call_line!(b"CreateTable");

pub const DELETE_TABLE: CallLine = call_line!(b"DeleteTable");

pub const ADD_COLUMN: CallLine = call_line!(b"AddColumn");

pub const DELETE_COLUMN: CallLine = call_line!(b"DeleteColumn");

pub const CREATE_INDEX: CallLine = call_line!(b"CreateIndex");

pub const DELETE_INDEX: CallLine = call_line!(b"DeleteIndex");

pub const OPEN_TABLE: CallLine = call_line!(b"OpenTable");

pub const CLOSE_TABLE: CallLine = call_line!(b"CloseTable");

pub const SET_CURRENT_INDEX: CallLine = call_line!(b"SetCurrentIndex");

pub const MOVE: CallLine = call_line!(b"Move");

pub const MAKE_KEY: CallLine = call_line!(b"MakeKey");

pub const SEEK: CallLine = call_line!(b"Seek");

pub const SET_INDEX_RANGE: CallLine = call_line!(b"SetIndexRange");

pub const INDEX_RECORD_COUNT: CallLine = call_line!(b"IndexRecordCount");

pub const RETRIEVE_KEY: CallLine = call_line!(b"RetrieveKey");

pub const GET_BOOKMARK: CallLine = call_line!(b"GetBookmark");

pub const GOTO_BOOKMARK: CallLine = call_line!(b"GotoBookmark");

pub const PREPARE_UPDATE: CallLine = call_line!(b"PrepareUpdate");

pub const SET_COLUMN: CallLine = call_line!(b"SetColumn");

pub const RETRIEVE_COLUMN: CallLine = call_line!(b"RetrieveColumn");

pub const UPDATE: CallLine = call_line!(b"Update");

pub const DELETE: CallLine = call_line!(b"Delete");

pub const GET_LOCK: CallLine = call_line!(b"GetLock");

pub const ESCROW_UPDATE: CallLine = call_line!(b"EscrowUpdate");

pub const TEMP_OPEN: CallLine = call_line!(b"TempOpen");

pub const TEMP_PUT: CallLine = call_line!(b"TempPut");

pub const TEMP_MOVE: CallLine = call_line!(b"TempMove");

pub const TEMP_READ: CallLine = call_line!(b"TempRead");

pub const TEMP_COUNT: CallLine = call_line!(b"TempCount");

pub const TEMP_CLOSE: CallLine = call_line!(b"TempClose");

pub const INTERSECT_INDEXES: CallLine = call_line!(b"IntersectIndexes");
