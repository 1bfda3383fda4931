//! Bytes behind those of a buffer that has room for them.

ghost use Rattle.std.specs.Prelude.{◌≡◌, ◌+◌, ◌≤◌, [], ◌∷◌, ◌++◌, length, vec_len};
ghost use Rattle.std.specs.Vec.{vec_capacity};

/// Puts the bytes at the end of a buffer that has room for them. It takes no memory.
#[inline]
pub fn append(bytes: &mut Vec<u8>, own: &[u8])
    requires { vec_len bytes.old + length own.now ≤ vec_capacity bytes.old }
    ensures items { bytes.new.items ≡ bytes.old.items ++ own.now }
    ensures len { vec_len bytes.new ≡ vec_len bytes.old + length own.now }
    ensures room { vec_capacity bytes.old ≤ vec_capacity bytes.new }
{
    bytes.extend_from_slice(own).unwrap();
}

/// Puts a byte at the end of a buffer that has room for it. It takes no memory.
#[inline]
pub fn append_byte(bytes: &mut Vec<u8>, byte: u8)
    requires { vec_len bytes.old + 1 ≤ vec_capacity bytes.old }
    ensures items { bytes.new.items ≡ bytes.old.items ++ byte ∷ [] }
    ensures len { vec_len bytes.new ≡ vec_len bytes.old + 1 }
    ensures room { vec_capacity bytes.old ≤ vec_capacity bytes.new }
{
    append(bytes, &[byte]);
}
