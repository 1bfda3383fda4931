//! Passing over fields of which a part may be missing.

ghost use Rattle.std.specs.Prelude.{◌<◌, ℕ, Bool, length};
ghost use Rattle.std.specs.Int.{w16, w32};
ghost use Rattle.log_record.specs.EntryCuts.{bookmark_cut, byte_cut, bytes_cut, number_cut, small_cut, within};
ghost use Rattle.log_record.specs.Passing.{Passes};

use column_set::u16_at;

/// Passes over so many bytes.
pub fn skip(bytes: &[u8], missing: usize, size: usize) -> Option<(&[u8], usize)>
    ensures { Passes (λ x. (x.0.now, x.1)) result (λ rest. bytes_cut size rest bytes.now missing) }
{
    if size <= bytes.len() {
        let (_, rest) = bytes.split_at(size);
        return Some((rest, missing));
    }
    let lacking = size - bytes.len();
    if missing < lacking {
        return None;
    }
    Some((&[], missing - lacking))
}

/// Passes over a number of two bytes.
pub fn skip_u16(bytes: &[u8], missing: usize) -> Option<(&[u8], usize)>
    ensures { Passes (λ x. (x.0.now, x.1)) result (λ rest. number_cut w16 rest bytes.now missing) }
{
    skip(bytes, missing, 2)
}

/// Passes over a number of four bytes.
pub fn skip_u32(bytes: &[u8], missing: usize) -> Option<(&[u8], usize)>
    ensures { Passes (λ x. (x.0.now, x.1)) result (λ rest. number_cut w32 rest bytes.now missing) }
{
    skip(bytes, missing, 4)
}

/// Passes over a byte that lies within bounds.
pub fn skip_byte(bytes: &[u8], missing: usize, least: u8, most: u8) -> Option<(&[u8], usize)>
    ensures { Passes (λ x. (x.0.now, x.1)) result (λ rest. byte_cut (within least most) rest bytes.now missing) }
{
    match bytes {
        [first, rest @ ..] => {
            if *first < least || most < *first {
                return None;
            }
            Some((rest, missing))
        }
        [] => {
            if missing < 1 {
                return None;
            }
            Some((bytes, missing - 1))
        }
    }
}

/// Passes over a number of four bytes that lies within bounds below 256.
pub fn skip_small(bytes: &[u8], missing: usize, least: u8, most: u8) -> Option<(&[u8], usize)>
    ensures { Passes (λ x. (x.0.now, x.1)) result (λ rest. small_cut least most rest bytes.now missing) }
{
    let Some((rest, left)) = skip_byte(bytes, missing, least, most) else {
        return None;
    };
    skip_zeros(rest, left)
}

/// Passes over three bytes that are 0.
fn skip_zeros(bytes: &[u8], missing: usize) -> Option<(&[u8], usize)>
    ensures { Passes (λ x. (x.0.now, x.1)) result (λ rest. byte_cut (within 0 0) (byte_cut (within 0 0) (byte_cut (within 0 0) rest)) bytes.now missing) }
{
    let Some((rest, left)) = skip_byte(bytes, missing, 0, 0) else {
        return None;
    };
    skip_two_zeros(rest, left)
}

/// Passes over two bytes that are 0.
fn skip_two_zeros(bytes: &[u8], missing: usize) -> Option<(&[u8], usize)>
    ensures { Passes (λ x. (x.0.now, x.1)) result (λ rest. byte_cut (within 0 0) (byte_cut (within 0 0) rest) bytes.now missing) }
{
    let Some((rest, left)) = skip_byte(bytes, missing, 0, 0) else {
        return None;
    };
    skip_byte(rest, left, 0, 0)
}

/// Passes over a bookmark of which a byte is there.
pub fn skip_bookmark(bytes: &[u8], missing: usize) -> Option<(&[u8], usize)>
    requires { 0 < length bytes.now }
    ensures { (none : ℕ → Bool) → Passes (λ x. (x.0.now, x.1)) result (λ rest. bookmark_cut none rest bytes.now missing) }
{
    let Some((size, rest)) = u16_at(bytes) else {
        let low = bytes[0] as usize;
        if low < 1 || missing < 1 + low {
            return None;
        }
        return Some((&[], missing - (1 + low)));
    };
    if size < 1 || size > 255 {
        return None;
    }
    skip(rest, missing, size as usize)
}
