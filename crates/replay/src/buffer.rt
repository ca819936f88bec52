// The buffer that is written into: what it holds before a call, and what it must hold after it.
ghost use Rattle.std.specs.Prelude.{◌≡◌, length};

// Room for a record's slices, for its expected file, and for the buffer that is written into.
pub(crate) fn space() -> [u8; 16384]
    ensures { 16384 ≡ length result }
{
    [0; 16384]
}

// What the buffer holds before the call.
pub(crate) fn pattern(seed: u32, i: usize) -> u8 {
    ((seed as usize + i % 251) % 256) as u8
}

// It begins anew every 251 bytes: by such parts no byte asks for a remainder by 251, and the loop is vector code.
pub(crate) fn fill(out: &mut [u8], seed: u32) {
    for part in out.chunks_mut(251) {
        for (k, byte) in part.iter_mut().enumerate() {
            *byte = ((seed as usize + k) % 256) as u8;
        }
    }
}

// What byte i must be after the call.
fn later(seed: u32, offset: usize, file: &[u8], i: usize) -> u8 {
    if i < offset {
        return pattern(seed, i);
    }
    match file.get(i - offset) {
        Some(byte) => *byte,
        None => pattern(seed, i),
    }
}

// How many bytes of the buffer are not what they must be. A sum has no branch on each byte, as `filter` and `count` have.
pub(crate) fn differing(out: &[u8], seed: u32, offset: usize, file: &[u8]) -> usize {
    let mut count = 0;
    for i in 0..out.len() {
        count += (out[i] != later(seed, offset, file, i)) as usize;
    }
    count
}
