// The checksum that POSIX's `cksum` prints: the polynomial 04C11DB7, high bit first, over the bytes and then their
// number, inverted.
ghost use Rattle.std.specs.Prelude.{◌≡◌};
ghost use Rattle.messages.specs.Checksum.{crc_byte, crc_of, bytes_in, cksum};

fn with_byte(sum: u32, byte: u8) -> u32
    ensures { result ≡ crc_byte sum byte }
{
    let mut r = sum ^ ((byte as u32) << 24);
    for _bit in 0..8u32 {
        let moved = r << 1;
        r = if r < 0x8000_0000 {
            moved
        } else {
            moved ^ 0x04C1_1DB7
        };
    }
    r
}

fn of_bytes(bytes: &[u8]) -> u32
    ensures { result ≡ crc_of 0 bytes.now }
{
    let mut sum = 0;
    for byte in bytes {
        sum = with_byte(sum, *byte);
    }
    sum
}

fn with_number(before: u32, n: usize) -> u32
    ensures { result ≡ crc_of before (bytes_in 8 n) }
{
    let mut sum = before;
    let mut left = n;
    while left > 0 {
        sum = with_byte(sum, (left % 256) as u8);
        left = left / 256;
    }
    sum
}

pub fn checksum(bytes: &[u8]) -> u32
    ensures { result ≡ cksum bytes.now }
{
    !with_number(of_bytes(bytes), bytes.len())
}
