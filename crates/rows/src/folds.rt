// Eight cells of 1 or 2 bits packed in a word: neighbours are folded together until each byte of the row stands in a lane.
ghost use Rattle.std.specs.Prelude.{◌≡◌, ◌+◌, ◌*◌, ◌/◌, ◌%◌, ◌^◌, ◌<◌, ◌≤◌, length, bit_and, bit_or, slice_index};
ghost use Rattle.leaves.specs.Lists.{tab};
ghost use Rattle.leaves.specs.Put.{put};
ghost use Rattle.rows.specs.Packing.{packed_byte_of, FoldedDepth};
ghost use Rattle.rows.specs.Words.{lanes};

use crate::words::le64;

// One step: what two neighbouring lanes hold stands side by side in a lane twice as wide, the first one above.
fn fold(x: u64, width: u32, lane: u32, mask: u64) -> u64
    requires { (width < 64) × (lane < 64) }
    ensures { result ≡ bit_and (bit_or (x * 2 ^ width % 2 ^ 64) (x / 2 ^ lane)) mask }
{
    (x << width | x >> lane) & mask
}

// The eight cells from x on as BPP bytes, each of them lowest in a lane of 64 / BPP bits.
pub(crate) fn folded<const BPP: u16>(src: &[u8], x: usize) -> u64
    requires folded_depth { FoldedDepth BPP }
    requires x_in_bounds { x + 8 ≤ length src.now }
    ensures { result ≡ lanes (2 ^ (64 / BPP)) (packed_byte_of BPP (λ i. slice_index src.now (x + i))) BPP }
{
    let w = le64(src, x);
    if BPP == 2 {
        let pairs = fold(w & 0x0303030303030303, 2, 8, 0x000f000f000f000f);
        return fold(pairs, 4, 16, 0x000000ff000000ff);
    }
    let pairs = fold(w & 0x0101010101010101, 1, 8, 0x0003000300030003);
    let fours = fold(pairs, 2, 16, 0x0000000f0000000f);
    fold(fours, 4, 32, 0xff)
}

// Stores the lowest byte of each of N lanes.
pub(crate) fn put_lanes<const N: u16>(w: u64, dst: &mut [u8], at: usize)
    requires folded_depth { FoldedDepth N }
    requires lanes_in_bounds { at + N ≤ length dst.old }
    ensures { dst.new ≡ put dst.old at (tab (λ j. w / 2 ^ (j * (64 / N)) % 256) N) }
{
    dst[at] = (w % 256) as u8;
    if N == 2 {
        dst[at + 1] = ((w >> 32) % 256) as u8;
    }
}
