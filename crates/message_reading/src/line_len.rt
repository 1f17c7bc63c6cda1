// Where a line ends.
ghost use Rattle.std.specs.Prelude.{◌≡◌, ◌<◌, ◌≤◌, ◌-◌, ◌≢◌, ◌==◌, All, length, take, if◌then◌else◌};
ghost use Rattle.std.specs.List.{position_or_len};
ghost use Rattle.std.specs.Int.{trailing_zeros, w64};

use memchr::memchr;
use std::simd::prelude::*;

/// How many bytes are looked at together.
const LANES: usize = 32;

// The place of the lowest bit; 32 where there is none.
#[inline(always)]
fn lowest_bit(marks: u64) -> usize
    ensures { result ≡ (if marks == 0 then 32 else trailing_zeros w64 marks) }
{
    if marks == 0 {
        LANES
    } else {
        marks.trailing_zeros() as usize
    }
}

// Where the first LF stands among the first 32 bytes; 32 where none of them is one.
#[inline(always)]
fn first_line_feed(bytes: &[u8]) -> usize
    requires { 32 ≤ length bytes.now }
    ensures { result ≡ position_or_len (λ b. b == 10) (take 32 bytes.now) }
{
    let found = u8x32::from_slice(bytes).simd_eq(u8x32::splat(b'\n'));
    lowest_bit(found.to_bitmask())
}

/// How many bytes there are up to and including the first LF, or in all. Most lines are short, and
/// found sooner by 32 bytes at a time than by a search that begins with more of them.
pub(crate) fn line_len(bytes: &[u8]) -> usize
    ensures bound { result ≤ length bytes.now }
    ensures some { 0 < length bytes.now → 0 < result }
    ensures before { All (λ b. b ≢ 10) (take (result - 1) bytes.now) }
{
    let mut at = 0;
    while bytes.len() - at >= LANES {
        let place = first_line_feed(&bytes[at..]);
        if place < LANES {
            return at + place + 1;
        }
        at += LANES;
    }
    match memchr(b'\n', &bytes[at..]) {
        Some(more) => at + more + 1,
        None => bytes.len(),
    }
}
