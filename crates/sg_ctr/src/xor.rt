//! The stream of a schedule, put onto octets by XOR: sixteen blocks at a time, and of what is left four at a time, of
//! which two stand side by side in a vector of 32 octets.

ghost use Rattle.std.specs.Prelude.{◌≡◌, ℕ, ◌++◌, ◌+◌, ◌*◌, ◌%◌, ◌^◌, ◌<◌, ◌≤◌, length, slice_index};
ghost use Rattle.sg_base.specs.Octets.{xor_octets};
ghost use Rattle.sg_aes.specs.Planes.{ArePlanesOf};
ghost use Rattle.sg_ctr.specs.Keystream.{counter_after, counter_octets, counter_stream};
ghost use Rattle.sg_ctr.specs.Xor.{CountsFrom, XorsOnto, block_octet, stream_octet};

use sg_aes::{KeyPlanes, Schedule};
use std::simd::prelude::*;

// Where the high and the low octet of a block's number stand, in each of two blocks.
const HIGH: [u8; 32] = [
    0, 0, 0, 0, 0, 0, 0, 0, 0, 0, 0, 0, 0, 0, 255, 0, 0, 0, 0, 0, 0, 0, 0, 0, 0, 0, 0, 0, 0, 0,
    255, 0,
];

const LOW: [u8; 32] = [
    0, 0, 0, 0, 0, 0, 0, 0, 0, 0, 0, 0, 0, 0, 0, 255, 0, 0, 0, 0, 0, 0, 0, 0, 0, 0, 0, 0, 0, 0, 0,
    255,
];

// The same in one block.
const HIGH_OF_ONE: [u8; 16] = [0, 0, 0, 0, 0, 0, 0, 0, 0, 0, 0, 0, 0, 0, 255, 0];

const LOW_OF_ONE: [u8; 16] = [0, 0, 0, 0, 0, 0, 0, 0, 0, 0, 0, 0, 0, 0, 0, 255];

// What the second of two numbers has beyond the first, an even one.
const NEXT: [u8; 32] = [
    0, 0, 0, 0, 0, 0, 0, 0, 0, 0, 0, 0, 0, 0, 0, 0, 0, 0, 0, 0, 0, 0, 0, 0, 0, 0, 0, 0, 0, 0, 0, 1,
];

// The octets of a counter.
#[inline(always)]
fn octets_of(counter: u128) -> [u8; 16]
    ensures { result ≡ counter_octets counter }
{
    counter.to_be_bytes()
}

// The octets of the counter of block `number`: those of the first block's, with the number as the last two. They are
// put there in a vector, since octets that are stored one by one are slow to load as sixteen.
#[inline(always)]
fn numbered(first: &[u8; 16], number: u16) -> [u8; 16]
    ensures { (counter : ℕ) → CountsFrom first.now counter
        → result ≡ counter_octets (counter_after counter number) }
{
    let high = u8x16::splat((number / 256) as u8) & u8x16::from_array(HIGH_OF_ONE);
    let low = u8x16::splat((number % 256) as u8) & u8x16::from_array(LOW_OF_ONE);
    let octets = u8x16::from_array(*first) ^ high ^ low;
    octets.to_array()
}

// The octets of the counters of an even block number and of the one after it: those of the first block's
// twice, with the numbers as the last two octets of each.
#[inline(always)]
fn counters(first: &[u8; 16], number: u16) -> u8x32
    requires even { number % 2 ≡ 0 }
    ensures { (counter : ℕ) → CountsFrom first.now counter → result
        ≡ counter_octets (counter_after counter number)
        ++ counter_octets (counter_after counter (number + 1)) }
{
    let one = u8x16::from_array(*first);
    let both = one.shuffle(
        one,
        [
            0, 1, 2, 3, 4, 5, 6, 7, 8, 9, 10, 11, 12, 13, 14, 15, 16, 17, 18, 19, 20, 21, 22, 23,
            24, 25, 26, 27, 28, 29, 30, 31,
        ],
    );
    let high = u8x32::splat((number / 256) as u8) & u8x32::from_array(HIGH);
    let low = u8x32::splat((number % 256) as u8) & u8x32::from_array(LOW);
    both ^ high ^ low ^ u8x32::from_array(NEXT)
}

// XORs 32 octets onto those at `at`.
#[inline(always)]
fn xor_whole(part: &mut [u8], at: usize, stream: u8x32)
    requires { at + 32 ≤ length part.old }
    ensures { XorsOnto part.old part.new at 32 (λ k. slice_index stream k) }
{
    let sum = u8x32::from_slice(&part[at..]) ^ stream;
    sum.copy_to_slice(&mut part[at..]);
}

// XORs the first `count` of 32 octets onto those at `at`.
#[inline(always)]
fn xor_begin(part: &mut [u8], at: usize, stream: [u8; 32], count: usize)
    requires room { at + count ≤ length part.old }
    requires within { count ≤ 32 }
    ensures { XorsOnto part.old part.new at count (λ k. slice_index stream k) }
{
    'octets: for i in 0..count {
        part[at + i] ^= stream[i];
    }
}

// XORs the first `count` of 32 octets onto those at `at`, all at once where they are all taken.
#[inline(always)]
fn xor_onto(part: &mut [u8], at: usize, stream: u8x32, count: usize)
    requires room { at + count ≤ length part.old }
    requires within { count ≤ 32 }
    ensures { XorsOnto part.old part.new at count (λ k. slice_index stream k) }
{
    if count == 32 {
        xor_whole(part, at, stream);
    } else {
        xor_begin(part, at, stream.to_array(), count);
    }
}

// XORs the first `count` octets of two blocks, from an even block number on, onto those of the part.
#[inline(always)]
fn xor_two(schedule: &Schedule, first: &[u8; 16], number: u16, part: &mut [u8], count: usize)
    requires even { number % 2 ≡ 0 }
    requires within { count ≤ 32 }
    requires room { 16 * number + count ≤ length part.old }
    ensures { (counter : ℕ) → CountsFrom first.now counter → XorsOnto part.old part.new
        (16 * number) count (λ k. stream_octet schedule.now counter (16 * number + k)) }
{
    let stream = schedule.pair(counters(first, number));
    xor_onto(part, 16 * usize::from(number), stream, count);
}

// XORs the first `count` octets of four blocks, from an even block number on, onto those of the part.
#[inline(always)]
fn xor_four(schedule: &Schedule, first: &[u8; 16], number: u16, part: &mut [u8], count: usize)
    requires even { number % 2 ≡ 0 }
    requires numbers { number + 4 ≤ 2 ^ 16 }
    requires within { count ≤ 64 }
    requires room { 16 * number + count ≤ length part.old }
    ensures { (counter : ℕ) → CountsFrom first.now counter → XorsOnto part.old part.new
        (16 * number) count (λ k. stream_octet schedule.now counter (16 * number + k)) }
{
    let (left, right) = schedule.pairs(counters(first, number), counters(first, number + 2));
    let at = 16 * usize::from(number);
    if count < 32 {
        xor_onto(part, at, left, count);
    } else {
        xor_whole(part, at, left);
        xor_onto(part, at + 32, right, count - 32);
    }
}

// XORs a block onto the octets at `at`, and another one onto those behind them.
#[inline(always)]
fn xor_blocks_of_two(part: &mut [u8], at: usize, left: &[u8; 16], right: &[u8; 16])
    requires { at + 32 ≤ length part.old }
    ensures sum { XorsOnto part.old part.new at 32 (λ k. slice_index (left.now ++ right.now) k) }
    ensures long { length left.now ≡ 16 }
{
    let both = u8x16::from_array(*left).shuffle(
        u8x16::from_array(*right),
        [
            0, 1, 2, 3, 4, 5, 6, 7, 8, 9, 10, 11, 12, 13, 14, 15, 16, 17, 18, 19, 20, 21, 22, 23,
            24, 25, 26, 27, 28, 29, 30, 31,
        ],
    );
    xor_whole(part, at, both);
}

// XORs sixteen blocks onto the octets at `at`, two at a time.
#[inline(always)]
fn xor_blocks(part: &mut [u8], at: usize, blocks: &[[u8; 16]; 16])
    requires { at + 256 ≤ length part.old }
    ensures { XorsOnto part.old part.new at 256 (block_octet blocks.now) }
{
    'pieces: for j in 0..8 {
        xor_blocks_of_two(part, at + 32 * j, &blocks[2 * j], &blocks[2 * j + 1]);
    }
}

// XORs sixteen blocks onto those of the part, from a block number on that is a multiple of 16: their counters differ in
// the last 4 bits.
#[inline(always)]
fn xor_sixteen(
    schedule: &Schedule,
    planes: &KeyPlanes,
    first: &[u8; 16],
    number: u16,
    part: &mut [u8],
)
    requires planes { ArePlanesOf schedule.now planes.now }
    requires multiple { number % 16 ≡ 0 }
    requires room { 16 * number + 256 ≤ length part.old }
    ensures { (counter : ℕ) → CountsFrom first.now counter → XorsOnto part.old part.new
        (16 * number) 256 (λ k. stream_octet schedule.now counter (16 * number + k)) }
{
    let blocks = schedule.sixteen(planes, &numbered(first, number));
    xor_blocks(part, 16 * usize::from(number), &blocks);
}

// XORs the stream from the first block's counter on onto the first octets of the part, `count` times sixteen blocks.
#[inline(never)]
fn xor_sixteens(schedule: &Schedule, first: &[u8; 16], part: &mut [u8], count: usize)
    requires room { 256 * count ≤ length part.old }
    requires length { length part.old ≤ 2 ^ 20 }
    ensures { (counter : ℕ) → CountsFrom first.now counter
        → XorsOnto part.old part.new 0 (256 * count) (stream_octet schedule.now counter) }
{
    let mut planes = [[[0u8; 32]; 8]; 15];
    schedule.write_planes(&mut planes);
    'sixteens: for i in 0..count {
        xor_sixteen(schedule, &planes, first, (16 * i) as u16, part);
    }
}

// The same, with no work where there are none.
#[inline(always)]
fn xor_long(schedule: &Schedule, first: &[u8; 16], part: &mut [u8], count: usize)
    requires room { 256 * count ≤ length part.old }
    requires length { length part.old ≤ 2 ^ 20 }
    ensures { (counter : ℕ) → CountsFrom first.now counter
        → XorsOnto part.old part.new 0 (256 * count) (stream_octet schedule.now counter) }
{
    if count > 0 {
        xor_sixteens(schedule, first, part, count);
    }
}

/// XORs the stream from a counter on onto the part (RFC 3711, 4.1.1): sixteen blocks at a time, then four, and what is
/// left by four or by two. The counter's last 16 bits are 0: they count the blocks, so its octets are made once.
pub(crate) fn xor_stream(schedule: &Schedule, counter: u128, part: &mut [u8])
    requires counter { counter % 2 ^ 16 ≡ 0 }
    requires length { length part.old ≤ 2 ^ 20 }
    ensures { part.new
        ≡ xor_octets part.old (counter_stream schedule.now counter (length part.old)) }
{
    let len = part.len();
    let sixteens = len / 256;
    let first = octets_of(counter);
    xor_long(schedule, &first, part, sixteens);
    let whole = len / 64;
    'fours: for i in 4 * sixteens..whole {
        xor_four(schedule, &first, (4 * i) as u16, part, 64);
    }
    let left = len - 64 * whole;
    if left > 32 {
        xor_four(schedule, &first, (4 * whole) as u16, part, left);
    } else if left > 0 {
        xor_two(schedule, &first, (4 * whole) as u16, part, left);
    }
}
