//! Words as lists of bits: worked examples, and each call once.
use super::checks::{gives, has};
use arrow2_chunk::{BitChunk, BitChunkIter, BitChunkOnes};

#[test]
fn words_answer_as_their_bits(rt: HostRuntime) {
    let (a, b) = (0b10110110u8, 0b01011011u8);
    has(&rt, &[a.masked(3), a.masked(8), a.masked(0)], &[6, 182, 0]);
    let both = [a.bit_and(b), a.bit_or(b), a.bit_xor(b)];
    has(&rt, &both, &[a & b, a | b, a ^ b]);
    let one = [a.bit_not(), a.up(3), a.down(3)];
    has(&rt, &one, &[!a, a << 3, a >> 3]);
    let bytes = [0x78, 0x56, 0x34, 0x12];
    has(&rt, &BitChunk::to_ne_bytes(305419896u32), &bytes);
    let read = <u32 as BitChunk>::from_ne_bytes(bytes);
    has(&rt, &[read, u32::from_ne_slice(&bytes)], &[305419896; 2]);
}

#[test]
fn bits_come_in_turn_and_by_position(rt: HostRuntime) {
    let alloc = rt.alloc();
    has(&rt, &[BitChunk::bit(0b10110110u8, 1)], &[true]);
    let (a, b, c) = (0x4001u16, 0x40000001u32, 0x4000000000000001u64);
    has(&rt, &[a.bit(14), b.bit(30), c.bit(62)], &[true; 3]);
    has(&rt, &[a.bit(15), b.bit(31), c.bit(63)], &[false; 3]);
    let widths = [u8::WIDTH, u16::WIDTH, u32::WIDTH, u64::WIDTH];
    has(&rt, &widths, &[8, 16, 32, 64]);
    let items = [false, false, false, false, true, false, false];
    gives(&rt, alloc, BitChunkIter::new(0b00010000u8, 7), &items);
    gives(&rt, alloc, BitChunkOnes::new(0b10000001u8), &[0, 7]);
    gives(&rt, alloc, BitChunkOnes::new(0u8), &[]);
}
