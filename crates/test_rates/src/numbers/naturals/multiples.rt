//! Multiples of natural numbers: the least that reaches another, and their order.
use super::next_natural;
use crate::numbers::table::{Case, Words, all_hold, number, number_or_none, order};
use natural::Natural;
use std::alloc::Global;
use std::test::Fail;

/// A number, another, and the least factor by which the other reaches the number: `none` where the
/// other is zero, or where the factor does not fit in 64 bits.
const LEAST_MULTIPLES: &str = "\
    0x0 0x0 none
    0x91d93080f9b439fc 0x0 none
    0xf8b7d0ac84773ce0ce4cda11b43c589bb120a366f0bbe9cf42f2dc05873f9bd066080f174c96d8e2\
        5cbd0ba3a1a6bcde3a124c647e02ff05b7c1dce27f7695f56fced11d2bd8a1e6047a8387cdde8d51 0x0 none
    0x0 0x91d93080f9b439fc 0
    0x0 \
        0xf8b7d0ac84773ce0ce4cda11b43c589bb120a366f0bbe9cf42f2dc05873f9bd066080f174c96d8e2\
        5cbd0ba3a1a6bcde3a124c647e02ff05b7c1dce27f7695f56fced11d2bd8a1e6047a8387cdde8d51 0
    0x91d93080f9b439fc 0x1 0x91d93080f9b439fc
    0xffffffffffffffff 0x1 0xffffffffffffffff
    0x10000000000000000 0x1 none
    0x20000000000000000 0x2 none
    0x1ffffffffffffffff 0x2 none
    0x1fffffffffffffffe 0x2 0xffffffffffffffff
    0xffffffffffffffffffffffffffffffff 0x10000000000000000 none
    0xffffffffffffffff0000000000000000 0x10000000000000000 0xffffffffffffffff
    0xffffffffffffffffffffffffffffffff 0xffffffffffffffffffffffffffffffff 1
    0xe27655daa05f11193ceaaf308142c8ea 0x91d93080f9b439fc none
    0xe301bbfca0c5154e0ff9bb510944fe0c9dfb369bab13dfae 0xe27655daa05f11193ceaaf308142c8ea none
    0xe27655daa05f11193ceaaf308142c8ea \
        0xf8b7d0ac84773ce0ce4cda11b43c589bb120a366f0bbe9cf42f2dc05873f9bd066080f174c96d8e2\
        5cbd0ba3a1a6bcde3a124c647e02ff05b7c1dce27f7695f56fced11d2bd8a1e6047a8387cdde8d51 1
    0xf8b7d0ac84773ce0ce4cda11b43c589bb120a366f0bbe9cf42f2dc05873f9bd066080f174c96d8e2\
        5cbd0ba3a1a6bcde3a124c647e02ff05b7c1dce27f7695f56fced11d2bd8a1e6047a8387cdde8d51 \
        0xe301bbfca0c5154e0ff9bb510944fe0c9dfb369bab13dfae none
    0xf8b7d0ac84773ce0ce4cda11b43c589bb120a366f0bbe9cf42f2dc05873f9bd066080f174c96d8e2\
        5cbd0ba3a1a6bcde3a124c647e02ff05b7c1dce27f7695f56fced11d2bd8a1e6047a8387cdde8d51 \
        0xf8b7d0ac84773ce0ce4cda11b43c589bb120a366f0bbe9cf42f2dc05873f9bd066080f174c96d8e2\
        5cbd0ba3a1a6bcde3a124c647e02ff05b7c1dce27f7695f56fced11d2bd8a1e6047a8387cdde8d51 1
    0xf8b7d0ac84773cdfd59509652fc51bbae2d3c9553c7f913391d2389e9683b20123153311c5573d11\
        f6b4fc8c550fe3fbdd5540c0dc5c42277daf907e017396efb80cf43aac620bf094abb26aa205eb6afb857c78322172af \
        0xf8b7d0ac84773ce0ce4cda11b43c589bb120a366f0bbe9cf42f2dc05873f9bd066080f174c96d8e2\
        5cbd0ba3a1a6bcde3a124c647e02ff05b7c1dce27f7695f56fced11d2bd8a1e6047a8387cdde8d51 0xffffffffffffffff
    0xf8b7d0ac84773cdfd59509652fc51bbae2d3c9553c7f913391d2389e9683b20123153311c5573d11\
        f6b4fc8c550fe3fbdd5540c0dc5c42277daf907e017396efb80cf43aac620bf094abb26aa205eb6afb857c78322172b0 \
        0xf8b7d0ac84773ce0ce4cda11b43c589bb120a366f0bbe9cf42f2dc05873f9bd066080f174c96d8e2\
        5cbd0ba3a1a6bcde3a124c647e02ff05b7c1dce27f7695f56fced11d2bd8a1e6047a8387cdde8d51 none
    0x34daa87dad5b79535173c30169b06b5e2c75e35cf329537f572b4c00 0xe301bbfca0c5154e0ff9bb510944fe0c9dfb369bab13dfae \
        1000000000
    0x34daa87dad5b79535173c30169b06b5e2c75e35cf329537f572b4c01 0xe301bbfca0c5154e0ff9bb510944fe0c9dfb369bab13dfae \
        0x3b9aca01
    0x34daa87dad5b79535173c30169b06b5e2c75e35cf329537f572b4bff 0xe301bbfca0c5154e0ff9bb510944fe0c9dfb369bab13dfae \
        1000000000
    0x10000000000000000000000000000000000000000000000000000000000000000000000000000000\
        000000000000000000000000000000000000000000000000000000000000000000000000000000000 \
        0x10000000000000000000000000000000000000000000000000000000000000000000000000000000\
        00000000000000000000000000000000000000000000000000000000000000001 none
    0xffffffffffffffffffffffffffffffffffffffffffffffffffffffffffffffffffffffffffffffff\
        ffffffffffffffffffffffffffffffffffffffffffffffffffffffffffffffffffffffffffffffff \
        0x10000000000000000000000000000000000000000000000000000000000000000000000000000000\
        00000000000000000000000000000000000000000000000000000000000000000 none
    0x100000000000000000000000000000000 0xffffffffffffffffffffffffffffffff 2
    0x100000000000000000000000000000000 0x10000000000000001 none";

/// The least multiple is this one, or there is none.
struct LeastMultiple;

impl Case for LeastMultiple {
    fn holds(alloc: Global, words: &mut Words<'_>) -> Result<bool, Fail> {
        let n = next_natural(alloc, words)?;
        let of = next_natural(alloc, words)?;
        Ok(n.least_multiple(&of) == number_or_none(words)?)
    }
}

#[test]
fn least_multiples(rt: HostRuntime) -> Result<(), Fail> {
    all_hold::<LeastMultiple>(&rt, LEAST_MULTIPLES, 28)
}

/// How many limbs a number has, the highest of them, and each of the others.
const SHAPES: &str = "\
    1 0x1 0x0
    1 0xffffffffffffffff 0x0
    2 0x1 0x0
    2 0x1 0xffffffffffffffff
    2 0x91d93080f9b439fc 0xe27655daa05f1119
    2 0xffffffffffffffff 0xffffffffffffffff
    3 0x1 0x0
    3 0x1 0xffffffffffffffff
    3 0x8000000000000000 0x0
    3 0xe27655daa05f1119 0x3ceaaf308142c8ea
    3 0xffffffffffffffff 0xffffffffffffffff
    4 0x1 0x0
    4 0x5 0x91d93080f9b439fc
    4 0x7fffffffffffffff 0xffffffffffffffff
    4 0xffffffffffffffff 0xffffffffffffffff
    5 0x1 0xffffffffffffffff
    5 0x2 0x0
    5 0x3ceaaf308142c8ea 0x91d93080f9b439fc
    9 0x123456789a 0xe27655daa05f1119
    20 0x1 0x0
    20 0x1 0xffffffffffffffff
    20 0x8000000000000000 0x1
    20 0xe36bf9b3ddcb369d 0x2330fcf1562ae4b8
    20 0xffffffffffffffff 0xffffffffffffffff";

/// How often the numbers of these shapes are taken.
const TIMES: [u64; 14] = [
    0,
    1,
    2,
    3,
    1_000_000_007,
    0x100_0000_0000,
    0x1fff_ffff_ffff,
    0x7fff_ffff_ffff_ffff,
    0x8000_0000_0000_0000,
    0x8000_0000_0000_0001,
    0xffff_ffff_ffff_fffc,
    0xffff_ffff_ffff_fffd,
    0xffff_ffff_ffff_fffe,
    0xffff_ffff_ffff_ffff,
];

/// The next words as the number of that shape.
fn next_of_shape(alloc: Global, words: &mut Words<'_>) -> Result<Natural, Fail> {
    let limbs = number(words)?;
    let mut n = Natural::from_u64(alloc, number(words)?);
    let other = Natural::from_u64(alloc, number(words)?);
    for _ in 1..limbs {
        n.multiply(1 << 32)?;
        n.multiply(1 << 32)?;
        n.add_assign(&other)?;
    }
    Ok(n)
}

/// The least multiple of the number is found for what it is that many times, for one more and for one less.
fn finds_next_to(alloc: Global, of: &Natural, times: u64) -> Result<bool, Fail> {
    let one = Natural::from_u64(alloc, 1);
    let mut n = of.product(u128::from(times))?;
    let exactly = n.least_multiple(of) == Some(times);
    n.add_assign(&one)?;
    let above = n.least_multiple(of) == times.checked_add(1);
    let has_two = n.sub_times(&one, 2);
    let below = n.least_multiple(of);
    let expected = if of.to_u128() == Some(1) {
        times.saturating_sub(1)
    } else {
        times
    };
    Ok(exactly && above && has_two == (times > 0) && below == Some(expected))
}

/// It is found for what the number is so many times and a half.
fn finds_halfway(of: &Natural, times: u64) -> Result<bool, Fail> {
    let mut twice = of.clone()?;
    twice.multiply(2)?;
    let mut n = twice.product(u128::from(times))?;
    n.add_assign(of)?;
    Ok(n.least_multiple(&twice) == times.checked_add(1))
}

/// The least multiple is found next to each multiple of the number, and between two.
struct FindsAround;

impl Case for FindsAround {
    fn holds(alloc: Global, words: &mut Words<'_>) -> Result<bool, Fail> {
        let of = next_of_shape(alloc, words)?;
        for times in TIMES {
            if !finds_next_to(alloc, &of, times)? || !finds_halfway(&of, times)? {
                return Ok(false);
            }
        }
        Ok(true)
    }
}

#[test]
fn least_multiples_next_to_a_multiple(rt: HostRuntime) -> Result<(), Fail> {
    all_hold::<FindsAround>(&rt, SHAPES, 24)
}

/// A number, a factor of it, another number, a factor of that, and the order of the products.
const COMPARED_MULTIPLES: &str = "\
    0x0 0 0x0 0 equal
    0x0 5 0x91d93080f9b439fc 0 equal
    0x1 6 0x2 3 equal
    0x1 7 0x2 3 greater
    0xffffffffffffffff 0xffffffffffffffff 0xffffffffffffffff 0xffffffffffffffff equal
    0x10000000000000000 0xffffffffffffffff 0xffffffffffffffff 0xffffffffffffffff greater
    0xffffffffffffffffffffffffffffffff 2 0x100000000000000000000000000000000 1 greater
    0xffffffffffffffffffffffffffffffff 1 0x100000000000000000000000000000000 1 less
    0x100000000000000000000000000000000 1 0x10000000000000000 0xffffffffffffffff greater
    0xe27655daa05f11193ceaaf308142c8ea 1000000000 0xe36bf9b3ddcb369d2330fcf1562ae4b8 1000000000 less
    0x6350c23e8656395226fd41f3740e2f25851de7e41ad8b1dc2 3 0x2a90533f5e24f3fea2fed31f31bcefa25d9f1a3d3013b9f0a 7 \
        equal
    0x6350c23e8656395226fd41f3740e2f25851de7e41ad8b1dc2 3 0x2a90533f5e24f3fea2fed31f31bcefa25d9f1a3d3013b9f0b 7 less
    0xaafe5f769b11f9da8dd4d5ec2be97ceb09c67056c58130be7e06f743ccfbbb1f46258a6004a7b51b\
        9fc1f8007f22a1d8c7ec948516a20f53ee5547dbb7a18718bcde2fc40e24ef4e23143a6d5d890127b 0xffffffffffffffff \
        0xf8b7d0ac84773cdfd59509652fc51bbae2d3c9553c7f913391d2389e9683b20123153311c5573d11\
        f6b4fc8c550fe3fbdd5540c0dc5c42277daf907e017396efb80cf43aac620bf094abb26aa205eb6afb857c78322172af 11 equal
    0xaafe5f769b11f9da8dd4d5ec2be97ceb09c67056c58130be7e06f743ccfbbb1f46258a6004a7b51b\
        9fc1f8007f22a1d8c7ec948516a20f53ee5547dbb7a18718bcde2fc40e24ef4e23143a6d5d890127a 0xffffffffffffffff \
        0xf8b7d0ac84773cdfd59509652fc51bbae2d3c9553c7f913391d2389e9683b20123153311c5573d11\
        f6b4fc8c550fe3fbdd5540c0dc5c42277daf907e017396efb80cf43aac620bf094abb26aa205eb6afb857c78322172af 11 less
    0xf8b7d0ac84773ce0ce4cda11b43c589bb120a366f0bbe9cf42f2dc05873f9bd066080f174c96d8e2\
        5cbd0ba3a1a6bcde3a124c647e02ff05b7c1dce27f7695f56fced11d2bd8a1e6047a8387cdde8d51 0 0x91d93080f9b439fc 1 \
        less
    0xf8b7d0ac84773ce0ce4cda11b43c589bb120a366f0bbe9cf42f2dc05873f9bd066080f174c96d8e2\
        5cbd0ba3a1a6bcde3a124c647e02ff05b7c1dce27f7695f56fced11d2bd8a1e6047a8387cdde8d51 1 0x91d93080f9b439fc \
        0xffffffffffffffff greater
    0x10000000000000000000000000000000000000000000000000000000000000000000000000000000\
        000000000000000000000000000000000000000000000000000000000000000000000000000000000 1 \
        0x10000000000000000000000000000000000000000000000000000000000000000000000000000000\
        00000000000000000000000000000000000000000000000000000000000000000 0xffffffffffffffff greater";

/// The products have this order, and the other one the other way round.
struct ComparedMultiples;

impl Case for ComparedMultiples {
    fn holds(alloc: Global, words: &mut Words<'_>) -> Result<bool, Fail> {
        let n = next_natural(alloc, words)?;
        let by = number(words)?;
        let other = next_natural(alloc, words)?;
        let other_by = number(words)?;
        let order = order(words)?;
        let turned = other.compare_times(other_by, &n, by);
        Ok(n.compare_times(by, &other, other_by) == order && turned == order.reverse())
    }
}

#[test]
fn multiples_compare(rt: HostRuntime) -> Result<(), Fail> {
    all_hold::<ComparedMultiples>(&rt, COMPARED_MULTIPLES, 17)
}

/// Such cases of five limbs and more. The highest limbs tell alone, or a lower limb does where they are
/// near or equal, or a factor is zero.
const COMPARED_LARGE_MULTIPLES: &str = "\
    0x20000000000000005000000000000000000000000000000000000000000000000 7 \
        0x20000000000000003ffffffffffffffffffffffffffffffffffffffffffffffff 7 greater
    0x90000000000000000000000000000000000000000000000000000000000000000 3 \
        0x4ffffffffffffffffffffffffffffffffffffffffffffffffffffffffffffffff 5 greater
    0x10000000000000000000000000000000000000000000000000000000000000000000000000000000\
        0 1 \
        0xffffffffffffffffffffffffffffffffffffffffffffffffffffffffffffffffffffffffffffffff 0xffffffffffffffff less
    0x10000000000000000000000000000000000000000000000000000000000000000000000000000000\
        000000000000000000000000000000000 1 \
        0xffffffffffffffffffffffffffffffffffffffffffffffffffffffffffffffffffffffffffffffff 0xffffffffffffffff greater
    0xffffffffffffffffffffffffffffffff000000000000000000000000000000000000000000000000 0xffffffffffffffff \
        0xfffffffffffffffffffffffffffffffdffffffffffffffffffffffffffffffffffffffffffffffff 0xffffffffffffffff greater
    0x80000000000000000000000000000000000000000000000000000000000000000000000000000000 5 \
        0x7fffffffffffffffffffffffffffffffffffffffffffffffffffffffffffffffffffffffffffffff 4 greater
    0x30000000000000001ffffffffffffffff00000000000000000000000000000000 5 \
        0x50000000000000003000000000000000000000000000000000000000000000000 3 greater
    0x300000000000000010000000000000000ffffffffffffffffffffffffffffffff 5 \
        0x50000000000000002000000000000000000000000000000000000000000000000 3 less
    0x7fffffffffffffffffffffffffffffffffffffffffffffffffffffffffffffffffffffffffffffff 4 \
        0xffffffffffffffffffffffffffffffff000000000000000000000000000000000000000000000000 2 greater
    0x50000000000000000000000000000000000000000000000000000000000000000 3 \
        0x4ffffffffffffffffffffffffffffffffffffffffffffffffffffffffffffffff 3 greater
    0x10000000000000000000000000000000000000000000000000000000000000000000000000000000\
        0 1 \
        0xffffffffffffffffffffffffffffffffffffffffffffffffffffffffffffffffffffffffffffffff 1 greater
    0x70000000000000009000000000000000500000000000000000000000000000000 3 \
        0x700000000000000090000000000000004ffffffffffffffffffffffffffffffff 3 greater
    0x70000000000000009000000000000000500000000000000010000000000000000 3 \
        0x7000000000000000900000000000000050000000000000000ffffffffffffffff 3 greater
    0x70000000000000009000000000000000500000000000000010000000000000001 3 \
        0x70000000000000009000000000000000500000000000000010000000000000000 3 greater
    0x40000000000000006000000000000000000000000000000000000000000000000 3 \
        0x60000000000000009000000000000000100000000000000000000000000000000 2 less
    0x40000000000000006000000000000000200000000000000080000000000000002 3 \
        0x600000000000000090000000000000003000000000000000c0000000000000003 2 equal
    0x70000000000000009000000000000000500000000000000010000000000000000000000000000000\
        300000000000000000000000000000000 0xffffffffffffffff \
        0x7000000000000000900000000000000050000000000000000fffffffffffffffffffffffffffffff\
        fffffffffffffffffffffffffffffffff 0xffffffffffffffff greater
    0x70000000000000009000000000000000500000000000000000000000000000000 0 \
        0x30000000000000001000000000000000000000000000000000000000000000000 0 equal
    0x70000000000000009000000000000000500000000000000000000000000000000 0 \
        0x30000000000000001000000000000000000000000000000000000000000000000 1 less
    0x70000000000000009000000000000000500000000000000000000000000000000 0 0x1 1 less
    0x70000000000000009000000000000000500000000000000000000000000000000 0 0x0 1 equal";

#[test]
fn large_multiples_compare(rt: HostRuntime) -> Result<(), Fail> {
    all_hold::<ComparedMultiples>(&rt, COMPARED_LARGE_MULTIPLES, 21)
}
