//! Natural numbers of any size, against Python's.
mod multiples;

use super::table::{Case, Words, all_hold, number, order, truth, wide_number, word};
use crate::same::same;
use natural::Natural;
use std::alloc::Global;
use std::test::Fail;

/// A number of ten limbs.
const TEN_LIMBS: &str =
    "0xf8b7d0ac84773ce0ce4cda11b43c589bb120a366f0bbe9cf42f2dc05873f9bd066080f174c96d8e2\
    5cbd0ba3a1a6bcde3a124c647e02ff05b7c1dce27f7695f56fced11d2bd8a1e6047a8387cdde8d51";

/// The number of these hexadecimal digits.
fn natural(alloc: Global, text: &str) -> Result<Natural, Fail> {
    let mut n = Natural::from_u64(alloc, 0);
    for digit in text.chars().skip(2) {
        let digit = digit.to_digit(16).ok_or("no hexadecimal digit")?;
        n.multiply(16)?;
        n.add_assign(&Natural::from_u64(alloc, u64::from(digit)))?;
    }
    Ok(n)
}

/// The next word as a number in hexadecimal digits.
fn next_natural(alloc: Global, words: &mut Words<'_>) -> Result<Natural, Fail> {
    natural(alloc, word(words)?)
}

/// The hexadecimal digits of the number.
fn text(alloc: Global, n: &Natural) -> Result<String, Fail> {
    Ok(format!(in alloc; "{n:?}")?)
}

/// Whether these are the hexadecimal digits of the number.
fn reads(alloc: Global, n: &Natural, digits: &str) -> Result<bool, Fail> {
    Ok(text(alloc, n)?.as_str() == digits)
}

/// Two numbers and their sum.
const SUMS: &str = "\
    0x0 0x0 0x0
    0x0 0x91d93080f9b439fc 0x91d93080f9b439fc
    0xffffffffffffffff 0x1 0x10000000000000000
    0x91d93080f9b439fc 0xffffffffffffffff 0x191d93080f9b439fb
    0xffffffffffffffffffffffffffffffff 0x1 0x100000000000000000000000000000000
    0xfffffffffffffffffffffffffffffffb 0x4 0xffffffffffffffffffffffffffffffff
    0x1 0xffffffffffffffffffffffffffffffff 0x100000000000000000000000000000000
    0xffffffffffffffffffffffffffffffff 0xffffffffffffffffffffffffffffffff 0x1fffffffffffffffffffffffffffffffe
    0xe27655daa05f11193ceaaf308142c8ea 0xe36bf9b3ddcb369d2330fcf1562ae4b8 0x1c5e24f8e7e2a47b6601bac21d76dada2
    0xe301bbfca0c5154e0ff9bb510944fe0c9dfb369bab13dfae 0x9ad9b9a25e78454df065a1c284cc4549c1acc9906424550a \
        0x17ddb759eff3d5a9c005f5d138e1143565fa8002c0f3834b8
    0x91d93080f9b439fc \
        0xf8b7d0ac84773ce0ce4cda11b43c589bb120a366f0bbe9cf42f2dc05873f9bd066080f174c96d8e2\
        5cbd0ba3a1a6bcde3a124c647e02ff05b7c1dce27f7695f56fced11d2bd8a1e6047a8387cdde8d51 \
        0xf8b7d0ac84773ce0ce4cda11b43c589bb120a366f0bbe9cf42f2dc05873f9bd066080f174c96d8e2\
        5cbd0ba3a1a6bcde3a124c647e02ff05b7c1dce27f7695f56fced11d2bd8a1e69653b408c792c74d
    0xf8b7d0ac84773ce0ce4cda11b43c589bb120a366f0bbe9cf42f2dc05873f9bd066080f174c96d8e2\
        5cbd0ba3a1a6bcde3a124c647e02ff05b7c1dce27f7695f56fced11d2bd8a1e6047a8387cdde8d51 \
        0xab57f9854332c3da675a2e199b58ba8dc498b6e73648245edafa3a387f006745f3194a3b381e53e7\
        952c466e473a17978df08078a22ea180c5c2c2af3977a654993565976fbaf662f6a730b7b12e9eed \
        0x1a40fca31c7aa00bb35a7082b4f95132975b95a4e27040e2e1ded163e064003165921595284b52cc\
        9f1e95211e8e0d475c802ccdd2031a0867d849f91b8ee3c4a090436b49b939848fb21b43f7f0d2c3e
    0xffffffffffffffffffffffffffffffffffffffffffffffffffffffffffffffffffffffffffffffff\
        ffffffffffffffffffffffffffffffffffffffffffffffffffffffffffffffffffffffffffffffff 0x1 \
        0x10000000000000000000000000000000000000000000000000000000000000000000000000000000\
        000000000000000000000000000000000000000000000000000000000000000000000000000000000";

/// The sum is this, and less the second number is the first again.
struct Sum;

impl Case for Sum {
    fn holds(alloc: Global, words: &mut Words<'_>) -> Result<bool, Fail> {
        let first = word(words)?;
        let mut n = natural(alloc, first)?;
        let other = next_natural(alloc, words)?;
        n.add_assign(&other)?;
        let is_sum = reads(alloc, &n, word(words)?)?;
        n.sub_assign(&other);
        let is_first = reads(alloc, &n, first)?;
        Ok(is_sum && is_first)
    }
}

#[test]
fn sums_and_differences(rt: HostRuntime) -> Result<(), Fail> {
    all_hold::<Sum>(&rt, SUMS, 13)
}

/// A number, what is taken from it, how many times, what is left, and whether it was all there.
const DRAINED: &str = "\
    0x0 0x0 5 0x0 true
    0x91d93080f9b439fc 0x0 7 0x91d93080f9b439fc true
    0x0 0x91d93080f9b439fc 0 0x0 true
    0x0 0x91d93080f9b439fc 1 0x0 false
    0x91d93080f9b439fc 0x1 0x91d93080f9b439fc 0x0 true
    0x10000000000000000 0x1 0xffffffffffffffff 0x1 true
    0x100000000000000000000000000000000 0xffffffffffffffff 0xffffffffffffffff 0x1ffffffffffffffff true
    0x100000000000000000000000000000000 0x10000000000000000 0xffffffffffffffff 0x10000000000000000 true
    0xffffffffffffffffffffffffffffffff 0xffffffffffffffff 0xffffffffffffffff 0x1fffffffffffffffe true
    0xffffffffffffffffffffffffffffffff 0x10000000000000002 0xffffffffffffffff 0x0 false
    0x9ad9b9a25e78454df065a1c284cc4549c1acc9906424550a 0x91d93080f9b439fc 1000 \
        0x9ad9b9a25e78454df065a1c284cc4310094751c0fc21d4aa true
    0xe301bbfca0c5154e0ff9bb510944fe0c9dfb369bab13dfae 0xe27655daa05f11193ceaaf308142c8ea 1000000000 \
        0xe301bbfc6c0ae1a3a7c0d6a4eb8e586ddec6ca222dc73bae true
    0xf8b7d0ac84773ce0ce4cda11b43c589bb120a366f0bbe9cf42f2dc05873f9bd066080f174c96d8e2\
        5cbd0ba3a1a6bcde3a124c647e02ff05b7c1dce27f7695f56fced11d2bd8a1e6047a8387cdde8d51 \
        0xab57f9854332c3da675a2e199b58ba8dc498b6e73648245edafa3a387f006745f3194a3b381e53e7\
        952c466e473a17978df08078a22ea180c5c2c2af3977a654993565976fbaf662f6a730b7b12e9eed 1 \
        0x4d5fd7274144790666f2abf818e39e0dec87ec7fba73c57067f8a1cd083f348a72eec4dc147884fa\
        c790c5355a6ca546ac21cbebdbd45d84f1ff1a3345feefa0d6996b85bc1dab830dd352d01cafee64 true
    0xf8b7d0ac84773ce0ce4cda11b43c589bb120a366f0bbe9cf42f2dc05873f9bd066080f174c96d8e2\
        5cbd0ba3a1a6bcde3a124c647e02ff05b7c1dce27f7695f56fced11d2bd8a1e6047a8387cdde8d51 \
        0xab57f9854332c3da675a2e199b58ba8dc498b6e73648245edafa3a387f006745f3194a3b381e53e7\
        952c466e473a17978df08078a22ea180c5c2c2af3977a654993565976fbaf662f6a730b7b12e9eed 2 0x0 false
    0xf8b7d0ac84773ce0ce4cda11b43c589bb120a366f0bbe9cf42f2dc05873f9bd066080f174c96d8e2\
        5cbd0ba3a1a6bcde3a124c647e02ff05b7c1dce27f7695f56fced11d2bd8a1e6047a8387cdde8d51 \
        0xe301bbfca0c5154e0ff9bb510944fe0c9dfb369bab13dfae 0xffffffffffffffff \
        0xf8b7d0ac84773ce0ce4cda11b43c589bb120a366f0bbe9cf42f2dc05873f9bd066080f174c96d8e2\
        5cbd0ba3a1a6bcdd57109067dd3de9b88ac9dd8e16f6ad36e1cd55d28a09c044a275ba2378f26cff true
    0xffffffffffffffff0000000000000000000000000000000000000000000000000000000000000000\
        00000000000000000000000000000000000000000000000000000000000000000000000000000000 \
        0x10000000000000000000000000000000000000000000000000000000000000000000000000000000\
        00000000000000000000000000000000000000000000000000000000000000000 0xffffffffffffffff 0x0 true
    0xfffffffffffffffeffffffffffffffffffffffffffffffffffffffffffffffffffffffffffffffff\
        ffffffffffffffffffffffffffffffffffffffffffffffffffffffffffffffffffffffffffffffff \
        0x10000000000000000000000000000000000000000000000000000000000000000000000000000000\
        00000000000000000000000000000000000000000000000000000000000000000 0xffffffffffffffff 0x0 false
    0xe27655daa05f11193ceaaf308142c8ea \
        0xf8b7d0ac84773ce0ce4cda11b43c589bb120a366f0bbe9cf42f2dc05873f9bd066080f174c96d8e2\
        5cbd0ba3a1a6bcde3a124c647e02ff05b7c1dce27f7695f56fced11d2bd8a1e6047a8387cdde8d51 1 0x0 false
    0xe27655daa05f11193ceaaf308142c8ea \
        0xf8b7d0ac84773ce0ce4cda11b43c589bb120a366f0bbe9cf42f2dc05873f9bd066080f174c96d8e2\
        5cbd0ba3a1a6bcde3a124c647e02ff05b7c1dce27f7695f56fced11d2bd8a1e6047a8387cdde8d51 0 \
        0xe27655daa05f11193ceaaf308142c8ea true
    0x9c9c31ae2f9390af4a3cc3052800e0423eb71643ac5c72715d25341edc5fe85e427f474114d9fce \
        0x4dfc3c3b18c1c02ca946a04e9ff35ab32cc9d354d76fd97074406663d3e1ec74 1 \
        0x9c9c31ae2f9390aa6a78ff539be4dd77aa4d1159ad26c73e9087fed165625156fe78e103d6bb35a true
    0x10000000000000000000000000000000000000000000000000000000000000000000000000000000\
        00000000000000005 0xffffffffffffffffffffffffffffffffffffffffffffffffffffffffffffffff 1 \
        0xffffffffffffffffffffffffffffffff000000000000000000000000000000000000000000000000\
        0000000000000006 true
    0xd755df988d8960a49903f4cb5455eb3aa5ea88f7f53019588e822f9a9b04393e89fb1806dc3fe287\
        2a162b8dc835698d 0xd755df988d8960a49903f4cb5455eb3aa5ea88f7f53019588e822f9a9b04393e89fb1806dc3fe287\
        2a162b8dc8356986 1 0x7 true
    0x70aaeecb8cef81315d5428b382dab13887abe520799957b6c300ad617a256f586c26b2663b96c2c0\
        a9393b23fb97ede570ce4cc1deb4d199 \
        0x70aaeecb8cef81315d5428b382dab1381b1ba5b4960e55ce9476c36e9cfce8d077925b84ebd65788\
        65304a98408287b0b802c47fd7a878c1 1 \
        0x6c903f6be38b01e82e89e9f2dd288687f49456e14fc06b384408f08bbb156634b8cb8842070c58d8 true
    0x7b32f03b4bbf220aa7a5d06c63479d633db9fbc48ce34f1b85c100f3197ca28b4ddf1249a551d8ed\
        237a2 0x812edf7b27ebd0041ecf2f657d21932c4e63bdd32d8a17835736b6c19f345fcd66696d1608d5a175 1000003 \
        0x69b279ab2142b33c5624dafcee052f961de031b0bd23bff6b6984006043d69ac498958db56dcc03 true
    0xffffffffffffffffffffffffffffffffffffffffffffffffffffffffffffffffffffffffffffffff\
        ffffffffffffffffffffffffffffffffffffffffffffffff \
        0x55555555555555555555555555555555555555555555555555555555555555555555555555555555\
        555555555555555555555555555555555555555555555555 3 0x0 true
    0x10000000000000000000000000000000000000000000000000000000000000000000000000000000\
        000000000000000000000000000000000 0x1 18446744073709551615 \
        0xffffffffffffffffffffffffffffffffffffffffffffffffffffffffffffffffffffffffffffffff\
        ffffffffffffffff0000000000000001 true
    0x69929633dd28e21a6711600ca7052b9d451260fca83e5d8fe141d4ad2c080f4b82c8298b35c73779 \
        0xe92564b248e4b43de860322ffc62516c89bb75e420af07e994e5e19e8b2a32bbd0fcdf45e1defb12\
        3b9cd8e7d86806e2 2 0x0 false";

/// This is left, also as a new number, and the answer is whether the number covered what was taken.
struct Drained;

impl Case for Drained {
    fn holds(alloc: Global, words: &mut Words<'_>) -> Result<bool, Fail> {
        let mut n = next_natural(alloc, words)?;
        let rate = next_natural(alloc, words)?;
        let by = number(words)?;
        let left = n.left_after(&rate, by)?;
        let answer = n.sub_times(&rate, by);
        let digits = word(words)?;
        let is_left = reads(alloc, &n, digits)? && reads(alloc, &left, digits)?;
        Ok(is_left && answer == truth(words)?)
    }
}

#[test]
fn multiples_are_drained(rt: HostRuntime) -> Result<(), Fail> {
    all_hold::<Drained>(&rt, DRAINED, 27)
}

/// A number, what is taken from it, what is left, and whether it was all there.
const SUBTRACTED: &str = "\
    0x0 0x0 0x0 true
    0x0 0x1 0x0 false
    0x91d93080f9b439fc 0x0 0x91d93080f9b439fc true
    0x91d93080f9b439fc 0x91d93080f9b439fc 0x0 true
    0x91d93080f9b439fc 0x91d93080f9b439fd 0x0 false
    0x10000000000000000 0x1 0xffffffffffffffff true
    0xffffffffffffffffffffffffffffffff 0xffffffffffffffffffffffffffffffff 0x0 true
    0xfffffffffffffffffffffffffffffffe 0xffffffffffffffffffffffffffffffff 0x0 false
    0xffffffffffffffffffffffffffffffff 0x100000000000000000000000000000000 0x0 false
    0x100000000000000000000000000000000 0x100000000000000000000000000000000 0x0 true
    0x100000000000000000000000000000000 0x1 0xffffffffffffffffffffffffffffffff true
    0x100000000000000000000000000000000 0xffffffffffffffffffffffffffffffff 0x1 true
    0x100000000000000000000000000000000 0x0 0x100000000000000000000000000000000 true
    0x200000000000000000000000000000000 0x1ffffffffffffffffffffffffffffffff 0x1 true
    0x200000000000000000000000000000000 0x200000000000000000000000000000001 0x0 false
    0x10000000000000000000000000000000000000000000000000000000000000000 0x1 \
        0xffffffffffffffffffffffffffffffffffffffffffffffffffffffffffffffff true
    0x10000000000000000000000000000000000000000000000000000000000000000 0x100000000000000000000000000000001 \
        0xfffffffffffffffffffffffffffffffeffffffffffffffffffffffffffffffff true
    0x20000000000000000000000000000000000000000000000000000000000000000 \
        0xffffffffffffffff00000000000000000000000000000000 \
        0x1ffffffffffffffff000000000000000100000000000000000000000000000000 true
    0x10000000000000000000000000000000000000000000000000000000000000000000000000000000\
        0000000000000000000000000000000000000000000000000000000000000000000000000000000000000000000000000 0x1 \
        0xffffffffffffffffffffffffffffffffffffffffffffffffffffffffffffffffffffffffffffffff\
        ffffffffffffffffffffffffffffffffffffffffffffffffffffffffffffffffffffffffffffffffffffffffffffffff true
    0x20000000000000007000000000000000000000000000000000000000000000000000000000000000\
        0000000000000000000000000000000000000000000000000000000000000000000000000000000000000000000000000 \
        0x800000000000000000000000000000000 \
        0x20000000000000006fffffffffffffffffffffffffffffffffffffffffffffffffffffffffffffff\
        ffffffffffffffffffffffffffffffffffffffffffffffffffffffffffffffff800000000000000000000000000000000 true
    0xf8b7d0ac84773ce0ce4cda11b43c589bb120a366f0bbe9cf42f2dc05873f9bd066080f174c96d8e2\
        5cbd0ba3a1a6bcde3a124c647e02ff05b7c1dce27f7695f56fced11d2bd8a1e6047a8387cdde8d51 \
        0xab57f9854332c3da675a2e199b58ba8dc498b6e73648245edafa3a387f006745f3194a3b381e53e7\
        952c466e473a17978df08078a22ea180c5c2c2af3977a654993565976fbaf662f6a730b7b12e9eed \
        0x4d5fd7274144790666f2abf818e39e0dec87ec7fba73c57067f8a1cd083f348a72eec4dc147884fa\
        c790c5355a6ca546ac21cbebdbd45d84f1ff1a3345feefa0d6996b85bc1dab830dd352d01cafee64 true
    0xf8b7d0ac84773ce0ce4cda11b43c589bb120a366f0bbe9cf42f2dc05873f9bd066080f174c96d8e2\
        5cbd0ba3a1a6bcde3a124c647e02ff05b7c1dce27f7695f56fced11d2bd8a1e6047a8387cdde8d51 \
        0xf8b7d0ac84773ce0ce4cda11b43c589bb120a366f0bbe9cf42f2dc05873f9bd066080f174c96d8e2\
        5cbd0ba3a1a6bcde3a124c647e02ff05b7c1dce27f7695f56fced11d2bd8a1e6047a8387cdde8d51 0x0 true
    0xf8b7d0ac84773ce0ce4cda11b43c589bb120a366f0bbe9cf42f2dc05873f9bd066080f174c96d8e2\
        5cbd0ba3a1a6bcde3a124c647e02ff05b7c1dce27f7695f56fced11d2bd8a1e6047a8387cdde8d51 \
        0xf8b7d0ac84773ce0ce4cda11b43c589bb120a366f0bbe9cf42f2dc05873f9bd066080f174c96d8e2\
        5cbd0ba3a1a6bcde3a124c647e02ff05b7c1dce27f7695f56fced11d2bd8a1e6047a8387cdde8d52 0x0 false
    0xe27655daa05f11193ceaaf308142c8ea \
        0xf8b7d0ac84773ce0ce4cda11b43c589bb120a366f0bbe9cf42f2dc05873f9bd066080f174c96d8e2\
        5cbd0ba3a1a6bcde3a124c647e02ff05b7c1dce27f7695f56fced11d2bd8a1e6047a8387cdde8d51 0x0 false";

/// This is left, and the answer is whether the number covered what was taken.
struct Subtracted;

impl Case for Subtracted {
    fn holds(alloc: Global, words: &mut Words<'_>) -> Result<bool, Fail> {
        let mut n = next_natural(alloc, words)?;
        let other = next_natural(alloc, words)?;
        let answer = n.subtract(&other);
        let is_left = reads(alloc, &n, word(words)?)?;
        Ok(is_left && answer == truth(words)?)
    }
}

#[test]
fn numbers_are_subtracted(rt: HostRuntime) -> Result<(), Fail> {
    all_hold::<Subtracted>(&rt, SUBTRACTED, 24)
}

/// A number, a factor of 64 bits, and their product.
const PRODUCTS: &str = "\
    0x0 7 0x0
    0x91d93080f9b439fc 0 0x0
    0xf8b7d0ac84773ce0ce4cda11b43c589bb120a366f0bbe9cf42f2dc05873f9bd066080f174c96d8e2\
        5cbd0ba3a1a6bcde3a124c647e02ff05b7c1dce27f7695f56fced11d2bd8a1e6047a8387cdde8d51 0 0x0
    0x91d93080f9b439fc 1 0x91d93080f9b439fc
    0xffffffffffffffff 0xffffffffffffffff 0xfffffffffffffffe0000000000000001
    0x10000000000000000 0xffffffffffffffff 0xffffffffffffffff0000000000000000
    0xffffffffffffffffffffffffffffffff 2 0x1fffffffffffffffffffffffffffffffe
    0xffffffffffffffffffffffffffffffff 0xffffffffffffffff 0xfffffffffffffffeffffffffffffffff0000000000000001
    0xffffffffffffffffffffffffffffffff 1 0xffffffffffffffffffffffffffffffff
    0x100000000000000000000000000000000 1 0x100000000000000000000000000000000
    0xe27655daa05f11193ceaaf308142c8ea 1000000000 0x34ba33aa6838e4ac1db6a59ebf346c797d4ca400
    0xe301bbfca0c5154e0ff9bb510944fe0c9dfb369bab13dfae 0xc8668d77e827062c \
        0xb1b44b008c76bb4065d1b27328878b54f6814785856f80e2f6f9eb62a22a85e8
    0xf8b7d0ac84773ce0ce4cda11b43c589bb120a366f0bbe9cf42f2dc05873f9bd066080f174c96d8e2\
        5cbd0ba3a1a6bcde3a124c647e02ff05b7c1dce27f7695f56fced11d2bd8a1e6047a8387cdde8d51 0xc8668d77e827062c \
        0xc2b33db5a92773555383813482d2e2937ba00e5ad3f2d1f1e04cb7ba18f73cb886715b166af9b9ac\
        15eaa60c96503d8347a231bbe0a2821f6c22c378ea7e81e51a602c53f3cdf95443a512b9cb77c3189cf524ca88e72fec
    0xffffffffffffffffffffffffffffffffffffffffffffffffffffffffffffffffffffffffffffffff\
        ffffffffffffffffffffffffffffffffffffffffffffffffffffffffffffffffffffffffffffffff 0xffffffffffffffff \
        0xfffffffffffffffeffffffffffffffffffffffffffffffffffffffffffffffffffffffffffffffff\
        ffffffffffffffffffffffffffffffffffffffffffffffffffffffffffffffffffffffffffffffff0000000000000001";

/// The number becomes the product.
struct Product;

impl Case for Product {
    fn holds(alloc: Global, words: &mut Words<'_>) -> Result<bool, Fail> {
        let mut n = next_natural(alloc, words)?;
        n.multiply(number(words)?)?;
        reads(alloc, &n, word(words)?)
    }
}

#[test]
fn products(rt: HostRuntime) -> Result<(), Fail> {
    all_hold::<Product>(&rt, PRODUCTS, 14)
}

/// A number, a factor of 128 bits, and their product.
const WIDE_PRODUCTS: &str = "\
    0x0 0xffffffffffffffffffffffffffffffff 0x0
    0x91d93080f9b439fc 0 0x0
    0xf8b7d0ac84773ce0ce4cda11b43c589bb120a366f0bbe9cf42f2dc05873f9bd066080f174c96d8e2\
        5cbd0ba3a1a6bcde3a124c647e02ff05b7c1dce27f7695f56fced11d2bd8a1e6047a8387cdde8d51 0 0x0
    0x1 0xffffffffffffffffffffffffffffffff 0xffffffffffffffffffffffffffffffff
    0x91d93080f9b439fc 0xffffffffffffffff 0x91d93080f9b439fb6e26cf7f064bc604
    0xffffffffffffffff 0x10000000000000000 0xffffffffffffffff0000000000000000
    0xffffffffffffffff 0x10000000000000001 0xffffffffffffffffffffffffffffffff
    0xffffffffffffffff 0x10000000000000002 0x10000000000000000fffffffffffffffe
    0xffffffffffffffffffffffffffffffff 0xffffffffffffffffffffffffffffffff \
        0xfffffffffffffffffffffffffffffffe00000000000000000000000000000001
    0xe27655daa05f11193ceaaf308142c8ea 0xe36bf9b3ddcb369d2330fcf1562ae4b8 \
        0xc92e727af508ee03e94a9611cff46ecd5e810705c0353726ed9c3eb9f554d030
    0xe301bbfca0c5154e0ff9bb510944fe0c9dfb369bab13dfae 0x10000000000000000 \
        0xe301bbfca0c5154e0ff9bb510944fe0c9dfb369bab13dfae0000000000000000
    0xe301bbfca0c5154e0ff9bb510944fe0c9dfb369bab13dfae 0xe36bf9b3ddcb369d2330fcf1562ae4b8 \
        0xc9aa48d6c3e1d05f185bd2702c64fef75d164f7c1e91f69e269fd733412a774ce2b97d75d00bbd10
    0xf8b7d0ac84773ce0ce4cda11b43c589bb120a366f0bbe9cf42f2dc05873f9bd066080f174c96d8e2\
        5cbd0ba3a1a6bcde3a124c647e02ff05b7c1dce27f7695f56fced11d2bd8a1e6047a8387cdde8d51 0xc8668d77e827062c \
        0xc2b33db5a92773555383813482d2e2937ba00e5ad3f2d1f1e04cb7ba18f73cb886715b166af9b9ac\
        15eaa60c96503d8347a231bbe0a2821f6c22c378ea7e81e51a602c53f3cdf95443a512b9cb77c3189cf524ca88e72fec
    0xf8b7d0ac84773ce0ce4cda11b43c589bb120a366f0bbe9cf42f2dc05873f9bd066080f174c96d8e2\
        5cbd0ba3a1a6bcde3a124c647e02ff05b7c1dce27f7695f56fced11d2bd8a1e6047a8387cdde8d51 \
        0xe36bf9b3ddcb369d2330fcf1562ae4b8 \
        0xdcf3e576bb8bec413a92aaedb5051004a49611d33164d77afd1625b637e45ee76eec56fb72b634d2\
        042205844d4b607676c68ff6555e62af802ab8fe5b6813c08eb124f4cb5d9ffda896de588cce2ec66c\
        aaf4ab841566d2fc72cc33931bb638";

/// The product is this.
struct WideProduct;

impl Case for WideProduct {
    fn holds(alloc: Global, words: &mut Words<'_>) -> Result<bool, Fail> {
        let n = next_natural(alloc, words)?.product(wide_number(words)?)?;
        reads(alloc, &n, word(words)?)
    }
}

#[test]
fn products_with_128_bits(rt: HostRuntime) -> Result<(), Fail> {
    all_hold::<WideProduct>(&rt, WIDE_PRODUCTS, 14)
}

/// A number, a divisor, the quotient and the remainder.
const QUOTIENTS: &str = "\
    0x0 1 0x0 0
    0x0 0xffffffffffffffff 0x0 0
    0x91d93080f9b439fc 1 0x91d93080f9b439fc 0
    0x91d93080f9b439fc 7 0x14d5e25b9162e3b6 2
    0xffffffffffffffff 0xffffffffffffffff 0x1 0
    0x10000000000000000 0xffffffffffffffff 0x1 1
    0x10000000000000000 2 0x8000000000000000 0
    0xffffffffffffffffffffffffffffffff 0xffffffffffffffff 0x10000000000000001 0
    0xffffffffffffffffffffffffffffffff 1000000000 0x44b82fa09b5a52cb98b405447 0x2dc9f9ff
    0x100000000000000000000000000000000 3 0x55555555555555555555555555555555 1
    0x100000000000000000000000000000000 0xffffffffffffffff 0x10000000000000001 1
    0xe27655daa05f11193ceaaf308142c8ea 0xc8668d77e827062c 0x1214acf974ee2701e 0x84b097495f24cfc2
    0xe301bbfca0c5154e0ff9bb510944fe0c9dfb369bab13dfae 0xc8668d77e827062c 0x121fce28802ebeeeb8c701fdb6785c295 \
        0x6f01167e10d3f012
    0xe301bbfca0c5154e0ff9bb510944fe0c9dfb369bab13dfae 1000000007 0x3cefc962cc96e7c6a6fbf71198862888242044714 \
        0x1ed82622
    0xf8b7d0ac84773ce0ce4cda11b43c589bb120a366f0bbe9cf42f2dc05873f9bd066080f174c96d8e2\
        5cbd0ba3a1a6bcde3a124c647e02ff05b7c1dce27f7695f56fced11d2bd8a1e6047a8387cdde8d51 0xc8668d77e827062c \
        0x13db901c53e6f1c444c088921e69b39760c1ac6b4f949f88c50a85071809920d8a9f6e4d496fbfc8\
        800664a64f911db31e23a42584c02bb11e1d2a077fee32fdd3285c0c06d095275 0x5e7a0b5e4082a335
    0x10000000000000000000000000000000000000000000000000000000000000000000000000000000\
        000000000000000000000000000000000000000000000000000000000000000000000000000000000 2 \
        0x80000000000000000000000000000000000000000000000000000000000000000000000000000000\
        00000000000000000000000000000000000000000000000000000000000000000000000000000000 0";

/// Quotient and remainder are these.
struct Quotient;

impl Case for Quotient {
    fn holds(alloc: Global, words: &mut Words<'_>) -> Result<bool, Fail> {
        let mut n = next_natural(alloc, words)?;
        let by = number(words)?;
        if by == 0 {
            return Ok(false);
        }
        let remainder = n.remainder(by);
        let answer = n.divide(by);
        let is_quotient = reads(alloc, &n, word(words)?)?;
        Ok(is_quotient && answer == remainder && answer == number(words)?)
    }
}

#[test]
fn quotients(rt: HostRuntime) -> Result<(), Fail> {
    all_hold::<Quotient>(&rt, QUOTIENTS, 16)
}

/// Two numbers and their order.
const COMPARED: &str = "\
    0x0 0x0 equal
    0x0 0x1 less
    0x91d93080f9b439fc 0x91d93080f9b439fc equal
    0xffffffffffffffff 0x10000000000000000 less
    0xffffffffffffffffffffffffffffffff 0x100000000000000000000000000000000 less
    0x100000000000000000000000000000000 0x100000000000000000000000000000000 equal
    0x100000000000000000000000000000001 0x100000000000000000000000000000000 greater
    0x200000000000000000000000000000000 0x100000000000000000000000000000001 greater
    0xe301bbfca0c5154e0ff9bb510944fe0c9dfb369bab13dfae 0x9ad9b9a25e78454df065a1c284cc4549c1acc9906424550a greater
    0xf8b7d0ac84773ce0ce4cda11b43c589bb120a366f0bbe9cf42f2dc05873f9bd066080f174c96d8e2\
        5cbd0ba3a1a6bcde3a124c647e02ff05b7c1dce27f7695f56fced11d2bd8a1e6047a8387cdde8d51 \
        0xf8b7d0ac84773ce0ce4cda11b43c589bb120a366f0bbe9cf42f2dc05873f9bd066080f174c96d8e2\
        5cbd0ba3a1a6bcde3a124c647e02ff05b7c1dce27f7695f56fced11d2bd8a1e6047a8387cdde8d51 equal
    0xf8b7d0ac84773ce0ce4cda11b43c589bb120a366f0bbe9cf42f2dc05873f9bd066080f174c96d8e2\
        5cbd0ba3a1a6bcde3a124c647e02ff05b7c1dce27f7695f56fced11d2bd8a1e6047a8387cdde8d51 \
        0xf8b7d0ac84773ce0ce4cda11b43c589bb120a366f0bbe9cf42f2dc05873f9bd066080f174c96d8e2\
        5cbd0ba3a1a6bcde3a124c647e02ff05b7c1dce27f7695f56fced11d2bd8a1e6047a8387cdde8d52 less
    0xf8b7d0ac84773ce0ce4cda11b43c589bb120a366f0bbe9cf42f2dc05873f9bd066080f174c96d8e2\
        5cbd0ba3a1a6bcde3a124c647e02ff05b7c1dce27f7695f56fced11d2bd8a1e6047a8387cdde8d51 \
        0xe301bbfca0c5154e0ff9bb510944fe0c9dfb369bab13dfae greater
    0x10000000000000000000000000000000000000000000000000000000000000000000000000000000\
        00000000000000000000000000000000000000000000000000000000000000005 \
        0x10000000000000000000000000000000000000000000000000000000000000000000000000000000\
        000000000000000000000000000000000000000000000000000000000000000000000000000000000 less";

/// The numbers have this order by each way of comparing them.
struct Compared;

impl Case for Compared {
    fn holds(alloc: Global, words: &mut Words<'_>) -> Result<bool, Fail> {
        let n = next_natural(alloc, words)?;
        let other = next_natural(alloc, words)?;
        let order = order(words)?;
        let is_order = n.cmp(&other) == order && n.partial_cmp(&other) == Some(order);
        let is_turned = other.cmp(&n) == order.reverse();
        Ok(is_order && is_turned && (n == other) == order.is_eq() && (n < other) == order.is_lt())
    }
}

#[test]
fn numbers_compare(rt: HostRuntime) -> Result<(), Fail> {
    all_hold::<Compared>(&rt, COMPARED, 13)
}

/// Numbers of 64 bits.
const SMALL: &str = "\
    0
    1
    0xfffffffffffffffe
    0xffffffffffffffff";

/// The number is the same in 128 bits, and zero where it is 0.
struct Small;

impl Case for Small {
    fn holds(alloc: Global, words: &mut Words<'_>) -> Result<bool, Fail> {
        let n = number(words)?;
        let small = Natural::from_u64(alloc, n);
        Ok(small.to_u128() == Some(u128::from(n)) && small.is_zero() == (n == 0))
    }
}

/// Numbers of 128 bits.
const WIDE: &str = "\
    0
    0x10000000000000000
    0xfffffffffffffffffffffffffffffffe
    0xffffffffffffffffffffffffffffffff";

/// The number is the same in 128 bits, and zero where it is 0.
struct Wide;

impl Case for Wide {
    fn holds(alloc: Global, words: &mut Words<'_>) -> Result<bool, Fail> {
        let n = wide_number(words)?;
        let wide = Natural::from_u128(alloc, n);
        Ok(wide.to_u128() == Some(n) && wide.is_zero() == (n == 0))
    }
}

#[test]
fn small_numbers(rt: HostRuntime) -> Result<(), Fail> {
    all_hold::<Small>(&rt, SMALL, 4)?;
    all_hold::<Wide>(&rt, WIDE, 4)
}

#[test]
fn numbers_that_fit_in_128_bits(rt: HostRuntime) -> Result<(), Fail> {
    let alloc = rt.alloc();
    let one = Natural::from_u64(alloc, 1);
    let mut n = Natural::from_u128(alloc, u128::MAX);
    n.add_assign(&one)?;
    same(&rt, &n.to_u128(), &None);
    assert!(rt; !n.is_zero());
    n.sub_assign(&one);
    same(&rt, &n.to_u128(), &Some(u128::MAX));
    same(&rt, &natural(alloc, TEN_LIMBS)?.to_u128(), &None);
    Ok(())
}

/// A number, its highest limbs, and how many limbs are below these.
const HIGHEST: &str = "\
    0x0 0x0 0
    0x1 0x1 0
    0x10000000000000000 0x10000000000000000 0
    0xffffffffffffffffffffffffffffffff 0xffffffffffffffffffffffffffffffff 0
    0x100000000000000000000000000000000 0x10000000000000000 1
    0x10000000000000000ffffffffffffffff 0x10000000000000000 1
    0xffffffffffffffffffffffffffffffffffffffffffffffff 0xffffffffffffffffffffffffffffffff 1
    0x1000000000000000000000000000000000000000000000000 0x10000000000000000 2
    0x1e27655daa05f11193ceaaf308142c8ea91d93080f9b439fc 0x1e27655daa05f1119 2
    0xd23f0824128b2f330c5c7fd0a6a3a4506513270e269e0d37f2a74de452e6b438 0xd23f0824128b2f330c5c7fd0a6a3a450 2
    0x100000000000000003a3897650ed904759531985d5d9dc9f81818e811892f902b 0x10000000000000000 3
    0x7c5be856423b9e7067266d08da1e2c4dd89051b3785df4e7a1796e02c39fcde83304078ba64b6c71\
        2e5e85d1d0d35e6f1d0926323f017f82dbe0ee713fbb4afab7e7688e95ec50f3 \
        0x7c5be856423b9e7067266d08da1e2c4d 7
    0xf8b7d0ac84773ce0ce4cda11b43c589bb120a366f0bbe9cf42f2dc05873f9bd066080f174c96d8e2\
        5cbd0ba3a1a6bcde3a124c647e02ff05b7c1dce27f7695f56fced11d2bd8a1e6047a8387cdde8d51 \
        0xf8b7d0ac84773ce0ce4cda11b43c589b 8";

/// These are the highest limbs.
struct Highest;

impl Case for Highest {
    fn holds(alloc: Global, words: &mut Words<'_>) -> Result<bool, Fail> {
        let n = next_natural(alloc, words)?;
        let (highest, below) = n.highest_limbs();
        Ok(highest == wide_number(words)? && below as u64 == number(words)?)
    }
}

#[test]
fn highest_limbs(rt: HostRuntime) -> Result<(), Fail> {
    all_hold::<Highest>(&rt, HIGHEST, 13)
}

#[test]
fn a_clone_stays_as_it_was(rt: HostRuntime) -> Result<(), Fail> {
    let alloc = rt.alloc();
    let mut n = natural(alloc, TEN_LIMBS)?;
    let copy = n.clone()?;
    same(&rt, &copy, &n);
    n.multiply(3)?;
    same(&rt, &(copy == n), &false);
    same(&rt, &reads(alloc, &copy, TEN_LIMBS)?, &true);
    Ok(())
}

/// The product of the numbers from 1 to 60.
fn factorial(alloc: Global) -> Result<Natural, Fail> {
    let mut n = Natural::from_u64(alloc, 1);
    for k in 1..=60 {
        n.multiply(k)?;
    }
    Ok(n)
}

/// A divisor, and the remainder of the factorial of 60.
const FACTORIAL_RESTS: &str = "\
    61 60
    1000000007 16340084
    0xffffffffffffffff 6316780000497819180";

/// The factorial leaves this remainder.
struct FactorialRest;

impl Case for FactorialRest {
    fn holds(alloc: Global, words: &mut Words<'_>) -> Result<bool, Fail> {
        let n = factorial(alloc)?;
        let by = number(words)?;
        let rest = number(words)?;
        Ok(by != 0 && n.remainder(by) == rest)
    }
}

#[test]
fn a_factorial(rt: HostRuntime) -> Result<(), Fail> {
    all_hold::<FactorialRest>(&rt, FACTORIAL_RESTS, 3)?;
    let mut n = factorial(rt.alloc())?;
    for k in 1..=60 {
        same(&rt, &n.divide(k), &0);
    }
    same(&rt, &n.to_u128(), &Some(1));
    Ok(())
}
