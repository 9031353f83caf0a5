//! Numbers, fractions and rates as text.
use fairness::bandwidth::Rate;
use fairness::ratio::Ratio;
use std::alloc::Global;
use std::test::Fail;

/// The number of these decimal digits, or hexadecimal ones behind `0x`.
pub(crate) fn wide_number_of(digits: &str) -> Result<u128, Fail> {
    let number = match digits.strip_prefix("0x") {
        Some(digits) => u128::from_str_radix(digits, 16),
        None => digits.parse::<u128>(),
    };
    Ok(number.ok().ok_or("no number of 128 bits")?)
}

/// The fraction that a word says: `N/D`, `N`, or `zero`.
pub(crate) fn ratio_of(word: &str) -> Result<Ratio, Fail> {
    if word == "zero" {
        return Ok(Ratio::zero());
    }
    match word.split_once('/') {
        Some((num, den)) => {
            let ratio = Ratio::new(wide_number_of(num)?, wide_number_of(den)?);
            Ok(ratio.ok_or("a denominator of zero")?)
        }
        None => Ok(Ratio::from_whole(wide_number_of(word)?)),
    }
}

/// The rate that a word says: a fraction of bytes a second, or `unlimited`.
pub(crate) fn rate_of(word: &str) -> Result<Rate, Fail> {
    match word {
        "unlimited" => Ok(Rate::Unlimited),
        ratio => Ok(Rate::Finite(ratio_of(ratio)?)),
    }
}

/// The rates that a text lists: semicolons part them, and `none` is no rate.
pub(crate) fn rates(alloc: Global, text: &str) -> Result<Vec<Rate>, Fail> {
    let mut rates = Vec::new(alloc);
    if text != "none" {
        for word in text.split(';') {
            rates.push(rate_of(word)?)?;
        }
    }
    Ok(rates)
}
