//! Tables of cases as text: a line for each case, and in it words.
use crate::same::same;
use crate::text::wide_number_of;
use std::alloc::Global;
use std::cmp::Ordering;
use std::process::Abort;
use std::str::SplitWhitespace;
use std::test::Fail;

/// The words of a line, or those that are left of them.
pub type Words<'a> = SplitWhitespace<'a>;

/// What the lines of a table say.
pub trait Case {
    /// Takes the words of a case, and answers whether the case holds.
    fn holds(alloc: Global, words: &mut Words<'_>) -> Result<bool, Fail>;
}

/// The table has so many lines, each is a case and nothing more, and each case holds.
pub fn all_hold<C: Case>(
    rt: &(impl Abort + AllocGlobal),
    table: &str,
    lines: usize,
) -> Result<(), Fail> {
    same(rt, &table.lines().count(), &lines);
    for line in table.lines() {
        let mut words = line.split_whitespace();
        let holds = C::holds(rt.alloc(), &mut words)?;
        expect_case(rt, line, holds, words.next().is_none());
    }
    Ok(())
}

/// The case of a line holds, and has no word behind it.
fn expect_case(rt: &impl Abort, line: &str, holds: bool, is_whole: bool) {
    assert!(rt; holds, "{line}");
    assert!(rt; is_whole, "too many words: {line}");
}

/// The next word.
pub fn word<'a>(words: &mut Words<'a>) -> Result<&'a str, Fail> {
    Ok(words.next().ok_or("too few words")?)
}

/// The next word as a number of 128 bits.
pub fn wide_number(words: &mut Words<'_>) -> Result<u128, Fail> {
    wide_number_of(word(words)?)
}

/// The number of 64 bits of these digits.
pub fn number_of(digits: &str) -> Result<u64, Fail> {
    let number = u64::try_from(wide_number_of(digits)?);
    Ok(number.ok().ok_or("no number of 64 bits")?)
}

/// The next word as a number of 64 bits.
pub fn number(words: &mut Words<'_>) -> Result<u64, Fail> {
    number_of(word(words)?)
}

/// The next word as a number of 64 bits, or `none`.
pub fn number_or_none(words: &mut Words<'_>) -> Result<Option<u64>, Fail> {
    let digits = word(words)?;
    if digits == "none" {
        return Ok(None);
    }
    Ok(Some(number_of(digits)?))
}

/// The next word as `true` or `false`.
pub fn truth(words: &mut Words<'_>) -> Result<bool, Fail> {
    match word(words)? {
        "true" => Ok(true),
        "false" => Ok(false),
        _ => Err("neither true nor false".into()),
    }
}

/// The next word as `less`, `equal` or `greater`.
pub fn order(words: &mut Words<'_>) -> Result<Ordering, Fail> {
    match word(words)? {
        "less" => Ok(Ordering::Less),
        "equal" => Ok(Ordering::Equal),
        "greater" => Ok(Ordering::Greater),
        _ => Err("no order".into()),
    }
}
