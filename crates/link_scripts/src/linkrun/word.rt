//! The words of a line.
ghost use Rattle.std.specs.Prelude.{◌≡◌, ◌↔◌, ℕ, ◌^◌, ◌<◌, ◌≤◌, ◌++◌, [], ◌∷◌, Some, IfSome, IfNone, IsTrue, length};
ghost use Rattle.std.specs.Prelude.{option_to_list, slice_index};
ghost use Rattle.std.specs.Option.{option_copied};
ghost use Rattle.link_scripts.specs.Script.{Takes, number_word, cap_word, flag_word, IsNumberInRange, IsCapInRange};
ghost use Rattle.link_scripts.specs.Script.{IsSmallCapInRange, IsLengthInRange, IsWeightInRange, weight_word};

use std::num::NonZeroU64;

/// The most bytes that a message has.
const MOST_LENGTH: usize = 67_108_864;

/// The most digits that a number of 64 bits surely has room for.
const MOST_DIGITS: usize = 19;

/// The byte between two words.
const SPACE: u8 = b' ';

/// The words of a line that are not taken yet. They stand with one space between each two.
#[derive(Drop)]
pub struct Words<'a> {
    /// Where they begin, if a word is left.
    rest: Option<&'a [u8]>,
}

impl<'a> Words<'a> {
    ghost use Rattle.link_scripts.specs.Words.{parts_of, words_left};

    /// All the words of a line.
    pub fn of(line: &'a [u8]) -> Words<'a>
        ensures { words_left result ≡ parts_of line.now }
    {
        Words { rest: Some(line) }
    }

    /// Takes the next word.
    #[inline(always)]
    pub fn next(&mut self) -> Option<&'a [u8]>
        ensures taken { words_left self.old ≡ option_to_list (option_copied result) ++ words_left self.new }
        ensures none { IfNone result (words_left self.old ≡ []) }
    {
        let rest = self.rest?;
        for at in 0..rest.len() {
            if rest[at] == SPACE {
                self.rest = Some(&rest[at + 1..]);
                return Some(&rest[..at]);
            }
        }
        self.rest = None;
        Some(rest)
    }

    /// Takes the next word, a number of 64 bits. It is inlined where a line is read, so that what is
    /// left of the line stays at hand.
    #[inline(always)]
    pub fn number(&mut self) -> Option<u64>
        ensures { Takes (λ n. number_word n ∷ []) IsNumberInRange (words_left self.old) result (words_left self.new) }
    {
        match self.short_number() {
            Some(number) => Some(number),
            None => number(self.next()?),
        }
    }

    /// Takes the next word if it is a number of at most 19 digits, in one pass over it.
    #[inline(always)]
    fn short_number(&mut self) -> Option<u64>
        ensures taken { IfSome result (λ n. (words_left self.old ≡ number_word n ∷ words_left self.new)
            × (n < 2 ^ 64)) }
        ensures kept { IfNone result (words_left self.new ≡ words_left self.old) }
    {
        let line = self.rest?;
        let most = line.len().min(MOST_DIGITS);
        let mut number = 0u64;
        for at in 0..most {
            let Some(digit) = (line[at] as char).to_digit(10) else {
                if line[at] != SPACE || !has_digits(line, at) {
                    return None;
                }
                self.rest = Some(&line[at + 1..]);
                return Some(number);
            };
            number = number * 10 + u64::from(digit);
        }
        if most < line.len() || !has_digits(line, most) {
            return None;
        }
        self.rest = None;
        Some(number)
    }

    /// Takes the next word, a cap in bytes a second or `-` for none.
    pub fn cap(&mut self) -> Option<Option<u128>>
        ensures { Takes (λ cap. cap_word cap ∷ []) IsCapInRange (words_left self.old) result (words_left self.new) }
    {
        match self.next()? {
            b"-" => Some(None),
            word => Some(Some(wide_number(word)?)),
        }
    }

    /// Takes the next word, a cap in bytes a second of 64 bits or `-` for none.
    pub fn small_cap(&mut self) -> Option<Option<usize>>
        ensures { Takes (λ cap. cap_word cap ∷ []) IsSmallCapInRange (words_left self.old) result
            (words_left self.new) }
    {
        match self.cap()? {
            None => Some(None),
            Some(cap) => Some(Some(usize::try_from(cap).ok()?)),
        }
    }

    /// Takes the next word, the length of a message.
    #[inline(always)]
    pub fn length(&mut self) -> Option<usize>
        ensures { Takes (λ n. number_word n ∷ []) IsLengthInRange (words_left self.old) result (words_left self.new) }
    {
        let length = self.number()? as usize;
        if length > MOST_LENGTH {
            return None;
        }
        Some(length)
    }

    /// Takes the next word, the weight of a flow.
    pub(crate) fn weight(&mut self) -> Option<NonZeroU64>
        ensures { Takes (λ w. weight_word w ∷ []) IsWeightInRange (words_left self.old) result (words_left self.new) }
    {
        NonZeroU64::new(self.number()?)
    }

    /// Takes the next word, `0` or `1`.
    #[inline(always)]
    pub fn flag(&mut self) -> Option<bool>
        ensures { Takes (λ flag. flag_word flag ∷ []) (λ _. Unit {0})
            (words_left self.old) result (words_left self.new) }
    {
        match self.next()? {
            b"0" => Some(false),
            b"1" => Some(true),
            _ => None,
        }
    }
}

/// Whether there are digits in front of a line, so many, and no zero in front of another one.
#[inline(always)]
fn has_digits(line: &[u8], count: usize) -> bool
    requires { count ≤ length line.now }
    ensures { IsTrue result → (0 < count) × (slice_index line.now 0 ≡ 48 → count ≡ 1) }
{
    count == 1 || (count > 1 && line[0] != b'0')
}

/// The number of at most 64 bits that a word is: decimal digits, with no sign, and with no zero in
/// front of another digit.
fn number(word: &[u8]) -> Option<u64>
    ensures { (n : ℕ) → (result ≡ Some n) ↔ ((word.now ≡ number_word n) × (n < 2 ^ 64)) }
{
    u64::try_from(wide_number(word)?).ok()
}

/// The number of at most 128 bits that a word is, written as one of 64 bits is.
fn wide_number(word: &[u8]) -> Option<u128>
    ensures { (n : ℕ) → (result ≡ Some n) ↔ ((word.now ≡ number_word n) × (n < 2 ^ 128)) }
{
    let word = str::from_utf8(word).ok()?;
    if word.starts_with('+') || (word.starts_with('0') && word.len() > 1) {
        return None;
    }
    word.parse().ok()
}
