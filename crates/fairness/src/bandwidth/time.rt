//! How long what is left takes at a rate, and what is left after a time.
ghost use Rattle.std.specs.Prelude.{◌≡◌, ℕ, ◌+◌, ◌^◌, ◌<◌, ◌≤◌, ◌↔◌, Option, IsSome, IfSome};
ghost use Rattle.std.specs.Prelude.{IsOk, IfOk, IfErr};
ghost use Rattle.fairness.specs.Numbers.Amount.{Amount, drained, IsLeastTime};
ghost use Rattle.fairness.specs.Numbers.Ratio.{amount_of};
ghost use Rattle.fairness.specs.declared.bandwidth.Rate.{Rate as AnyRate};
ghost use Rattle.fairness.specs.Numbers.Draining.{TimeFits, SecondsFit, IsDuration};
ghost use Rattle.fairness.specs.Numbers.Draining.{TransferFits, TakenFits, left_after};

use crate::bandwidth::Rate;
use crate::error::Error;
use crate::ratio::Ratio;

/// Nanoseconds in a second.
const BILLION: u128 = 1_000_000_000;

/// In how many whole nanoseconds nothing of `remaining` bytes is left: the least number of them.
///
/// That is zero at no limit, also where nothing remains. `None` stands for never and for a time
/// past 18446744073709551615: at rate zero always, also where nothing remains.
///
/// # Errors
///
/// `NumberTooLarge` exactly where the rate is finite and above zero and the time in seconds or the
/// time in nanoseconds, each as a fraction in lowest terms, does not fit in a `Ratio`.
pub fn duration(rate: &Rate, remaining: &Ratio) -> Result<Option<u64>, Error>
    ensures fits { IsOk result ↔ TimeFits rate.now (amount_of remaining.now) }
    ensures value { IfOk result (λ time. IsDuration rate.now (amount_of remaining.now) time) }
    ensures refused { IfErr result (λ e. e ≡ Error.NumberTooLarge) }
{
    match *rate {
        Rate::Unlimited => Ok(Some(0)),
        Rate::Finite(rate) if rate.is_zero() => Ok(None),
        Rate::Finite(rate) => {
            let time = least_time(rate, *remaining).ok_or(Error::NumberTooLarge)?;
            Ok(u64::try_from(time).ok())
        }
    }
}

/// The least number of nanoseconds at a rate above zero.
fn least_time(rate: Ratio, remaining: Ratio) -> Option<u128>
    requires { 0 < (amount_of rate).num }
    ensures fits { IsSome result ↔ SecondsFit (amount_of rate) (amount_of remaining) }
    ensures value { IfSome result (λ n. IsLeastTime (amount_of rate) (amount_of remaining) n) }
{
    let seconds = remaining.checked_div(rate)?;
    let nanoseconds = seconds.checked_mul(Ratio::from_whole(BILLION))?;
    Some(nanoseconds.ceil())
}

/// What is left of `remaining` bytes after `elapsed` nanoseconds at the rate, exactly, or nothing
/// where they would take more. At no limit nothing is left, also after no time.
///
/// # Errors
///
/// `NumberTooLarge` exactly where `remaining`, the rate and `elapsed` are above zero, the rate is
/// finite, and either what it takes in that time does not fit in a `Ratio`, or that is less than
/// `remaining` and `checked_sub` refuses to take it off.
pub fn transfer(rate: &Rate, elapsed: u64, remaining: Ratio) -> Result<Ratio, Error>
    ensures fits { IsOk result ↔ TransferFits rate.now elapsed (amount_of remaining) }
    ensures value { IfOk result (λ rest.
        amount_of rest ≡ left_after rate.now elapsed (amount_of remaining)) }
    ensures refused { IfErr result (λ e. e ≡ Error.NumberTooLarge) }
{
    match *rate {
        Rate::Unlimited => Ok(Ratio::zero()),
        Rate::Finite(rate) if remaining.is_zero() || rate.is_zero() || elapsed == 0 => {
            Ok(remaining)
        }
        Rate::Finite(rate) => drain(rate, elapsed, remaining).ok_or(Error::NumberTooLarge),
    }
}

/// What is left after some time at a finite rate.
fn drain(rate: Ratio, elapsed: u64, remaining: Ratio) -> Option<Ratio>
    ensures fits { IsSome result ↔ TakenFits (amount_of rate) elapsed (amount_of remaining) }
    ensures value { IfSome result (λ rest.
        amount_of rest ≡ drained (amount_of remaining) (amount_of rate) elapsed) }
{
    let seconds = Ratio::new(u128::from(elapsed), BILLION)?;
    let taken = rate.checked_mul(seconds)?;
    if remaining <= taken {
        return Some(Ratio::zero());
    }
    remaining.checked_sub(taken)
}

/// A law of `transfer`: draining over two times in turn is draining over both at once. The function
/// does nothing.
pub fn draining_splits()
    ensures { (rate : AnyRate) (left : Amount) (a : ℕ) (b : ℕ) → 0 < left.den
        → left_after rate b (left_after rate a left) ≡ left_after rate (a + b) left }
{}

/// A law of `transfer` and `duration`: at a rate above zero nothing is left exactly from the least
/// time on. The function does nothing.
pub fn nothing_is_left_from_the_least_time_on()
    ensures { (left : Amount) (rate : Amount) (least : ℕ) (n : ℕ)
        → 0 < left.den → 0 < rate.den → IsLeastTime rate left least → ((drained left rate n).num ≡ 0) ↔ (least ≤ n) }
{}

/// A law of `duration`: it has one answer. The function does nothing.
pub fn there_is_one_duration()
    ensures { (rate : AnyRate) (left : Amount) (a : Option ℕ) (b : Option ℕ)
        → IfSome a (λ n. n < 2 ^ 64) → IfSome b (λ n. n < 2 ^ 64)
        → IsDuration rate left a → IsDuration rate left b → a ≡ b }
{}

/// A law of `duration`: at a rate above zero there is one least time. The function does nothing.
pub fn there_is_one_least_time()
    ensures some { (left : Amount) (rate : Amount)
        → 0 < left.den → 0 < rate.num → (n : ℕ) × IsLeastTime rate left n }
    ensures one { (left : Amount) (rate : Amount) (m : ℕ) (n : ℕ)
        → IsLeastTime rate left m → IsLeastTime rate left n → m ≡ n }
{}
