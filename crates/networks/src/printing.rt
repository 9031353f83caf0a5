//! What is printed of a network.
use fair_routes::routes::{RouteError, WeightError};
use fairness::bandwidth::Rate;
use std::io;
use std::io::Write;

/// Prints the rates and the rounds, or the refusal.
pub(crate) fn print<W: Write>(
    output: &mut W,
    answer: &Result<(Vec<Rate>, u128), RouteError>,
) -> io::Result<()> {
    match answer {
        Ok((rates, rounds)) => {
            for rate in rates {
                print_rate(output, rate)?;
            }
            writeln!(output, " {rounds}")
        }
        Err(error) => writeln!(output, "refused: {error}"),
    }
}

/// Prints the rates by weight, or the refusal.
pub(crate) fn print_weighted<W: Write>(
    output: &mut W,
    answer: &Result<Vec<Rate>, WeightError>,
) -> io::Result<()> {
    match answer {
        Ok(rates) => {
            for rate in rates {
                print_rate(output, rate)?;
            }
            writeln!(output)
        }
        Err(error) => writeln!(output, "refused: {error}"),
    }
}

/// Prints one rate, and a semicolon.
fn print_rate<W: Write>(output: &mut W, rate: &Rate) -> io::Result<()> {
    match rate {
        Rate::Unlimited => output.write_all(b"unlimited;"),
        Rate::Finite(ratio) => write!(output, "{}/{};", ratio.numerator(), ratio.denominator()),
    }
}
