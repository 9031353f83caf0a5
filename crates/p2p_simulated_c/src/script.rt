//! Scripts for C.
ghost use Rattle.std.specs.Prelude.{◌≡◌, ℕ, List, length};
ghost use Rattle.p2p_simulated_c.specs.Ran.{HasRun, bad_line_of};
ghost use Rattle.p2p_simulated_c.specs.Written.{written};

use super::opened::copy;
use link_scripts::linkrun;
use link_scripts::linkrun::Outcome;
use std::alloc::Global;

/// `linkrun::run` over a buffer: writes what the script prints, as much as there is room for, and
/// tells how long all of it is, and which line was bad, or 0. Answers the status of the outcome.
#[unsafe(no_mangle)]
pub extern "C" fn p2p_run(
    alloc: Global,
    script: &[u8],
    out: &mut [u8],
    printed: &mut usize,
    bad_line: &mut u64,
) -> u32
    ensures run { HasRun result bad_line.new }
    ensures written { (text : List ℕ) × (printed.new ≡ length text) × (out.new ≡ written text out.old) }
{
    let mut input = script;
    let mut text = Vec::new(alloc);
    let outcome = linkrun::run(alloc, &mut input, &mut text);
    *bad_line = line_of(outcome);
    *printed = text.len();
    copy(&text, 0, out);
    outcome.status() as u32
}

/// The number of the bad line, or 0.
fn line_of(outcome: Outcome) -> u64
    ensures { result ≡ bad_line_of outcome }
{
    match outcome {
        Outcome::BadLine(number) => number,
        _ => 0,
    }
}
