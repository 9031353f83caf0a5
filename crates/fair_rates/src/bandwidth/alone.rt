//! The fair rate of a flow alone. No other shares its sides, so there is nothing to fill.
ghost use Rattle.std.specs.Prelude.{◌≡◌, ◌*◌, IfOk, IfErr, option_map};
ghost use Rattle.fairness.specs.Sides.Alone.{least_of, least_cap_of};

use fairness::bandwidth::FlowCaps;
use fairness::error::Error;
use natural::Natural;

/// The less of two caps. `None` stands for no cap.
fn least(one: Option<u128>, other: Option<u128>) -> Option<u128>
    ensures { result ≡ least_of one other }
{
    match (one, other) {
        (Some(one), Some(other)) => Some(one.min(other)),
        (Some(cap), None) | (None, Some(cap)) => Some(cap),
        (None, None) => None,
    }
}

/// The least cap that holds for the flow. That on what its recipient receives holds if it is delivered.
fn least_cap(caps: &FlowCaps, delivered: bool) -> Option<u128>
    ensures { result ≡ least_cap_of caps.now delivered }
{
    let ingress = if delivered { caps.ingress } else { None };
    least(least(caps.egress, ingress), caps.link)
}

/// The fair rate of a flow alone, in parts of one byte a second, so many at `scale`: the least of its
/// caps. None where no cap holds for it.
///
/// # Errors
///
/// `OutOfMemory` where memory was refused.
pub fn parts_alone(
    caps: &FlowCaps,
    delivered: bool,
    scale: &Natural,
) -> Result<Option<Natural>, Error>
    ensures least { IfOk result (λ parts. parts
        ≡ option_map (λ cap. scale.now * cap) (least_cap_of caps.now delivered)) }
    ensures refused { IfErr result (λ e. e ≡ Error.OutOfMemory) }
{
    match least_cap(caps, delivered) {
        Some(cap) => Ok(Some(scale.product(cap)?)),
        None => Ok(None),
    }
}
