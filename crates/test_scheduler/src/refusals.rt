//! Calls that are refused, and the calls after them.
ghost use Rattle.std.specs.Prelude.{nat_lt, if◌then◌else◌, ◌-◌};

use fairness::peer::Peer;
use numbered_peers::Numbered;
use scheduler_calls::calls::{Calls, Parcel, bytes_from};
use scheduler_calls::text::{play, play_list};
use std::test::Fail;

/// Values of these numbers and above cannot be cloned.
const ALONE: u8 = 200;

/// A peer that goes by a number. Some of its values cannot be cloned.
#[derive(Debug, Drop)]
#[derive_where(PartialEq, Eq, PartialOrd, Ord)]
struct Rare {
    number: u8,
    #[derive_where(skip(EqHashOrd))]
    alone: bool,
}

impl Peer for Rare {
    fn clone_peer(&self) -> Option<Rare> {
        if self.alone {
            return None;
        }
        Some(Rare {
            number: self.number,
            alone: false,
        })
    }
}

impl Numbered for Rare {
    ghost number_of = { λ peer. peer.number };

    ghost named_by = { λ number. if nat_lt number 200 then number else number - 200 };

    /// From `ALONE` on the peer of the number less `ALONE`, by a value that cannot be cloned.
    fn numbered(number: u8, _mark: u64) -> Rare {
        match number.checked_sub(ALONE) {
            Some(number) => Rare {
                number,
                alone: true,
            },
            None => Rare {
                number,
                alone: false,
            },
        }
    }

    fn number(&self) -> u8 {
        self.number
    }
}

#[test]
fn a_call_that_is_refused_half_way_changes_nothing(rt: HostRuntime) -> Result<(), Fail> {
    play::<u64>(
        &rt,
        0,
        "\
limit 0 1 2 -
send last-1s 1 2 1 0
send last-1s 1 3 1 1
advance last
refused late
next last
limit last-1 1 - -
done 0 last-1
done 1 last
next -
",
    )
}

/// A refused call of each kind, and then the calls that are made.
#[test]
fn calls_go_on_after_refusals(rt: HostRuntime) -> Result<(), Fail> {
    play::<char>(
        &rt,
        0,
        "\
send last 1 2 1 1
refused late
next -
send 0 1 2 1 last
done 1 last
limit 0 1 1000000000 -
send 0 1 2 1 1
advance last-1
next last
advance last
refused late
link last 1 2 -
refused late
limit last 1 - -
refused late
send last 1 3 1 0
refused late
next last
limit last-1 1 - -
done 2 last
next -
",
    )
}

/// The parts of an amount that drains at one share after another grow past 128 bits. All is answered
/// exactly.
#[test]
fn parts_past_128_bits_are_answered(rt: HostRuntime) -> Result<(), Fail> {
    let mut calls = Calls::<u64>::new(rt.alloc(), 0, true);
    calls.limit(0, 1, Some(4_294_967_291), None)?;
    for place in 0..60u8 {
        let now = place as u64;
        calls.send(Parcel {
            now,
            ..bytes_from(1, 2 + place, 4096)
        })?;
        if place > 50 {
            calls.next(Some(49_408 + 949 * (now - 51)))?;
        }
    }
    calls.read("advance 57000\ndone 0 57000\nnext 57059\nlimit 51 1 - -\n")?;
    for place in 1..60usize {
        calls.done(place, Some(51))?;
    }
    calls.next(None)?;
    calls.expect()
}

/// Before any limit: the calls whose arguments cannot be cloned are not made, so no limit comes.
#[test]
fn a_call_that_cannot_be_cloned_ends_no_unlimited_mode(rt: HostRuntime) -> Result<(), Fail> {
    play_list::<Rare>(
        &rt,
        "\
limit 0 201 - -
refused memory
send 0 1 2 1 100
done 0 100
link 0 201 2 -
refused memory
link 0 1 202 -
refused memory
send 0 201 2 1 300
refused memory
send 0 1 202 1 300
refused memory
send 0 1 2 1 50
done 3 100
next -
",
    )
}

/// Under a limit: the calls whose arguments cannot be cloned change no cap and send nothing, and the
/// calls after them are made.
#[test]
fn a_call_that_cannot_be_cloned_is_not_made(rt: HostRuntime) -> Result<(), Fail> {
    play_list::<Rare>(
        &rt,
        "\
limit 0 1 1000 -
link 0 1 2 500
send 0 1 2 1000 0
next 2s
limit 1s 201 250 -
refused memory
link 1s 201 2 100
refused memory
link 1s 1 202 100
refused memory
send 0 201 3 0 0
refused memory
send 0 1 203 1000 0
refused memory
next 2s
send 1s 1 3 250 0
event 1500ms
done 3 1500ms
event 2s
done 0 2s
next -
",
    )
}
