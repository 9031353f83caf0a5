//! Scripts of flows over routes, their links and their weights.
use crate::scripts::{expect_bad, expect_cases};

/// Scripts without a flow, with one that no cap holds, and with three over two links. A link that is said
/// twice counts once, one that no flow uses takes no part, and the last cap decides.
const ROUTES: &str = "routes
=;cap 1 10
weight 7 3
routes
=;hop 5 1
routes
=rate 5 unlimited
;cap 1 4
cap 0 10
cap 9 1
hop 3 1
hop 1 0
hop 1 1
hop 2 0
hop 1 0
routes
cap 0 9
routes
cap 0 -
routes
cap 1 0
routes=rate 1 2/1
rate 2 8/1
rate 3 2/1
rate 1 2/1
rate 2 7/1
rate 3 2/1
rate 1 2/1
rate 2 unlimited
rate 3 2/1
rate 1 0/1
rate 2 unlimited
rate 3 0/1
";

#[test]
fn scripts_print_rates_over_routes(rt: HostRuntime) {
    expect_cases(&rt, ROUTES);
}

/// Scripts with weights: said before the route and after it, and said anew.
const WEIGHTS: &str = "cap 7 100
weight 1 3
hop 1 7
hop 2 7
routes
weight 2 9
routes
weight 1 1
routes
=rate 1 75/1
rate 2 25/1
rate 1 25/1
rate 2 75/1
rate 1 10/1
rate 2 90/1
;cap 0 10
cap 1 4
hop 1 0
hop 1 1
hop 2 0
hop 3 1
weight 1 2
weight 3 5
routes
=rate 1 8/7
rate 2 62/7
rate 3 20/7
;cap 5 12
cap 9 1
hop 3 5
hop 1 5
hop 1 9
hop 2 9
weight 2 9
routes
=rate 1 1/10
rate 2 9/10
rate 3 119/10
";

#[test]
fn flows_have_their_shares_by_weight(rt: HostRuntime) {
    expect_cases(&rt, WEIGHTS);
}

/// The greatest numbers, a weight of 2^64 together, which is refused and changes nothing, and a rate that is no
/// fraction of 128 bits.
const LARGE: &str = "cap 0 18446744073709551615
cap 18446744073709551615 340282366920938463463374607431768211455
hop 18446744073709551615 0
hop 0 18446744073709551615
hop 0 0
weight 0 18446744073709551614
routes
weight 18446744073709551615 2
routes
cap 0 -
routes
=rate 0 18446744073709551614/1
rate 18446744073709551615 1/1
refused 2 number too large
rate 0 340282366920938463463374607431768211455/1
rate 18446744073709551615 unlimited
;cap 0 340282366920938463463374607431768211455
hop 0 0
hop 1 0
weight 0 2
weight 1 5
routes
cap 0 6
routes
=refused 2 number too large
rate 0 12/7
rate 1 30/7
";

#[test]
fn numbers_may_be_any(rt: HostRuntime) {
    expect_cases(&rt, LARGE);
}

/// The network and the caps of peers know nothing of one another, nor of the scheduler.
const APART: &str = "egress 1 6
flow 1 1 2 1
cap 1 4
hop 1 1
rates
routes
limit 0 1 1 -
enqueue 0 1 2 0 5 0 1
cap 2 1
hop 2 2
routes
next
=rate 1 6/1
rate 1 4/1
rate 1 4/1
rate 2 1/1
next 5000000000
";

#[test]
fn a_network_is_apart(rt: HostRuntime) {
    expect_cases(&rt, APART);
}

#[test]
fn other_lines_of_a_network_are_bad(rt: HostRuntime) {
    expect_bad(
        &rt,
        "hop;hop 1;hop 1 2 3;hop 1 -;hop -1 2;hop 01 2;hop 1 18446744073709551616;Hop 1 2;hop 1 2 ",
    );
    expect_bad(
        &rt,
        "cap;cap 1;cap 1 2 3;cap - 1;cap 1 00;cap 18446744073709551616 1;caps 1 2;cap  1 2",
    );
    expect_bad(
        &rt,
        "cap 1 340282366920938463463374607431768211456;cap 1 +1",
    );
    expect_bad(
        &rt,
        "weight;weight 1;weight 1 0;weight 1 00;weight 1 -;weight - 1;weight 1 1 1;weight 1 01",
    );
    expect_bad(
        &rt,
        "weight 1 18446744073709551616;weight 18446744073709551616 1;routes 1;routes ;route; routes",
    );
}
