//! What follows for flows over routes.
//!
//! Each function here states a law and does nothing. The laws are about the words in which `allocate_routes` of
//! `fair_routes` says what it answers: `AreFairRates` of a list of rates, on the sides of the links. What holds of fair
//! rates on any sides is in [`rates`](super::rates).
ghost use Rattle.fair_routes.specs.Network.Laws.{SidesAreOfTheLinks, RoutesAreSetsOfLinks};
ghost use Rattle.fair_routes.specs.Network.Laws.{OrderOfLinksDoesNotMatter, OrderOfFlowsDoesNotMatter};
ghost use Rattle.fair_routes.specs.Network.Laws.{RoutesApartAreFair, AloneIsTheLeastCap, LinkedIsOverThreeLinks};

use fairness::peer::Peer;

/// Each link that has a cap and that some flow uses makes a side, and its users are all flows that use it.
pub fn sides_are_of_the_links()
    ensures { SidesAreOfTheLinks }
{}

/// A route is a set of links: neither their order nor how often one stands there matters.
pub fn routes_are_sets_of_links()
    ensures { RoutesAreSetsOfLinks }
{}

/// Which number a link goes by does not matter, as long as each has its own and keeps its cap.
pub fn the_order_of_links_does_not_matter()
    ensures { OrderOfLinksDoesNotMatter }
{}

/// Each flow has the same rate in every order of the flows.
pub fn the_order_of_flows_does_not_matter()
    ensures { OrderOfFlowsDoesNotMatter }
{}

/// Where each link has all its flows in a part of the flows or none, the fair rates of the part's flows
/// are fair for these flows alone.
pub fn flows_apart_are_fair_alone()
    ensures { RoutesApartAreFair }
{}

/// A flow alone has the least cap of its links, or no limit where none of them has a cap.
pub fn a_flow_alone_has_the_least_cap()
    ensures { AloneIsTheLeastCap }
{}

/// Flows between peers are flows over routes of three links: what the origin sends, what goes from the
/// origin to the recipient and, if the flow is delivered, what the recipient receives.
pub fn flows_between_peers_use_three_links<P: Peer>()
    ensures { LinkedIsOverThreeLinks P.cmp }
{}
