//! What follows for flows with weights.
//!
//! Each function here states a law and does nothing. The laws are about the words in which `allocate_weighted_routes` of
//! `fair_routes` says what it answers.
ghost use Rattle.fair_routes.specs.Network.WeightLaws.{WeightsAreCopies, WeightsOfOneChangeNothing};
ghost use Rattle.fair_routes.specs.Network.WeightLaws.{RatesByWeightAreMaxMin};
ghost use Rattle.fair_routes.specs.Network.WeightLaws.{OrderOfLinksDoesNotMatterByWeight};
ghost use Rattle.fair_routes.specs.Network.WeightLaws.{OrderOfFlowsDoesNotMatterByWeight};

/// A flow of some weight has what as many flows of weight one over its route have together.
pub fn weights_are_copies()
    ensures { WeightsAreCopies }
{}

/// With all weights one the rates are those of flows without weights.
pub fn weights_of_one_change_nothing()
    ensures { WeightsOfOneChangeNothing }
{}

/// In any other amounts within the caps, where a flow gets more than its rate some flow gets less that
/// has no more for each one of its weight.
pub fn rates_by_weight_are_max_min()
    ensures { RatesByWeightAreMaxMin }
{}

/// Which number a link goes by does not matter, as long as each has its own and keeps its cap.
pub fn the_order_of_links_does_not_matter_by_weight()
    ensures { OrderOfLinksDoesNotMatterByWeight }
{}

/// Each flow with its weight has the same rate in every order of the flows.
pub fn the_order_of_flows_does_not_matter_by_weight()
    ensures { OrderOfFlowsDoesNotMatterByWeight }
{}
