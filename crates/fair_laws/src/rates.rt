//! What max-min fairness means, and what follows from it.
//!
//! Each function here states a law and does nothing. The laws are about the words in which the planner, `allocate` of
//! `fair_rates`, says what it answers: `AreFairRates` of a list of rates, and `IsAllocation` of the whole answer. Where
//! a law has a clause `plain` and a clause `linked`, the one is about `allocate` and the other about `allocate_linked`.
ghost use Rattle.std.specs.Prelude.{ℕ, ◌≡◌, ◌∷◌, []};
ghost use Rattle.std.specs.Fn.{CalledAt, CalledAtTwo};
ghost use Rattle.fairness.specs.Fairness.Allocation.{OneNumberOfRounds};
ghost use Rattle.fairness.specs.Fairness.AllocationUnderCaps.{AllocatesUnderCaps};
ghost use Rattle.fairness.specs.Refusals.TooLarge.{IsTooLargeUnderCaps, TooLargeHasNoRates};
ghost use Rattle.fairness.specs.Sides.Answers.{NoLink};
ghost use Rattle.fairness.specs.Fairness.Example.{HalfExists, HalvesAreFair, LessIsUnfair, MoreIsUnfair};
ghost use Rattle.fairness.specs.Fairness.Example.{NoLimitIsUnfair, LimitIsUnfair};
ghost use Rattle.fairness.specs.Fairness.Exists.{IsLeastMultiple, AreLeastMultiplesFrom, FairAmountsExist};
ghost use Rattle.fairness.specs.Fairness.Exists.{FairAmountsExistUnderCaps, FairRatesAreWhole};
ghost use Rattle.fairness.specs.Fairness.Laws.{FairIsMaxMin, FairRatesAreMaxMin, OneAllocation};
ghost use Rattle.fairness.specs.Fairness.Laws.{FairRatesAreZeroWhereClosed, FairnessIsOfTheSet};
ghost use Rattle.fairness.specs.Fairness.Part.{FlowsApartAreFair};
ghost use Rattle.fairness.specs.Fairness.UnderCaps.{AnswersAreThoseOfTheCaps, SidesAreOfTheCaps};
ghost use Rattle.fairness.specs.Fairness.UnderCaps.{UnlimitedWhereUncapped};
ghost use Rattle.fairness.specs.Fairness.UnderCaps.{UnlimitedByIdWhereUncapped, OrderDoesNotMatter, PartIsFair};
ghost use Rattle.fairness.specs.Fairness.UnderCaps.{OthersDoNotMatter, KeepsToItsCap};

use fairness::peer::Peer;

/// An example: where two flows share a side of cap 1 and a third flow uses no side, half a byte a
/// second for each of the two and no limit for the third is fair, and nothing else is.
pub fn a_shared_cap_is_halved()
    ensures half { HalfExists }
    ensures halves { HalvesAreFair }
    ensures less { LessIsUnfair }
    ensures more { MoreIsUnfair }
    ensures no_limit { NoLimitIsUnfair }
    ensures limit { LimitIsUnfair }
{}

/// Who gets more than a fair rate takes it from a flow whose fair rate is no greater.
pub fn fair_rates_are_max_min()
    ensures amounts { FairIsMaxMin }
    ensures rates { FairRatesAreMaxMin }
{}

/// There is one list of fair rates at most.
pub fn one_allocation_is_fair()
    ensures { OneAllocation }
{}

/// Fair amounts exist, whatever the sides are: for `n` flows, none of which uses a side twice, they
/// are whole over the least common multiple of all products of whole numbers above zero whose sum
/// is at most `n`. There is one such multiple for each `n`, and from 0 to 16 they are these.
pub fn fair_amounts_exist()
    ensures exist { FairAmountsExist }
    ensures whole { FairRatesAreWhole }
    ensures multiple { (n : ℕ) → (per : ℕ) × IsLeastMultiple n per }
    ensures one { (n per other : ℕ) → IsLeastMultiple n per → IsLeastMultiple n other → per ≡ other }
    ensures values { AreLeastMultiplesFrom 0 (1 ∷ 1 ∷ 2 ∷ 6 ∷ 12 ∷ 60 ∷ 360 ∷ 2520 ∷ 5040 ∷ 15120 ∷ 151200 ∷ 1663200
        ∷ 9979200 ∷ 129729600 ∷ 1816214400 ∷ 27243216000 ∷ 54486432000 ∷ []) }
{}

/// A fair rate is zero exactly where the flow uses a side of cap zero.
pub fn fair_rates_are_zero_where_closed()
    ensures { FairRatesAreZeroWhereClosed }
{}

/// Neither the order of the sides nor how often one is listed changes the fair rates.
pub fn fairness_is_of_the_set_of_sides()
    ensures { FairnessIsOfTheSet }
{}

/// Where each side has all its users in a part of the flows or none, the fair rates of the part's
/// flows are fair for these flows alone.
pub fn flows_apart_are_fair_alone()
    ensures { FlowsApartAreFair }
{}

/// Closures that answer by functions of the peer, whatever they were asked before, answer for each
/// flow what these caps say.
pub fn answers_are_those_of_the_caps<P, E, I, L>()
where
    P: Peer,
    E: FnMut(&P) -> Option<u128>,
    I: FnMut(&P) -> Option<u128>,
    L: FnMut(&P, &P) -> Option<u128>,
    ensures plain { AnswersAreThoseOfTheCaps
        (CalledAt E.FnMut) (CalledAt I.FnMut) (NoLink {P = P}) }
    ensures linked { AnswersAreThoseOfTheCaps
        (CalledAt E.FnMut) (CalledAt I.FnMut) (CalledAtTwo L.FnMut) }
{}

/// Closures that answer by caps of the peers allocate what is fair under these caps.
pub fn what_is_allocated_is_fair_under_the_caps<P, E, I, L>()
where
    P: Peer,
    E: FnMut(&P) -> Option<u128>,
    I: FnMut(&P) -> Option<u128>,
    L: FnMut(&P, &P) -> Option<u128>,
    ensures plain { AllocatesUnderCaps P.cmp
        (CalledAt E.FnMut) (CalledAt I.FnMut) (NoLink {P = P}) }
    ensures linked { AllocatesUnderCaps P.cmp
        (CalledAt E.FnMut) (CalledAt I.FnMut) (CalledAtTwo L.FnMut) }
{}

/// Closures that answer by caps of the peers are refused for a number where the flows are too large under these caps.
/// And flows that are too large have no fair rates that are fractions of 128 bits, so there is none to answer.
pub fn what_is_too_large_has_no_rates<P, E, I, L>()
where
    P: Peer,
    E: FnMut(&P) -> Option<u128>,
    I: FnMut(&P) -> Option<u128>,
    L: FnMut(&P, &P) -> Option<u128>,
    ensures plain { IsTooLargeUnderCaps P.cmp
        (CalledAt E.FnMut) (CalledAt I.FnMut) (NoLink {P = P}) }
    ensures linked { IsTooLargeUnderCaps P.cmp
        (CalledAt E.FnMut) (CalledAt I.FnMut) (CalledAtTwo L.FnMut) }
    ensures never { TooLargeHasNoRates P.cmp }
{}

/// The rounds of filling are as many as the list has different finite rates, which is one number.
pub fn there_is_one_number_of_rounds<P, E, I, L>()
where
    P: Peer,
    E: FnMut(&P) -> Option<u128>,
    I: FnMut(&P) -> Option<u128>,
    L: FnMut(&P, &P) -> Option<u128>,
    ensures plain { OneNumberOfRounds P.cmp
        (CalledAt E.FnMut) (CalledAt I.FnMut) (NoLink {P = P}) }
    ensures linked { OneNumberOfRounds P.cmp
        (CalledAt E.FnMut) (CalledAt I.FnMut) (CalledAtTwo L.FnMut) }
{}

/// Caps by peer make a side for each subject that has a cap and a flow to limit, and its users are
/// all flows that it limits.
pub fn sides_are_of_the_caps<P: Peer>()
    ensures { SidesAreOfTheCaps P.cmp }
{}

/// Caps by peer leave fair amounts to every list of flows.
pub fn fair_amounts_exist_under_caps<P: Peer>()
    ensures { FairAmountsExistUnderCaps P.cmp }
{}

/// Under caps by peer the flows of a sender, of a receiver or of a link get no more than its cap
/// together.
pub fn a_side_keeps_to_its_cap<P: Peer>()
    ensures { KeepsToItsCap P.cmp }
{}

/// Under caps by peer a flow is unlimited exactly where it uses no capped side: by place, and with
/// distinct ids by id.
pub fn a_flow_without_caps_is_unlimited<P: Peer>()
    ensures by_place { UnlimitedWhereUncapped P.cmp }
    ensures by_id { UnlimitedByIdWhereUncapped P.cmp }
{}

/// Under caps by peer, with distinct ids, each flow has the same rate in every order of the flows.
pub fn the_order_of_flows_does_not_matter<P: Peer>()
    ensures { OrderDoesNotMatter P.cmp }
{}

/// Under caps by peer, where each flow has both ends in a set of peers or neither, the fair rates
/// of the set's flows are fair for these flows alone; so with distinct ids they have the same rates
/// without the other flows.
pub fn a_part_is_fair_alone<P: Peer>()
    ensures by_place { PartIsFair P.cmp }
    ensures by_id { OthersDoNotMatter P.cmp }
{}
