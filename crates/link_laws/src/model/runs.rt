//! What holds over whole lists of calls: the order of a pair, the bytes of an origin, and a set of peers that keeps
//! to itself.
ghost use Rattle.std.specs.Prelude.{◌≡◌, ℕ, ◌-◌, Bool, Contains, List, [], ◌∷◌, Some, map};
ghost use Rattle.std.specs.Ordering.{nat_cmp};
ghost use Rattle.std.specs.List.{filter};
ghost use Rattle.fairness.specs.Numbers.Amount.{plus};
ghost use Rattle.fairness.specs.Fairness.Laws.{IsAtMost};
ghost use Rattle.fairness.specs.Fairness.Part.{flagged};
ghost use Rattle.link_simulation.specs.Simulation.Messages.{Message, Caps};
ghost use Rattle.link_simulation.specs.Simulation.Rates.{Parts, AreFair};
ghost use Rattle.link_simulation.specs.Simulation.World.{World, new_world, Completed, goes};
ghost use Rattle.link_simulation.specs.Simulation.Time.{IsSound};
ghost use Rattle.link_simulation.specs.Simulation.Calls.{Call, call_advance, Runs};
ghost use Rattle.link_simulation.specs.Laws.PairCompletions.{enqueued, answered, IsInPairOrder};
ghost use Rattle.link_simulation.specs.Laws.Bytes.{bytes_from, allowance};
ghost use Rattle.link_simulation.specs.Laws.Isolation.{Answers, AnswersInTurn, IsSet, KeepsApart, InTime};
ghost use Rattle.link_simulation.specs.Laws.Isolation.{kept_calls, kept_completions, NothingElse};
ghost use Rattle.link_laws.specs.Examples.Rows.{message, dropped, arrives, is_gone};

/// The completions of a pair come in the order of its `enqueue` calls, and its delivery moments never go down.
pub fn a_pair_keeps_its_order<P: Ord>()
    ensures { (k : Message P) (id : ℕ) (calls : List (Call P)) (css : List (List (Completed P))) →
        Answers P.cmp (new_world id) calls css →
        IsInPairOrder P.cmp k (enqueued calls) (answered css) }
{}

/// Completions of a pair whose arrivals go down, at once, later or across a dropped message, are not in its order, and
/// neither is its second message where it comes first.
pub fn completions_out_of_order_are_told()
    ensures arrivals { ¬ IsInPairOrder nat_cmp (message 1 2 1 0) (message 1 2 1 2 ∷ message 1 2 1 0 ∷ [])
        (arrives (message 1 2 1 2) 3 5 ∷ arrives (message 1 2 1 0) 4 4 ∷ []) }
    ensures later { ¬ IsInPairOrder nat_cmp (message 1 2 1 0)
        (message 1 2 1 0 ∷ message 1 2 1 2 ∷ message 1 2 1 0 ∷ [])
        (arrives (message 1 2 1 0) 3 3 ∷ arrives (message 1 2 1 2) 3 5 ∷ arrives (message 1 2 1 0) 4 4 ∷ []) }
    ensures across { ¬ IsInPairOrder nat_cmp (message 1 2 1 0)
        (message 1 2 1 2 ∷ dropped 1 2 1 0 ∷ message 1 2 1 0 ∷ [])
        (arrives (message 1 2 1 2) 3 5 ∷ is_gone (dropped 1 2 1 0) 3 ∷ arrives (message 1 2 1 0) 4 4 ∷ []) }
    ensures messages { ¬ IsInPairOrder nat_cmp (message 1 2 1 0) (message 1 2 1 0 ∷ message 1 2 2 0 ∷ [])
        (arrives (message 1 2 2 0) 5 5 ∷ []) }
{}

/// In one `advance` the bytes left of an origin go down by no more than its egress cap lets go.
pub fn an_origin_keeps_to_its_cap<P: Ord>()
    ensures { (w v : World P) (p : P) (cap now : ℕ) (cs : List (Completed P)) → IsSound P.cmp w →
        w.caps.egress p ≡ Some cap → Runs P.cmp w (call_advance now) now (goes cs v) →
        IsAtMost (bytes_from P.cmp p w) (plus (bytes_from P.cmp p v) (allowance cap (now - w.moment))) }
{}

/// For a set of peers of which each message has both ends or neither, the fair rates of its messages are fair for
/// these alone.
pub fn a_set_is_fair_alone<P: Ord>()
    ensures { (inside : P → Bool) (caps : Caps P) (ms : List (Message P)) (per : ℕ) (rates : Parts) →
        IsSet P.cmp inside →
        ((m : Message P) → Contains ms m → inside m.origin ≡ inside m.recipient) →
        AreFair P.cmp caps ms per rates → AreFair P.cmp caps (filter (λ m. inside m.origin) ms) per
        (flagged (map (λ m. inside m.origin) ms) rates) }
{}

/// Where each message that is enqueued has both ends in a set of peers or neither, the completions of the set's
/// messages are those of the calls without the messages of others.
pub fn a_set_is_isolated<P: Ord>()
    ensures { (inside : P → Bool) (id : ℕ) (calls : List (Call P)) (css : List (List (Completed P))) →
        IsSet P.cmp inside → KeepsApart inside calls → InTime calls →
        AnswersInTurn P.cmp (new_world id) calls css →
        Answers P.cmp (new_world id) (kept_calls inside calls) (kept_completions inside calls css)
        × NothingElse inside calls css }
{}
