//! What each call keeps of a planned world, and what becomes of its messages.
ghost use Rattle.std.specs.Prelude.{◌≡◌, ℕ, ◌+◌, List, [], ◌∷◌, ◌++◌, length};
ghost use Rattle.link_simulation.specs.Simulation.Messages.{Message};
ghost use Rattle.link_simulation.specs.Simulation.World.{Completed, goes};
ghost use Rattle.link_simulation.specs.Simulation.Calls.{Call};
ghost use Rattle.link_simulation.specs.Laws.PairCompletions.{enqueued};
ghost use Rattle.link_simulation.specs.Rule.Planned.{Planned, new_planned};
ghost use Rattle.link_simulation.specs.Rule.Events.{Obeys};
ghost use Rattle.link_simulation.specs.Rule.Refusals.{Obeyed};
ghost use Rattle.link_simulation.specs.Simulation.Replies.{Reply};
ghost use Rattle.link_simulation.specs.Rule.SamePlanned.{IsSamePlanned, GoesByRule};
ghost use Rattle.link_simulation.specs.Laws.Orderly.{IsOrderly};
ghost use Rattle.std.specs.Ordering.{nat_cmp};
ghost use Rattle.link_laws.specs.Examples.Rows.{message, arrives};
ghost use Rattle.link_simulation.specs.Laws.Conserved.{IsConserved, AreConserved};
ghost use Rattle.link_simulation.specs.Laws.Replies.{AlwaysSoFar};

/// A new planned world is in order, and each call that goes keeps it so.
pub fn calls_keep_order<P: Ord>()
    ensures new { (id : ℕ) → IsOrderly P.cmp (new_planned id) }
    ensures kept { (p q : Planned P) (call : Call P) (cs : List (Completed P)) → Obeys P.cmp p call (goes cs q) →
        IsOrderly P.cmp p → IsOrderly P.cmp q }
{}

/// Planned worlds that are the same up to equal peers are in order alike.
pub fn the_same_worlds_are_in_order_alike<P: Ord>()
    ensures same { (p q : Planned P) → IsSamePlanned P.cmp p q → IsOrderly P.cmp p → IsOrderly P.cmp q }
    ensures goes { (p q : Planned P) (call : Call P) (cs : List (Completed P)) → GoesByRule P.cmp p call cs q →
        IsOrderly P.cmp p → IsOrderly P.cmp q }
{}

/// No message is lost or doubled: for each ordered pair, what a call completes, then what is in flight after it, then
/// what waits are, in this order, what was in flight, then what waited, then what the call enqueued. So it is where
/// no call is made, and so it goes on over one call after another.
pub fn calls_lose_no_message<P: Ord>()
    ensures call { (p q : Planned P) (call : Call P) (cs : List (Completed P)) → GoesByRule P.cmp p call cs q →
        IsOrderly P.cmp p → IsConserved P.cmp p (enqueued (call ∷ [])) cs q }
    ensures none { (p : Planned P) → IsConserved P.cmp p [] [] p }
    ensures on { (p q r : Planned P) (ms ns : List (Message P)) (cs ds : List (Completed P)) →
        IsConserved P.cmp p ms cs q → IsConserved P.cmp q ns ds r → IsConserved P.cmp p (ms ++ ns) (cs ++ ds) r }
{}

/// And so in number: what completed, what is in flight and what waits are as many as what was in flight, what waited
/// and what was enqueued.
pub fn each_message_is_counted_once<P: Ord>()
    ensures { (p q : Planned P) (messages : List (Message P)) (cs : List (Completed P)) →
        IsConserved P.cmp p messages cs q →
        length cs + length q.sending + length q.waiting ≡ length p.sending + length p.waiting + length messages }
{}

/// Over the first calls of a list, however many, and their replies, from the new planned world on: the messages of an
/// ordered pair that accepted calls enqueued are those that completed, then the one in flight, then those that wait.
pub fn replies_lose_no_message<P: Ord>()
    ensures { (id : ℕ) (calls : List (Call P)) (replies : List (Reply P)) →
        Obeyed P.cmp (new_planned id) calls replies →
        AlwaysSoFar (AreConserved P.cmp (new_planned id)) calls replies }
{}

/// A message that is lost, doubled or made up is not conserved.
pub fn a_lost_message_is_not_conserved()
    ensures lost { ¬ IsConserved nat_cmp (new_planned 0) (message 1 2 1 0 ∷ []) [] (new_planned 0) }
    ensures doubled { ¬ IsConserved nat_cmp (new_planned 0) (message 1 2 1 0 ∷ [])
        (arrives (message 1 2 1 0) 1 1 ∷ arrives (message 1 2 1 0) 1 1 ∷ []) (new_planned 0) }
    ensures made_up { ¬ IsConserved nat_cmp (new_planned 0) [] (arrives (message 1 2 1 0) 1 1 ∷ []) (new_planned 0) }
{}
