//! What happens at one instant of the simulation: completions in order of start, and starts in the order of pairs.
ghost use Rattle.std.specs.Prelude.{◌↔◌, ◌≡◌, ℕ, ◌+◌, ◌≤◌, List, [], length, false, not};
ghost use Rattle.std.specs.List.{filter, find, list_any};
ghost use Rattle.link_simulation.specs.Simulation.Messages.{Message, same_pair, OneForEachPair};
ghost use Rattle.link_simulation.specs.Simulation.World.{World, goes, EndsWith, flows, is_done, settle, settle_within};
ghost use Rattle.link_simulation.specs.Simulation.World.{ready};
ghost use Rattle.link_simulation.specs.Simulation.World.{turn, wake, wake_within, instant, IsQuiet};
ghost use Rattle.link_simulation.specs.Simulation.Queue.{leaving, staying, finish_within};
ghost use Rattle.link_simulation.specs.Simulation.Pass.{IsUnchangedFor, MayNotStart, wake_each, by_pair, IsByPair};

/// Settling ends with nothing done, and waking with nothing done and nothing that may start.
pub fn instants_end_in_quiet<P: Ord>()
    ensures settled { (t : ℕ) (w : World P) →
        EndsWith (λ v. list_any (is_done P.cmp v) v.sending ≡ false) (settle P.cmp t w) }
    ensures woken { (t : ℕ) (w : World P) → list_any (is_done P.cmp w) w.sending ≡ false →
        EndsWith (IsQuiet P.cmp t) (wake P.cmp t w) }
    ensures both { (w : World P) → EndsWith (λ v. IsQuiet P.cmp v.moment v) (instant P.cmp w) }
    ensures unchanged { (w : World P) → IsQuiet P.cmp w.moment w ↔ (instant P.cmp w ≡ goes [] w) }
{}

/// Settling and waking have steps enough: more of them change nothing.
pub fn more_steps_change_nothing<P: Ord>()
    ensures settle { (n t : ℕ) (w : World P) → length w.sending + length w.waiting ≤ n →
        settle_within P.cmp n t w ≡ settle P.cmp t w }
    ensures wake { (n t : ℕ) (w : World P) → list_any (is_done P.cmp w) w.sending ≡ false → length w.waiting ≤ n →
        wake_within P.cmp n t w ≡ wake P.cmp t w }
{}

/// With at most one message in flight for each pair, settling is finishing a queue whose leavers join its end.
pub fn settling_is_a_queue<P: Ord>()
    ensures { (t : ℕ) (w : World P) → OneForEachPair P.cmp (flows w) →
        settle P.cmp t w
        ≡ finish_within P.cmp (length w.sending + length w.waiting) t (leaving P.cmp w) (staying P.cmp w) }
{}

/// A message that starts, and what completes then, changes nothing for any other pair.
pub fn a_turn_keeps_other_pairs<P: Ord>()
    ensures { (t : ℕ) (w : World P) (m k : Message P) → list_any (is_done P.cmp w) w.sending ≡ false →
        same_pair P.cmp m k ≡ false →
        EndsWith (IsUnchangedFor P.cmp k w) (turn P.cmp t w m) }
{}

/// After its turn a pair may not start again at that moment, and the others are ready as before.
pub fn a_turn_rests_its_pair<P: Ord>()
    ensures may_not { (t : ℕ) (w : World P) (m : Message P) → list_any (is_done P.cmp w) w.sending ≡ false →
        EndsWith (MayNotStart P.cmp t m) (turn P.cmp t w m) }
    ensures others { (t : ℕ) (w : World P) (m : Message P) → list_any (is_done P.cmp w) w.sending ≡ false →
        EndsWith (λ v. ready P.cmp t v ≡ filter (λ n. not (same_pair P.cmp m n)) (ready P.cmp t w)) (turn P.cmp t w m) }
{}

/// Waking goes once through the pairs that are ready, in the order of pairs.
pub fn waking_is_one_pass<P: Ord>()
    ensures sorted { (t : ℕ) (w : World P) → list_any (is_done P.cmp w) w.sending ≡ false →
        wake P.cmp t w ≡ wake_each P.cmp t (by_pair P.cmp (ready P.cmp t w)) w }
    ensures any_list { (t : ℕ) (ms : List (Message P)) (w : World P) → list_any (is_done P.cmp w) w.sending ≡ false →
        IsByPair P.cmp ms →
        ((k : Message P) → find (same_pair P.cmp k) ms ≡ find (same_pair P.cmp k) (ready P.cmp t w)) →
        wake P.cmp t w ≡ wake_each P.cmp t ms w }
{}
