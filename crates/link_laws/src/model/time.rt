//! How nanoseconds add up, and that the simulation has one outcome.
ghost use Rattle.std.specs.Prelude.{◌↔◌, ◌≡◌, ℕ, ◌+◌, ◌<◌, ◌≤◌, List, Option, Some, IfSome};
ghost use Rattle.link_simulation.specs.Simulation.Rates.{Parts, AreFair};
ghost use Rattle.link_simulation.specs.Simulation.World.{World, new_world, Completed, Course, goes, preceded, flows};
ghost use Rattle.link_simulation.specs.Simulation.World.{IsQuiet};
ghost use Rattle.link_simulation.specs.Simulation.World.{EndsWith};
ghost use Rattle.link_simulation.specs.Simulation.Time.{ArePositive, drifted, Drains, Passes, Ticks, Continues, NextIs};
ghost use Rattle.link_simulation.specs.Simulation.Time.{IsSound};
ghost use Rattle.link_simulation.specs.Simulation.Calls.{Call, call_advance, moment_of, Runs};

/// Ticking quiet nanoseconds one by one is draining once for all of them.
pub fn a_quiet_stretch_is_one_drain<P: Ord>()
    ensures { (w : World P) (per : ℕ) (rates : Parts) (n : ℕ) → AreFair P.cmp w.caps (flows w) per rates →
        ArePositive w.sending →
        ((k : ℕ) → 0 < k → k ≤ n + 1 → IsQuiet P.cmp (w.moment + k) (drifted w per rates k)) →
        Passes P.cmp (n + 1) w (drifted w per rates (n + 1)) }
{}

/// Ticking for both is ticking for a while and then for another.
pub fn ticking_splits<P: Ord>()
    ensures { (a b : ℕ) (w : World P) (course : Course (Completed P) (World P)) →
        Ticks P.cmp (a + b) w course ↔ ((first : Course (Completed P) (World P)) × Ticks P.cmp a w first
        × Continues P.cmp b first course) }
{}

/// A nanosecond, and so any number of them, has one outcome, whatever parts the fair rates are given in.
pub fn ticking_has_one_outcome<P: Ord>()
    ensures drains { (w v u : World P) → IsSound P.cmp w → Drains P.cmp w v → Drains P.cmp w u → v ≡ u }
    ensures ticks { (n : ℕ) (w : World P) (c d : Course (Completed P) (World P)) → IsSound P.cmp w →
        Ticks P.cmp n w c → Ticks P.cmp n w d → c ≡ d }
{}

/// There is at most one next event, and it is later than the world's moment.
pub fn there_is_one_next_event<P: Ord>()
    ensures one { (w : World P) (a b : Option ℕ) → IsSound P.cmp w → NextIs P.cmp w a → NextIs P.cmp w b → a ≡ b }
    ensures later { (w : World P) (next : Option ℕ) → NextIs P.cmp w next → IfSome next (λ t. w.moment < t) }
{}

/// A call has one course. It leads from a sound world to a sound one, and from a quiet one to a quiet one at its
/// moment, after which the next event comes. New worlds are sound.
pub fn a_call_has_one_course<P: Ord>()
    ensures new { (id : ℕ) → IsSound P.cmp (new_world id) }
    ensures one { (w : World P) (call : Call P) (now : ℕ) (c d : Course (Completed P) (World P)) → IsSound P.cmp w →
        Runs P.cmp w call now c → Runs P.cmp w call now d → c ≡ d }
    ensures sound { (w : World P) (call : Call P) (now : ℕ) (course : Course (Completed P) (World P)) →
        IsSound P.cmp w → Runs P.cmp w call now course →
        EndsWith (IsSound P.cmp) course }
    ensures quiet { (w : World P) (call : Call P) (now : ℕ) (course : Course (Completed P) (World P)) →
        IsQuiet P.cmp w.moment w → moment_of call ≡ Some now →
        w.moment ≤ now → Runs P.cmp w call now course →
        EndsWith (λ v. IsQuiet P.cmp now v × (v.moment ≡ now)
        × ((next : Option ℕ) → NextIs P.cmp v next → IfSome next (λ t. now < t))) course }
{}

/// Advancing to a moment and then on to a later one answers, together, what advancing to the later one answers, and
/// ends in the same world.
pub fn advancing_splits<P: Ord>()
    ensures { (w v : World P) (a b : ℕ) (cs : List (Completed P)) (course : Course (Completed P) (World P)) →
        w.moment ≤ a → a ≤ b →
        Runs P.cmp w (call_advance a) a (goes cs v) → Runs P.cmp v (call_advance b) b course →
        Runs P.cmp w (call_advance b) b (preceded cs course) }
{}
