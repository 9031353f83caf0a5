//! The event rule stands for the simulation.
ghost use Rattle.std.specs.Prelude.{◌≡◌, ℕ, ◌+◌, ◌*◌, ◌≤◌, [], List, Some, length};
ghost use Rattle.std.specs.List.{AllZip};
ghost use Rattle.link_simulation.specs.Simulation.Messages.{Message, Caps, CapsAlike, SameMessage};
ghost use Rattle.link_simulation.specs.Simulation.Rates.{Parts, AreFair};
ghost use Rattle.link_simulation.specs.Simulation.World.{World, new_world, Completed, Course, goes, last_moment};
ghost use Rattle.link_simulation.specs.Simulation.World.{settle, IsQuiet};
ghost use Rattle.link_simulation.specs.Simulation.Time.{NextIs};
ghost use Rattle.link_simulation.specs.Simulation.Calls.{Call, call_advance, moment_of, Runs, IsInTurn};
ghost use Rattle.link_simulation.specs.Rule.Planned.{Planned, new_planned, next_event, IsPlanned};
ghost use Rattle.link_simulation.specs.Rule.Events.{Settles, Advances, Obeys};
ghost use Rattle.link_simulation.specs.Laws.Isolation.{InTime};
ghost use Rattle.link_simulation.specs.Rule.Refusals.{Obeyed};
ghost use Rattle.link_simulation.specs.Simulation.Replies.{Reply, Agrees};
ghost use Rattle.link_simulation.specs.Rule.StandsFor.{Tallies, IsSettled, CoursesAlike, StandsFor};

/// Messages that are alike up to equal peers have the same fair rates, under caps that are alike.
pub fn alike_messages_have_the_same_rates<P: Ord>()
    ensures { (caps others : Caps P) (ms ns : List (Message P)) (per : ℕ) (rates : Parts) →
        CapsAlike P.cmp caps others → AllZip (SameMessage P.cmp) ms ns →
        AreFair P.cmp caps ms per rates → AreFair P.cmp others ns per rates }
{}

/// The empty planned world stands for the new world.
pub fn new_worlds_agree<P: Ord>()
    ensures { (id : ℕ) → StandsFor P.cmp (new_planned id) (new_world id) }
{}

/// In a world that a planned world stands for, nothing is done and nothing may start, and its next event is the
/// earlier of the planned finish and start.
pub fn next_is_planned<P: Ord>()
    ensures quiet { (p : Planned P) (w : World P) → StandsFor P.cmp p w → IsQuiet P.cmp w.moment w }
    ensures next { (p : Planned P) (w : World P) → StandsFor P.cmp p w → NextIs P.cmp w (next_event p) }
{}

/// An account and its finishes are a settling of the world.
pub fn settling_is_finishing<P: Ord>()
    ensures { (t : ℕ) (p : Planned P) (w : World P) (course : Course (Completed P) (Planned P)) →
        Tallies P.cmp t p w → Settles P.cmp t p course →
        CoursesAlike P.cmp (IsSettled P.cmp t) course (settle P.cmp t w) }
{}

/// Advancing event by event answers what ticking nanosecond by nanosecond answers, with any number of events.
pub fn advancing_is_ticking<P: Ord>()
    ensures { (p : Planned P) (w : World P) (now n : ℕ) (course : Course (Completed P) (Planned P)) →
        StandsFor P.cmp p w → w.moment ≤ now → now ≤ last_moment →
        Advances P.cmp now p n course →
        (c : Course (Completed P) (World P)) × Runs P.cmp w (call_advance now) now c
        × CoursesAlike P.cmp (λ q v. StandsFor P.cmp q v × (v.moment ≡ now)) course c }
{}

/// A call in its turn does in the planned world what it does in the world: the same completions in the same order and
/// worlds that stand for one another, or the same fault.
pub fn calls_do_the_same<P: Ord>()
    ensures { (p : Planned P) (w : World P) (call : Call P) (now : ℕ) (course : Course (Completed P) (Planned P)) →
        StandsFor P.cmp p w → moment_of call ≡ Some now →
        now ≤ last_moment → IsInTurn P.cmp w call → Obeys P.cmp p call course →
        (c : Course (Completed P) (World P)) × Runs P.cmp w call now c
        × CoursesAlike P.cmp (λ q v. StandsFor P.cmp q v × (v.moment ≡ now)) course c }
{}

/// Replies by the event rule, from the new planned world on, agree with the simulation: every completion and every
/// next event are its own, and a fault is refused just where it meets one.
pub fn replies_agree<P: Ord>()
    ensures { (calls : List (Call P)) (replies : List (Reply P)) → InTime calls →
        Obeyed P.cmp (new_planned 0) calls replies → Agrees P.cmp (new_world 0) calls replies }
{}

/// In one `advance`, at any moments, there are at most twice as many events as messages wait and once as many as are
/// in flight. What is planned is right in a new planned world and after each call that goes.
pub fn an_advance_has_few_events<P: Ord>()
    ensures new { (id : ℕ) → IsPlanned P.cmp (new_planned id) }
    ensures kept { (p q : Planned P) (call : Call P) (cs : List (Completed P)) → IsPlanned P.cmp p →
        Obeys P.cmp p call (goes cs q) → IsPlanned P.cmp q }
    ensures few { (p : Planned P) (now n : ℕ) (course : Course (Completed P) (Planned P)) → IsPlanned P.cmp p →
        Advances P.cmp now p n course →
        n ≤ 2 * length p.waiting + length p.sending }
{}

/// At any moments the event rule has one course for a call, and one number of events for an advance: the same
/// completions in the same order and the same planned world, or the same fault.
pub fn a_call_has_one_course_by_the_rule<P: Ord>()
    ensures course { (p : Planned P) (call : Call P) (c d : Course (Completed P) (Planned P)) →
        Obeys P.cmp p call c → Obeys P.cmp p call d → c ≡ d }
    ensures events { (p : Planned P) (now n m : ℕ) (c d : Course (Completed P) (Planned P)) →
        Advances P.cmp now p n c → Advances P.cmp now p m d → n ≡ m }
{}
