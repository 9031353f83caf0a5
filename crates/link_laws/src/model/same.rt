//! Planned worlds that are the same up to equal peers.
ghost use Rattle.std.specs.Prelude.{◌≡◌, ⊤, ◌∷◌, [], List};
ghost use Rattle.std.specs.Ordering.{nat_cmp};
ghost use Rattle.fairness.specs.declared.error.Error.{Error as AnyError};
ghost use Rattle.fairness.specs.declared.error.Error.TheVariants.{MomentTooLate, FlowIdsUsedUp};
ghost use Rattle.link_simulation.specs.Simulation.World.{World, Completed, Course, goes, meets, new_world};
ghost use Rattle.link_simulation.specs.Simulation.Calls.{Call};
ghost use Rattle.link_simulation.specs.Simulation.Replies.{Reply};
ghost use Rattle.link_simulation.specs.Rule.Planned.{Planned, new_planned};
ghost use Rattle.link_simulation.specs.Rule.Events.{Obeys};
ghost use Rattle.link_simulation.specs.Rule.Refusals.{MayBeRefused, Obeyed};
ghost use Rattle.link_simulation.specs.Rule.Range.{IsInRange};
ghost use Rattle.link_simulation.specs.Rule.StandsFor.{StandsFor, CoursesAlike};
ghost use Rattle.link_laws.specs.Examples.Rows.{message, arrives};
ghost use Rattle.link_simulation.specs.Rule.SamePlanned.{IsSamePlanned, IsSameCall, IsSameCourse};

/// On planned worlds that are the same up to equal peers a call has the same course, may be refused alike, and leaves
/// them the same, so a list of calls may be replied to alike. They stand for the same worlds, and are in the range
/// alike.
pub fn the_same_worlds_do_the_same<P: Ord>()
    ensures goes { (p q : Planned P) (call other : Call P) (course : Course (Completed P) (Planned P)) →
        IsSamePlanned P.cmp p q → IsSameCall P.cmp call other → Obeys P.cmp p call course →
        (c : Course (Completed P) (Planned P)) × Obeys P.cmp q other c × IsSameCourse P.cmp course c }
    ensures refused { (p q : Planned P) (call other : Call P) (why : AnyError) → IsSamePlanned P.cmp p q →
        IsSameCall P.cmp call other → MayBeRefused P.cmp p call why → MayBeRefused P.cmp q other why }
    ensures replies { (p q : Planned P) (calls : List (Call P)) (replies : List (Reply P)) → IsSamePlanned P.cmp p q →
        Obeyed P.cmp p calls replies → Obeyed P.cmp q calls replies }
    ensures stands { (p q : Planned P) (w : World P) → IsSamePlanned P.cmp p q → StandsFor P.cmp p w →
        StandsFor P.cmp q w }
    ensures range { (p q : Planned P) → IsSamePlanned P.cmp p q → IsInRange p → IsInRange q }
{}

/// Each call is the same as itself.
pub fn a_call_is_the_same_as_itself<P: Ord>()
    ensures { (call : Call P) → IsSameCall P.cmp call call }
{}

/// Courses with other completions, to another planned world or with another fault are not the same, and neither are
/// one that goes and one that meets a fault.
pub fn courses_that_differ_are_told()
    ensures completions { ¬ IsSameCourse nat_cmp (goes (arrives (message 1 2 1 0) 1 1 ∷ []) (new_planned 0))
        (goes [] (new_planned 0)) }
    ensures world { ¬ IsSameCourse nat_cmp (goes [] (new_planned 0)) (goes [] (new_planned 1)) }
    ensures fault { ¬ IsSameCourse nat_cmp (meets MomentTooLate) (meets FlowIdsUsedUp) }
    ensures met { ¬ IsSameCourse nat_cmp (goes [] (new_planned 0)) (meets MomentTooLate) }
{}

/// Nor are courses of a planned world and of the simulation alike that differ so.
pub fn courses_that_are_not_alike_are_told()
    ensures completions { ¬ CoursesAlike nat_cmp (λ p w. ⊤) (goes (arrives (message 1 2 1 0) 1 1 ∷ []) (new_planned 0))
        (goes [] (new_world 0)) }
    ensures world { ¬ CoursesAlike nat_cmp (λ p w. p.next_id ≡ w.next_id) (goes [] (new_planned 0))
        (goes [] (new_world 1)) }
    ensures fault { ¬ CoursesAlike nat_cmp (λ p w. ⊤) (meets MomentTooLate) (meets FlowIdsUsedUp) }
    ensures met { ¬ CoursesAlike nat_cmp (λ p w. ⊤) (goes [] (new_planned 0)) (meets MomentTooLate) }
{}
