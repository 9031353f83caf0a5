//! The simulation never stops, and its events end.
ghost use Rattle.std.specs.Prelude.{◌≡◌, ℕ, ◌+◌, ◌<◌, ◌≤◌, List, Option, Some};
ghost use Rattle.link_simulation.specs.Laws.MostEvents.{most_events};
ghost use Rattle.link_simulation.specs.Rule.SamePlanned.{GoesByRule, AdvancesByRule};
ghost use Rattle.link_simulation.specs.Simulation.World.{World, Completed, Course};
ghost use Rattle.link_simulation.specs.Simulation.Calls.{Call, call_advance, Runs};
ghost use Rattle.link_simulation.specs.Simulation.Messages.{Message, Caps};
ghost use Rattle.link_simulation.specs.Rule.Planned.{Planned, next_event, IsPlanned};
ghost use Rattle.link_simulation.specs.Simulation.Rates.{Parts, AreFair};
ghost use Rattle.link_simulation.specs.Simulation.Time.{NextIs};

/// All messages have fair rates under all caps. So in each world each call has a course at each moment, and some
/// event comes next or none ever does.
pub fn the_simulation_never_stops<P: Ord>()
    ensures rates { (caps : Caps P) (messages : List (Message P)) →
        (per : ℕ) × (rates : Parts) × AreFair P.cmp caps messages per rates }
    ensures course { (w : World P) (call : Call P) (now : ℕ) →
        (course : Course (Completed P) (World P)) × Runs P.cmp w call now course }
    ensures next { (w : World P) → (next : Option ℕ) × NextIs P.cmp w next }
{}

/// Each event of an advance leaves fewer that may come, so a loop that advances to the next event, as long as there
/// is one, ends.
pub fn events_end<P: Ord>()
    ensures counted { (p q : Planned P) (now events : ℕ) (cs : List (Completed P)) → ∥ IsPlanned P.cmp p ∥₁ →
        AdvancesByRule P.cmp now p events cs q → events + most_events q ≤ most_events p }
    ensures falls { (p q : Planned P) (now : ℕ) (cs : List (Completed P)) → ∥ IsPlanned P.cmp p ∥₁ →
        next_event p ≡ Some now → GoesByRule P.cmp p (call_advance now) cs q → most_events q < most_events p }
{}
