//! How long one message takes that is alone under caps.
ghost use Rattle.std.specs.Prelude.{◌≡◌, ℕ, ◌+◌, ◌<◌, ◌≤◌, Some, length, true, false};
ghost use Rattle.link_simulation.specs.Laws.Alone.{IsTimeFor, IsLeastCap, MayGoAlone, IsDoneAfter};
ghost use Rattle.link_simulation.specs.Simulation.World.{World, completion_of, completed, is_late, last_moment};
ghost use Rattle.link_simulation.specs.Simulation.Messages.{Message, is_delivered};

/// A message alone under caps above zero is done after the least time that its bytes take at the least of them, and
/// if it is delivered it arrives its latency later.
pub fn a_message_alone_takes_its_least_time<P: Ord>()
    ensures done { (w : World P) (m : Message P) (now cap time : ℕ) → MayGoAlone P.cmp w now m → w.moment ≤ now →
        IsLeastCap P.cmp w.caps m cap →
        0 < length m.bytes → IsTimeFor (length m.bytes) cap time → now + time ≤ last_moment →
        is_late P.cmp (now + time) m ≡ false → IsDoneAfter P.cmp w now m time }
    ensures arrives { (m : Message P) (t : ℕ) → is_delivered P.cmp m ≡ true →
        completed P.cmp t m ≡ completion_of m t (Some (t + m.latency)) }
{}
