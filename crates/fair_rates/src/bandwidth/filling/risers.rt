//! The users of a side that rise.
ghost use Rattle.std.specs.Prelude.{◌≡◌, ◌<◌, All, IsSome, length, true, false};
ghost use Rattle.fair_rates.specs.Filling.FairParts.{level_at};
ghost use Rattle.fairness.specs.Filling.Frozen.{AllRise, AllFrozen};
ghost use Rattle.fair_rates.specs.Filling.States.{frozen_at, AreInside, HaveNoMore, HaveBeenCounted};

use natural::Natural;

/// Takes the users that are frozen out of these, and what they have out of the slack. Answers whether those that are
/// left rise; else one is left, which is frozen.
pub(super) fn take_frozen(
    slack: &mut Natural,
    rising: &mut Vec<usize>,
    levels: &[Natural],
    level_of: &[Option<usize>],
) -> bool
    requires some { 0 < length rising.old.items }
    requires users { All (λ flow. flow < length level_of.now) rising.old.items }
    requires inside { AreInside levels.now level_of.now }
    requires no_more { HaveNoMore (frozen_at levels.now level_of.now) slack.old rising.old.items }
    ensures some { 0 < length rising.new.items }
    ensures counted { HaveBeenCounted (length level_of.now) (frozen_at levels.now level_of.now)
        slack.old rising.old.items slack.new rising.new.items }
    ensures rise { result ≡ true → AllRise (frozen_at levels.now level_of.now) rising.new.items }
    ensures frozen { result ≡ false → AllFrozen (frozen_at levels.now level_of.now) rising.new.items }
{
    let mut place = 0;
    while place < rising.len() {
        match level_of[rising[place]] {
            Some(level) => {
                if rising.len() == 1 {
                    return false;
                }
                slack.sub_assign(&levels[level]);
                rising.swap_remove(place);
            }
            None => place += 1,
        }
    }
    true
}

/// Whether all these users have a level.
pub(super) fn are_frozen(users: &[usize], level_of: &[Option<usize>]) -> bool
    requires { All (λ flow. flow < length level_of.now) users.now }
    ensures { result ≡ true → All (λ flow. IsSome (level_at level_of.now flow)) users.now }
{
    for user in users {
        if level_of[*user].is_none() {
            return false;
        }
    }
    true
}
