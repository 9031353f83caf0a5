//! Larger units for what is in flight, once smaller ones are needed no more.
ghost use Rattle.std.specs.Prelude.{◌≡◌, ◌/◌, ◌<◌, [], IfErr, OnOk};
ghost use Rattle.fairness.specs.Sides.Caps.{Caps as AnyCaps};
ghost use Rattle.link_flights.specs.Flights.InFlight.{in_flight};
ghost use Rattle.link_flights.specs.Flights.LargerUnits.{IsCommonFactor, AreCountedBy};
ghost use Rattle.link_flights.specs.Flights.Rated.{WereRatedUnder};

use crate::flight::common_factor;
use crate::flight_list::Flights;
use fairness::error::Error;
use fairness::peer::Peer;

/// The least common multiple of the numbers up to 46, the most that 64 bits hold. Units grow by factors of it.
const FACTORS: u64 = 9_419_588_158_802_421_600;

impl<P: Peer> Flights<P> {
    /// Once an account has given all their rates, so that nothing is loose, units may become larger. That is tried
    /// where the scale has not grown at as many accounts in a row as messages are in flight: so it takes the time of a
    /// message an account. What all are worth stays as it is.
    pub fn enlarge_units(&mut self) -> Result<(), Error>
        ensures sending { OnOk result (in_flight self.new ≡ in_flight self.old) }
        ensures rated { OnOk result ((caps : AnyCaps P)
            → WereRatedUnder P.cmp caps self.old → WereRatedUnder P.cmp caps self.new) }
        ensures at { self.new.at ≡ self.old.at }
        ensures floor { self.new.floor ≡ self.old.floor }
        ensures counted { OnOk result (self.new.rated_anew ≡ self.old.rated_anew) }
        ensures before { self.new.list.before ≡ self.old.list.before }
        ensures refused { IfErr result (λ e. e ≡ Error.OutOfMemory) }
    {
        if self.scale.to_u128() == Some(1) || !self.loose.is_empty() {
            return Ok(());
        }
        self.stood = self.stood.saturating_add(1);
        if self.stood <= self.list.len() {
            return Ok(());
        }
        self.stood = 0;
        let by = self.shared_factor();
        if by == 1 {
            return Ok(());
        }
        self.divide_units(by)
    }

    /// A number that divides the scale, and all that is left and all rates.
    fn shared_factor(&self) -> u64
        ensures { IsCommonFactor self.now.scale self.now.list.items result }
    {
        let mut by = common_factor(FACTORS, self.scale.remainder(FACTORS));
        for at in 0..self.list.len() {
            by = self.list.at(at).factor_of(by);
        }
        by
    }

    /// All count in units so many times as large.
    fn divide_units(&mut self, by: u64) -> Result<(), Error>
        requires factor { IsCommonFactor self.old.scale self.old.list.items by }
        requires loose { self.old.loose ≡ [] }
        ensures sending { OnOk result (in_flight self.new ≡ in_flight self.old) }
        ensures rated { OnOk result ((caps : AnyCaps P)
            → WereRatedUnder P.cmp caps self.old → WereRatedUnder P.cmp caps self.new) }
        ensures at { self.new.at ≡ self.old.at }
        ensures floor { self.new.floor ≡ self.old.floor }
        ensures counted { OnOk result (self.new.rated_anew ≡ self.old.rated_anew) }
        ensures before { self.new.list.before ≡ self.old.list.before }
        ensures refused { IfErr result (λ e. e ≡ Error.OutOfMemory) }
    {
        self.divide_each(by)?;
        self.scale.divide(by);
        Ok(())
    }

    /// What is left of each, and its rate, count in units so many times as large. The scale stays.
    fn divide_each(&mut self, by: u64) -> Result<(), Error>
        requires { 0 < by }
        ensures divided { OnOk result (AreCountedBy by self.old.list.items self.new.list.items) }
        ensures scale { self.new.scale ≡ self.old.scale }
        ensures at { self.new.at ≡ self.old.at }
        ensures floor { self.new.floor ≡ self.old.floor }
        ensures counted { OnOk result (self.new.rated_anew ≡ self.old.rated_anew) }
        ensures before { self.new.list.before ≡ self.old.list.before }
        ensures refused { IfErr result (λ e. e ≡ Error.OutOfMemory) }
    {
        for at in 0..self.list.len() {
            let one = self.list.at(at).counted_by(self.alloc, by)?;
            self.put(at, one)?;
        }
        Ok(())
    }
}
