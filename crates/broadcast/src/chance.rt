//! Numbers that look random.
ghost use Rattle.std.specs.Prelude.{◌≡◌, ◌+◌, ◌-◌, ◌*◌, ◌%◌, ◌<◌, ◌≤◌, ◌^◌};
ghost use Rattle.broadcast.specs.Chance.{next_state};

/// Numbers that look random and are the same each time: a shift register of 64 bits, as `Chance` of
/// `bench/workloads.py` is.
#[derive(Drop)]
pub struct Chance {
    state: u64,
}

impl Chance {
    /// The numbers that follow from a seed.
    pub fn new(seed: u64) -> Chance
        ensures { result.state ≡ seed }
    {
        Chance { state: seed }
    }

    /// The next number from `least` to `most`.
    pub fn between(&mut self, least: u64, most: u64) -> u64
        requires some { least ≤ most }
        requires fits { most < 2 ^ 63 }
        ensures drawn { result ≡ least + next_state self.old.state % (most - least + 1) }
        ensures least { least ≤ result }
        ensures most { result ≤ most }
        ensures moved { self.new.state ≡ next_state self.old.state }
    {
        self.shift();
        least + self.state % (most - least + 1)
    }

    /// Goes on to the next state.
    fn shift(&mut self)
        ensures { self.new.state ≡ next_state self.old.state }
    {
        let mut state = self.state;
        state ^= state << 13;
        state ^= state >> 7;
        state ^= state << 17;
        self.state = state;
    }
}
