ghost use Rattle.std.specs.Prelude.{◌≡◌, ◌&&◌, if◌then◌else◌, nat_le};
ghost use Rattle.rules.specs.Ladders.{same_ladder, step_among, takes};

use super::{Ladder, Rung};
use crate::limits::{HIGHEST_PRICE, LOWEST_PRICE};

// The rungs of each ladder, from the lowest price up.
const RUNGS: [Rung; 10] = [
    Rung {
        ladder: Ladder::Securities,
        from: 1,
        step: 1,
    },
    Rung {
        ladder: Ladder::Securities,
        from: 2_000,
        step: 2,
    },
    Rung {
        ladder: Ladder::Securities,
        from: 6_000,
        step: 10,
    },
    Rung {
        ladder: Ladder::Securities,
        from: 60_000,
        step: 50,
    },
    Rung {
        ladder: Ladder::Securities,
        from: 100_000,
        step: 100,
    },
    Rung {
        ladder: Ladder::Securities,
        from: 200_000,
        step: 1_000,
    },
    Rung {
        ladder: Ladder::Securities,
        from: 2_000_000,
        step: 10_000,
    },
    Rung {
        ladder: Ladder::Index,
        from: 1,
        step: 1,
    },
    Rung {
        ladder: Ladder::Index,
        from: 201,
        step: 5,
    },
    Rung {
        ladder: Ladder::Bond,
        from: 1,
        step: 1,
    },
];

impl Rung {
    // Its own step where the price has come to it, else the step so far.
    fn step_from(self, ladder: Ladder, price: u32, step: u32) -> u32
        ensures { result ≡ (if same_ladder ladder self.ladder && nat_le self.from price then self.step else step) }
    {
        if ladder == self.ladder && self.from <= price {
            self.step
        } else {
            step
        }
    }
}

impl Ladder {
    // The step at a price: that of the last rung at or below it.
    fn step_among(self, price: u32, rungs: &[Rung]) -> u32
        ensures { result ≡ step_among self price 1 rungs.now }
    {
        rungs
            .iter()
            .fold(1, |step, rung| rung.step_from(self, price, step))
    }

    // Whether the ladder takes a price.
    pub fn takes(self, price: u32) -> bool
        ensures { result ≡ takes self price }
    {
        let step = self.step_among(price, &RUNGS);
        (LOWEST_PRICE..=HIGHEST_PRICE).contains(&price) && price % step == 0
    }
}
