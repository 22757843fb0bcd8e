// Whole numbers below 2^168, in three limbs of 56 bits, so that a limb times a byte fits a u64, inside: `bounds` calls it. In contracts
// such a number is its value.
#![tactic(auto)]

ghost use Rattle.std.specs.Prelude.{◌≡◌, ℕ, ◌*◌, ◌^◌, ◌<◌, leb};
ghost use Rattle.wide.specs.Value.{value, room, Limbs};

use std::marker::Model;

const LIMB: u64 = 72057594037927936;

// Worth lo + 2^56 * (mid + 2^56 * hi), each limb below 2^56.
#[derive(Drop)]
pub struct Wide {
    hi: u64,
    mid: u64,
    lo: u64,
}

impl Model for Wide {
    ghost Value = { ℕ };

    ghost view = { λ a. value a.hi a.mid a.lo };

    ghost invariant = { λ a. Limbs a.hi a.mid a.lo };
}

impl From<u64> for Wide {
    ghost from_gives = { λ x wide. wide ≡ x };

    fn from(x: u64) -> Wide {
        Wide {
            hi: 0,
            mid: x / LIMB,
            lo: x % LIMB,
        }
    }
}

impl Wide {
    // Times a byte.
    fn times(self, s: u64) -> Wide
        requires s_bound { s < 256 }
        requires fits { self * s < room }
        ensures { result ≡ self * s }
    {
        let x = self.lo * s;
        let y = self.mid * s + x / LIMB;
        let z = self.hi * s + y / LIMB;
        Wide {
            hi: z,
            mid: y % LIMB,
            lo: x % LIMB,
        }
    }

    // Times a power of a byte.
    pub fn scaled(self, s: u64, n: u32) -> Wide
        requires s_nonzero { (0 < s) × (s < 256) }
        requires fits { self * s ^ n < room }
        ensures { result ≡ self * s ^ n }
    {
        let mut r = self;
        for i in 0..n {
            r = r.times(s);
        }
        r
    }

    // Whether it is at most another: by the first limb from the top that differs. A derived order would compare as this does, but its
    // contract would be of the limbs, and this one is of the value.
    pub fn at_most(&self, other: &Wide) -> bool
        ensures { result ≡ leb self.now other.now }
    {
        (self.hi, self.mid, self.lo) <= (other.hi, other.mid, other.lo)
    }
}
