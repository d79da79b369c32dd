// ISO 7064 MOD 97-10: the remainder by 97 of the number that characters write.
#![tactic(auto)]

ghost use Rattle.std.specs.Prelude.{◌≡◌, ◌++◌, ◌+◌, ◌*◌, ◌<◌, ◌≤◌, ◌%◌, ℕ};
ghost use Rattle.text.specs.Quoted.{followed_by};
ghost use Rattle.check97.specs.Check.{spell, spelled, leaves_one};
ghost use Rattle.check97.specs.Group.{whole, Fits};

use std::marker::Model;

// A number that ends in up to seven digits: what the number before them leaves, ten to the power of how many they are, and what they write.
// So only every seventh digit costs a division.
#[derive(Drop)]
struct Group {
    before: u32,
    weight: u32,
    worth: u32,
}

impl Model for Group {
    ghost Value = { ℕ };

    ghost view = { λ g. whole g.before g.weight g.worth };

    ghost invariant = { λ g. Fits g.before g.weight g.worth };
}

// The weight of seven digits.
const SEVEN: u32 = 10_000_000;

impl Group {
    // The number r, with nothing behind it.
    fn of(r: u32) -> Group
        requires { r < 97 }
        ensures { result ≡ r }
    {
        Group {
            before: r,
            weight: 1,
            worth: 0,
        }
    }

    // The number's remainder.
    fn taken(self) -> u32
        ensures { result ≡ self % 97 }
    {
        (self.before * self.weight + self.worth) % 97
    }

    // The number with more digits behind it, which weigh w and write v, or another one that leaves the same. Where the group would have over seven, it is taken, and they begin the next.
    fn joined(self, w: u32, v: u32) -> Group
        requires { (w ≤ 100) × (v < w) }
        ensures { result % 97 ≡ (self * w + v) % 97 }
    {
        let weight = self.weight * w;
        if SEVEN < weight {
            return Group {
                before: self.taken(),
                weight: w,
                worth: v,
            };
        }
        Group {
            before: self.before,
            weight,
            worth: self.worth * w + v,
        }
    }

    // The number with one more character written behind it, or another one that leaves the same.
    fn step(self, c: u8) -> Group
        ensures { result % 97 ≡ followed_by self (spell c) % 97 }
    {
        match c {
            b'0'..=b'9' => self.joined(10, u32::from(c - b'0')),
            b'A'..=b'Z' => self.joined(100, u32::from(c - b'A') + 10),
            b'a'..=b'z' => self.joined(100, u32::from(c - b'a') + 10),
            _ => self,
        }
    }
}

// The remainder of a number of remainder r with s written behind it.
fn remainder(r: u32, s: &[u8]) -> u32
    requires { r < 97 }
    ensures { result ≡ followed_by r (spelled s.now) % 97 }
{
    let mut g = Group::of(r);
    for c in s {
        g = g.step(*c);
    }
    g.taken()
}

// Whether the number that s writes, with the characters of `moved` behind it, leaves 1.
pub fn leaves_one(s: &[u8], moved: &[u8]) -> bool
    ensures { result ≡ leaves_one (s.now ++ moved.now) }
{
    remainder(remainder(0, s), moved) == 1
}
