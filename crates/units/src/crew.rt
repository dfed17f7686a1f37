// Crew: mechanics who are told apart by their numbers, from 1 to 64.
ghost use Rattle.std.specs.Prelude.{◌≡◌, ◌<◌, ◌≤◌, MatchOption, count_ones};
ghost use Rattle.units.specs.Sets.{without, lowest, AreLowest};
ghost use Rattle.units.specs.Crews.{crew_kind, crew_clear, crew_same, crew_free, crew_pick, idle, mechanics};
ghost use Rattle.std.proofs.Common.{rules, arith};
ghost use Rattle.std.proofs.lemmas.Bool.Decides.{nat_tests};
ghost use Rattle.units.specs.CrewLaws.{crew_laws};

use crate::kind::Units;
use slots::value::Value;

// The most mechanics that a mask can name.
const MOST: u32 = 64;

// The mechanics who are taken: mechanic k is worth 2^(k-1) in the mask.
#[derive(Clone, Copy, Debug, PartialEq, Eq)]
pub struct Crew {
    pub mask: u64,
}

// The mechanics numbered up to the capacity.
fn everyone(capacity: u32) -> u64
    ensures { result ≡ mechanics capacity }
{
    if capacity < MOST {
        (1 << capacity) - 1
    } else {
        u64::MAX
    }
}

// Those of the mask who are not taken.
fn others(mask: u64, taken: u64) -> u64
    ensures { result ≡ without mask taken }
{
    mask & !taken
}

// As many of the mask as are wanted, from the lowest number on.
fn first_of(mask: u64, wanted: u32) -> u64
    requires { wanted ≤ count_ones mask }
    ensures which { result ≡ lowest wanted mask }
    ensures first { AreLowest wanted mask result }
{
    let mut picked = 0;
    for _i in 0..wanted {
        picked |= 1 << others(mask, picked).trailing_zeros();
    }
    picked
}

impl Value for Crew {
    ghost alike = { crew_same };

    ghost told = { Prim.search rules };

    fn same(self, other: Crew) -> bool {
        self == other
    }
}

impl Units for Crew {
    ghost kind = { crew_kind };

    ghost keeps = { λ c.
        crew_laws c crew_clear record {
          shares_none = λ p l h. Prim.grind (arith, nat_tests);
          none_above = λ p l h. Prim.grind (arith, nat_tests);
          is_clear = λ p l apart known. Prim.grind (arith, nat_tests);
        } };

    fn most() -> u32 {
        MOST
    }

    fn nothing() -> Crew {
        Crew { mask: 0 }
    }

    // The union.
    fn joined(self, other: Crew) -> Crew {
        Crew {
            mask: self.mask | other.mask,
        }
    }

    fn is_clear(self, claim: Crew, capacity: u32) -> bool {
        self.mask & claim.mask == 0 && others(claim.mask, everyone(capacity)) == 0
    }

    fn put(self, claim: Crew, capacity: u32) -> Crew {
        if self.is_clear(claim, capacity) {
            self.joined(claim)
        } else {
            self
        }
    }

    fn lift(self, claim: Crew) -> Crew {
        if others(claim.mask, self.mask) == 0 {
            Crew {
                mask: others(self.mask, claim.mask),
            }
        } else {
            self
        }
    }

    fn size(self) -> u64 {
        u64::from(self.mask.count_ones())
    }

    fn free(self, capacity: u32) -> u32 {
        others(everyone(capacity), self.mask).count_ones()
    }

    // The free mechanics of the lowest numbers.
    fn pick(self, wanted: u32, capacity: u32) -> Option<Crew>
        ensures which { result ≡ crew_pick capacity wanted self }
        ensures first { MatchOption result (crew_free capacity self < wanted) (λ p. AreLowest wanted (idle capacity self) p.mask) }
    {
        let left = others(everyone(capacity), self.mask);
        if wanted <= left.count_ones() {
            Some(Crew {
                mask: first_of(left, wanted),
            })
        } else {
            None
        }
    }
}

#[cfg(test)]
mod tests {
    use super::*;
    use std::test::Fail;

    #[test]
    fn whole_crew(rt: HostRuntime) -> Result<(), Fail> {
        let none: Crew = <Crew as Units>::nothing();
        assert!(rt; none.free(64) == 64);
        let all = none.pick(64, 64).ok_or("all are free")?;
        assert!(rt; all.mask == u64::MAX);
        assert!(rt; all.size() == 64);
        let full = none.put(all, 64);
        assert!(rt; full.free(64) == 0);
        assert!(rt; full.pick(1, 64).is_none());
        assert_eq!(rt; full.lift(all), none);
        Ok(())
    }

    #[test]
    fn lowest_numbers_beside_gaps(rt: HostRuntime) -> Result<(), Fail> {
        let load = Crew { mask: 0b0_0101 };
        let pair = load.pick(2, 5).ok_or("three are free")?;
        assert!(rt; pair.mask == 0b0_1010);
        assert!(rt; load.pick(4, 5).is_none());
        Ok(())
    }

    #[test]
    fn above_the_capacity(rt: HostRuntime) {
        let none: Crew = <Crew as Units>::nothing();
        let sixth = Crew { mask: 0b10_0000 };
        assert!(rt; !none.is_clear(sixth, 5));
        assert_eq!(rt; none.put(sixth, 5), none);
        assert!(rt; none.is_clear(sixth, 6));
        assert!(rt; none.free(65) == 64);
        assert!(rt; none.free(u32::MAX) == 64);
        assert!(rt; none.is_clear(Crew { mask: u64::MAX }, u32::MAX));
    }
}
