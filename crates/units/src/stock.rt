// Stock: pieces that are told apart by their number alone.
ghost use Rattle.units.specs.Stocks.{stock_kind, stock_same, of_count};
ghost use Rattle.std.proofs.Common.{rules, ap, arith};
ghost use Rattle.std.proofs.lemmas.Bool.Decides.{nat_tests};

use crate::kind::Units;
use slots::value::Value;

// How many pieces are taken.
#[derive(Clone, Copy, Debug, PartialEq, Eq)]
pub struct Stock {
    pub count: u64,
}

impl Value for Stock {
    ghost alike = { stock_same };

    ghost told = { Prim.search rules };

    fn same(self, other: Stock) -> bool {
        self == other
    }
}

impl Units for Stock {
    ghost kind = { stock_kind };

    ghost keeps = { λ c most.
        record {
          same_is = λ a b h. ap of_count (Prim.grind (arith, nat_tests));
          same_self = λ a. Prim.grind (arith, nat_tests);
          joined_turned = λ a b. ap of_count (omega arith);
          joined_regrouped = λ a b d. ap of_count (omega arith);
          joined_self = λ a. ap of_count (omega arith);
          joined_nothing = λ a. ap of_count (omega arith);
          clear_of_joined = λ p a b. Prim.grind (arith, nat_tests);
          clear_within = λ p l h. Prim.grind (arith, nat_tests);
          pick_enough = λ n l some enough. (of_count n, Prim.grind (arith, nat_tests), Prim.grind (arith, nat_tests), Prim.grind (arith, nat_tests));
          pick_short = λ n l short. Prim.grind (arith, nat_tests);
          free_nothing = omega arith;
          lift_put = λ p l h. Prim.grind (arith, nat_tests);
          put_turned = λ p q l h k. (Prim.grind (arith, nat_tests), Prim.grind (arith, nat_tests), Prim.grind (arith, nat_tests));
          free_put = λ p l h. Prim.grind (arith, nat_tests);
        } };

    fn most() -> u32 {
        4095
    }

    fn nothing() -> Stock {
        Stock { count: 0 }
    }

    // The larger of the two.
    fn joined(self, other: Stock) -> Stock {
        if self.count < other.count {
            other
        } else {
            self
        }
    }

    // Compares the claim with what is left, since the sum of the counts might not fit.
    fn is_clear(self, claim: Stock, capacity: u32) -> bool {
        let room = u64::from(capacity);
        self.count <= room && claim.count <= room - self.count
    }

    fn put(self, claim: Stock, capacity: u32) -> Stock {
        if self.is_clear(claim, capacity) {
            Stock {
                count: self.count + claim.count,
            }
        } else {
            self
        }
    }

    fn lift(self, claim: Stock) -> Stock {
        if claim.count <= self.count {
            Stock {
                count: self.count - claim.count,
            }
        } else {
            self
        }
    }

    fn size(self) -> u64 {
        self.count
    }

    // A load above the capacity leaves none.
    fn free(self, capacity: u32) -> u32 {
        if self.count <= u64::from(capacity) {
            capacity - self.count as u32
        } else {
            0
        }
    }

    fn pick(self, wanted: u32, capacity: u32) -> Option<Stock> {
        if wanted <= self.free(capacity) {
            Some(Stock {
                count: u64::from(wanted),
            })
        } else {
            None
        }
    }
}

#[cfg(test)]
mod tests {
    use super::*;
    use std::test::Fail;

    #[test]
    fn whole_stock(rt: HostRuntime) -> Result<(), Fail> {
        let none: Stock = <Stock as Units>::nothing();
        assert!(rt; none.free(4095) == 4095);
        let all = none.pick(4095, 4095).ok_or("all are free")?;
        let full = none.put(all, 4095);
        assert!(rt; full.free(4095) == 0);
        assert!(rt; full.pick(1, 4095).is_none());
        assert!(rt; none.pick(4096, 4095).is_none());
        assert_eq!(rt; full.lift(all), none);
        Ok(())
    }

    #[test]
    fn above_the_capacity(rt: HostRuntime) {
        let over = Stock { count: 4096 };
        assert!(rt; over.free(4095) == 0);
        assert!(rt; !over.is_clear(<Stock as Units>::nothing(), 4095));
        let huge = Stock { count: u64::MAX };
        assert!(rt; !huge.is_clear(huge, u32::MAX));
        assert_eq!(rt; huge.put(huge, u32::MAX), huge);
        assert!(rt; over.free(u32::MAX) == u32::MAX - 4096);
    }
}
