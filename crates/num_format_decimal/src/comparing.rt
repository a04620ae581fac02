//! The order of decimals, by their values.
ghost use Rattle.std.specs.Prelude.{◌≡◌, Some, refl};
ghost use Rattle.std.specs.Cmp.{int_cmp_total, int_eq_equiv, on_equiv, on_total, partial_equiv_from_equiv, po};
ghost use Rattle.std.specs.Ordering.{int_cmp, int_eq, on};
ghost use Rattle.num_format_decimal.specs.Comparing.{equal_hashed_alike};
ghost use Rattle.num_format_decimal.specs.Values.{hash_input_of, rest_of, value_of, whole_part};

use crate::decimal::{Decimal, MAX_SCALE};
use crate::powers::{power_of_ten, signed_power_of_ten};
use std::cmp::Ordering;
use std::hash::{Hash, Hasher};

impl Decimal {
    /// Returns the value in two parts, which are in order as the values are: the whole number at or below it,
    /// and by how many units of the largest scale it is above.
    ///
    /// In those units the value itself takes up to 254 bits, and each part fits 128.
    #[tactic(auto, using(crate::proofs::PartLemmas::parts))]
    fn parts(&self) -> (i128, u128)
        ensures whole { result.0 ≡ whole_part self.now }
        ensures rest { result.1 ≡ rest_of self.now }
    {
        let scale = self.scale();
        let units = self.units();
        let one = signed_power_of_ten(scale);
        let unit = power_of_ten(MAX_SCALE - scale);
        let whole = units.div_euclid(one);
        let rest = units.rem_euclid(one).unsigned_abs();
        (whole, rest * unit)
    }
}

impl PartialEq for Decimal {
    ghost eq = { on value_of int_eq };

    ghost laws = { partial_equiv_from_equiv (on_equiv value_of int_eq_equiv) };

    fn eq(&self, other: &Self) -> bool {
        self.cmp(other).is_eq()
    }
}

impl Eq for Decimal {
    ghost laws = { on_equiv value_of int_eq_equiv };
}

impl PartialOrd for Decimal {
    ghost partial_cmp = { λ a b. Some (on value_of int_cmp a b) };

    ghost laws = { po (on_total value_of int_cmp_total) (λ a b. refl) };

    fn partial_cmp(&self, other: &Self) -> Option<Ordering> {
        Some(self.cmp(other))
    }
}

impl Ord for Decimal {
    ghost cmp = { on value_of int_cmp };

    ghost total = { on_total value_of int_cmp_total };

    ghost matches_partial_cmp = { λ a b. refl };

    ghost matches_eq = { λ a b. refl };

    fn cmp(&self, other: &Self) -> Ordering {
        let mine = self.parts();
        let theirs = other.parts();
        mine.cmp(&theirs)
    }
}

impl Hash for Decimal {
    ghost hash_input = { hash_input_of };

    ghost respects_eq = { equal_hashed_alike };

    fn hash<H: Hasher>(&self, state: &mut H) {
        self.parts().hash(state);
    }
}
