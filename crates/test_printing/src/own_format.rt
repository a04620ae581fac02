//! Types of the tests' own that implement [`Format`].
ghost use Rattle.test_printing.specs.OwnFormat.{sevens, without_minus};

use num_format::utils::{DecimalStr, InfinityStr, MinusSignStr, NanStr, PlusSignStr, SeparatorStr};
use num_format::{Format, Grouping};

/// A format whose texts look like digits: the separator is `7` and the minus sign `17`. All else
/// but the grouping is that of the locale `en`.
#[derive(Clone, Copy)]
pub struct Sevens {
    pub grouping: Grouping,
}

impl Format for Sevens {
    ghost answers = { λ f. sevens f.grouping };

    fn decimal(&self) -> DecimalStr<'_> {
        DecimalStr::of(".")
    }

    fn grouping(&self) -> Grouping {
        self.grouping
    }

    fn infinity(&self) -> InfinityStr<'_> {
        InfinityStr::of("∞")
    }

    fn minus_sign(&self) -> MinusSignStr<'_> {
        MinusSignStr::of("17")
    }

    fn nan(&self) -> NanStr<'_> {
        NanStr::of("NaN")
    }

    fn plus_sign(&self) -> PlusSignStr<'_> {
        PlusSignStr::of("+")
    }

    fn separator(&self) -> SeparatorStr<'_> {
        SeparatorStr::of("7")
    }
}

/// The format of the locale `en` with an empty minus sign.
#[derive(Clone, Copy)]
pub struct WithoutMinus;

impl Format for WithoutMinus {
    ghost answers = { λ _. without_minus };

    fn decimal(&self) -> DecimalStr<'_> {
        DecimalStr::of(".")
    }

    fn grouping(&self) -> Grouping {
        Grouping::Standard
    }

    fn infinity(&self) -> InfinityStr<'_> {
        InfinityStr::of("∞")
    }

    fn minus_sign(&self) -> MinusSignStr<'_> {
        MinusSignStr::of("")
    }

    fn nan(&self) -> NanStr<'_> {
        NanStr::of("NaN")
    }

    fn plus_sign(&self) -> PlusSignStr<'_> {
        PlusSignStr::of("+")
    }

    fn separator(&self) -> SeparatorStr<'_> {
        SeparatorStr::of(",")
    }
}
