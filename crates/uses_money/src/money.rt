//! The type [`Money`].
ghost use Rattle.std.specs.Prelude.{◌≡◌, ◌↔◌, Ok, Err, Some, IfOk, IfErr, OnOk};
ghost use Rattle.std.specs.Fmt.{spec_align, spec_fill, spec_width};
ghost use Rattle.num_format_decimal.specs.FixedPoint.{FixedPoint};
ghost use Rattle.num_format_decimal.specs.Parsing.{IsAtScaleCause, ParsesAtScale};
ghost use Rattle.num_format_decimal.specs.Rounded.{CanRescale, CannotRescale, rescaled};
ghost use Rattle.num_format_decimal.specs.Text.{decimal_text};
ghost use Rattle.num_format_decimal.specs.declared.parsing.ParseAtScaleError.{ParseAtScaleError};
ghost use Rattle.num_format_decimal.specs.declared.rounding.Rounding.TheVariants.{Exact};
ghost use Rattle.uses_money.specs.Currency.{decimals_of};
ghost use Rattle.uses_money.specs.Money.{amount_of};
ghost use Rattle.uses_money.specs.declared.money.Money.{Money};

use crate::currency::Currency;
use num_format::Format;
use num_format_decimal::{Decimal, DecimalError, ParseAtScaleError, Rounding};
use std::fmt;
use std::marker::Model;

/// An amount of money in minor units of its currency, as cents.
///
/// ```rust
/// println!(rt; "{}", Money { minor_units: 123_450, currency: Currency::Eur }.formatted(&Locale::en))    // 1,234.50
/// println!(rt; "{}", Money { minor_units: 123_450, currency: Currency::Jpy }.formatted(&Locale::en))    // 123,450
/// ```
#[derive(Clone, Copy, Debug, PartialEq, Eq, Hash)]
pub struct Money {
    pub minor_units: i128,
    pub currency: Currency,
}

impl Money {
    /// Returns that amount of the currency.
    ///
    /// ```rust
    /// Money::of(Decimal::new(125, 1)?, Currency::Usd)    // Ok(Money { minor_units: 1250, currency: Usd })
    /// Money::of(Decimal::new(125, 1)?, Currency::Jpy)    // Err(DigitsLost)
    /// ```
    ///
    /// # Errors
    ///
    /// Returns [`DecimalError::DigitsLost`] if the amount has more decimals than the currency, and they are not
    /// zeros, and [`DecimalError::OutOfRange`] if its minor units are no `i128`.
    pub fn of(amount: Decimal, currency: Currency) -> Result<Money, DecimalError>
        ensures amount { IfOk result (λ m. amount_of m ≡ rescaled Exact amount (decimals_of currency)) }
        ensures currency { IfOk result (λ m. m.currency ≡ currency) }
        ensures accepted { OnOk result (CanRescale Exact amount (decimals_of currency)) }
        ensures refused { IfErr result (CannotRescale Exact amount (decimals_of currency)) }
    {
        let amount = amount.rescale(currency.decimals(), Rounding::Exact)?;
        Ok(Money {
            minor_units: amount.units(),
            currency,
        })
    }

    /// Returns the amount, with as many decimals as the currency has.
    ///
    /// ```rust
    /// Money { minor_units: 1250, currency: Currency::Usd }.amount()    // 12.50
    /// ```
    pub fn amount(&self) -> Decimal
        ensures { result ≡ amount_of self.now }
    {
        // No currency has more than two decimals.
        Decimal::new(self.minor_units, self.currency.decimals()).unwrap()
    }

    /// Returns the amount for which a text is canonical: it is exactly as an amount is printed, with separators or
    /// without, and has any number of decimals that loses none.
    ///
    /// ```rust
    /// Money::parse("1,234.5", Currency::Usd, &Locale::en)      // Ok(Money { minor_units: 123450, currency: Usd })
    /// Money::parse("12.345", Currency::Usd, &Locale::en)       // Err(Rescale(DigitsLost))
    /// Money::parse("12.50 USD", Currency::Usd, &Locale::en)    // Err(Parse(Unexpected { at: 5 }))
    /// ```
    ///
    /// # Errors
    ///
    /// Returns the error of [`Decimal::parse_at_scale`] at the currency's number of decimals.
    pub fn parse<F: Format>(
        text: &str,
        currency: Currency,
        format: &F,
    ) -> Result<Money, ParseAtScaleError>
        ensures amount { IfOk result (λ m. ParsesAtScale (F.answers format.now) text.now (decimals_of currency)
            (amount_of m)) }
        ensures currency { IfOk result (λ m. m.currency ≡ currency) }
        ensures refused { (e : ParseAtScaleError) → (result ≡ Err e)
            ↔ IsAtScaleCause (F.answers format.now) text.now (decimals_of currency) e }
    {
        match Decimal::parse_at_scale(text, currency.decimals(), format) {
            Ok(amount) => Ok(Money {
                minor_units: amount.units(),
                currency,
            }),
            Err(error) => Err(error),
        }
    }

    /// Returns the amount, to be displayed under a format. A width counts, as for a decimal.
    ///
    /// ```rust
    /// let price = Money { minor_units: 123_450, currency: Currency::Eur };
    /// println!(rt; "{:>12} {}", price.formatted(&Locale::de), price.currency)    // "    1.234,50 EUR"
    /// ```
    pub fn formatted<'a, F: Format>(&self, format: &'a F) -> FormattedMoney<'a, F>
        ensures { result ≡ decimal_text (F.answers format.now) (amount_of self.now) }
    {
        FormattedMoney {
            amount: self.amount(),
            format,
        }
    }
}

/// An amount of money to be displayed under a format. A contract sees its text. [`Money::formatted`] returns it.
#[derive(Drop)]
pub struct FormattedMoney<'a, F: Format> {
    amount: Decimal,
    format: &'a F,
}

impl<'a, F: Format> Model for FormattedMoney<'a, F> {
    ghost use Rattle.std.specs.Prelude.{ℕ, List};
    ghost use Rattle.num_format_decimal.specs.Text.{decimal_text};

    ghost Value = { List ℕ };

    ghost view = { λ m. decimal_text (F.answers m.format.now) m.amount };
}

impl<'a, F: Format> fmt::Display for FormattedMoney<'a, F> {
    ghost use Rattle.num_format_writers.specs.Columns.{filled};

    ghost output = { λ text. Some text };

    ghost styled_output = { λ text spec. Some (filled (spec_width spec) (spec_align spec)
        (spec_fill spec) text) };

    /// Writes the text of the amount, filled up to the width.
    fn fmt<W: fmt::Write>(&self, f: &mut fmt::Formatter<W>) -> fmt::Result {
        fmt::Display::fmt(&self.amount.formatted(self.format), f)
    }
}
