//! The type [`Currency`].
ghost use Rattle.std.specs.Prelude.{◌≡◌, ◌≤◌, Some};
ghost use Rattle.uses_money.specs.Currency.{code_of, decimals_of};

use std::fmt;

/// A currency. These are the twenty most traded in April 2022, from the triennial survey of the Bank for International
/// Settlements.
#[derive(Clone, Copy, Debug, PartialEq, Eq, Hash)]
pub enum Currency {
    Usd,
    Eur,
    Jpy,
    Gbp,
    Cny,
    Aud,
    Cad,
    Chf,
    Hkd,
    Sgd,
    Sek,
    Krw,
    Nok,
    Nzd,
    Inr,
    Mxn,
    Twd,
    Zar,
    Brl,
    Dkk,
}

impl Currency {
    /// Returns the code of three letters and the number of decimals, from ISO 4217: its list has the alphabetic
    /// code and the minor unit of each currency.
    fn entry(self) -> (&'static str, u8)
        ensures code { result.0.now ≡ code_of self }
        ensures decimals { result.1 ≡ decimals_of self }
        ensures few { result.1 ≤ 2 }
    {
        match self {
            Currency::Usd => ("USD", 2),
            Currency::Eur => ("EUR", 2),
            Currency::Jpy => ("JPY", 0),
            Currency::Gbp => ("GBP", 2),
            Currency::Cny => ("CNY", 2),
            Currency::Aud => ("AUD", 2),
            Currency::Cad => ("CAD", 2),
            Currency::Chf => ("CHF", 2),
            Currency::Hkd => ("HKD", 2),
            Currency::Sgd => ("SGD", 2),
            Currency::Sek => ("SEK", 2),
            Currency::Krw => ("KRW", 0),
            Currency::Nok => ("NOK", 2),
            Currency::Nzd => ("NZD", 2),
            Currency::Inr => ("INR", 2),
            Currency::Mxn => ("MXN", 2),
            Currency::Twd => ("TWD", 2),
            Currency::Zar => ("ZAR", 2),
            Currency::Brl => ("BRL", 2),
            Currency::Dkk => ("DKK", 2),
        }
    }

    /// Returns the code of three letters.
    ///
    /// ```rust
    /// Currency::Usd.code()    // "USD"
    /// ```
    pub fn code(self) -> &'static str
        ensures { result.now ≡ code_of self }
    {
        self.entry().0
    }

    /// Returns how many decimals an amount has: 2, or 0 where the currency has no minor unit.
    ///
    /// ```rust
    /// Currency::Usd.decimals()    // 2
    /// Currency::Jpy.decimals()    // 0
    /// ```
    pub fn decimals(self) -> u8
        ensures decimals { result ≡ decimals_of self }
        ensures few { result ≤ 2 }
    {
        self.entry().1
    }
}

impl fmt::Display for Currency {
    ghost output = { λ c. Some (code_of c) };

    ghost styled_output = { λ c _. Some (code_of c) };

    /// Writes the code alone, whatever width or fill is asked for.
    fn fmt<W: fmt::Write>(&self, f: &mut fmt::Formatter<W>) -> fmt::Result {
        f.write_str(self.code())
    }
}
