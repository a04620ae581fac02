//! How the lines of a text set the data of a format.
ghost use Rattle.std.specs.Prelude.{◌≡◌, IfOk, IfErr, Ok, OnOk};
ghost use Rattle.std.specs.Option.{option_map};
ghost use Rattle.num_format.specs.Building.{after_call, built};
ghost use Rattle.num_format.specs.RoundTrips.{RoundTrips};
ghost use Rattle.uses_settings.specs.Settings.{HasSettings, Refuses, call_in, choices_in};

use num_format::{CustomFormat, CustomFormatBuilder, Error, Grouping, reads_back};

/// Returns the format that the lines of a text set, over the data of the locale `en`.
///
/// A line is a key, `=` and a value. The keys are `decimal`, `grouping`, `minus_sign` and `separator`;
/// a grouping is `Standard`, `Indian`, `Posix`, `Myriad` or `Sparse`. A later line replaces an earlier
/// one of the same key.
///
/// Every number that is printed under the format parses as that number again.
///
/// # Errors
///
/// Returns an error of kind [`ErrorKind::Other`](num_format::ErrorKind::Other) if a line is no setting.
/// Else returns the error of the library for a text that is too long, and else again one of kind `Other`
/// for a format under which a number does not read back.
///
/// ```rust
/// let format = parse_format("separator='\ngrouping=Indian")?;
/// Buffer::of(&-1234567, &format).as_str()    // "-12'34'567"
/// parse_format("separator=0").is_err()       // true: 1000 would be printed as 10000
/// ```
pub fn parse_format(text: &str) -> Result<CustomFormat, Error>
    ensures reads_back { IfOk result RoundTrips }
    ensures format { IfOk result (λ f. built (choices_in text.now) ≡ Ok f) }
    ensures settings { OnOk result (HasSettings text.now) }
    ensures refused { IfErr result (Refuses text.now) }
{
    let mut builder = CustomFormat::builder();
    for line in text.lines() {
        let Some(next) = with_setting(builder, line) else {
            return Err(Error::new("a line is no setting of a format"));
        };
        builder = next;
    }
    let format = builder.build()?;
    if !reads_back(&format) {
        return Err(Error::new("numbers under this format do not read back"));
    }
    Ok(format)
}

/// Returns the builder with the setting of one more line. Returns `None` if the line is no setting.
fn with_setting(builder: CustomFormatBuilder, line: &str) -> Option<CustomFormatBuilder>
    ensures { result ≡ option_map (after_call builder) (call_in line.now) }
{
    let (key, value) = line.split_once('=')?;
    match key {
        "decimal" => Some(builder.decimal(value)),
        "grouping" => Some(builder.grouping(Grouping::from_name(value)?)),
        "minus_sign" => Some(builder.minus_sign(value)),
        "separator" => Some(builder.separator(value)),
        _ => None,
    }
}
