//! The program of `docs/CALLERS.md`, word for word.
#![tactic(auto)]

use anyhow::Result;
use num_format::parsing::ParseFormatted;
use num_format::{Buffer, CustomFormat, Grouping, Locale, ToFormattedString, WriteFormatted};
use num_format_decimal::{Decimal, ParseDecimal};

fn main(rt: HostRuntime) -> Result<()> {
    // Into a buffer: this needs no memory and cannot fail.
    let mut buffer = Buffer::new();
    buffer.write_formatted(&1_000_000u32, &Locale::en);
    println!(rt; "{buffer}")?;

    // Into a new string, under a format of your own.
    let format = CustomFormat::builder()
        .grouping(Grouping::Indian)
        .separator("'")
        .build()?;
    let text = (-1_234_567i64).to_formatted_string(rt.alloc(), &format)?;
    println!(rt; "{text}")?;

    // Under a locale's format with another grouping: Spanish has no separator in four digits.
    let builder = CustomFormat::from(Locale::es).into_builder();
    let spanish = builder.grouping(Grouping::Sparse).build()?;
    for number in [1_234, 12_345] {
        println!(rt; "{}", number.to_formatted_string(rt.alloc(), &spanish)?)?;
    }

    // After what a string or another writer holds.
    let mut line = String::from_str(rt.alloc(), "total: ")?;
    line.write_formatted(&1_234_567u64, &Locale::de)?;
    println!(rt; "{line}")?;

    // And back: exactly as printed, or an error with the cause.
    let number: i64 = "-1,000,000".parse_strict(&Locale::en)?;
    println!(rt; "{number}")?;
    let price: Decimal = "1.234,50".parse_decimal(&Locale::de)?;
    println!(rt; "{}", price.formatted(&Locale::en))?;
    Ok(())
}

/// Runs the program.
pub(crate) fn run(rt: HostRuntime) -> Result<()> {
    main(rt)
}
