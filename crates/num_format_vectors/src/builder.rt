//! Builders compared and cloned. `tests/cases/builders.tsv` has which format is built after calls, or which error.

use crate::comparisons::hash_of;
use num_format::{CustomFormat, CustomFormatBuilder, Locale};
use std::test::Fail;

/// Builders are compared and hashed by what each field has, the length of a text that is too long too.
#[test]
fn equal_builders(rt: HostRuntime) -> Result<(), Fail> {
    assert!(rt; CustomFormatBuilder::from(Locale::en) == CustomFormat::builder());
    let refused = CustomFormat::builder().separator("123456789");
    assert!(rt; refused.clone()? == refused);
    assert!(rt; refused != CustomFormat::builder());
    assert!(rt; refused != CustomFormat::builder().separator("1234567890"));
    assert!(rt; hash_of(&refused.clone()?) == hash_of(&refused));
    assert!(rt; hash_of(&refused) != hash_of(&CustomFormat::builder()));
    Ok(())
}
