//! The type of a row of the table.

/// How a locale writes numbers: a row of the table.
///
/// Capacities are in bytes of UTF-8. They are those of the texts of a format, the constants of
/// `num_format_text::capacities`.
#[derive(Clone, Copy, Debug, PartialEq, Eq)]
pub struct Row {
    /// The locale's name, such as `en` or `zh-Hant-HK`, whose parts are joined by hyphens.
    pub name: &'static str,
    /// The decimal mark, between the whole part of a number and its fraction; at most
    /// `MAX_DEC_LEN` bytes.
    pub dec: &'static str,
    /// How digits are grouped: 0 in threes (Standard), 1 in a last three and twos before it
    /// (Indian), 2 not at all (Posix).
    pub group: u8,
    /// The text for infinity; at most `MAX_INF_LEN` bytes.
    pub inf: &'static str,
    /// The minus sign; at least one byte and at most `MAX_MIN_LEN`.
    pub min: &'static str,
    /// The text for a value that is not a number; at most `MAX_NAN_LEN` bytes.
    pub nan: &'static str,
    /// The plus sign; at most `MAX_PLUS_LEN` bytes.
    pub plus: &'static str,
    /// The separator between two groups of digits; at least one byte and at most `MAX_SEP_LEN`.
    pub sep: &'static str,
}
