//! What lines are regrouped by.
use crate::number::Parser;
use crate::rules::Rules;
use num_format::Format;
use regroup_faults::Notation;

/// What each line of an input is regrouped by.
#[derive(Drop)]
pub(crate) struct Setup<'a, F: Format, G: Format> {
    /// The rules.
    pub(crate) rules: &'a Rules<'a>,
    /// The name of the input, which messages have.
    pub(crate) name: &'a str,
    /// What parses the numbers.
    pub(crate) parser: Parser<'a, F>,
    /// How the numbers are printed.
    pub(crate) to: &'a Notation<'a, G>,
}
