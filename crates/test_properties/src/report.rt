//! What came of the properties.

use crate::check::{Outcomes, PROPERTIES};
use crate::input::RECORD_LEN;
use std::alloc::{AllocError, Global};
use std::io;

/// On how many inputs a property was checked, and on how many it failed.
#[derive(Drop)]
struct Tally {
    property: &'static str,
    inputs: usize,
    failed: usize,
    first_failed: Option<usize>,
}

impl Tally {
    fn new(property: &'static str) -> Tally {
        Tally {
            property,
            inputs: 0,
            failed: 0,
            first_failed: None,
        }
    }

    /// Counts one more input, at this index.
    fn add(&mut self, index: usize, has_failed: bool) {
        self.inputs = self.inputs.saturating_add(1);
        if has_failed {
            self.failed = self.failed.saturating_add(1);
            self.first_failed = self.first_failed.or(Some(index));
        }
    }

    /// Returns the counts in words, and the first input that failed, as the hexadecimal digits of its
    /// record.
    fn line(&self, alloc: Global, data: &[u8]) -> io::Result<String> {
        let mut line = format!(in alloc;
            "{}: {} inputs, {} failed",
            self.property, self.inputs, self.failed
        )?;
        if let Some(index) = self.first_failed {
            let record = data.chunks(RECORD_LEN).nth(index).unwrap_or(&[]);
            let record = hex::encode(alloc, record)?;
            line.push_str(&format!(in alloc; ", first input {index}: {record}")?)?;
        }
        Ok(line)
    }
}

/// What came of each property, in the order of their outcomes.
#[derive(Drop)]
pub struct Report<'a> {
    tallies: Vec<Tally>,
    /// The property that fails where it holds.
    negated: Option<&'a str>,
}

impl<'a> Report<'a> {
    /// Returns a report of no input, in which the property of that name is negated.
    pub fn new(alloc: Global, negated: Option<&'a str>) -> Result<Report<'a>, AllocError> {
        let mut tallies = Vec::new(alloc);
        for property in PROPERTIES {
            tallies.push(Tally::new(property))?;
        }
        Ok(Report { tallies, negated })
    }

    /// Counts the outcomes for the input at an index.
    pub fn add(&mut self, index: usize, outcomes: Outcomes) {
        for (tally, outcome) in self.tallies.iter_mut().zip(outcomes) {
            if let Some(holds) = outcome {
                let is_negated = self.negated == Some(tally.property);
                tally.add(index, holds == is_negated);
            }
        }
    }

    /// Whether there is an input, and no property failed.
    pub fn is_passed(&self) -> bool {
        let is_checked = self.tallies.iter().any(|tally| tally.inputs > 0);
        is_checked && self.tallies.iter().all(|tally| tally.failed == 0)
    }

    /// Returns a line for each property. The data have the inputs.
    pub fn lines(&self, alloc: Global, data: &[u8]) -> io::Result<Vec<String>> {
        let mut lines = Vec::new(alloc);
        for tally in &self.tallies {
            lines.push(tally.line(alloc, data)?)?;
        }
        Ok(lines)
    }
}
