//! The ways to group the digits of a whole number.
ghost use Rattle.std.specs.Prelude.{◌≡◌, MatchOption};
ghost use Rattle.num_format_text.specs.GroupingNames.{grouping_name, grouping_named};
ghost use Rattle.num_format_text.specs.declared.grouping.Grouping.TheVariants.{Posix};
ghost use Rattle.num_format_text.specs.Separators.{GroupsBy};

use serde::{Deserialize, Serialize};

/// Where separators stand among the digits of a whole number.
///
/// `Standard`, `Indian` and `Posix` are those of the Rust crate `num-format`. Which locale has which
/// is the Unicode CLDR's data. The others are additions, which no locale of the table
/// has. With `serde` a grouping is the name of its variant, as `Standard`.
#[derive(Clone, Copy, Debug, PartialEq, Eq, Hash, Serialize, Deserialize)]
pub enum Grouping {
    /// Groups of three digits, as in `1,000,000`.
    Standard,
    /// A last group of three digits, and groups of two before it, as in `10,00,000`.
    Indian,
    /// No groups, as in `1000000`.
    Posix,
    /// Groups of four digits, as in `100,0000`, by which Chinese and Japanese numbers are read.
    Myriad,
    /// Groups of three digits from five digits on, as in `1000` and `10,000`: the CLDR's minimum of
    /// two digits in the first group, which Spanish, Polish and European Portuguese have.
    Sparse,
}

/// How many digits the groups of a grouping have.
#[derive(Clone, Copy, Debug, PartialEq, Eq)]
pub struct Sizes {
    /// The digits of the last group.
    pub last: usize,
    /// The digits of each group before the last. The first group may have fewer.
    pub size: usize,
    /// The digits of the shortest number that has a separator.
    pub least: usize,
}

impl Grouping {
    /// Every grouping, in the order of their numbers in C.
    ///
    /// ```rust
    /// Grouping::ALL.len()    // 5
    /// ```
    pub const ALL: [Grouping; 5] = [
        Grouping::Standard,
        Grouping::Indian,
        Grouping::Posix,
        Grouping::Myriad,
        Grouping::Sparse,
    ];

    /// Returns the sizes of the groups in digits, or `None` for `Posix`, which has no groups.
    ///
    /// ```rust
    /// Grouping::Indian.sizes()    // Some(Sizes { last: 3, size: 2, least: 4 })
    /// Grouping::Posix.sizes()     // None
    /// ```
    #[inline(always)]
    pub fn sizes(self) -> Option<Sizes>
        ensures { MatchOption result (self ≡ Posix) (GroupsBy self) }
    {
        let (last, size, least) = match self {
            Grouping::Standard => (3, 3, 4),
            Grouping::Indian => (3, 2, 4),
            Grouping::Posix => return None,
            Grouping::Myriad => (4, 4, 5),
            Grouping::Sparse => (3, 3, 5),
        };
        Some(Sizes { last, size, least })
    }

    /// Returns the name of the variant, as `Standard`.
    ///
    /// ```rust
    /// Grouping::Indian.name()    // "Indian"
    /// ```
    pub fn name(self) -> &'static str
        ensures { result.now ≡ grouping_name self }
    {
        match self {
            Grouping::Standard => "Standard",
            Grouping::Indian => "Indian",
            Grouping::Posix => "Posix",
            Grouping::Myriad => "Myriad",
            Grouping::Sparse => "Sparse",
        }
    }

    /// Returns the grouping of that name, or `None` if no grouping has it. Upper and lower case differ.
    ///
    /// ```rust
    /// Grouping::from_name("Indian")    // Some(Grouping::Indian)
    /// Grouping::from_name("indian")    // None
    /// ```
    pub fn from_name(name: &str) -> Option<Grouping>
        ensures { result ≡ grouping_named name.now }
    {
        Grouping::ALL
            .iter()
            .find(|grouping| name == grouping.name())
            .copied()
    }
}
