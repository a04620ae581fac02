//! The table of the 542 locales: a row says how one writes numbers.
//!
//! `tools/locales.py` writes `name_list.rt`, `rows` and `proofs/rows` from `specs/`. Any other file may be changed.
//!
//! A row has the decimal mark, the separator and the signs of a locale, how it groups digits, and its texts for
//! infinity and for a value that is not a number. The data are those of the Unicode CLDR, as the Rust crate
//! `num-format` 0.4.4 has them.
//!
//! Rows are in rising byte order of their names, which is the order of `&str`: `af` is at place 0,
//! `en` at place 90 and `zu` at place 541. [`row`] returns the row at a place, and [`names`] returns
//! all names, among which a caller can find a place by binary search.
//!
//! `specs/` defines the same table in another form, by families of names that share a class and by
//! lists of the names with unusual texts. The contracts say that the rows are those of that
//! definition.
#![tactic(auto)]

ghost use Rattle.std.specs.Prelude.{◌≡◌, ◌<◌, [], map, length, All, Contains, slice_index_or};
ghost use Rattle.num_format_cldr.specs.Entry.{Shows, IsWellFormed, Rises};
ghost use Rattle.num_format_cldr.specs.Table.{entry, table_names};

mod name_list;
mod record;
mod rows;

pub use record::Row;

/// The number of rows. Places are the numbers below it.
pub const LEN: usize = 542;

/// Returns the row at `place`, counted from 0 in rising byte order of the names.
///
/// ```rust
/// num_format_cldr::row(134).name     // "en-IN"
/// num_format_cldr::row(134).dec      // "."
/// num_format_cldr::row(134).sep      // ","
/// num_format_cldr::row(134).group    // 1, which is Indian
/// ```
pub fn row(place: usize) -> &'static Row
    requires { place < LEN }
    ensures shown { Shows result.now (entry place) }
    ensures well_formed { IsWellFormed (entry place) }
    ensures named { slice_index_or table_names place [] ≡ (entry place).name }
{
    &rows::rows_of_piece(place / rows::PIECE_LEN)[place % rows::PIECE_LEN]
}

/// Returns the names of all rows, in order: the name at a place is that of the row at that place.
///
/// They rise in byte order, and none has an underscore.
///
/// ```rust
/// num_format_cldr::names()[0]      // "af"
/// num_format_cldr::names()[90]     // "en"
/// num_format_cldr::names()[541]    // "zu"
/// ```
pub fn names() -> &'static [&'static str]
    ensures listed { map (λ name. name.now) result.now ≡ table_names }
    ensures count { length result.now ≡ LEN }
    ensures rising { Rises table_names }
    // 95 is the underscore.
    ensures no_underscore { All (λ name. Contains name 95 → ⊥) table_names }
{
    &name_list::NAMES
}
