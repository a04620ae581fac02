//! The rows, in modules of at most 64 each. Written by tools/locales.py from specs/; do not edit.
ghost use Rattle.std.specs.Prelude.{◌<◌};
ghost use Rattle.num_format_cldr.specs.Entry.{ShowsAll};
ghost use Rattle.num_format_cldr.specs.Table.{piece};

use crate::Row;

mod from_af;
mod from_chr;
mod from_en_gu;
mod from_en_ws;
mod from_fr_cg;
mod from_is;
mod from_mua;
mod from_sah;
mod from_uz_arab;

/// The most rows that one module has.
pub const PIECE_LEN: usize = 64;

/// Returns the rows from place `PIECE_LEN * number` on, at most [`PIECE_LEN`] of them.
pub fn rows_of_piece(number: usize) -> &'static [Row]
    requires { number < 9 }
    ensures { ShowsAll result.now (piece number) }
{
    match number {
        0 => from_af::rows(),
        1 => from_chr::rows(),
        2 => from_en_gu::rows(),
        3 => from_en_ws::rows(),
        4 => from_fr_cg::rows(),
        5 => from_is::rows(),
        6 => from_mua::rows(),
        7 => from_sah::rows(),
        8 => from_uz_arab::rows(),
        _ => unreachable!(),
    }
}
