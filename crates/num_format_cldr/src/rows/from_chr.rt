//! The rows from `chr` to `en-GM`. Written by tools/locales.py from specs/; do not edit.
ghost use Rattle.num_format_cldr.specs.Entry.{ShowsAll};
ghost use Rattle.num_format_cldr.specs.Table.{piece};

use crate::Row;

#[rattlefmt::skip]
static ROWS: [Row; 64] = [
    Row { name: "chr", dec: ".", group: 0, inf: "\u{221e}", min: "-", nan: "NaN", plus: "+", sep: "," },
    Row { name: "ckb", dec: "\u{66b}", group: 0, inf: "\u{221e}", min: "\u{200f}-", nan: "NaN", plus: "\u{200f}+", sep: "\u{66c}" },
    Row { name: "ckb-IR", dec: "\u{66b}", group: 0, inf: "\u{221e}", min: "\u{200f}-", nan: "NaN", plus: "\u{200f}+", sep: "\u{66c}" },
    Row { name: "cs", dec: ",", group: 0, inf: "\u{221e}", min: "-", nan: "NaN", plus: "+", sep: "\u{a0}" },
    Row { name: "cu", dec: ".", group: 0, inf: "\u{221e}", min: "-", nan: "NaN", plus: "+", sep: "," },
    Row { name: "cy", dec: ".", group: 0, inf: "\u{221e}", min: "-", nan: "NaN", plus: "+", sep: "," },
    Row { name: "da", dec: ",", group: 0, inf: "\u{221e}", min: "-", nan: "NaN", plus: "+", sep: "." },
    Row { name: "da-GL", dec: ",", group: 0, inf: "\u{221e}", min: "-", nan: "NaN", plus: "+", sep: "." },
    Row { name: "dav", dec: ".", group: 0, inf: "\u{221e}", min: "-", nan: "NaN", plus: "+", sep: "," },
    Row { name: "de", dec: ",", group: 0, inf: "\u{221e}", min: "-", nan: "NaN", plus: "+", sep: "." },
    Row { name: "de-AT", dec: ",", group: 0, inf: "\u{221e}", min: "-", nan: "NaN", plus: "+", sep: "\u{a0}" },
    Row { name: "de-BE", dec: ",", group: 0, inf: "\u{221e}", min: "-", nan: "NaN", plus: "+", sep: "." },
    Row { name: "de-CH", dec: ".", group: 0, inf: "\u{221e}", min: "-", nan: "NaN", plus: "+", sep: "\u{2019}" },
    Row { name: "de-IT", dec: ",", group: 0, inf: "\u{221e}", min: "-", nan: "NaN", plus: "+", sep: "." },
    Row { name: "de-LI", dec: ".", group: 0, inf: "\u{221e}", min: "-", nan: "NaN", plus: "+", sep: "\u{2019}" },
    Row { name: "de-LU", dec: ",", group: 0, inf: "\u{221e}", min: "-", nan: "NaN", plus: "+", sep: "." },
    Row { name: "dje", dec: ".", group: 0, inf: "\u{221e}", min: "-", nan: "NaN", plus: "+", sep: "\u{a0}" },
    Row { name: "dsb", dec: ",", group: 0, inf: "\u{221e}", min: "-", nan: "NaN", plus: "+", sep: "." },
    Row { name: "dua", dec: ",", group: 0, inf: "\u{221e}", min: "-", nan: "NaN", plus: "+", sep: "\u{a0}" },
    Row { name: "dyo", dec: ",", group: 0, inf: "\u{221e}", min: "-", nan: "NaN", plus: "+", sep: "\u{a0}" },
    Row { name: "dz", dec: ".", group: 1, inf: "ག\u{fb2}ངས་མ\u{f7a}ད", min: "-", nan: "ཨང་མད", plus: "+", sep: "," },
    Row { name: "ebu", dec: ".", group: 0, inf: "\u{221e}", min: "-", nan: "NaN", plus: "+", sep: "," },
    Row { name: "ee", dec: ".", group: 0, inf: "\u{221e}", min: "-", nan: "mnn", plus: "+", sep: "," },
    Row { name: "ee-TG", dec: ".", group: 0, inf: "\u{221e}", min: "-", nan: "mnn", plus: "+", sep: "," },
    Row { name: "el", dec: ",", group: 0, inf: "\u{221e}", min: "-", nan: "NaN", plus: "+", sep: "." },
    Row { name: "el-CY", dec: ",", group: 0, inf: "\u{221e}", min: "-", nan: "NaN", plus: "+", sep: "." },
    Row { name: "en", dec: ".", group: 0, inf: "\u{221e}", min: "-", nan: "NaN", plus: "+", sep: "," },
    Row { name: "en-001", dec: ".", group: 0, inf: "\u{221e}", min: "-", nan: "NaN", plus: "+", sep: "," },
    Row { name: "en-150", dec: ".", group: 0, inf: "\u{221e}", min: "-", nan: "NaN", plus: "+", sep: "," },
    Row { name: "en-AE", dec: ".", group: 0, inf: "\u{221e}", min: "-", nan: "NaN", plus: "+", sep: "," },
    Row { name: "en-AG", dec: ".", group: 0, inf: "\u{221e}", min: "-", nan: "NaN", plus: "+", sep: "," },
    Row { name: "en-AI", dec: ".", group: 0, inf: "\u{221e}", min: "-", nan: "NaN", plus: "+", sep: "," },
    Row { name: "en-AS", dec: ".", group: 0, inf: "\u{221e}", min: "-", nan: "NaN", plus: "+", sep: "," },
    Row { name: "en-AT", dec: ",", group: 0, inf: "\u{221e}", min: "-", nan: "NaN", plus: "+", sep: "." },
    Row { name: "en-AU", dec: ".", group: 0, inf: "\u{221e}", min: "-", nan: "NaN", plus: "+", sep: "," },
    Row { name: "en-BB", dec: ".", group: 0, inf: "\u{221e}", min: "-", nan: "NaN", plus: "+", sep: "," },
    Row { name: "en-BE", dec: ",", group: 0, inf: "\u{221e}", min: "-", nan: "NaN", plus: "+", sep: "." },
    Row { name: "en-BI", dec: ".", group: 0, inf: "\u{221e}", min: "-", nan: "NaN", plus: "+", sep: "," },
    Row { name: "en-BM", dec: ".", group: 0, inf: "\u{221e}", min: "-", nan: "NaN", plus: "+", sep: "," },
    Row { name: "en-BS", dec: ".", group: 0, inf: "\u{221e}", min: "-", nan: "NaN", plus: "+", sep: "," },
    Row { name: "en-BW", dec: ".", group: 0, inf: "\u{221e}", min: "-", nan: "NaN", plus: "+", sep: "," },
    Row { name: "en-BZ", dec: ".", group: 0, inf: "\u{221e}", min: "-", nan: "NaN", plus: "+", sep: "," },
    Row { name: "en-CA", dec: ".", group: 0, inf: "\u{221e}", min: "-", nan: "NaN", plus: "+", sep: "," },
    Row { name: "en-CC", dec: ".", group: 0, inf: "\u{221e}", min: "-", nan: "NaN", plus: "+", sep: "," },
    Row { name: "en-CH", dec: ".", group: 0, inf: "\u{221e}", min: "-", nan: "NaN", plus: "+", sep: "\u{2019}" },
    Row { name: "en-CK", dec: ".", group: 0, inf: "\u{221e}", min: "-", nan: "NaN", plus: "+", sep: "," },
    Row { name: "en-CM", dec: ".", group: 0, inf: "\u{221e}", min: "-", nan: "NaN", plus: "+", sep: "," },
    Row { name: "en-CX", dec: ".", group: 0, inf: "\u{221e}", min: "-", nan: "NaN", plus: "+", sep: "," },
    Row { name: "en-CY", dec: ".", group: 0, inf: "\u{221e}", min: "-", nan: "NaN", plus: "+", sep: "," },
    Row { name: "en-DE", dec: ",", group: 0, inf: "\u{221e}", min: "-", nan: "NaN", plus: "+", sep: "." },
    Row { name: "en-DG", dec: ".", group: 0, inf: "\u{221e}", min: "-", nan: "NaN", plus: "+", sep: "," },
    Row { name: "en-DK", dec: ",", group: 0, inf: "\u{221e}", min: "-", nan: "NaN", plus: "+", sep: "." },
    Row { name: "en-DM", dec: ".", group: 0, inf: "\u{221e}", min: "-", nan: "NaN", plus: "+", sep: "," },
    Row { name: "en-ER", dec: ".", group: 0, inf: "\u{221e}", min: "-", nan: "NaN", plus: "+", sep: "," },
    Row { name: "en-FI", dec: ",", group: 0, inf: "\u{221e}", min: "-", nan: "NaN", plus: "+", sep: "\u{a0}" },
    Row { name: "en-FJ", dec: ".", group: 0, inf: "\u{221e}", min: "-", nan: "NaN", plus: "+", sep: "," },
    Row { name: "en-FK", dec: ".", group: 0, inf: "\u{221e}", min: "-", nan: "NaN", plus: "+", sep: "," },
    Row { name: "en-FM", dec: ".", group: 0, inf: "\u{221e}", min: "-", nan: "NaN", plus: "+", sep: "," },
    Row { name: "en-GB", dec: ".", group: 0, inf: "\u{221e}", min: "-", nan: "NaN", plus: "+", sep: "," },
    Row { name: "en-GD", dec: ".", group: 0, inf: "\u{221e}", min: "-", nan: "NaN", plus: "+", sep: "," },
    Row { name: "en-GG", dec: ".", group: 0, inf: "\u{221e}", min: "-", nan: "NaN", plus: "+", sep: "," },
    Row { name: "en-GH", dec: ".", group: 0, inf: "\u{221e}", min: "-", nan: "NaN", plus: "+", sep: "," },
    Row { name: "en-GI", dec: ".", group: 0, inf: "\u{221e}", min: "-", nan: "NaN", plus: "+", sep: "," },
    Row { name: "en-GM", dec: ".", group: 0, inf: "\u{221e}", min: "-", nan: "NaN", plus: "+", sep: "," },
];

/// Returns the rows from place 64 to place 127.
pub fn rows() -> &'static [Row]
    ensures { ShowsAll result.now (piece 1) }
{
    &ROWS
}
