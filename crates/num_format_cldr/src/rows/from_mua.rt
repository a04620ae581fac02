//! The rows from `mua` to `rwk`. Written by tools/locales.py from specs/; do not edit.
ghost use Rattle.num_format_cldr.specs.Entry.{ShowsAll};
ghost use Rattle.num_format_cldr.specs.Table.{piece};

use crate::Row;

#[rattlefmt::skip]
static ROWS: [Row; 64] = [
    Row { name: "mua", dec: ",", group: 0, inf: "\u{221e}", min: "-", nan: "NaN", plus: "+", sep: "." },
    Row { name: "my", dec: ".", group: 0, inf: "\u{221e}", min: "-", nan: "ဂဏန\u{103a}\u{1038}မဟ\u{102f}တ\u{103a}သ\u{1031}\u{102c}", plus: "+", sep: "," },
    Row { name: "mzn", dec: "\u{66b}", group: 0, inf: "\u{221e}", min: "\u{200e}-\u{200e}", nan: "NaN", plus: "\u{200e}+\u{200e}", sep: "\u{66c}" },
    Row { name: "naq", dec: ".", group: 0, inf: "\u{221e}", min: "-", nan: "NaN", plus: "+", sep: "," },
    Row { name: "nb", dec: ",", group: 0, inf: "\u{221e}", min: "\u{2212}", nan: "NaN", plus: "+", sep: "\u{a0}" },
    Row { name: "nb-SJ", dec: ",", group: 0, inf: "\u{221e}", min: "\u{2212}", nan: "NaN", plus: "+", sep: "\u{a0}" },
    Row { name: "nd", dec: ".", group: 0, inf: "\u{221e}", min: "-", nan: "NaN", plus: "+", sep: "," },
    Row { name: "nds", dec: ".", group: 0, inf: "\u{221e}", min: "-", nan: "NaN", plus: "+", sep: "," },
    Row { name: "nds-NL", dec: ".", group: 0, inf: "\u{221e}", min: "-", nan: "NaN", plus: "+", sep: "," },
    Row { name: "ne", dec: ".", group: 1, inf: "\u{221e}", min: "-", nan: "NaN", plus: "+", sep: "," },
    Row { name: "ne-IN", dec: ".", group: 1, inf: "\u{221e}", min: "-", nan: "NaN", plus: "+", sep: "," },
    Row { name: "nl", dec: ",", group: 0, inf: "\u{221e}", min: "-", nan: "NaN", plus: "+", sep: "." },
    Row { name: "nl-AW", dec: ",", group: 0, inf: "\u{221e}", min: "-", nan: "NaN", plus: "+", sep: "." },
    Row { name: "nl-BE", dec: ",", group: 0, inf: "\u{221e}", min: "-", nan: "NaN", plus: "+", sep: "." },
    Row { name: "nl-BQ", dec: ",", group: 0, inf: "\u{221e}", min: "-", nan: "NaN", plus: "+", sep: "." },
    Row { name: "nl-CW", dec: ",", group: 0, inf: "\u{221e}", min: "-", nan: "NaN", plus: "+", sep: "." },
    Row { name: "nl-SR", dec: ",", group: 0, inf: "\u{221e}", min: "-", nan: "NaN", plus: "+", sep: "." },
    Row { name: "nl-SX", dec: ",", group: 0, inf: "\u{221e}", min: "-", nan: "NaN", plus: "+", sep: "." },
    Row { name: "nmg", dec: ",", group: 0, inf: "\u{221e}", min: "-", nan: "NaN", plus: "+", sep: "\u{a0}" },
    Row { name: "nn", dec: ",", group: 0, inf: "\u{221e}", min: "\u{2212}", nan: "NaN", plus: "+", sep: "\u{a0}" },
    Row { name: "nnh", dec: ",", group: 0, inf: "\u{221e}", min: "-", nan: "NaN", plus: "+", sep: "." },
    Row { name: "nus", dec: ".", group: 0, inf: "\u{221e}", min: "-", nan: "NaN", plus: "+", sep: "," },
    Row { name: "nyn", dec: ".", group: 0, inf: "\u{221e}", min: "-", nan: "NaN", plus: "+", sep: "," },
    Row { name: "om", dec: ".", group: 0, inf: "\u{221e}", min: "-", nan: "NaN", plus: "+", sep: "," },
    Row { name: "om-KE", dec: ".", group: 0, inf: "\u{221e}", min: "-", nan: "NaN", plus: "+", sep: "," },
    Row { name: "or", dec: ".", group: 1, inf: "\u{221e}", min: "-", nan: "NaN", plus: "+", sep: "," },
    Row { name: "os", dec: ",", group: 0, inf: "\u{221e}", min: "-", nan: "НН", plus: "+", sep: "\u{a0}" },
    Row { name: "os-RU", dec: ",", group: 0, inf: "\u{221e}", min: "-", nan: "НН", plus: "+", sep: "\u{a0}" },
    Row { name: "pa", dec: ".", group: 1, inf: "\u{221e}", min: "-", nan: "NaN", plus: "+", sep: "," },
    Row { name: "pa-Arab", dec: "\u{66b}", group: 0, inf: "\u{221e}", min: "\u{200e}-\u{200e}", nan: "NaN", plus: "\u{200e}+\u{200e}", sep: "\u{66c}" },
    Row { name: "pa-Guru", dec: ".", group: 1, inf: "\u{221e}", min: "-", nan: "NaN", plus: "+", sep: "," },
    Row { name: "pl", dec: ",", group: 0, inf: "\u{221e}", min: "-", nan: "NaN", plus: "+", sep: "\u{a0}" },
    Row { name: "prg", dec: ".", group: 0, inf: "\u{221e}", min: "-", nan: "NaN", plus: "+", sep: "," },
    Row { name: "ps", dec: "\u{66b}", group: 0, inf: "\u{221e}", min: "\u{200e}-\u{200e}", nan: "NaN", plus: "\u{200e}+\u{200e}", sep: "\u{66c}" },
    Row { name: "ps-PK", dec: "\u{66b}", group: 0, inf: "\u{221e}", min: "\u{200e}-\u{200e}", nan: "NaN", plus: "\u{200e}+\u{200e}", sep: "\u{66c}" },
    Row { name: "pt", dec: ",", group: 0, inf: "\u{221e}", min: "-", nan: "NaN", plus: "+", sep: "." },
    Row { name: "pt-AO", dec: ",", group: 0, inf: "\u{221e}", min: "-", nan: "NaN", plus: "+", sep: "\u{a0}" },
    Row { name: "pt-CH", dec: ",", group: 0, inf: "\u{221e}", min: "-", nan: "NaN", plus: "+", sep: "\u{a0}" },
    Row { name: "pt-CV", dec: ",", group: 0, inf: "\u{221e}", min: "-", nan: "NaN", plus: "+", sep: "\u{a0}" },
    Row { name: "pt-GQ", dec: ",", group: 0, inf: "\u{221e}", min: "-", nan: "NaN", plus: "+", sep: "\u{a0}" },
    Row { name: "pt-GW", dec: ",", group: 0, inf: "\u{221e}", min: "-", nan: "NaN", plus: "+", sep: "\u{a0}" },
    Row { name: "pt-LU", dec: ",", group: 0, inf: "\u{221e}", min: "-", nan: "NaN", plus: "+", sep: "\u{a0}" },
    Row { name: "pt-MO", dec: ",", group: 0, inf: "\u{221e}", min: "-", nan: "NaN", plus: "+", sep: "\u{a0}" },
    Row { name: "pt-MZ", dec: ",", group: 0, inf: "\u{221e}", min: "-", nan: "NaN", plus: "+", sep: "\u{a0}" },
    Row { name: "pt-PT", dec: ",", group: 0, inf: "\u{221e}", min: "-", nan: "NaN", plus: "+", sep: "\u{a0}" },
    Row { name: "pt-ST", dec: ",", group: 0, inf: "\u{221e}", min: "-", nan: "NaN", plus: "+", sep: "\u{a0}" },
    Row { name: "pt-TL", dec: ",", group: 0, inf: "\u{221e}", min: "-", nan: "NaN", plus: "+", sep: "\u{a0}" },
    Row { name: "qu", dec: ".", group: 0, inf: "\u{221e}", min: "-", nan: "NaN", plus: "+", sep: "," },
    Row { name: "qu-BO", dec: ",", group: 0, inf: "\u{221e}", min: "-", nan: "NaN", plus: "+", sep: "." },
    Row { name: "qu-EC", dec: ".", group: 0, inf: "\u{221e}", min: "-", nan: "NaN", plus: "+", sep: "," },
    Row { name: "rm", dec: ".", group: 0, inf: "\u{221e}", min: "\u{2212}", nan: "NaN", plus: "+", sep: "\u{2019}" },
    Row { name: "rn", dec: ",", group: 0, inf: "\u{221e}", min: "-", nan: "NaN", plus: "+", sep: "." },
    Row { name: "ro", dec: ",", group: 0, inf: "\u{221e}", min: "-", nan: "NaN", plus: "+", sep: "." },
    Row { name: "ro-MD", dec: ",", group: 0, inf: "\u{221e}", min: "-", nan: "NaN", plus: "+", sep: "." },
    Row { name: "rof", dec: ".", group: 0, inf: "\u{221e}", min: "-", nan: "NaN", plus: "+", sep: "," },
    Row { name: "root", dec: ".", group: 0, inf: "\u{221e}", min: "-", nan: "NaN", plus: "+", sep: "," },
    Row { name: "ru", dec: ",", group: 0, inf: "\u{221e}", min: "-", nan: "не\u{a0}число", plus: "+", sep: "\u{a0}" },
    Row { name: "ru-BY", dec: ",", group: 0, inf: "\u{221e}", min: "-", nan: "не\u{a0}число", plus: "+", sep: "\u{a0}" },
    Row { name: "ru-KG", dec: ",", group: 0, inf: "\u{221e}", min: "-", nan: "не\u{a0}число", plus: "+", sep: "\u{a0}" },
    Row { name: "ru-KZ", dec: ",", group: 0, inf: "\u{221e}", min: "-", nan: "не\u{a0}число", plus: "+", sep: "\u{a0}" },
    Row { name: "ru-MD", dec: ",", group: 0, inf: "\u{221e}", min: "-", nan: "не\u{a0}число", plus: "+", sep: "\u{a0}" },
    Row { name: "ru-UA", dec: ",", group: 0, inf: "\u{221e}", min: "-", nan: "не\u{a0}число", plus: "+", sep: "\u{a0}" },
    Row { name: "rw", dec: ",", group: 0, inf: "\u{221e}", min: "-", nan: "NaN", plus: "+", sep: "." },
    Row { name: "rwk", dec: ".", group: 0, inf: "\u{221e}", min: "-", nan: "NaN", plus: "+", sep: "," },
];

/// Returns the rows from place 384 to place 447.
pub fn rows() -> &'static [Row]
    ensures { ShowsAll result.now (piece 6) }
{
    &ROWS
}
