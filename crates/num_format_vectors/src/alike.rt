//! A caller that prints under either of two formats that print alike.
ghost use Rattle.std.specs.Prelude.{◌≡◌, pos};
ghost use Rattle.std.specs.Bool.{OnTrue};
ghost use Rattle.num_format.specs.Text.{text_of};

use crate::asserting::assert_equal;
use num_format::{Buffer, Format, Locale, prints_alike};

/// Writes a number under the second format, if both print alike. The text is that under the first,
/// which is proved from the contracts, as for any caller.
#[tactic(auto, using(num_format_certificates::proofs::AlikeLemmas::alike_texts))]
fn written_under_second<F: Format, G: Format>(
    n: u64,
    first: &F,
    second: &G,
    buffer: &mut Buffer,
) -> bool
    ensures { OnTrue result (buffer.new ≡ text_of (F.answers first.now) (pos n)) }
{
    if prints_alike(first, second) {
        buffer.write_formatted(&n, second);
        true
    } else {
        false
    }
}

#[test]
fn the_text_is_the_same(rt: HostRuntime) {
    let mut buffer = Buffer::new();
    let is_written = written_under_second(1000, &Locale::ru, &Locale::xh, &mut buffer);
    assert_equal(&rt, is_written, true);
    assert_equal(&rt, buffer.as_str(), "1\u{a0}000");
}
