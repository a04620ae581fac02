//! Laws: what the tests of the definitions decide, in the words of the library.
ghost use Rattle.regroup_commands.specs.Laws.{AlikeTestLaw, ReadBackTestLaw, SpellingLaw};

use num_format::laws;

/// Every number reads back under a format exactly if the two numbers do that `check` is defined by,
/// where the minus sign and the separator are UTF-8, as those of every format are.
pub fn read_back()
    ensures { ReadBackTestLaw }
{
    laws::round_trips();
}

/// Two formats print all numbers alike exactly if they print the four alike that `alike` is defined by.
pub fn alike()
    ensures { AlikeTestLaw }
{
    laws::alike();
}

/// A text is a spelling of a name exactly if it spells the name.
pub fn spelling()
    ensures { SpellingLaw }
{}
