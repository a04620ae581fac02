//! The commands: how words ask for them, and what each prints.
ghost use Rattle.std.specs.Prelude.{◌≡◌, Err, IfOk, IfErr, OnErr};
ghost use Rattle.std.specs.Option.{option_map};
ghost use Rattle.std.specs.Result.{result_map_both};
ghost use Rattle.num_format.specs.Data.{locale_data};
ghost use Rattle.num_format.specs.Refusal.{refusal_of};
ghost use Rattle.num_format.specs.Readable.{number_read};
ghost use Rattle.regroup_commands.specs.Locales.{locale_named};
ghost use Rattle.regroup_commands.specs.Output.{is_alike, is_read_back, output_of_request, result_of};
ghost use Rattle.regroup_commands.specs.Request.{alike_with, check_with, custom_with, names_with, number_in};
ghost use Rattle.regroup_commands.specs.Request.{print_with, read_with, request_in};
ghost use Rattle.regroup_commands.specs.Sending.{SendsLines, SendsOutput};

use crate::sending::{send_bool, send_decimal, send_error, send_lines, send_number};
use crate::{ANSWERED, REFUSED};
use num_format::parsing::ParseFormatted;
use num_format::{CustomFormat, Error, Format, Grouping, Locale, laws, prints_alike, reads_back};
use std::io;
use std::io::Write;

/// A command with its arguments.
#[derive(Clone, Copy)]
pub(crate) enum Command<'a> {
    /// `custom SEP GROUPING MINUS NUMBER`: prints the number under the format of `en` with these
    /// three fields.
    Custom {
        separator: &'a str,
        grouping: Grouping,
        minus_sign: &'a str,
        number: i128,
    },
    /// `print LOCALE NUMBER`: prints the number under the locale.
    Print {
        locale: &'a str,
        number: i128,
    },
    /// `names`: prints the names of all locales.
    Names,
    /// `read LOCALE TEXT`: parses the text under the locale, and prints the number in plain
    /// decimal.
    Read {
        locale: &'a str,
        text: &'a str,
    },
    /// `check LOCALE`: prints whether every number, printed under the locale, parses as the same
    /// number again.
    Check {
        locale: &'a str,
    },
    /// `alike LOCALE LOCALE`: prints whether every number has the same text under both locales.
    Alike {
        first: &'a str,
        second: &'a str,
    },
}

impl<'a> Command<'a> {
    ghost use Rattle.regroup_commands.specs.Request.{texts};
    ghost use Rattle.regroup_commands.specs.Command.{request_of};

    /// Returns the command of these words. Returns `None` for an unknown command, a wrong number of
    /// arguments, and a GROUPING or a NUMBER that is not one.
    pub(crate) fn from_words(words: &[&'a str]) -> Option<Command<'a>>
        ensures { option_map request_of result ≡ request_in (texts words.now) }
    {
        let (command, arguments) = words.split_first()?;
        match *command {
            "custom" => Command::custom_with(arguments),
            "print" => Command::print_with(arguments),
            "names" => Command::names_with(arguments),
            "read" => Command::read_with(arguments),
            "check" => Command::check_with(arguments),
            "alike" => Command::alike_with(arguments),
            _ => None,
        }
    }

    /// Returns the command `custom` with these arguments.
    fn custom_with(arguments: &[&'a str]) -> Option<Command<'a>>
        ensures { option_map request_of result ≡ custom_with (texts arguments.now) }
    {
        let [separator, grouping, minus_sign, number] = *arguments else {
            return None;
        };
        Some(Command::Custom {
            separator,
            grouping: Grouping::from_name(grouping)?,
            minus_sign,
            number: number_in(number)?,
        })
    }

    /// Returns the command `print` with these arguments.
    fn print_with(arguments: &[&'a str]) -> Option<Command<'a>>
        ensures { option_map request_of result ≡ print_with (texts arguments.now) }
    {
        let [locale, number] = *arguments else {
            return None;
        };
        Some(Command::Print {
            locale,
            number: number_in(number)?,
        })
    }

    /// Returns the command `names`, which has no arguments.
    fn names_with(arguments: &[&'a str]) -> Option<Command<'a>>
        ensures { option_map request_of result ≡ names_with (texts arguments.now) }
    {
        arguments.is_empty().then_some(Command::Names)
    }

    /// Returns the command `read` with these arguments.
    fn read_with(arguments: &[&'a str]) -> Option<Command<'a>>
        ensures { option_map request_of result ≡ read_with (texts arguments.now) }
    {
        let [locale, text] = *arguments else {
            return None;
        };
        Some(Command::Read { locale, text })
    }

    /// Returns the command `check` with these arguments.
    fn check_with(arguments: &[&'a str]) -> Option<Command<'a>>
        ensures { option_map request_of result ≡ check_with (texts arguments.now) }
    {
        let [locale] = *arguments else {
            return None;
        };
        Some(Command::Check { locale })
    }

    /// Returns the command `alike` with these arguments.
    fn alike_with(arguments: &[&'a str]) -> Option<Command<'a>>
        ensures { option_map request_of result ≡ alike_with (texts arguments.now) }
    {
        let [first, second] = *arguments else {
            return None;
        };
        Some(Command::Alike { first, second })
    }

    /// Sends the result to `out`, or the message of an error to `err`, and returns the status.
    ///
    /// # Errors
    ///
    /// Returns the error of the first write that fails or writes no bytes.
    pub(crate) fn run<O: Write, E: Write>(self, out: &mut O, err: &mut E) -> io::Result<u8>
        ensures { SendsOutput result (output_of_request (request_of self.entry))
            (O.contents out.old) (O.contents out.new) (E.contents err.old) (E.contents err.new) }
    {
        match self.send_result(out) {
            Ok(sent) => sent.and(Ok(ANSWERED)),
            Err(error) => send_error(&error, err).and(Ok(REFUSED)),
        }
    }

    /// Sends the result to `out`, and returns whether `out` received all of it.
    ///
    /// # Errors
    ///
    /// Returns the error of a request that has no result. Then nothing was sent.
    fn send_result<O: Write>(self, out: &mut O) -> Result<io::Result<()>, Error>
        ensures sent { IfOk result (λ sent. SendsLines sent
            (O.contents out.old) (O.contents out.new) (result_of (request_of self.entry))) }
        ensures refused { IfErr result
            (λ error. result_of (request_of self.entry) ≡ Err (refusal_of error)) }
        ensures unsent { OnErr result (O.contents out.new ≡ O.contents out.old) }
    {
        match self {
            Command::Custom {
                separator,
                grouping,
                minus_sign,
                number,
            } => {
                let format = CustomFormat::new(separator, grouping, minus_sign)?;
                Ok(send_number(number, &format, out))
            }
            Command::Print { locale, number } => {
                Ok(send_number(number, &locale_named(locale)?, out))
            }
            Command::Names => Ok(send_lines(Locale::available_names(), out)),
            Command::Read { locale, text } => {
                let number = number_read(text, &locale_named(locale)?)?;
                Ok(send_decimal(number, out))
            }
            Command::Check { locale } => Ok(send_bool(is_read_back(&locale_named(locale)?), out)),
            Command::Alike { first, second } => {
                let locale = locale_named(first)?;
                Ok(send_bool(is_alike(&locale, &locale_named(second)?), out))
            }
        }
    }
}

/// Returns the number that std's `parse` returns.
#[tactic(auto, using(crate::proofs::RequestLemmas::number_in_from_parse))]
fn number_in(text: &str) -> Option<i128>
    ensures { result ≡ number_in text.now }
{
    text.parse().ok()
}

/// Returns the locale of that name.
///
/// # Errors
///
/// Returns an error if no locale has the name.
#[tactic(auto, using(crate::proofs::LocaleLemmas::locale_named_from_LooksUp))]
fn locale_named(name: &str) -> Result<Locale, Error>
    ensures { result_map_both locale_data refusal_of result ≡ locale_named name.now }
{
    Locale::from_name(name)
}

/// Returns the number that the text denotes under the format.
///
/// # Errors
///
/// Returns an error if the text does not parse as an `i128`.
#[tactic(auto, using(num_format::proofs::ReadableLemmas::number_read_from_parse))]
fn number_read<F: Format>(text: &str, format: &F) -> Result<i128, Error>
    ensures { result_map_both (λ number. number) refusal_of result
        ≡ number_read (F.answers format.now) text.now }
{
    text.parse_formatted(format)
}

/// Returns whether every number, printed under the locale, parses as the same number again.
fn is_read_back(locale: &Locale) -> bool
    ensures { result ≡ is_read_back (locale_data locale.now) }
{
    // By this law the two numbers of the contract read back under every locale.
    laws::locale_round_trips(*locale);
    reads_back(locale)
}

/// Returns whether every number has the same text under both locales.
fn is_alike(first: &Locale, second: &Locale) -> bool
    ensures { result ≡ is_alike (locale_data first.now) (locale_data second.now) }
{
    // By this law the four texts of the contract decide.
    laws::alike();
    prints_alike(first, second)
}
