//! The command of a program.

ghost use Rattle.std.specs.Prelude.{◌≡◌};
ghost use Rattle.clap.specs.Words.{app_of};
ghost use Rattle.command_line.specs.Programs.{named_app};

use clap::Command;
use std::alloc::Global;

/// The version of the firmware.
const VERSION: &str = "1";

/// The command of a program without a word or an option: the program's name, how it is called, what it does, and what
/// `--help` ends with.
pub fn program<'a>(
    alloc: Global,
    name: &'a str,
    usage: &'a str,
    about: &'a str,
    after_help: &'a str,
) -> Command<'a>
    ensures { app_of result ≡ named_app name.entry.now }
{
    Command::new(alloc, name)
        .version(VERSION)
        .override_usage(usage)
        .about(about)
        .after_help(after_help)
}
