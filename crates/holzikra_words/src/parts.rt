//! Parts of commands.

use clap::builder::ValueParser;
use clap::{Arg, ArgAction, ArgMatches, Command};
use std::alloc::{AllocError, Global};

/// The words that a command takes, in the order of its help.
#[derive(Drop)]
pub(crate) struct Words<'a> {
    alloc: Global,
    args: Vec<Arg<'a>>,
}

/// A word that belongs to no option.
fn word<'a>(alloc: Global, id: &'a str, help: &'a str) -> Arg<'a> {
    Arg::new(alloc, id).help(help)
}

/// An option, which is called what it is read back by.
fn option<'a>(alloc: Global, id: &'a str, help: &'a str) -> Arg<'a> {
    word(alloc, id, help).long(id)
}

/// An option with a value, by what help calls the value.
fn valued<'a>(alloc: Global, id: &'a str, value: &'a str, help: &'a str) -> Arg<'a> {
    option(alloc, id, help).value_name(value)
}

/// What has this value where it is not given.
fn or<'a>(arg: Arg<'a>, default: &'a str) -> Arg<'a> {
    arg.default_value(default)
}

/// What has a value of this kind.
fn of_kind<'a>(arg: Arg<'a>, kind: ValueParser<'a>) -> Arg<'a> {
    arg.value_parser(kind)
}

/// What may be given again.
fn again<'a>(arg: Arg<'a>) -> Arg<'a> {
    arg.action(ArgAction::Append)
}

/// What has to be given.
fn needed<'a>(arg: Arg<'a>) -> Arg<'a> {
    arg.required(true)
}

/// An option with a letter.
fn lettered<'a>(option: Arg<'a>, letter: char) -> Arg<'a> {
    option.short(letter)
}

/// An option without a value.
fn switch<'a>(alloc: Global, id: &'a str, help: &'a str) -> Arg<'a> {
    option(alloc, id, help).action(ArgAction::SetTrue)
}

/// As many words as there are.
fn several<'a>(word: Arg<'a>) -> Arg<'a> {
    again(word).num_args(1..)
}

/// A list, with a comma between two of it.
fn list<'a>(option: Arg<'a>) -> Arg<'a> {
    again(option.value_delimiter(','))
}

impl<'a> Words<'a> {
    /// No words.
    pub(crate) fn new(alloc: Global) -> Words<'a> {
        let args = Vec::new(alloc);
        Words { alloc, args }
    }

    fn push(&mut self, arg: Arg<'a>) -> Result<(), AllocError> {
        self.args.push(arg)?;
        Ok(())
    }

    /// One word that has to be there.
    pub(crate) fn one(&mut self, id: &'a str, help: &'a str) -> Result<(), AllocError> {
        let one = needed(word(self.alloc, id, help));
        self.push(one)
    }

    /// Words, as many as there are, also none.
    pub(crate) fn any(&mut self, id: &'a str, help: &'a str) -> Result<(), AllocError> {
        let any = several(word(self.alloc, id, help));
        self.push(any)
    }

    /// Words, as many as there are, of which one has to be there.
    pub(crate) fn some(&mut self, id: &'a str, help: &'a str) -> Result<(), AllocError> {
        let some = needed(several(word(self.alloc, id, help)));
        self.push(some)
    }

    /// An option without a value.
    pub(crate) fn switch(&mut self, id: &'a str, help: &'a str) -> Result<(), AllocError> {
        let switch = switch(self.alloc, id, help);
        self.push(switch)
    }

    /// An option without a value, with a letter.
    pub(crate) fn lettered_switch(
        &mut self,
        id: &'a str,
        letter: char,
        help: &'a str,
    ) -> Result<(), AllocError> {
        let switch = lettered(switch(self.alloc, id, help), letter);
        self.push(switch)
    }

    /// An option with a value.
    pub(crate) fn valued(
        &mut self,
        id: &'a str,
        value: &'a str,
        default: &'a str,
        help: &'a str,
    ) -> Result<(), AllocError> {
        let valued = or(valued(self.alloc, id, value, help), default);
        self.push(valued)
    }

    /// An option with a value that is a number.
    pub(crate) fn number(
        &mut self,
        id: &'a str,
        value: &'a str,
        default: &'a str,
        help: &'a str,
    ) -> Result<(), AllocError> {
        let valued = or(valued(self.alloc, id, value, help), default);
        self.push(of_kind(valued, ValueParser::Unsigned(0, 4_294_967_295)))
    }

    /// An option with values between commas, which may be given again.
    pub(crate) fn list(
        &mut self,
        id: &'a str,
        value: &'a str,
        default: &'a str,
        help: &'a str,
    ) -> Result<(), AllocError> {
        let list = list(or(valued(self.alloc, id, value, help), default));
        self.push(list)
    }

    /// An option with one of some values.
    pub(crate) fn choice(
        &mut self,
        id: &'a str,
        values: &'a [&'a str],
        default: &'a str,
        help: &'a str,
    ) -> Result<(), AllocError> {
        let choice = or(option(self.alloc, id, help), default);
        self.push(of_kind(choice, ValueParser::Names(values)))
    }

    /// An option with one of some values, and without one where it is not given.
    pub(crate) fn named(
        &mut self,
        id: &'a str,
        value: &'a str,
        values: &'a [&'a str],
        help: &'a str,
    ) -> Result<(), AllocError> {
        let named = valued(self.alloc, id, value, help);
        self.push(of_kind(named, ValueParser::Names(values)))
    }

    /// An option with a value that may be given again.
    pub(crate) fn repeated(
        &mut self,
        id: &'a str,
        value: &'a str,
        help: &'a str,
    ) -> Result<(), AllocError> {
        let repeated = again(valued(self.alloc, id, value, help));
        self.push(repeated)
    }

    /// An option that has to be given, with its letter and a value.
    pub(crate) fn needed(
        &mut self,
        id: &'a str,
        letter: char,
        value: &'a str,
        help: &'a str,
    ) -> Result<(), AllocError> {
        let option = lettered(valued(self.alloc, id, value, help), letter);
        self.push(needed(option))
    }

    /// Puts a command with these words into the list.
    pub(crate) fn finish(
        self,
        commands: &mut Vec<Command<'a>>,
        name: &'a str,
        about: &'a str,
    ) -> Result<(), AllocError> {
        let Words { alloc, args } = self;
        let command = named(alloc, name, about).args(args)?;
        push_command(commands, command)
    }
}

/// A command without arguments.
pub(crate) fn named<'a>(alloc: Global, name: &'a str, about: &'a str) -> Command<'a> {
    Command::new(alloc, name).about(about)
}

fn push_command<'a>(
    commands: &mut Vec<Command<'a>>,
    command: Command<'a>,
) -> Result<(), AllocError> {
    commands.push(command)?;
    Ok(())
}

/// The values of an argument, as they were written.
pub(crate) fn texts(
    alloc: Global,
    found: &ArgMatches<'_>,
    id: &str,
) -> Result<Vec<String>, AllocError> {
    let mut texts = Vec::new(alloc);
    if let Some(values) = found.get_strs(id) {
        for value in values {
            texts.push(String::from_str(alloc, value)?)?;
        }
    }
    Ok(texts)
}

/// The value of an argument, and this text where it has none.
pub(crate) fn value<'a>(found: &ArgMatches<'a>, id: &str, default: &'a str) -> &'a str {
    found.get_str(id).unwrap_or(default)
}
