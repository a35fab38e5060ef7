//! What words give the arguments of a simple command.
ghost use Rattle.std.specs.Prelude.{◌≡◌, ◌↔◌, IsTrue, IfOk};
ghost use Rattle.command_words.specs.{Kinds.app_for, Simple.{Gives, HasFlag, value_in, values_in}, Texts.{Finds, shown, shown_if, texts}};

use crate::NoMemory;
use crate::kind::Kind;
use crate::simple::command_for;
use clap::ArgMatches;
use clap::error::ErrorKind;
use std::alloc::{AllocError, Global};
use std::marker::Model;

/// What words give the arguments of a simple command. Contracts see a row for each argument that has a value.
#[derive(Drop)]
pub(crate) struct Given<'a> {
    matches: ArgMatches<'a>,
}

impl<'a> Model for Given<'a> {
    ghost use Rattle.std.specs.Prelude.{List};
    ghost use Rattle.clap.specs.Words.{Row, rows_of, found_of};

    ghost Value = { List Row };

    ghost view = { λ g. rows_of (found_of g.matches) };
}

impl<'a> Given<'a> {
    // The value of an argument, if it has one.
    pub(crate) fn value(&self, id: &str) -> Option<&'a str>
        ensures { shown_if result ≡ value_in self.now id.now }
    {
        self.matches.get_str(id)
    }

    // All values of an argument.
    pub(crate) fn values(&self, alloc: Global, id: &str) -> Result<Vec<&'a str>, NoMemory>
        ensures { IfOk result (λ values. shown values.items ≡ values_in self.now id.now) }
    {
        match self.matches.get_strs(id) {
            Some(values) => Ok(Vec::from_slice(alloc, values)?),
            None => Ok(Vec::new(alloc)),
        }
    }

    // Whether a flag is given.
    pub(crate) fn has_flag(&self, id: &str) -> bool
        ensures { IsTrue result ↔ HasFlag self.now id.now }
    {
        match self.value(id) {
            Some(word) => word == "true",
            None => false,
        }
    }
}

// What the words give the arguments of the command of this kind, where it takes them.
pub(crate) fn given_by<'a>(
    alloc: Global,
    kind: Kind,
    words: &'a [String],
) -> Result<Option<Given<'a>>, NoMemory>
    ensures { IfOk result (Finds (Gives (app_for kind) (texts words.now))) }
{
    match command_for(alloc, kind)?.try_get_matches_from(words) {
        Ok(matches) => Ok(Some(Given { matches })),
        Err(error) => {
            if error.kind() == ErrorKind::OutOfMemory {
                Err(AllocError)
            } else {
                Ok(None)
            }
        }
    }
}
