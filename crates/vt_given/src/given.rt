//! What a call is given.

ghost use Rattle.std.specs.Prelude.{◌≡◌};
ghost use Rattle.std.specs.Option.{option_copied};
ghost use Rattle.vt_run.specs.calls.Arguments.{all_args};
ghost use Rattle.vt_given.specs.GivenInOneList.{given_of};

use std::marker::Model;
use vt_event::Options;
use vt_value::{Items, Value};

/// What a call is given: its arguments in order, of which the first is the value before its dot where it stands after one,
/// and its options.
#[derive(Drop)]
pub struct Given {
    dotted: bool,
    args: Items,
    options: Options,
}

impl Model for Given {
    ghost use Rattle.std.specs.Coded.{codes};
    ghost use Rattle.vt_value.specs.contracts.value.Value as any_value;
    ghost use Rattle.vt_run.specs.calls.Arguments as arguments;
    ghost use Rattle.vt_given.specs.GivenInOneList.{given_of};

    ghost Value = { arguments.Given };

    ghost coded = { Prim.hlevel (codes, any_value.the_row.coded) };

    ghost view = { λ given. given_of given.dotted given.args given.options };
}

impl Given {
    /// What a call is given by these arguments and options. After a dot the first argument is the value before it.
    pub fn new(dotted: bool, args: Items, options: Options) -> Given
        ensures { result ≡ given_of dotted args options }
    {
        Given {
            dotted,
            args,
            options,
        }
    }

    /// The value before the dot, if there is one.
    pub fn receiver(&self) -> Option<&Value>
        ensures { option_copied result ≡ self.now.receiver }
    {
        if !self.dotted {
            return None;
        }
        match self.args.as_slice() {
            [] => None,
            [first, ..] => Some(first),
        }
    }

    /// The arguments, without the value before the dot.
    pub fn args(&self) -> &[Value]
        ensures { result.now ≡ self.now.args }
    {
        let args = self.args.as_slice();
        if !self.dotted {
            return args;
        }
        match args {
            [] => args,
            [_, rest @ ..] => rest,
        }
    }

    /// All arguments, of which the value before the dot is the first.
    pub fn all_args(&self) -> &[Value]
        ensures { result.now ≡ all_args self.now }
    {
        self.args.as_slice()
    }

    /// The options.
    pub fn options(&self) -> &Options
        ensures { result.now ≡ self.now.options }
    {
        &self.options
    }
}
