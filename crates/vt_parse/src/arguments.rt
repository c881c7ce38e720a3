//! Arguments, items and commands.
ghost use Rattle.std.specs.Prelude.{◌≡◌, ◌++◌, nat_lt, true, false, suc};
ghost use Rattle.vt_grammar.specs.Form.{many, many_from, mapped, optional};
ghost use Rattle.vt_grammar.specs.Grammar.{arg, args, command, cond_form, expr, has_label, items, labelled_arg, labels_begun, next_arg, next_item, opened};
ghost use Rattle.vt_parse.specs.private.Parses.{Parses, is_command};
ghost use Rattle.vt_grammar.specs.Trees.{gathered};

use crate::parser::Parser;
use sqlite_items::Boxed;
use std::alloc::Global;
use vt_build::{
    Argument, Fault, add_argument, add_item, arguments_of, first_argument, first_item, has_label,
    labels_begun, make_argument, make_command,
};
use vt_grammar::{Arguments, Terminal};
use vt_tree::{Expr, Exprs};

impl<'a> Parser<'a> {
    /// Arguments in parentheses.
    #[cycle(parser)]
    fn call(&mut self, alloc: Global, room: u32) -> Result<Arguments, Fault>
        ensures { Parses (opened room).call self.old self.new result }
    {
        if room == 0 {
            return Err(Fault::Here);
        }
        self.expect(Terminal::CallOpen)?;
        let given = self.maybe_args(alloc, room - 1)?;
        self.expect(Terminal::ParenClose)?;
        Ok(arguments_of(alloc, given))
    }

    #[cycle(parser)]
    pub(crate) fn maybe_call(
        &mut self,
        alloc: Global,
        room: u32,
    ) -> Result<Option<Arguments>, Fault>
        ensures { Parses (optional (opened room).call) self.old self.new result }
    {
        if self.opens(Terminal::CallOpen, room) {
            let given = self.call(alloc, room)?;
            return Ok(Some(given));
        }
        Ok(None)
    }

    #[cycle(parser)]
    fn labelled_arg(&mut self, alloc: Global, room: u32) -> Result<Argument, Fault>
        ensures { Parses (labelled_arg (opened room)) self.old self.new result }
    {
        let label = self.expect(Terminal::Label)?;
        let value = self.expr(alloc, room)?;
        make_argument(alloc, label.bytes, value)
    }

    /// An argument; after one with a label only one with a label.
    #[cycle(parser)]
    fn arg(&mut self, alloc: Global, room: u32, labels: bool) -> Result<Argument, Fault>
        ensures { Parses (arg (opened room) labels) self.old self.new result }
    {
        if labels {
            return self.labelled_arg(alloc, room);
        }
        if self.at(Terminal::Label) {
            return self.labelled_arg(alloc, room);
        }
        let value = self.expr(alloc, room)?;
        Ok((None, value))
    }

    #[cycle(parser)]
    fn next_arg(&mut self, alloc: Global, room: u32, labels: bool) -> Result<Argument, Fault>
        ensures { Parses (next_arg (opened room) labels) self.old self.new result }
    {
        self.expect(Terminal::Comma)?;
        self.arg(alloc, room, labels)
    }

    /// The arguments after those that were found.
    #[cycle(parser)]
    fn more_args(
        &mut self,
        alloc: Global,
        room: u32,
        found: Arguments,
        labels: bool,
    ) -> Result<Arguments, Fault>
        ensures { Parses (mapped (gathered found) (many_from labels_begun (next_arg (opened room)) labels)) self.old self.new result }
    {
        let mut all = found;
        let mut begun = labels;
        'more: while self.at(Terminal::Comma) {
            let argument = self.next_arg(alloc, room, begun)?;
            begun = labels_begun(begun, &argument);
            add_argument(&mut all, argument)?;
        }
        Ok(all)
    }

    #[cycle(parser)]
    fn args(&mut self, alloc: Global, room: u32) -> Result<Arguments, Fault>
        ensures { Parses (args (opened room)) self.old self.new result }
    {
        let first = self.arg(alloc, room, false)?;
        let labels = has_label(&first);
        let found = first_argument(alloc, first)?;
        self.more_args(alloc, room, found, labels)
    }

    #[cycle(parser)]
    fn maybe_args(&mut self, alloc: Global, room: u32) -> Result<Option<Arguments>, Fault>
        ensures { Parses (optional (args (opened room))) self.old self.new result }
    {
        if self.at_arg(room) {
            let given = self.args(alloc, room)?;
            return Ok(Some(given));
        }
        Ok(None)
    }

    #[cycle(parser)]
    fn next_item(&mut self, alloc: Global, room: u32) -> Result<Boxed<Expr>, Fault>
        ensures { Parses (next_item (opened room)) self.old self.new result }
    {
        self.expect(Terminal::Comma)?;
        self.expr(alloc, room)
    }

    /// The items after those that were found.
    #[cycle(parser)]
    fn more_items(&mut self, alloc: Global, room: u32, found: Exprs) -> Result<Exprs, Fault>
        ensures { Parses (mapped (λ more. found ++ more) (many (next_item (opened room)))) self.old self.new result }
    {
        let mut all = found;
        'more: while self.at(Terminal::Comma) {
            let item = self.next_item(alloc, room)?;
            add_item(&mut all, item)?;
        }
        Ok(all)
    }

    #[cycle(parser)]
    fn items(&mut self, alloc: Global, room: u32) -> Result<Exprs, Fault>
        ensures { Parses (items (opened room)) self.old self.new result }
    {
        let first = self.expr(alloc, room)?;
        let found = first_item(alloc, first)?;
        self.more_items(alloc, room, found)
    }

    #[cycle(parser)]
    pub(crate) fn maybe_items(&mut self, alloc: Global, room: u32) -> Result<Option<Exprs>, Fault>
        ensures { Parses (optional (items (opened room))) self.old self.new result }
    {
        if self.at_expr(room) {
            let items = self.items(alloc, room)?;
            return Ok(Some(items));
        }
        Ok(None)
    }

    #[cycle(parser)]
    fn command(&mut self, alloc: Global, room: u32) -> Result<Boxed<Expr>, Fault>
        requires { is_command (nat_lt 0 room) self.old ≡ true }
        ensures { Parses (command (opened room)) self.old self.new result }
    {
        let name = self.expect(Terminal::Name)?;
        let given = self.args(alloc, room)?;
        make_command(alloc, name.bytes, given)
    }

    /// A command or an expression.
    #[cycle(parser)]
    pub(crate) fn cond(&mut self, alloc: Global, room: u32) -> Result<Boxed<Expr>, Fault>
        ensures { Parses (cond_form (opened room)) self.old self.new result }
    {
        if self.is_command(room) {
            return self.command(alloc, room);
        }
        self.expr(alloc, room)
    }
}
