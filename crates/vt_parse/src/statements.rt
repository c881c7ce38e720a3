//! Statements, blocks and branches.
ghost use Rattle.std.specs.Prelude.{◌≡◌, ◌++◌, nat_lt, true, false, suc};
ghost use Rattle.vt_grammar.specs.Form.{many, many_from, mapped, next, optional, either};
ghost use Rattle.vt_grammar.specs.Grammar.{assign, block, block_where, elsif, line, modifier, names_of, next_param, opened, otherwise, params, rhs, simple, stmt, terminal};
ghost use Rattle.vt_parse.specs.private.Parses.{Parses, is_assign};
ghost use Rattle.vt_grammar.specs.Trees.{present};
ghost use Rattle.vt_grammar.specs.declared.terminals.Terminal.TheVariants as Terminal;
ghost use Rattle.vt_tree.specs.declared.statement.Simple.TheVariants as simples;

use crate::parser::Parser;
use crate::seen::Seen;
use sqlite_items::Boxed;
use std::alloc::Global;
use vt_build::{
    Class, Fault, add_present, first_arm, first_name, first_stmts, is_unless, make_arm,
    make_assign, make_block, make_iff, make_stmt, make_value, make_with_block, name_of,
    takes_block,
};
use vt_grammar::Terminal;
use vt_tree::{Arm, Arms, Block, Expr, Names, Simple, Stmt, Stmts};

impl<'a> Parser<'a> {
    #[cycle(parser)]
    fn block_where(&mut self, alloc: Global, room: u32, takes: bool) -> Result<Option<Block>, Fault>
        ensures { Parses (block_where (opened room) takes) self.old self.new result }
    {
        if !takes {
            return Ok(None);
        }
        if self.opens(Terminal::Do, room) {
            let block = self.doblock(alloc, room)?;
            return Ok(Some(block));
        }
        Ok(None)
    }

    /// A command or an expression, and a `do` block where the tree before it takes one.
    #[cycle(parser)]
    fn rhs(&mut self, alloc: Global, room: u32) -> Result<Boxed<Expr>, Fault>
        ensures { Parses (rhs (opened room)) self.old self.new result }
    {
        let value = self.cond(alloc, room)?;
        let takes = takes_block(&value);
        let block = self.block_where(alloc, room, takes)?;
        make_with_block(alloc, value, block)
    }

    #[cycle(parser)]
    fn assign(&mut self, alloc: Global, room: u32) -> Result<Boxed<Simple>, Fault>
        requires { is_assign self.old ≡ true }
        ensures { Parses (assign (opened room)) self.old self.new result }
    {
        let name = self.expect(Terminal::Name)?;
        let op = self.expect_class(Class::Set)?;
        let value = self.rhs(alloc, room)?;
        make_assign(alloc, name.bytes, op.terminal, value)
    }

    /// An assignment or a value.
    #[cycle(parser)]
    fn plain_simple(&mut self, alloc: Global, room: u32) -> Result<Boxed<Simple>, Fault>
        ensures { Parses (either (assign (opened room)) (mapped (λ e. simples.Value e) (rhs (opened room)))) self.old self.new result }
    {
        if self.is_assign() {
            return self.assign(alloc, room);
        }
        let value = self.rhs(alloc, room)?;
        make_value(alloc, value)
    }

    #[cycle(parser)]
    fn simple(&mut self, alloc: Global, room: u32) -> Result<Boxed<Simple>, Fault>
        ensures { Parses (simple (opened room)) self.old self.new result }
    {
        if self.at_class(Class::Condition) {
            return self.iff(alloc, room);
        }
        self.plain_simple(alloc, room)
    }

    /// `if` or `unless` after a statement: whether it is `unless`, and the condition.
    #[cycle(parser)]
    fn modifier(&mut self, alloc: Global, room: u32) -> Result<(bool, Boxed<Expr>), Fault>
        ensures { Parses (modifier (opened room)) self.old self.new result }
    {
        let token = self.expect_class(Class::Condition)?;
        let cond = self.cond(alloc, room)?;
        Ok((is_unless(token.terminal), cond))
    }

    #[cycle(parser)]
    fn maybe_modifier(
        &mut self,
        alloc: Global,
        room: u32,
    ) -> Result<Option<(bool, Boxed<Expr>)>, Fault>
        ensures { Parses (optional (modifier (opened room))) self.old self.new result }
    {
        if self.at_class(Class::Condition) {
            let modifier = self.modifier(alloc, room)?;
            return Ok(Some(modifier));
        }
        Ok(None)
    }

    #[cycle(parser)]
    fn stmt(&mut self, alloc: Global, room: u32) -> Result<Stmt, Fault>
        ensures { Parses (stmt (opened room)) self.old self.new result }
    {
        let line = self.line();
        let simple = self.simple(alloc, room)?;
        let modifier = self.maybe_modifier(alloc, room);
        make_stmt(line, simple, modifier)
    }

    #[cycle(parser)]
    fn maybe_stmt(&mut self, alloc: Global, room: u32) -> Result<Option<Stmt>, Fault>
        ensures { Parses (optional (stmt (opened room))) self.old self.new result }
    {
        if self.at_stmt(room) {
            let stmt = self.stmt(alloc, room)?;
            return Ok(Some(stmt));
        }
        Ok(None)
    }

    /// A statement or nothing after a newline.
    #[cycle(parser)]
    fn next_line(&mut self, alloc: Global, room: u32) -> Result<Option<Stmt>, Fault>
        ensures { Parses (line (opened room)) self.old self.new result }
    {
        self.expect(Terminal::Newline)?;
        self.maybe_stmt(alloc, room)
    }

    /// The statements of the lines after those that were found.
    #[cycle(parser)]
    fn lines(&mut self, alloc: Global, room: u32, found: Stmts) -> Result<Stmts, Fault>
        ensures { Parses (mapped (λ more. found ++ present more) (many (line (opened room)))) self.old self.new result }
    {
        let mut all = found;
        'lines: while self.at(Terminal::Newline) {
            let next = self.next_line(alloc, room)?;
            add_present(&mut all, next)?;
        }
        Ok(all)
    }

    /// Lines, each with a statement or none.
    #[cycle(parser)]
    pub(crate) fn block(&mut self, alloc: Global, room: u32) -> Result<Stmts, Fault>
        ensures { Parses (block (opened room)) self.old self.new result }
    {
        let first = self.maybe_stmt(alloc, room)?;
        let found = first_stmts(alloc, first)?;
        self.lines(alloc, room, found)
    }

    fn next_param(&mut self) -> Result<Seen<'a>, Fault>
        ensures { Parses next_param self.old self.new result }
    {
        self.expect(Terminal::Comma)?;
        self.expect(Terminal::Name)
    }

    /// The parameters after those that were found.
    fn more_params(&mut self, alloc: Global, found: Names) -> Result<Names, Fault>
        ensures { Parses (mapped (λ more. found ++ names_of more) (many next_param)) self.old self.new result }
    {
        let mut all = found;
        'more: while self.at(Terminal::Comma) {
            let param = self.next_param()?;
            let name = name_of(alloc, param.bytes)?;
            all.push(name)?;
        }
        Ok(all)
    }

    fn params(&mut self, alloc: Global) -> Result<Names, Fault>
        ensures { Parses params self.old self.new result }
    {
        self.expect(Terminal::Bar)?;
        let first = self.expect(Terminal::Name)?;
        let found = first_name(alloc, first.bytes)?;
        let names = self.more_params(alloc, found)?;
        self.expect(Terminal::Bar)?;
        Ok(names)
    }

    fn maybe_params(&mut self, alloc: Global) -> Result<Option<Names>, Fault>
        ensures { Parses (optional params) self.old self.new result }
    {
        if self.at(Terminal::Bar) {
            let names = self.params(alloc)?;
            return Ok(Some(names));
        }
        Ok(None)
    }

    #[cycle(parser)]
    fn braces(&mut self, alloc: Global, room: u32) -> Result<Block, Fault>
        ensures { Parses (opened room).braces self.old self.new result }
    {
        if room == 0 {
            return Err(Fault::Here);
        }
        let opening = self.expect(Terminal::BraceOpen)?;
        let params = self.maybe_params(alloc)?;
        let stmts = self.block(alloc, room - 1)?;
        self.expect(Terminal::BraceClose)?;
        Ok(make_block(alloc, opening.number, params, stmts))
    }

    #[cycle(parser)]
    pub(crate) fn maybe_braces(&mut self, alloc: Global, room: u32) -> Result<Option<Block>, Fault>
        ensures { Parses (optional (opened room).braces) self.old self.new result }
    {
        if self.opens(Terminal::BraceOpen, room) {
            let block = self.braces(alloc, room)?;
            return Ok(Some(block));
        }
        Ok(None)
    }

    #[cycle(parser)]
    fn doblock(&mut self, alloc: Global, room: u32) -> Result<Block, Fault>
        ensures { Parses (opened room).doblock self.old self.new result }
    {
        if room == 0 {
            return Err(Fault::Here);
        }
        let opening = self.expect(Terminal::Do)?;
        let params = self.maybe_params(alloc)?;
        self.expect(Terminal::Newline)?;
        let stmts = self.block(alloc, room - 1)?;
        self.expect(Terminal::End)?;
        Ok(make_block(alloc, opening.number, params, stmts))
    }

    #[cycle(parser)]
    fn elsif(&mut self, alloc: Global, room: u32) -> Result<Arm, Fault>
        ensures { Parses (elsif (opened room)) self.old self.new result }
    {
        self.expect(Terminal::Elsif)?;
        let cond = self.cond(alloc, room)?;
        let cond = self.followed(cond, Terminal::Newline)?;
        let stmts = self.block(alloc, room);
        make_arm(false, cond, stmts)
    }

    /// The branches after those that were found.
    #[cycle(parser)]
    fn elsifs(&mut self, alloc: Global, room: u32, found: Arms) -> Result<Arms, Fault>
        ensures { Parses (mapped (λ more. found ++ more) (many (elsif (opened room)))) self.old self.new result }
    {
        let mut all = found;
        'arms: while self.at(Terminal::Elsif) {
            let arm = self.elsif(alloc, room)?;
            all.push(arm)?;
        }
        Ok(all)
    }

    #[cycle(parser)]
    fn otherwise(&mut self, alloc: Global, room: u32) -> Result<Stmts, Fault>
        ensures { Parses (otherwise (opened room)) self.old self.new result }
    {
        self.expect(Terminal::Else)?;
        self.block(alloc, room)
    }

    #[cycle(parser)]
    fn maybe_otherwise(&mut self, alloc: Global, room: u32) -> Result<Option<Stmts>, Fault>
        ensures { Parses (optional (otherwise (opened room))) self.old self.new result }
    {
        if self.at(Terminal::Else) {
            let stmts = self.otherwise(alloc, room)?;
            return Ok(Some(stmts));
        }
        Ok(None)
    }

    /// `if` or `unless` with its branches.
    #[cycle(parser)]
    fn iff(&mut self, alloc: Global, room: u32) -> Result<Boxed<Simple>, Fault>
        ensures { Parses (opened room).iff self.old self.new result }
    {
        if room == 0 {
            return Err(Fault::Here);
        }
        let opening = self.expect_class(Class::Condition)?;
        let cond = self.cond(alloc, room - 1)?;
        let cond = self.followed(cond, Terminal::Newline)?;
        let stmts = self.block(alloc, room - 1);
        let first = make_arm(is_unless(opening.terminal), cond, stmts)?;
        let found = first_arm(alloc, first)?;
        self.branches(alloc, room - 1, found)
    }

    /// The branches after those that were found, and the `end`.
    #[cycle(parser)]
    fn branches(&mut self, alloc: Global, room: u32, found: Arms) -> Result<Boxed<Simple>, Fault>
        ensures { Parses (mapped (λ rest. simples.Iff (found ++ rest.0) rest.1.0) (next (many (elsif (opened room))) (λ _. next (optional (otherwise (opened room))) (λ _. terminal Terminal.End)))) self.old self.new result }
    {
        let arms = self.elsifs(alloc, room, found)?;
        let other = self.maybe_otherwise(alloc, room)?;
        self.expect(Terminal::End)?;
        make_iff(alloc, arms, other)
    }
}
