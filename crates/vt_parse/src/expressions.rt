//! Expressions, level by level.
ghost use Rattle.std.specs.Prelude.{◌≡◌, ◌++◌, nat_lt, true, false, suc};
ghost use Rattle.vt_grammar.specs.Form.{many, many_from, mapped, optional};
ghost use Rattle.vt_grammar.specs.Grammar.{chain, comp, dot, expr, link, literal, named, negated, negation, opened, part, parts_after, postfix, primary, signed, unary};
ghost use Rattle.vt_parse.specs.private.Levels.{below, class_of, ops_of};
ghost use Rattle.vt_parse.specs.private.Parses.{Parses};
ghost use Rattle.vt_grammar.specs.Trees.{with_parts};
ghost use Rattle.vt_tree.specs.declared.expression.ChainKind.TheVariants as ChainKind;

use crate::parser::Parser;
use sqlite_items::{Boxed, Items};
use std::alloc::Global;
use vt_build::{
    Class, Fault, is_bare_get, left_after, list_tree, make_chain, make_comparison, make_dot,
    make_link, make_literal, make_named, make_part, make_unary, wrapped,
};
use vt_grammar::{Part, Terminal};
use vt_tree::{Call, ChainKind, Expr, Link, Links};

/// The most indexes and dots of one value.
const MOST_PARTS: u32 = 16;

/// The operators of a level.
fn class_of(kind: ChainKind) -> Class
    ensures { result ≡ class_of kind }
{
    match kind {
        ChainKind::Term => Class::TermOperator,
        ChainKind::Sum => Class::SumOperator,
        ChainKind::Comp => Class::ComparisonOperator,
        ChainKind::Conj => Class::ConjunctionOperator,
        ChainKind::Disj => Class::DisjunctionOperator,
        ChainKind::Expr => Class::ExpressionOperator,
    }
}

impl<'a> Parser<'a> {
    /// A command or an expression in parentheses.
    #[cycle(parser)]
    pub(crate) fn parens(&mut self, alloc: Global, room: u32) -> Result<Boxed<Expr>, Fault>
        ensures { Parses (opened room).parens self.old self.new result }
    {
        if room == 0 {
            return Err(Fault::Here);
        }
        self.expect_class(Class::ParenthesisOpen)?;
        let inner = self.cond(alloc, room - 1)?;
        let inner = self.followed(inner, Terminal::ParenClose)?;
        wrapped(alloc, inner)
    }

    #[cycle(parser)]
    fn list(&mut self, alloc: Global, room: u32) -> Result<Boxed<Expr>, Fault>
        ensures { Parses (opened room).list self.old self.new result }
    {
        if room == 0 {
            return Err(Fault::Here);
        }
        self.expect_class(Class::ListOpen)?;
        let items = self.maybe_items(alloc, room - 1)?;
        self.expect(Terminal::ListClose)?;
        list_tree(alloc, items)
    }

    #[cycle(parser)]
    fn index(&mut self, alloc: Global, room: u32) -> Result<Boxed<Expr>, Fault>
        ensures { Parses (opened room).index self.old self.new result }
    {
        if room == 0 {
            return Err(Fault::Here);
        }
        self.expect(Terminal::IndexOpen)?;
        let at = self.expr(alloc, room - 1)?;
        self.followed(at, Terminal::ListClose)
    }

    fn literal(&mut self, alloc: Global) -> Result<Boxed<Expr>, Fault>
        ensures { Parses literal self.old self.new result }
    {
        let token = self.expect_class(Class::Literal)?;
        make_literal(alloc, token.terminal, token.bytes)
    }

    /// A name, or a name and arguments in parentheses.
    #[cycle(parser)]
    fn named(&mut self, alloc: Global, room: u32) -> Result<Boxed<Expr>, Fault>
        ensures { Parses (named (opened room)) self.old self.new result }
    {
        let name = self.expect(Terminal::Name)?;
        let given = self.maybe_call(alloc, room)?;
        make_named(alloc, name.bytes, given)
    }

    #[cycle(parser)]
    fn primary(&mut self, alloc: Global, room: u32) -> Result<Boxed<Expr>, Fault>
        ensures { Parses (primary (opened room)) self.old self.new result }
    {
        if self.at_class(Class::Literal) {
            return self.literal(alloc);
        }
        if self.at(Terminal::Name) {
            return self.named(alloc, room);
        }
        if self.at_class(Class::ParenthesisOpen) {
            return self.parens(alloc, room);
        }
        self.list(alloc, room)
    }

    #[cycle(parser)]
    fn dot(&mut self, alloc: Global, room: u32) -> Result<Call, Fault>
        ensures { Parses (dot (opened room)) self.old self.new result }
    {
        self.expect(Terminal::Dot)?;
        let name = self.expect(Terminal::Name)?;
        let given = self.maybe_call(alloc, room)?;
        let block = self.maybe_braces(alloc, room)?;
        make_dot(alloc, name.bytes, given, block)
    }

    /// An index or a dot, where one more may follow.
    #[cycle(parser)]
    fn part(&mut self, alloc: Global, room: u32) -> Result<Part, Fault>
        ensures { Parses (part (opened room) (1, false)) self.old self.new result }
    {
        if self.at(Terminal::IndexOpen) {
            let at = self.index(alloc, room)?;
            return Ok(Part::Index(at));
        }
        let call = self.dot(alloc, room)?;
        Ok(Part::Dot(call))
    }

    /// The value with the indexes and dots that follow it.
    #[cycle(parser)]
    fn parts(&mut self, alloc: Global, room: u32, value: Boxed<Expr>) -> Result<Boxed<Expr>, Fault>
        ensures { Parses (mapped (with_parts value) (parts_after (opened room) value)) self.old self.new result }
    {
        let mut whole = value;
        let mut fresh = is_bare_get(&whole);
        let mut left = MOST_PARTS;
        'parts: while self.takes_part(left, room) {
            let part = self.part(alloc, room)?;
            left = left_after(left, fresh, &part);
            fresh = false;
            whole = make_part(alloc, whole, part)?;
        }
        Ok(whole)
    }

    #[cycle(parser)]
    fn postfix(&mut self, alloc: Global, room: u32) -> Result<Boxed<Expr>, Fault>
        ensures { Parses (postfix (opened room)) self.old self.new result }
    {
        let first = self.primary(alloc, room)?;
        self.parts(alloc, room, first)
    }

    #[cycle(parser)]
    fn signed(&mut self, alloc: Global, room: u32) -> Result<Boxed<Expr>, Fault>
        ensures { Parses (signed (opened room)) self.old self.new result }
    {
        let sign = self.expect_class(Class::Sign)?;
        let of = self.postfix(alloc, room)?;
        make_unary(alloc, sign.terminal, of)
    }

    #[cycle(parser)]
    fn unary(&mut self, alloc: Global, room: u32) -> Result<Boxed<Expr>, Fault>
        ensures { Parses (unary (opened room)) self.old self.new result }
    {
        if self.at_class(Class::Sign) {
            return self.signed(alloc, room);
        }
        self.postfix(alloc, room)
    }

    /// What stands between the operators of a level.
    #[cycle(parser)]
    fn below(&mut self, alloc: Global, room: u32, kind: ChainKind) -> Result<Boxed<Expr>, Fault>
        ensures { Parses (below kind (opened room)) self.old self.new result }
    {
        match kind {
            ChainKind::Term => self.unary(alloc, room),
            ChainKind::Sum => self.chain(alloc, room, ChainKind::Term),
            ChainKind::Comp => self.chain(alloc, room, ChainKind::Sum),
            ChainKind::Conj => self.comp(alloc, room),
            ChainKind::Disj => self.chain(alloc, room, ChainKind::Conj),
            ChainKind::Expr => self.negation(alloc, room),
        }
    }

    /// An operator of a level, and what stands after it.
    #[cycle(parser)]
    fn link(&mut self, alloc: Global, room: u32, kind: ChainKind) -> Result<Link, Fault>
        ensures { Parses (link (ops_of kind) (below kind (opened room))) self.old self.new result }
    {
        let op = self.expect_class(class_of(kind))?;
        let part = self.below(alloc, room, kind)?;
        Ok(make_link(op.terminal, part))
    }

    #[cycle(parser)]
    fn links(&mut self, alloc: Global, room: u32, kind: ChainKind) -> Result<Links, Fault>
        ensures { Parses (many (link (ops_of kind) (below kind (opened room)))) self.old self.new result }
    {
        let mut found = Items::new(alloc);
        'links: while self.at_class(class_of(kind)) {
            let next = self.link(alloc, room, kind)?;
            found.push(next)?;
        }
        Ok(found)
    }

    /// The parts of a level with operators between them.
    #[cycle(parser)]
    fn chain(&mut self, alloc: Global, room: u32, kind: ChainKind) -> Result<Boxed<Expr>, Fault>
        ensures { Parses (chain kind (ops_of kind) (below kind (opened room))) self.old self.new result }
    {
        let first = self.below(alloc, room, kind)?;
        let rest = self.links(alloc, room, kind)?;
        make_chain(alloc, kind, first, rest)
    }

    #[cycle(parser)]
    fn maybe_comparison(&mut self, alloc: Global, room: u32) -> Result<Option<Link>, Fault>
        ensures { Parses (optional (link (ops_of ChainKind.Comp) (below ChainKind.Comp (opened room)))) self.old self.new result }
    {
        if self.at_class(Class::ComparisonOperator) {
            let link = self.link(alloc, room, ChainKind::Comp)?;
            return Ok(Some(link));
        }
        Ok(None)
    }

    /// At most one comparison.
    #[cycle(parser)]
    fn comp(&mut self, alloc: Global, room: u32) -> Result<Boxed<Expr>, Fault>
        ensures { Parses (comp (opened room)) self.old self.new result }
    {
        let first = self.chain(alloc, room, ChainKind::Sum)?;
        let link = self.maybe_comparison(alloc, room)?;
        make_comparison(alloc, first, link)
    }

    #[cycle(parser)]
    fn negated(&mut self, alloc: Global, room: u32) -> Result<Boxed<Expr>, Fault>
        ensures { Parses (negated (opened room)) self.old self.new result }
    {
        let sign = self.expect(Terminal::Not)?;
        let of = self.chain(alloc, room, ChainKind::Disj)?;
        make_unary(alloc, sign.terminal, of)
    }

    #[cycle(parser)]
    fn negation(&mut self, alloc: Global, room: u32) -> Result<Boxed<Expr>, Fault>
        ensures { Parses (negation (opened room)) self.old self.new result }
    {
        if self.at(Terminal::Not) {
            return self.negated(alloc, room);
        }
        self.chain(alloc, room, ChainKind::Disj)
    }

    #[cycle(parser)]
    pub(crate) fn expr(&mut self, alloc: Global, room: u32) -> Result<Boxed<Expr>, Fault>
        ensures { Parses (expr (opened room)) self.old self.new result }
    {
        self.chain(alloc, room, ChainKind::Expr)
    }
}
