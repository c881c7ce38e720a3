//! Statements, blocks and branches.
ghost use Rattle.std.specs.Prelude.{◌≡◌, ◌++◌, ◌∷◌, [], OnErr};
ghost use Rattle.vt_build.specs.private.Made.{Makes, Maps, Unless};
ghost use Rattle.vt_grammar.specs.Trees.{arm_tree, block_tree, form_tree, is_unless, node_takes_block, present, set_of, stmt_tree, takes_block, with_block};
ghost use Rattle.vt_tree.specs.declared.expression.Node.{out-Node};
ghost use Rattle.vt_tree.specs.declared.statement.Simple.TheVariants as simples;

use crate::calls::{call_with, named_with};
use crate::expressions::plain;
use crate::fault::Fault;
use crate::names::name_of;
use sqlite_items::{Boxed, Items};
use std::alloc::Global;
use vt_grammar::Terminal;
use vt_tree::{Arm, Arms, AssignOp, Block, Expr, Names, Node, Simple, Stmt, StmtForm, Stmts};

fn node_takes_block(node: &Node) -> bool
    ensures { result ≡ node_takes_block (out-Node node.now) }
{
    match node {
        Node::Name(_) => true,
        Node::Call(_) => true,
        Node::Dot { call, .. } => call.block.is_none(),
        _ => false,
    }
}

/// Whether a `do` may follow.
#[tactic(auto, unfolding(vt_grammar::specs::Trees::takes_block))]
pub fn takes_block(value: &Boxed<Expr>) -> bool
    ensures { result ≡ takes_block value.now }
{
    let value = value.get();
    value.wraps == 0 && node_takes_block(&value.node)
}

/// The block goes to the command, the name, the call or the last dot before it.
#[tactic(auto, unfolding(vt_grammar::specs::Trees::with_block))]
pub fn make_with_block(
    alloc: Global,
    value: Boxed<Expr>,
    block: Option<Block>,
) -> Result<Boxed<Expr>, Fault>
    ensures { Makes (with_block value block) result }
{
    let Some(block) = block else {
        return Ok(value);
    };
    let Expr { node, .. } = value.into_inner();
    match node {
        Node::Name(name) => {
            let call = named_with(alloc, name, block)?;
            plain(alloc, Node::Call(call))
        }
        Node::Call(call) => {
            let call = call_with(alloc, call, block)?;
            plain(alloc, Node::Call(call))
        }
        Node::Dot { of, call } => {
            let call = call_with(alloc, call, block)?;
            plain(alloc, Node::Dot { of, call })
        }
        node => plain(alloc, node),
    }
}

fn set_of(terminal: Terminal) -> AssignOp
    ensures { result ≡ set_of terminal }
{
    match terminal {
        Terminal::SetPlus => AssignOp::Add,
        Terminal::SetMinus => AssignOp::Sub,
        Terminal::SetTimes => AssignOp::Mul,
        _ => AssignOp::Set,
    }
}

/// The assignment of the value to the name.
pub fn make_assign(
    alloc: Global,
    name: &[u8],
    terminal: Terminal,
    value: Boxed<Expr>,
) -> Result<Boxed<Simple>, Fault>
    ensures { Makes (simples.Assign name.now (set_of terminal) value) result }
{
    let name = name_of(alloc, name)?;
    let op = set_of(terminal);
    let value = value.into_inner();
    let simple = Boxed::new(alloc, Simple::Assign { name, op, value })?;
    Ok(simple)
}

/// The statement of a value alone.
pub fn make_value(alloc: Global, value: Boxed<Expr>) -> Result<Boxed<Simple>, Fault>
    ensures { Makes (simples.Value value) result }
{
    let simple = Boxed::new(alloc, Simple::Value(value.into_inner()))?;
    Ok(simple)
}

/// The statement of branches.
pub fn make_iff(alloc: Global, arms: Arms, other: Option<Stmts>) -> Result<Boxed<Simple>, Fault>
    ensures { Makes (simples.Iff arms other) result }
{
    let simple = Boxed::new(alloc, Simple::Iff { arms, other })?;
    Ok(simple)
}

/// Whether the terminal of a condition is `unless`.
pub fn is_unless(terminal: Terminal) -> bool
    ensures { result ≡ is_unless terminal }
{
    match terminal {
        Terminal::Unless => true,
        _ => false,
    }
}

/// A statement with what may follow it.
fn stmt_of(line: u32, simple: Boxed<Simple>, modifier: Option<(bool, Boxed<Expr>)>) -> Stmt
    ensures { result ≡ stmt_tree (line, form_tree simple modifier) }
{
    let simple = simple.into_inner();
    match modifier {
        None => Stmt {
            line,
            form: StmtForm::Plain(simple),
        },
        Some((unless, cond)) => Stmt {
            line,
            form: StmtForm::Guarded {
                simple,
                unless,
                cond: cond.into_inner(),
            },
        },
    }
}

/// The statement, or the fault of its modifier.
pub fn make_stmt(
    line: u32,
    simple: Boxed<Simple>,
    modifier: Result<Option<(bool, Boxed<Expr>)>, Fault>,
) -> Result<Stmt, Fault>
    ensures { Maps (λ found. stmt_tree (line, form_tree simple found)) modifier result }
{
    match modifier {
        Ok(modifier) => Ok(stmt_of(line, simple, modifier)),
        Err(fault) => Err(fault),
    }
}

/// Adds the statement of a line, if it has one.
pub fn add_present(found: &mut Stmts, stmt: Option<Stmt>) -> Result<(), Fault>
    ensures added { Unless (found.new ≡ found.old ++ present (stmt ∷ [])) result }
    ensures kept { OnErr result (found.new ≡ found.old) }
{
    match stmt {
        None => Ok(()),
        Some(stmt) => {
            found.push(stmt)?;
            Ok(())
        }
    }
}

/// The statements of the first line, if it has one.
pub fn first_stmts(alloc: Global, stmt: Option<Stmt>) -> Result<Stmts, Fault>
    ensures { Makes (present (stmt ∷ [])) result }
{
    let mut found = Items::new(alloc);
    add_present(&mut found, stmt)?;
    Ok(found)
}

/// The block of this number, without parameters where none are written.
pub fn make_block(alloc: Global, number: u32, params: Option<Names>, stmts: Stmts) -> Block
    ensures { result ≡ block_tree number params stmts }
{
    match params {
        Some(params) => Block {
            number,
            params,
            stmts,
        },
        None => Block {
            number,
            params: Items::new(alloc),
            stmts,
        },
    }
}

/// The branch, or the fault of its statements.
pub fn make_arm(unless: bool, cond: Boxed<Expr>, stmts: Result<Stmts, Fault>) -> Result<Arm, Fault>
    ensures { Maps (λ found. arm_tree unless cond found) stmts result }
{
    match stmts {
        Ok(stmts) => Ok(Arm {
            unless,
            cond: cond.into_inner(),
            stmts,
        }),
        Err(fault) => Err(fault),
    }
}

/// The branches of which this is the first.
pub fn first_arm(alloc: Global, arm: Arm) -> Result<Arms, Fault>
    ensures { Makes (arm ∷ []) result }
{
    let mut found = Items::new(alloc);
    found.push(arm)?;
    Ok(found)
}
