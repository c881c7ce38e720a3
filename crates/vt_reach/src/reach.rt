//! The reach of each block of the texts added.

ghost use Rattle.std.specs.Prelude.{◌≡◌, ◌↔◌, ◌++◌, ◌+◌, ◌<◌, ◌≤◌, [], length, IfOk, IsTrue, MatchOption, OnErr, OnOk};
ghost use Rattle.vt_reach.specs.Reach.{HasBlock, HasNoText, MayWrite, rows_from, rows_of};
ghost use Rattle.std.specs.Bool.{MatchBool};
ghost use Rattle.vt_reach.specs.private.Bodies.{IsWritingGraph, list_at};
ghost use Rattle.vt_reach.specs.private.Lists.{MeetsList};
ghost use Rattle.vt_reach.specs.private.Order.{AreStarts, BeginsAt, BeginsNowhere, IsBlockAt, IsBuilt, StandsAt};

use crate::bodies::{graph_of, push_if, writings_of};
use crate::found::{BlockUse, Row};
use crate::lists::{lists_of, meets_list};
use crate::mention::{Key, copy_mentions};
use crate::walk::uses_of;
use sqlite_items::{Items, at};
use std::alloc::Global;
use std::marker::Model;
use vt_check::Checked;
use vt_frac::NoMemory;
use vt_path::Pattern;
use vt_tree::Block;

/// The reach of each block of the texts added. Contracts see it as the list of these blocks, each with what is mentioned in
/// it.
#[derive(Drop)]
pub struct Reach {
    rows: Vec<Row>,
    built: Built,
}

/// What is made of the blocks, closed under the rules of the reach.
#[derive(Drop)]
struct Built {
    /// Where the blocks of each text begin.
    starts: Items<usize>,
    /// For each block the places of the bodies that it runs.
    graph: Items<Items<usize>>,
    /// For each block the places of its mentions that write.
    writings: Items<Items<usize>>,
    /// For each block the places of the blocks that it leads to and that write something.
    lists: Items<Items<usize>>,
}

impl Model for Reach {
    ghost use Rattle.std.specs.Prelude.{List};
    ghost use Rattle.vt_reach.specs.declared.found.Row.{Row};
    ghost use Rattle.vt_reach.specs.private.Order.{AreInOrder, IsBuilt};

    ghost Value = { List Row };

    ghost view = { λ reach. reach.rows.items };

    ghost invariant = { λ reach. AreInOrder reach.rows.items × IsBuilt reach.rows.items reach.built };
}

impl Reach {
    /// The reach of no texts.
    pub fn empty(alloc: Global) -> Result<Reach, NoMemory>
        ensures { IfOk result (λ reach. reach ≡ []) }
    {
        let rows = Vec::new(alloc);
        let built = built_of(alloc, rows.as_slice())?;
        Ok(Reach { rows, built })
    }

    /// Adds a text. It fails only for want of memory, and then the reach is as before.
    pub fn add_text(&mut self, alloc: Global, text: u32, checked: &Checked) -> Result<(), NoMemory>
        requires { HasNoText self.old text }
        ensures ok { OnOk result (self.new ≡ self.old ++ rows_of text checked.now) }
        ensures err { OnErr result (self.new ≡ self.old) }
    {
        let mut added = rows_of(alloc, text, tree_of(checked))?;
        let count = self.rows.len();
        self.rows.append(&mut added)?;
        match built_of(alloc, self.rows.as_slice()) {
            Ok(built) => {
                self.built = built;
                Ok(())
            }
            Err(error) => {
                self.rows.truncate(count);
                Err(error)
            }
        }
    }

    /// Whether a text of this number was added.
    pub fn has_text(&self, text: u32) -> bool
        ensures { MatchBool result (HasBlock self.now text 0) (HasNoText self.now text) }
    {
        match start_of(self.rows.as_slice(), self.built.starts.as_slice(), text) {
            None => false,
            Some(_) => true,
        }
    }

    /// Whether a text of this number was added, and has a block of this number.
    pub fn has_block(&self, text: u32, block: u32) -> bool
        ensures { IsTrue result ↔ HasBlock self.now text block }
    {
        match start_of(self.rows.as_slice(), self.built.starts.as_slice(), text) {
            None => false,
            Some(start) => is_block(self.rows.as_slice(), start, text, block as usize),
        }
    }

    /// Whether a thread that runs this block of this text, and all that it starts and calls, may write a path that the pattern
    /// matches: publish there what a read or a wait can find.
    pub fn may_write(&self, text: u32, block: u32, pattern: &Pattern) -> bool
        requires { HasBlock self.now text block }
        ensures { IsTrue result ↔ MayWrite self.now text block pattern.now }
    {
        match start_of(self.rows.as_slice(), self.built.starts.as_slice(), text) {
            None => false,
            Some(start) => meets_from(
                self.rows.as_slice(),
                &self.built,
                start,
                block as usize,
                pattern,
            ),
        }
    }
}

/// Whether the block of this number may write what the pattern meets, where the blocks of its text begin at `start`.
fn meets_from(rows: &[Row], built: &Built, start: usize, block: usize, pattern: &Pattern) -> bool
    requires writings { IsWritingGraph rows.now built.now.writings }
    requires within { start + block < length rows.now }
    ensures { IsTrue result ↔ MeetsList rows.now (list_at built.now.lists (start + block)) pattern.now }
{
    match at(built.lists.as_slice(), start + block) {
        None => false,
        Some(list) => meets_list(rows, built.writings.as_slice(), list.as_slice(), pattern),
    }
}

/// Whether the block of this number stands where it must, if the blocks of its text begin at `start`.
fn is_block(rows: &[Row], start: usize, text: u32, block: usize) -> bool
    requires { start ≤ length rows.now }
    ensures { IsTrue result ↔ IsBlockAt rows.now text block (start + block) }
{
    if block >= rows.len() - start {
        return false;
    }
    match at(rows, start + block) {
        None => false,
        Some(row) => is_numbered(row, text, block),
    }
}

/// Whether the block has these numbers.
fn is_numbered(row: &Row, text: u32, block: usize) -> bool
    ensures { IsTrue result ↔ ((row.now.text ≡ text) × (row.now.block ≡ block)) }
{
    row.text == text && row.block == block
}

/// The tree of a text.
fn tree_of(checked: &Checked) -> &Block
    ensures { result.now ≡ checked.now }
{
    match checked.block(0) {
        Some(tree) => tree,
        None => unreachable!(),
    }
}

/// The blocks of a text.
fn rows_of(alloc: Global, text: u32, tree: &Block) -> Result<Vec<Row>, NoMemory>
    ensures { IfOk result (λ rows. rows.items ≡ rows_of text tree.now) }
{
    let uses = uses_of(alloc, tree)?;
    rows_from(alloc, text, uses.as_slice())
}

fn rows_from(alloc: Global, text: u32, uses: &[BlockUse]) -> Result<Vec<Row>, NoMemory>
    ensures { IfOk result (λ rows. rows.items ≡ rows_from text 0 uses.now) }
{
    let mut rows = Vec::new(alloc);
    for (block, found) in uses.iter().enumerate() {
        rows.push(Row {
            text,
            block,
            body_of: copy_key(alloc, &found.body_of)?,
            mentions: copy_mentions(alloc, found.mentions.as_slice())?,
        })?;
    }
    Ok(rows)
}

fn copy_key(alloc: Global, key: &Option<Key>) -> Result<Option<Key>, NoMemory>
    ensures { IfOk result (λ copied. copied ≡ key.now) }
{
    match key {
        None => Ok(None),
        Some(key) => Ok(Some(key.copy(alloc)?)),
    }
}

/// What is made of the blocks.
fn built_of(alloc: Global, rows: &[Row]) -> Result<Built, NoMemory>
    ensures { IfOk result (IsBuilt rows.now) }
{
    let starts = starts_of(alloc, rows)?;
    let graph = graph_of(alloc, rows)?;
    let writings = writings_of(alloc, rows)?;
    let lists = lists_of(alloc, graph.as_slice(), writings.as_slice())?;
    Ok(Built {
        starts,
        graph,
        writings,
        lists,
    })
}

/// Where the blocks of each text begin.
fn starts_of(alloc: Global, rows: &[Row]) -> Result<Items<usize>, NoMemory>
    ensures { IfOk result (AreStarts rows.now) }
{
    let mut starts = Items::new(alloc);
    for (place, row) in rows.iter().enumerate() {
        push_if(&mut starts, place, row.block == 0)?;
    }
    Ok(starts)
}

/// Where the blocks of this text begin.
fn start_of(rows: &[Row], starts: &[usize], text: u32) -> Option<usize>
    requires { AreStarts rows.now starts.now }
    ensures { MatchOption result (BeginsNowhere rows.now text) (BeginsAt rows.now text) }
{
    for start in starts {
        if is_of_text(rows, *start, text) {
            return Some(*start);
        }
    }
    None
}

/// Whether a block of this text stands at this place.
fn is_of_text(rows: &[Row], place: usize, text: u32) -> bool
    ensures { MatchBool result (StandsAt rows.now text place) (StandsAt rows.now text place → ⊥) }
{
    match at(rows, place) {
        None => false,
        Some(row) => row.text == text,
    }
}
