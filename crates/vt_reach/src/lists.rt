//! For each block the blocks that it leads to and that write something, and whether a pattern meets what they write.

ghost use Rattle.std.specs.Prelude.{◌≡◌, ◌↔◌, ◌<◌, length, IfOk, IsTrue};
ghost use Rattle.std.specs.Bool.{MatchBool};
ghost use Rattle.vt_reach.specs.Reach.{IsMet};
ghost use Rattle.vt_reach.specs.private.Bodies.{AreWritings, IsWritingGraph, list_at};
ghost use Rattle.vt_reach.specs.private.Lists.{AreLists, AreWriters, HasSome, IsList, MeetsAt, MeetsList, MeetsMention, MeetsRow};
ghost use Rattle.vt_reach.specs.private.Search.{AreWithin};

use crate::bodies::push_if;
use crate::found::Row;
use crate::mention::Mention;
use crate::search::reached;
use sqlite_items::{Items, at};
use std::alloc::Global;
use vt_frac::NoMemory;
use vt_path::{Pattern, matches};

/// For each block the places of the blocks that it leads to and that write something.
pub(crate) fn lists_of(
    alloc: Global,
    graph: &[Items<usize>],
    writings: &[Items<usize>],
) -> Result<Items<Items<usize>>, NoMemory>
    requires closed { AreWithin graph.now }
    requires same { length writings.now ≡ length graph.now }
    ensures { IfOk result (AreLists graph.now writings.now) }
{
    let mut lists = Items::new(alloc);
    for from in 0..graph.len() {
        lists.push(list_of(alloc, graph, writings, from)?)?;
    }
    Ok(lists)
}

fn list_of(
    alloc: Global,
    graph: &[Items<usize>],
    writings: &[Items<usize>],
    from: usize,
) -> Result<Items<usize>, NoMemory>
    requires within { from < length graph.now }
    requires closed { AreWithin graph.now }
    requires same { length writings.now ≡ length graph.now }
    ensures { IfOk result (IsList graph.now writings.now from) }
{
    let found = reached(alloc, graph, from)?;
    writers(alloc, writings, found.as_slice())
}

/// Those of the places at which something is written.
fn writers(
    alloc: Global,
    writings: &[Items<usize>],
    places: &[usize],
) -> Result<Items<usize>, NoMemory>
    ensures { IfOk result (AreWriters writings.now places.now) }
{
    let mut found = Items::new(alloc);
    for place in places {
        push_if(&mut found, *place, has_some(writings, *place))?;
    }
    Ok(found)
}

/// Whether the list at this place has anything.
fn has_some(lists: &[Items<usize>], place: usize) -> bool
    ensures { MatchBool result (HasSome (list_at lists.now place)) (HasSome (list_at lists.now place) → ⊥) }
{
    match at(lists, place) {
        None => false,
        Some(list) => !list.is_empty(),
    }
}

/// Whether the pattern meets what is written at one of these places.
pub(crate) fn meets_list(
    rows: &[Row],
    writings: &[Items<usize>],
    list: &[usize],
    pattern: &Pattern,
) -> bool
    requires { IsWritingGraph rows.now writings.now }
    ensures { IsTrue result ↔ MeetsList rows.now list.now pattern.now }
{
    for place in list {
        if meets_at(rows, writings, *place, pattern) {
            return true;
        }
    }
    false
}

/// Whether the pattern meets what is written at this place.
fn meets_at(rows: &[Row], writings: &[Items<usize>], place: usize, pattern: &Pattern) -> bool
    requires { IsWritingGraph rows.now writings.now }
    ensures { IsTrue result ↔ MeetsAt rows.now place pattern.now }
{
    match (at(rows, place), at(writings, place)) {
        (Some(row), Some(places)) => {
            meets_row(row.mentions.as_slice(), places.as_slice(), pattern)
        }
        (Some(_), None) => false,
        (None, Some(_)) => false,
        (None, None) => false,
    }
}

fn meets_row(mentions: &[Mention], writings: &[usize], pattern: &Pattern) -> bool
    requires { AreWritings mentions.now writings.now }
    ensures { IsTrue result ↔ MeetsRow mentions.now pattern.now }
{
    for place in writings {
        if meets_mention(mentions, *place, pattern) {
            return true;
        }
    }
    false
}

fn meets_mention(mentions: &[Mention], place: usize, pattern: &Pattern) -> bool
    ensures { IsTrue result ↔ MeetsMention mentions.now place pattern.now }
{
    match at(mentions, place) {
        None => false,
        Some(mention) => is_met(mention, pattern),
    }
}

fn is_met(mention: &Mention, pattern: &Pattern) -> bool
    ensures { IsTrue result ↔ IsMet pattern.now mention.now }
{
    match mention {
        Mention::Writes(path) => matches(pattern, path),
        Mention::WritesAny => !pattern.is_inner(),
        Mention::Runs(_) => false,
    }
}
