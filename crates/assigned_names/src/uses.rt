//! The uses of names, each with whether some path reaches it without the name's definition.

ghost use Rattle.std.specs.Prelude.{◌≡◌, ◌<◌, ◌↔◌, IsTrue, length, take, slice_get, Some};
ghost use Rattle.ir_tree.specs.declared.tree.Block.{Block};
ghost use Rattle.ir_tree.specs.Sites.{parts};
ghost use Rattle.ir_tree.specs.WellFormed.{IsFirstFailure, IsMissed, IsMissedAt, IsMissedBehind, UsesUnassigned};
ghost use Rattle.assigned_names.specs.Known.{AreKnown, AreBefore, IsEntered};

use crate::definers::{block_of, is_assigned_in};
use definite_assignment::NameSets;
use ir_tree::{Function, Part, Site, SiteList};

/// The first use of a name that some path reaches without the name's definition.
pub fn first_unassigned(
    f: &Function,
    list: &SiteList,
    firsts: &[Option<usize>],
    before: &NameSets,
) -> Option<usize>
    requires known { AreKnown f.now list.now firsts.now }
    requires before { AreBefore f.now before.now }
    ensures { IsFirstFailure (UsesUnassigned f.now) result }
{
    for n in 0..list.all.len() {
        if uses_unassigned(f, list, firsts, before, n) {
            return Some(n);
        }
    }
    None
}

fn uses_unassigned(
    f: &Function,
    list: &SiteList,
    firsts: &[Option<usize>],
    before: &NameSets,
    n: usize,
) -> bool
    requires known { AreKnown f.now list.now firsts.now }
    requires before { AreBefore f.now before.now }
    requires within { n < length list.now.all }
    ensures { IsTrue result ↔ UsesUnassigned f.now n }
{
    match *list.all.get(n) {
        Site::Uses { of_type: _, name } => {
            is_missed_at(f, list, firsts, before, *list.parts.get(n), n, name)
        }
        Site::Defines { .. } | Site::Enters { .. } | Site::Written { .. } => false,
    }
}

// Whether some path reaches the site, which is in this part, without the name's definition.
fn is_missed_at(
    f: &Function,
    list: &SiteList,
    firsts: &[Option<usize>],
    before: &NameSets,
    part: Part,
    n: usize,
    name: usize,
) -> bool
    requires known { AreKnown f.now list.now firsts.now }
    requires before { AreBefore f.now before.now }
    requires site { n < length list.now.all }
    requires within { name < length firsts.now }
    ensures { IsTrue result ↔ IsMissedAt f.now part n name }
{
    match part {
        Part::Header | Part::Parameter | Part::Label { .. } => false,
        Part::Phi { .. } => match entered(list.all.as_slice(), n + 1) {
            Some(label) => is_missed_behind(f, list, firsts, before, label, name),
            None => false,
        },
        Part::Inst { block, inst } => is_missed(f, list, firsts, before, block, inst, name),
        Part::End { block } => is_missed_at_end(f, list, firsts, before, block, name),
    }
}

// The label that a site enters, if it enters one.
fn entered(sites: &[Site], n: usize) -> Option<usize>
    ensures { IsEntered sites.now n result }
{
    match sites.get(n) {
        Some(Site::Enters { name }) => Some(*name),
        _ => None,
    }
}

// Whether some path reaches the end of the block with this label without the name's definition.
fn is_missed_behind(
    f: &Function,
    list: &SiteList,
    firsts: &[Option<usize>],
    before: &NameSets,
    label: usize,
    name: usize,
) -> bool
    requires known { AreKnown f.now list.now firsts.now }
    requires before { AreBefore f.now before.now }
    requires label { label < length firsts.now }
    requires within { name < length firsts.now }
    ensures { IsTrue result ↔ IsMissedBehind f.now label name }
{
    let block = block_of(f, list, firsts, label);
    is_missed_at_end(f, list, firsts, before, block, name)
}

// Whether some path reaches the end of a block without the name's definition.
fn is_missed_at_end(
    f: &Function,
    list: &SiteList,
    firsts: &[Option<usize>],
    before: &NameSets,
    block: usize,
    name: usize,
) -> bool
    requires known { AreKnown f.now list.now firsts.now }
    requires before { AreBefore f.now before.now }
    requires within { name < length firsts.now }
    ensures { IsTrue result ↔ ((b : Block) × IsMissed f.now block b b.insts name) }
{
    match f.blocks.as_slice().get(block) {
        Some(b) => is_missed(f, list, firsts, before, block, b.insts.len(), name),
        None => false,
    }
}

// Whether some path passes the first `ran` of a block's instructions without the name's definition.
fn is_missed(
    f: &Function,
    list: &SiteList,
    firsts: &[Option<usize>],
    before: &NameSets,
    block: usize,
    ran: usize,
    name: usize,
) -> bool
    requires known { AreKnown f.now list.now firsts.now }
    requires before { AreBefore f.now before.now }
    requires within { name < length firsts.now }
    ensures { IsTrue result ↔ ((b : Block) × IsMissed f.now block b (take ran b.insts) name) }
{
    if block >= f.blocks.len() {
        return false;
    }
    if before.has(block, name) {
        return false;
    }
    !is_assigned_in(list, firsts, block, ran, name)
}
