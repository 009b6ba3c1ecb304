ghost use Rattle.std.specs.Prelude.{◌≡◌, ◌↔◌, IsTrue, ◌+◌, ◌<◌, ℕ, List, All, length, slice_get, slice_index_or, Some, None, IfOk, IsSomeAnd};
ghost use Rattle.ir_tree.specs.declared.sites.Site.{Site};
ghost use Rattle.ir_tree.specs.Sites.{IsNumbered};
ghost use Rattle.ir_tree.specs.Definitions.{AreFirst, HasFirsts};

use crate::sites::Site;
use std::alloc::Global;
use support::{NoMemory, Sequence};

/// For each name number below `names`, the first of the sites that defines the name.
pub fn first_definitions(
    alloc: Global,
    sites: &[Site],
    names: usize,
) -> Result<Sequence<Option<usize>>, NoMemory>
    requires numbered { All (IsNumbered names) sites.now }
    ensures len { IfOk result (λ table. length table ≡ names) }
    ensures first { IfOk result (λ table. HasFirsts sites.now table) }
{
    let mut table = vec![in alloc; None; names]?;
    for (n, site) in sites.iter().enumerate() {
        note(&mut table, n, *site);
    }
    Ok(Sequence::from_vec(table))
}

/// Whether each name of the sites has a number below `names`.
pub fn are_numbered(sites: &[Site], names: usize) -> bool
    ensures { IsTrue result ↔ All (IsNumbered names) sites.now }
{
    sites.iter().all(|site| is_numbered(*site, names))
}

fn is_numbered(site: Site, names: usize) -> bool
    ensures { IsTrue result ↔ IsNumbered names site }
{
    match site {
        Site::Defines { of_type: _, name } => name < names,
        Site::Uses { of_type: _, name } => name < names,
        Site::Enters { name } => name < names,
        Site::Written { fits: _ } => true,
    }
}

/// Whether a site before this one defines the name, by the table of first definitions.
pub fn is_defined_before(firsts: &[Option<usize>], name: usize, site: usize) -> bool
    requires { name < length firsts.now }
    ensures { IsTrue result ↔ IsSomeAnd (slice_index_or firsts.now name None) (λ first. first < site) }
{
    match firsts[name] {
        Some(first) => first < site,
        None => false,
    }
}

// Puts a definition into the table, where its name has none yet.
fn note(table: &mut [Option<usize>], n: usize, site: Site)
    requires { IsNumbered (length table.old) site }
    ensures { (all : List Site) → slice_get all n ≡ Some site → AreFirst all n table.old → AreFirst all (n + 1) table.new }
{
    match site {
        Site::Defines { of_type: _, name } => {
            if table[name].is_none() {
                table[name] = Some(n);
            }
        }
        Site::Uses { .. } | Site::Enters { .. } | Site::Written { .. } => {}
    }
}
