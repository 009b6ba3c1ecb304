ghost use Rattle.std.specs.Prelude.{◌≡◌, ◌<◌, ◌↔◌, IsTrue, ℕ, length};
ghost use Rattle.ir_tree.specs.WellFormed.{DefinesAgain, IsLabel};
ghost use Rattle.ir_tree.specs.Definitions.{HasFirsts};
ghost use Rattle.ir_check.specs.Values.{GivesValue, defined_type, is_label_of};

use ir_tree::{IrType, Site};

/// The type of the value that a name gets, if it gets one.
pub fn value_type(sites: &[Site], firsts: &[Option<usize>], name: usize) -> Option<IrType>
    requires firsts { HasFirsts sites.now firsts.now }
    requires once { (n : ℕ) → DefinesAgain sites.now n → ⊥ }
    requires within { name < length firsts.now }
    ensures { GivesValue sites.now name result }
{
    match firsts[name] {
        Some(first) => defined_type(sites[first]),
        None => None,
    }
}

/// Whether some block has the name as its label.
pub fn is_label(sites: &[Site], firsts: &[Option<usize>], name: usize) -> bool
    requires firsts { HasFirsts sites.now firsts.now }
    requires once { (n : ℕ) → DefinesAgain sites.now n → ⊥ }
    requires within { name < length firsts.now }
    ensures { IsTrue result ↔ IsLabel sites.now name }
{
    match firsts[name] {
        Some(first) => is_label_of(sites[first]),
        None => false,
    }
}

// The type that a definition gives its name.
fn defined_type(site: Site) -> Option<IrType>
    ensures { result ≡ defined_type site }
{
    match site {
        Site::Defines { of_type, name: _ } => of_type,
        Site::Uses { .. } | Site::Enters { .. } | Site::Written { .. } => None,
    }
}

// Whether the site is a block's label.
fn is_label_of(site: Site) -> bool
    ensures { result ≡ is_label_of site }
{
    match site {
        Site::Defines { of_type, name: _ } => of_type.is_none(),
        Site::Uses { .. } | Site::Enters { .. } | Site::Written { .. } => false,
    }
}
