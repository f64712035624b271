//! Of each FORWARD the heading with the body, which stands after it in the same block.

ghost use Rattle.std.specs.Prelude.{◌≡◌, ℕ, List, if◌then◌else◌, map, option_copied, OnOk, IfOk};
ghost use Rattle.algol_tree.specs.Image as image;
ghost use Rattle.algol_tree.specs.Image.{decl};
ghost use Rattle.algol_tree.specs.Plain as tree;
ghost use Rattle.algol_tree.specs.Plain.{PDecls};
ghost use Rattle.algol_tree.specs.Sorts.{same_name};
ghost use Rattle.algol_check.specs.Announced as specs;
ghost use Rattle.algol_check.specs.Announced.{HasBodies, bodies_for, body_for, heading_in};

use algol_tree::{Decl, Heading};
use std::alloc::{AllocError, Global};
use std::collections::BTreeMap;

/// A heading with a body goes before those that the table has.
#[tactic(auto, using(crate::proofs::Bodies::putting))]
fn put<'p>(
    bodies: &mut BTreeMap<&'p [u8], &'p Heading>,
    heading: &'p Heading,
) -> Result<(), AllocError>
    ensures { OnOk result ((name : List ℕ) → heading_in bodies.new name ≡ (if same_name heading.now.name.name name then Some heading.now else heading_in bodies.old name)) }
{
    bodies.insert(heading.name.name.bytes(), heading)?;
    Ok(())
}

/// The heading with the body, where there is one of that name.
fn get<'p>(bodies: &BTreeMap<&'p [u8], &'p Heading>, name: &[u8]) -> Option<&'p Heading>
    ensures { option_copied result ≡ heading_in bodies.now name.now }
{
    bodies.get(name).copied()
}

/// One declaration before those whose bodies the table has: what it announces.
fn announce<'p>(
    bodies: &mut BTreeMap<&'p [u8], &'p Heading>,
    d: &'p Decl,
) -> Result<Option<&'p Heading>, AllocError>
    ensures bodies { OnOk result ((later : PDecls) → HasBodies bodies.old later → HasBodies bodies.new (tree.decls (decl d.now) later)) }
    ensures found { IfOk result (λ found. (later : PDecls) → HasBodies bodies.old later → option_copied found ≡ body_for (decl d.now) later) }
{
    match d {
        Decl::Procedure(h, _) => {
            put(bodies, h)?;
            Ok(None)
        }
        Decl::Forward(h) => Ok(get(bodies, h.name.name.bytes())),
        _ => Ok(None),
    }
}

/// For each declaration the heading with the body that it announces.
pub fn announced<'p>(
    alloc: Global,
    decls: &'p [Decl],
) -> Result<Vec<Option<&'p Heading>>, AllocError>
    ensures { IfOk result (λ found. map option_copied found.items ≡ bodies_for (image.decls decls.now)) }
{
    let mut bodies: BTreeMap<&'p [u8], &'p Heading> = BTreeMap::new(alloc);
    let mut found = Vec::new(alloc);
    'declarations: for at in (0..decls.len()).rev() {
        let body = announce(&mut bodies, &decls[at])?;
        found.push(body)?;
    }
    found.reverse();
    Ok(found)
}

/// What the declaration with that number announces.
pub fn body_at<'p>(bodies: &[Option<&'p Heading>], at: usize) -> Option<&'p Heading>
    ensures { option_copied result ≡ specs.body_at (map option_copied bodies.now) at }
{
    match bodies.get(at) {
        None => None,
        Some(body) => *body,
    }
}
