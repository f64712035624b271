//! Headings that are the same but for their places.

ghost use Rattle.std.specs.Prelude.{◌≡◌};
ghost use Rattle.algol_tree.specs.Classes.{same_result};
ghost use Rattle.algol_tree.specs.Forwards as rules;
ghost use Rattle.algol_tree.specs.Sorts.{same_name};
ghost use Rattle.algol_sites.specs.Same.{lows_agree, names_agree, specs_agree, spec_agrees};

use algol_tree::{Heading, Kind, Named, Spec};

#[tactic(auto, using(crate::proofs::Sameness::sameness))]
fn same_name(n: &Named, m: &Named) -> bool
    ensures { result ≡ same_name n.now.name m.now.name }
{
    n.name.bytes() == m.name.bytes()
}

#[tactic(auto, using(crate::proofs::Sameness::sameness))]
fn same_names(ns: &[Named], ms: &[Named]) -> bool
    ensures { result ≡ names_agree ns.now ms.now }
{
    if ns.len() != ms.len() {
        return false;
    }
    'names: for (at, n) in ns.iter().enumerate() {
        if !same_name(n, &ms[at]) {
            return false;
        }
    }
    true
}

#[tactic(auto, using(crate::proofs::Sameness::sameness))]
fn same_lows(lows: &[i64], others: &[i64]) -> bool
    ensures { result ≡ lows_agree lows.now others.now }
{
    lows == others
}

fn same_spec(spec: &Spec, other: &Spec) -> bool
    ensures { result ≡ spec_agrees spec.now other.now }
{
    match (spec, other) {
        (Spec::Simple(kind, ns), Spec::Simple(other, ms)) => {
            kind == other && same_names(ns.items(), ms.items())
        }
        (Spec::Events(ns), Spec::Events(ms)) => same_names(ns.items(), ms.items()),
        (Spec::Arrays(kind, ns, lows), Spec::Arrays(other, ms, others)) => {
            kind == other
                && same_names(ns.items(), ms.items())
                && same_lows(lows.items(), others.items())
        }
        _ => false,
    }
}

#[tactic(auto, using(crate::proofs::Sameness::sameness))]
fn same_specs(specs: &[Spec], others: &[Spec]) -> bool
    ensures { result ≡ specs_agree specs.now others.now }
{
    if specs.len() != others.len() {
        return false;
    }
    'specs: for (at, spec) in specs.iter().enumerate() {
        if !same_spec(spec, &others[at]) {
            return false;
        }
    }
    true
}

/// Whether the types of two procedures' results are the same.
fn same_result(kind: Option<Kind>, other: Option<Kind>) -> bool
    ensures { result ≡ same_result kind other }
{
    match (kind, other) {
        (None, None) => true,
        (Some(kind), Some(other)) => kind == other,
        _ => false,
    }
}

/// Whether two headings are the same but for their places.
pub fn same_heading(heading: &Heading, other: &Heading) -> bool
    ensures { result ≡ rules.same_heading heading.now other.now }
{
    if !same_result(heading.kind, other.kind) {
        return false;
    }
    if !same_name(&heading.name, &other.name) {
        return false;
    }
    if !same_names(heading.params.items(), other.params.items()) {
        return false;
    }
    if !same_names(heading.values.items(), other.values.items()) {
        return false;
    }
    same_specs(heading.specs.items(), other.specs.items())
}
