//! The headings of procedures.

ghost use Rattle.std.specs.Prelude.{◌≡◌, List, OnOk, option_copied};
ghost use Rattle.algol_tree.specs.Accepted.{noted_all};
ghost use Rattle.algol_tree.specs.Blocks.{Block};
ghost use Rattle.algol_tree.specs.Classes as classes;
ghost use Rattle.algol_tree.specs.Plain.{PDecls};
ghost use Rattle.algol_tree.specs.Surroundings.{Surroundings, body_of};
ghost use Rattle.algol_sites.specs.Seen.{class_seen};
ghost use Rattle.algol_sites.specs.Headings as rules;
ghost use Rattle.algol_sites.specs.Headings.{forward_site, missing, referring, unlike};
ghost use Rattle.algol_sites.specs.Noting.{noted_at};

use crate::same::same_heading;
use crate::wanted::note_if;
use algol_rules::Faults;
use algol_sorts::{Sort, Specified};
use algol_tree::{Code, Heading};
use std::alloc::{AllocError, Global};

/// Whether nothing is specified.
fn is_unspecified(sort: Sort) -> bool
    ensures { result ≡ classes.is_unspecified (class_seen sort) }
{
    matches!(sort, Sort::Unspecified)
}

/// Whether an array or an event is specified.
fn is_reference(sort: Sort) -> bool
    ensures { result ≡ rules.is_reference (class_seen sort) }
{
    match sort {
        Sort::Array(_, _) | Sort::FormalArray(_, _) => true,
        Sort::Event | Sort::FormalEvent => true,
        _ => false,
    }
}

/// The rules of a heading: each parameter has a specification, and no array or event is in VALUE.
pub fn check_heading(
    alloc: Global,
    heading: &Heading,
    faults: &mut Faults,
) -> Result<(), AllocError>
    ensures { OnOk result (faults.new.first ≡ noted_all (noted_all faults.old.first (missing heading.now.specs heading.now.params)) (referring heading.now.specs heading.now.values)) }
{
    let specified = Specified::of(alloc, heading)?;
    'parameters: for named in heading.params.items() {
        let is_missing = is_unspecified(specified.sort(named.name.bytes()));
        note_if(is_missing, named.spot, Code::WrongType, faults);
    }
    'values: for named in heading.values.items() {
        let refers = is_reference(specified.sort(named.name.bytes()));
        note_if(refers, named.spot, Code::WrongType, faults);
    }
    Ok(())
}

/// Notes the heading with the body where it is another.
fn check_body(heading: &Heading, body: Option<&Heading>, faults: &mut Faults)
    ensures { faults.new.first ≡ noted_all faults.old.first (unlike heading.now (option_copied body.entry)) }
{
    if let Some(body) = body {
        note_if(
            !same_heading(heading, body),
            body.name.spot,
            Code::WrongType,
            faults,
        );
    }
}

/// The rules of a FORWARD, whose procedure has its body after that heading.
pub fn check_forward(
    alloc: Global,
    heading: &Heading,
    body: Option<&Heading>,
    faults: &mut Faults,
) -> Result<(), AllocError>
    ensures { OnOk result ((blocks : List Block) (a : Surroundings) (later : PDecls) → body_of heading.now.name.name later ≡ option_copied body.entry → faults.new.first ≡ noted_at blocks faults.old.first (forward_site heading.now later a)) }
{
    check_heading(alloc, heading, faults)?;
    check_body(heading, body, faults);
    Ok(())
}
