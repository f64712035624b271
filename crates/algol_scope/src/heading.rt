//! The rules of headings: unknown names, and names that stand twice.

ghost use Rattle.std.specs.Prelude.{◌≡◌, ℕ, OnOk, List, [], false, true, is_some, not, ◌||◌};
ghost use Rattle.algol_tree.specs.declared.refusal.Code.TheVariants as codes;
ghost use Rattle.algol_tree.specs.declared.tree.Heading.{Heading};
ghost use Rattle.algol_tree.specs.Sorts.{is_named_in, same_name};
ghost use Rattle.algol_tree.specs.Names.{if_so, is_no_parameter, name_is_one_of, places_if, repeated, result_names, specified, twice_in_heading, unknown_in_heading};
ghost use Rattle.algol_tree.specs.Accepted.{broken, noted_all};
ghost use Rattle.algol_known.specs.Naming.{has_name, is_typed, sort_named};
ghost use Rattle.algol_known.specs.Passing.{kept, said};

use algol_frames::note_if;
use algol_known::{Names, Said, is_said, named_in, no_names, say};
use algol_rules::{Faults, names_of};
use algol_tree::{Code, Heading, Named, Spot};
use std::alloc::{AllocError, Global};

/// The name of a typed procedure, which its result has.
pub fn result_name(h: &Heading) -> Option<&[u8]>
    ensures { (q : List ℕ) → is_typed result q ≡ name_is_one_of (result_names h.now) q }
{
    match h.kind {
        None => None,
        Some(_) => Some(h.name.name.bytes()),
    }
}

/// Whether the procedure has a name, as each that was read.
pub fn is_named(h: &Heading) -> bool
    ensures { result ≡ not (same_name h.now.name.name []) }
{
    !h.name.name.bytes().is_empty()
}

/// Notes which of the names are no parameters.
fn note_unknown<'p>(params: &Said<'p>, ns: &'p [Named], faults: &mut Faults)
    ensures { (h : Heading) → ((q : List ℕ) → said (sort_named params.now q) false ≡ is_named_in h.params q) → faults.new.first ≡ noted_all faults.old.first (broken codes.UnknownName (places_if (is_no_parameter h) ns.now)) }
{
    'names: for n in ns {
        note_if(
            !is_said(params, n.name.bytes()),
            n.spot,
            Code::UnknownName,
            faults,
        );
    }
}

/// Notes the names of specifications that are no parameters.
fn note_unspecified<'p>(params: &Said<'p>, h: &'p Heading, faults: &mut Faults)
    requires { (q : List ℕ) → said (sort_named params.now q) false ≡ is_named_in h.now.params q }
    ensures { faults.new.first ≡ noted_all faults.old.first (broken codes.UnknownName (places_if (is_no_parameter h.now) (specified h.now))) }
{
    'specs: for spec in h.specs.items() {
        note_unknown(params, names_of(spec).as_slice(), faults);
    }
}

/// Notes the names of VALUE and of specifications that are no parameters.
pub fn unknown_in_heading(alloc: Global, h: &Heading, faults: &mut Faults) -> Result<(), AllocError>
    ensures { OnOk result (faults.new.first ≡ noted_all faults.old.first (broken codes.UnknownName (unknown_in_heading h.now))) }
{
    let params = named_in(alloc, h.params.items().as_slice())?;
    note_unknown(&params, h.values.items().as_slice(), faults);
    note_unspecified(&params, h, faults);
    Ok(())
}

/// Notes which of the names the block has, or that stand before, here or in the table, into which all come.
pub fn note_repeated<'p>(
    names: &Names<'p>,
    before: &mut Said<'p>,
    ns: &'p [Named],
    faults: &mut Faults,
) -> Result<(), AllocError>
    ensures noted { OnOk result ((seen : List (List ℕ)) → ((q : List ℕ) → name_is_one_of seen q ≡ (has_name names.now.typed names.now.declared names.now.parameters q || is_some (sort_named before.old q))) → faults.new.first ≡ noted_all faults.old.first (broken codes.DeclaredTwice (repeated seen ns.now))) }
    ensures before { OnOk result ((q : List ℕ) → sort_named before.new q ≡ kept (sort_named before.old q) (is_named_in ns.now q) true) }
{
    'names: for n in ns {
        let name = n.name.bytes();
        let is_said = say(before, name, true)?;
        note_if(
            is_before(names, name, is_said),
            n.spot,
            Code::DeclaredTwice,
            faults,
        );
    }
    Ok(())
}

/// Whether the block has the name, or the name is said before.
fn is_before<'p>(names: &Names<'p>, name: &'p [u8], is_said: bool) -> bool
    ensures { result ≡ (has_name names.now.typed names.now.declared names.now.parameters name.now || is_said) }
{
    is_said || names.has(name)
}

/// Notes the parameters that stand twice, or have the name of their typed procedure.
fn twice_in_params(alloc: Global, h: &Heading, faults: &mut Faults) -> Result<(), AllocError>
    ensures { OnOk result (faults.new.first ≡ noted_all faults.old.first (broken codes.DeclaredTwice (repeated (result_names h.now) h.now.params))) }
{
    let names = Names::new(alloc, 0, result_name(h));
    let mut before = no_names(alloc);
    note_repeated(&names, &mut before, h.params.items().as_slice(), faults)
}

/// Notes the names that are specified twice.
fn twice_in_specs(alloc: Global, h: &Heading, faults: &mut Faults) -> Result<(), AllocError>
    ensures { OnOk result (faults.new.first ≡ noted_all faults.old.first (broken codes.DeclaredTwice (repeated [] (specified h.now)))) }
{
    let names = Names::new(alloc, 0, None);
    let mut before = no_names(alloc);
    'specs: for spec in h.specs.items() {
        note_repeated(&names, &mut before, names_of(spec).as_slice(), faults)?;
    }
    Ok(())
}

/// Notes the names of a heading that stand twice in it.
pub fn twice_in_heading(alloc: Global, h: &Heading, faults: &mut Faults) -> Result<(), AllocError>
    ensures { OnOk result (faults.new.first ≡ noted_all faults.old.first (broken codes.DeclaredTwice (twice_in_heading h.now))) }
{
    twice_in_params(alloc, h, faults)?;
    twice_in_specs(alloc, h, faults)
}
