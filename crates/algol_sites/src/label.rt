//! The rule of labels: a declared label stands exactly once, before a statement of the list of its own block.

ghost use Rattle.std.specs.Prelude.{◌≡◌, ◌&&◌, OnOk, IfOk, if◌then◌else◌, List, [], not};
ghost use Rattle.algol_tree.specs.declared.token.Spot.{Spot};
ghost use Rattle.algol_tree.specs.Accepted.{noted_all};
ghost use Rattle.algol_tree.specs.Blocks.{Block, same_spot};
ghost use Rattle.algol_tree.specs.Plain.{PStmt};
ghost use Rattle.algol_tree.specs.Surroundings.{Surroundings};
ghost use Rattle.algol_sites.specs.Labelling.{away, bad_at, bad_in, label_site, places_in, standings_at, standings_of, those_of};
ghost use Rattle.algol_frames.specs.Answers.{block_number_of};
ghost use Rattle.algol_told.specs.Telling.{ScopesTell};
ghost use Rattle.algol_sites.specs.Placing.{SiteIsPlaced, BlockNumbers, is_number};

use crate::place::Place;
use crate::wanted::note_if;
use algol_frames::Scopes;
use algol_rules::Faults;
use algol_tree::{Code, Named, Spot};
use std::alloc::{AllocError, Global};
use std::collections::BTreeMap;

/// A label before a statement: where it is declared, where it stands, and whether that is in the list of its own block.
#[derive(Clone, Copy)]
pub struct Standing {
    pub declared: Spot,
    pub spot: Spot,
    pub at_home: bool,
}

/// Whether it is the number of that block.
fn is_number(number: Option<usize>, block: usize) -> bool
    ensures { result ≡ is_number number block }
{
    match number {
        None => false,
        Some(number) => number == block,
    }
}

/// Whether a label in that place, which the block with this number declares, is in the list of statements of that block.
fn is_home(listed: bool, scopes: &Scopes, place: &Place, block: usize) -> bool
    ensures { result ≡ (listed && is_number (block_number_of scopes.now place.now.block) block) }
{
    listed && is_number(scopes.number(place.block), block)
}

/// A label before a statement, which is in the list of statements of its block or is not; none where its name is not declared.
pub fn standing_at(scopes: &Scopes, place: &Place, name: &Named, listed: bool) -> Option<Standing>
    ensures { (blocks : List Block) (a : Surroundings) (s : PStmt) → ScopesTell scopes.now a name.now → BlockNumbers scopes.now blocks → SiteIsPlaced blocks place.now a → standings_of result ≡ standings_at (label_site name.now s listed a) }
{
    match scopes.declaration(name.spot) {
        None => None,
        Some(declared) => Some(Standing {
            declared: declared.spot,
            spot: name.spot,
            at_home: is_home(listed, scopes, place, declared.block),
        }),
    }
}

/// Notes where a label stands away from the list of its block.
fn check_home(standings: &[Standing], faults: &mut Faults)
    ensures { faults.new.first ≡ noted_all faults.old.first (away standings.now) }
{
    'standings: for standing in standings {
        note_if(!standing.at_home, standing.spot, Code::BadLabel, faults);
    }
}

/// Notes where a label is bad that stands at these places.
fn check_standings(declared: Spot, standings: &[Standing], faults: &mut Faults)
    ensures { faults.new.first ≡ noted_all faults.old.first (bad_at declared standings.now) }
{
    match standings.split_first() {
        None => faults.note(declared, Code::BadLabel),
        Some((_, again)) => {
            check_home(standings, faults);
            'again: for standing in again {
                faults.note(standing.spot, Code::BadLabel);
            }
        }
    }
}

/// The places of a label, which are taken out of the table.
fn taken(alloc: Global, table: &mut BTreeMap<Spot, Vec<Standing>>, declared: Spot) -> Vec<Standing>
    ensures places { result.items ≡ places_in table.old declared }
    ensures others { (spot : Spot) → places_in table.new spot ≡ (if same_spot declared spot then [] else places_in table.old spot) }
{
    match table.remove(&declared) {
        None => Vec::new(alloc),
        Some(places) => places,
    }
}

/// The places of a label are put into the table.
fn put(
    table: &mut BTreeMap<Spot, Vec<Standing>>,
    declared: Spot,
    places: Vec<Standing>,
) -> Result<(), AllocError>
    ensures { OnOk result ((spot : Spot) → places_in table.new spot ≡ (if same_spot declared spot then places.items else places_in table.old spot)) }
{
    table.insert(declared, places)?;
    Ok(())
}

/// The standings of each label, by the place of its declaration.
fn gather(
    alloc: Global,
    standings: &[Standing],
) -> Result<BTreeMap<Spot, Vec<Standing>>, AllocError>
    ensures { IfOk result (λ table. (spot : Spot) → places_in table spot ≡ those_of standings.now spot) }
{
    let mut found: BTreeMap<Spot, Vec<Standing>> = BTreeMap::new(alloc);
    'standings: for standing in standings {
        let mut places = taken(alloc, &mut found, standing.declared);
        places.push(*standing)?;
        put(&mut found, standing.declared, places)?;
    }
    Ok(found)
}

/// Notes where the label is bad that is declared there.
fn check_label(table: &BTreeMap<Spot, Vec<Standing>>, declared: Spot, faults: &mut Faults)
    ensures { faults.new.first ≡ noted_all faults.old.first (bad_at declared (places_in table.now declared)) }
{
    match table.get(&declared) {
        None => faults.note(declared, Code::BadLabel),
        Some(places) => check_standings(declared, places.as_slice(), faults),
    }
}

/// Notes which of the declared labels are bad.
pub fn check_labels(
    alloc: Global,
    labels: &[Spot],
    standings: &[Standing],
    faults: &mut Faults,
) -> Result<(), AllocError>
    ensures { OnOk result (faults.new.first ≡ noted_all faults.old.first (bad_in standings.now labels.now)) }
{
    let table = gather(alloc, standings)?;
    'labels: for declared in labels {
        check_label(&table, *declared, faults);
    }
    Ok(())
}
