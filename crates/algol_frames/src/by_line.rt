//! Declarations by the places of the names that mean them.

ghost use Rattle.std.specs.Prelude.{◌≡◌, ℕ, ◌+◌, ◌==◌, ◌<◌, ◌++◌, ◌∷◌, [], length, IfOk, None, OnOk, Some, if◌then◌else◌, option_copied};
ghost use Rattle.std.specs.Option.{option_or};
ghost use Rattle.std.specs.Vec.{vec_len};
ghost use Rattle.algol_tree.specs.Blocks.{same_spot};
ghost use Rattle.algol_tree.specs.declared.token.Spot as token;
ghost use Rattle.algol_frames.specs.ByLine.{AreOfDeclared, number_at_place, number_in_column, placed_in};

use crate::scopes::Declared;
use algol_tree::Spot;
use std::alloc::{AllocError, Global};

/// How many columns a line has at least: those of a card.
const CARD_COLUMNS: usize = 80;

/// Declarations, which have numbers from 1 on, and for each line of a text and each of its columns the number of the declaration that the name
/// there means, 0 where no name stands. Of two names at one place the first counts.
#[derive(Drop)]
pub struct ByLine {
    pub lines: Vec<Vec<u32>>,
    pub declared: Vec<Declared>,
}

/// There is a line of this number.
fn reach(lines: &mut Vec<Vec<u32>>, alloc: Global, line: usize) -> Result<(), AllocError>
    ensures line { OnOk result (line < vec_len lines.new) }
    ensures same { OnOk result ((q : token.Spot) → number_at_place lines.new.items q ≡ number_at_place lines.old.items q) }
{
    'reaching: while lines.len() <= line {
        lines.push(Vec::new(alloc))?;
    }
    Ok(())
}

/// The line has this number in the column.
fn put_in(line: &mut Vec<u32>, column: u32, number: u32) -> Result<(), AllocError>
    ensures { OnOk result ((q : ℕ) → number_in_column line.new.items q ≡ (if column == q then number else number_in_column line.old.items q)) }
{
    let column = column as usize;
    if line.len() <= column {
        line.resize(CARD_COLUMNS.max(column + 1), 0)?;
    }
    line[column] = number;
    Ok(())
}

/// The lines have this number at the place.
fn put_at(
    lines: &mut Vec<Vec<u32>>,
    alloc: Global,
    spot: Spot,
    number: u32,
) -> Result<(), AllocError>
    ensures { OnOk result ((q : token.Spot) → number_at_place lines.new.items q ≡ (if same_spot spot q then number else number_at_place lines.old.items q)) }
{
    let line = spot.line as usize;
    reach(lines, alloc, line)?;
    put_in(&mut lines[line], spot.column, number)
}

/// What the lines have at the place.
fn number_at(lines: &Vec<Vec<u32>>, spot: Spot) -> u32
    ensures { result ≡ number_at_place lines.now.items spot }
{
    match lines.get(spot.line as usize) {
        None => 0,
        Some(line) => match line.get(spot.column as usize) {
            None => 0,
            Some(number) => *number,
        },
    }
}

/// One more declaration. Answers its number.
fn more(declared: &mut Vec<Declared>, one: Declared) -> Result<u32, AllocError>
    ensures items { OnOk result (declared.new.items ≡ declared.old.items ++ one ∷ []) }
    ensures number { IfOk result (λ number. number ≡ length declared.old.items + 1) }
{
    declared.push(one)?;
    match u32::try_from(declared.len()) {
        Ok(number) => Ok(number),
        Err(_) => Err(AllocError),
    }
}

impl ByLine {
    pub fn new(alloc: Global) -> ByLine
        ensures placed { (q : token.Spot) → placed_in result q ≡ None }
        ensures declared { AreOfDeclared result }
    {
        ByLine {
            lines: Vec::new(alloc),
            declared: Vec::new(alloc),
        }
    }

    /// The declaration of the first name that stands there.
    pub fn get(&self, spot: Spot) -> Option<&Declared>
        ensures { option_copied result ≡ placed_in self.now spot }
    {
        match number_at(&self.lines, spot) {
            0 => None,
            number => self.declared.get(number as usize - 1),
        }
    }

    /// One more declaration stands at the place.
    fn put(&mut self, alloc: Global, spot: Spot, declared: Declared) -> Result<(), AllocError>
        requires declared { AreOfDeclared self.old }
        requires none { placed_in self.old spot ≡ None }
        ensures placed { OnOk result ((q : token.Spot) → placed_in self.new q ≡ option_or (placed_in self.old q) (if same_spot spot q then Some declared else None)) }
        ensures declared { OnOk result (AreOfDeclared self.new) }
    {
        let number = more(&mut self.declared, declared)?;
        put_at(&mut self.lines, alloc, spot, number)
    }

    /// The declaration stands under the place, unless one stands there already.
    pub fn add(&mut self, alloc: Global, spot: Spot, declared: Declared) -> Result<(), AllocError>
        requires { AreOfDeclared self.old }
        ensures placed { OnOk result ((q : token.Spot) → placed_in self.new q ≡ option_or (placed_in self.old q) (if same_spot spot q then Some declared else None)) }
        ensures declared { OnOk result (AreOfDeclared self.new) }
    {
        match self.get(spot) {
            Some(_) => Ok(()),
            None => self.put(alloc, spot, declared),
        }
    }
}
