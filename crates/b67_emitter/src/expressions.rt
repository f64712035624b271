//! What appends the code of expressions.

ghost use Rattle.std.specs.Prelude.{◌≡◌, ◌+◌, ◌≤◌, Some, IsSome, OnOk, option_copied};
ghost use Rattle.algol_tree.specs.Plain as tree;
ghost use Rattle.algol_tree.specs.Image.{expr, call, variable};
ghost use Rattle.b67_segment.specs.declared.TheConstants.{MOST_SEGMENT_SYLLABLES};
ghost use Rattle.b67_segment.specs.Operators.{size};
ghost use Rattle.b67_segment.specs.Building.{level_set};
ghost use Rattle.b67_templates.specs.Cells.{has_place};
ghost use Rattle.b67_templates.specs.Paying.{inline, routine_code};
ghost use Rattle.b67_emitter.specs.Values.{couples, results, lefts, lows, told_lows, lows_told, meanings, AreNear, HasCode, ValueEmitted, HasCall, CallEmitted, FilledEmitted, filled_syllables, RoutineEmitted, HasReference, ReferenceEmitted, place_syllables};

use crate::names::Names;
use algol_lows::Lows;
use algol_scope::Declared;
use algol_tree::{Call, Expr, Named, Variable};
use b67_ops::Couple;
use b67_segment::Builder;
use std::alloc::AllocError;

/// The couple of the cell that a name means.
pub fn couple_of(names: &Names, name: &Named) -> Couple
    requires { IsSome (couples names.now name.now.spot) }
    ensures { couples names.now name.now.spot ≡ Some result }
{
    match names.scopes.declaration(name.spot) {
        Some(
            Declared {
                couple: Some(couple),
                ..
            },
        ) => Couple {
            level: couple.level,
            index: couple.index,
        },
        _ => unreachable!(),
    }
}

/// The couple of the result of the typed procedure that a name means, none where it means none.
pub fn result_of(names: &Names, name: &Named) -> Option<Couple>
    ensures { result ≡ results names.now name.now.spot }
{
    match names.scopes.declaration(name.spot) {
        Some(declared) => match names.scopes.result(declared.spot) {
            Some(couple) => Some(Couple {
                level: couple.level,
                index: couple.index,
            }),
            None => None,
        },
        None => None,
    }
}

/// The couple of the cell that a name means on the left of an assignment: of a typed procedure, the cell of its result.
pub fn left_of(names: &Names, name: &Named) -> Couple
    requires { IsSome (lefts names.now name.now.spot) }
    ensures { lefts names.now name.now.spot ≡ Some result }
{
    match result_of(names, name) {
        Some(couple) => couple,
        None => couple_of(names, name),
    }
}

/// The lower bounds of the array that a name means, and whether it is a parameter; none where it means none.
pub fn array_of<'f>(names: &'f Names, name: &Named) -> Option<&'f Lows>
    ensures { lows_told (option_copied result) ≡ lows names.now name.now.spot }
{
    match names.scopes.declaration(name.spot) {
        Some(declared) => names.lows.get(&declared.spot),
        None => None,
    }
}

/// The same, where the name means an array.
pub fn lows_of<'f>(names: &'f Names, name: &Named) -> &'f Lows
    requires { IsSome (lows names.now name.now.spot) }
    ensures { lows names.now name.now.spot ≡ Some (told_lows result.now) }
{
    match array_of(names, name) {
        Some(lows) => lows,
        None => unreachable!(),
    }
}

/// Appends the code of expressions, at the level that was set last on a builder.
///
/// Each call wants that the tree has code, that cells lie within the range of a couple's index, and that the segment has room for
/// the greatest length of the code. After an `Err`, which is want of memory, the code may be longer.
pub trait ExprEmitter {
    /// The code of an expression: its value stands after it.
    fn value(&self, e: &Expr, names: &Names, out: &mut Builder) -> Result<(), AllocError>
        requires set { IsSome out.old.level }
        requires near { AreNear names.now }
        requires code { HasCode names.now (level_set out.old) (expr e.now) }
        requires room { size out.old.operators + inline (meanings names.now) (expr e.now) ≤ MOST_SEGMENT_SYLLABLES }
        ensures code { OnOk result (ValueEmitted names.now (level_set out.old) out.old out.new (expr e.now)) }
        ensures level { OnOk result (out.new.level ≡ out.old.level) }
        ensures size { OnOk result (size out.new.operators ≤ size out.old.operators + inline (meanings names.now) (expr e.now)) };

    /// The code of a call, with its actuals and its entry: after it the result lies on top, if the procedure is typed.
    fn call(&self, c: &Call, names: &Names, out: &mut Builder) -> Result<(), AllocError>
        requires set { IsSome out.old.level }
        requires near { AreNear names.now }
        requires code { HasCall names.now (level_set out.old) (call c.now) }
        requires room { size out.old.operators + inline (meanings names.now) (tree.call (call c.now)) ≤ MOST_SEGMENT_SYLLABLES }
        ensures code { OnOk result (CallEmitted names.now (level_set out.old) out.old out.new (call c.now)) }
        ensures level { OnOk result (out.new.level ≡ out.old.level) }
        ensures size { OnOk result (size out.new.operators ≤ size out.old.operators + inline (meanings names.now) (tree.call (call c.now))) };

    /// The code of the actuals of a call or of a PROCESS, and the entry.
    fn filled(&self, c: &Call, names: &Names, out: &mut Builder) -> Result<(), AllocError>
        requires set { IsSome out.old.level }
        requires near { AreNear names.now }
        requires code { HasCall names.now (level_set out.old) (call c.now) }
        requires room { size out.old.operators + filled_syllables names.now (call c.now) ≤ MOST_SEGMENT_SYLLABLES }
        ensures code { OnOk result (FilledEmitted names.now (level_set out.old) out.old out.new (call c.now)) }
        ensures level { OnOk result (out.new.level ≡ out.old.level) }
        ensures size { OnOk result (size out.new.operators ≤ size out.old.operators + filled_syllables names.now (call c.now)) };

    /// What an assignment stores through: the reference to the cell of a variable or a result, what EVAL makes of that of a parameter by
    /// name, or the descriptor of an element.
    fn name(&self, v: &Variable, names: &Names, out: &mut Builder) -> Result<(), AllocError>
        requires set { IsSome out.old.level }
        requires near { AreNear names.now }
        requires code { HasReference names.now (level_set out.old) (variable v.now) }
        requires room { size out.old.operators + place_syllables names.now (variable v.now) ≤ MOST_SEGMENT_SYLLABLES }
        ensures code { OnOk result (ReferenceEmitted names.now (level_set out.old) out.old out.new (variable v.now)) }
        ensures level { OnOk result (out.new.level ≡ out.old.level) }
        ensures size { OnOk result (size out.new.operators ≤ size out.old.operators + place_syllables names.now (variable v.now)) };

    /// The code of an actual that has a cell: its value is given back, or, where it is subscripted and the selector on the stack asks for
    /// it, the place of its element.
    fn routine(&self, e: &Expr, names: &Names, out: &mut Builder) -> Result<(), AllocError>
        requires set { IsSome out.old.level }
        requires near { AreNear names.now }
        requires code { HasCode names.now (level_set out.old) (expr e.now) }
        requires room { size out.old.operators + routine_code (has_place (expr e.now)) (inline (meanings names.now) (expr e.now)) ≤ MOST_SEGMENT_SYLLABLES }
        ensures code { OnOk result (RoutineEmitted names.now (level_set out.old) out.old out.new (expr e.now)) }
        ensures level { OnOk result (out.new.level ≡ out.old.level) }
        ensures size { OnOk result (size out.new.operators
            ≤ size out.old.operators + routine_code (has_place (expr e.now)) (inline (meanings names.now) (expr e.now))) };
}
