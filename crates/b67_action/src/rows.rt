// Which row an operator has, among all operators.
ghost use Rattle.std.specs.Prelude.{◌≡◌};
ghost use Rattle.b67_ops.specs.Spelling.{FitsAs};
ghost use Rattle.b67_private.specs.Operating.{IsHeldCouple};
ghost use Rattle.b67_ops.specs.declared.Operator.TheVariants.{Plain};
ghost use Rattle.b67_ops.specs.declared.PlainKind.TheVariants.{Entr};
ghost use Rattle.b67_action.specs.declared.rows.Row.TheVariants.{Enter};
ghost use Rattle.b67_action.specs.Lettered.{HasLetter};
ghost use Rattle.b67_action.specs.Rows.{ActionHasRow, IsHeldRow};

use b67_ops::Operator;
use b67_private::WordsRow;

/// What an operator does, by its kind.
#[derive(Clone, Copy)]
pub enum Row {
    /// A private operator.
    Own,
    Words(WordsRow),
    Exit,
    ReturnValue,
    Enter,
}

// The row of an operator at its place.
pub fn row_of(op: &Operator, place: u16) -> Row
    requires { FitsAs IsHeldCouple op.now }
    ensures row { ActionHasRow op.now place result }
    ensures letter { HasLetter op.now place result }
    ensures held { IsHeldRow result }
    ensures enters { result ≡ Enter → op.now ≡ Plain Entr }
{
    match b67_private::row_of(op, place) {
        b67_private::Row::Words(kind) => Row::Words(kind),
        b67_private::Row::Exit => Row::Exit,
        b67_private::Row::ReturnValue => Row::ReturnValue,
        b67_private::Row::Enter => Row::Enter,
        _ => Row::Own,
    }
}
