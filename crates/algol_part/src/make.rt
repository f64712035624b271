//! Statements and declarations of smaller parts, in which no statement stands.

ghost use Rattle.std.specs.Prelude.{◌≡◌};
ghost use Rattle.algol_tree.specs.Plain as trees;
ghost use Rattle.algol_tree.specs.Image as image;
ghost use Rattle.algol_tree.specs.Image.{stmt as plain};

use algol_tree::{
    Decl, EventAct, EventName, Expr, Kind, List, Named, Pair, PhraseText, Spot, Stmt,
};

pub(crate) fn empty() -> Stmt
    ensures { plain result ≡ trees.empty }
{
    Stmt::Empty
}

pub(crate) fn going(label: Named) -> Stmt
    ensures { plain result ≡ trees.go_to label }
{
    Stmt::GoTo(label)
}

pub(crate) fn acting(act: EventAct, event: EventName) -> Stmt
    ensures { plain result ≡ trees.event act event }
{
    Stmt::Event(act, event)
}

pub(crate) fn writing(file: Named, spot: Spot, phrases: List<PhraseText>, items: List<Expr>) -> Stmt
    ensures { plain result ≡ trees.write file spot phrases (image.exprs items) }
{
    Stmt::Write(file, spot, phrases, items)
}

pub(crate) fn arrays(kind: Kind, names: List<Named>, pairs: List<Pair>) -> Decl
    ensures { image.decl result ≡ trees.arrays kind names (image.pairs pairs) }
{
    Decl::Arrays(kind, names, pairs)
}

pub(crate) fn pair(low: i64, high: Expr) -> Pair
    ensures { image.pair result ≡ record { low = low; high = image.expr high } }
{
    Pair { low, high }
}
