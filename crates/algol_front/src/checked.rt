//! Programs that are accepted.

ghost use Rattle.std.specs.Prelude.{ℕ, List};
ghost use Rattle.algol_tree.specs.Image.{program as plain};
ghost use Rattle.algol_tree.specs.First.{Source};
ghost use Rattle.algol_scope.specs.Resolved.{AreOf};

use algol_scope::Scopes;
use algol_tree::Program;

/// The program of an accepted source, with its scopes.
#[derive(Drop)]
pub struct Checked {
    pub program: Program,
    pub scopes: Scopes,
    /// Some text is this source.
    pub ghost accepted: { ∥ ((bytes : List ℕ) × Source bytes (plain program)) ∥₁ },
    /// The scopes are this program's.
    pub ghost scoped: { AreOf (plain program) scopes },
}
