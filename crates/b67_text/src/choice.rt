ghost use Rattle.std.specs.Prelude.{◌≡◌};
ghost use Rattle.b67_text.specs.Choices.{either};

use crate::BadText;

/// The first of two readings at one place that succeeds, or the refusal that reaches farther.
pub fn either<T: Copy>(
    first: Result<(T, usize), BadText>,
    second: Result<(T, usize), BadText>,
) -> Result<(T, usize), BadText>
    ensures { result ≡ either first second }
{
    match (first, second) {
        (Err(bad), Err(other)) => Err(BadText {
            byte: bad.byte.max(other.byte),
        }),
        (Err(_), found) => found,
        (found, _) => found,
    }
}
