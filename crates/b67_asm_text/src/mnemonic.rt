//! The operators by their names.

ghost use Rattle.std.specs.Prelude.{◌≡◌, ◌++◌, option_to_list, IfOk, OnOk};
ghost use Rattle.b67_ops.specs.Codes.{kind_with};
ghost use Rattle.b67_asm_text.specs.Mnemonics.{kind_named, named_among, operators};

use b67_ops::OperatorKind;
use std::alloc::{AllocError, Global};

/// How many codes there are.
const CODES: u16 = 256;

/// Appends the operator that has this code, if there is one.
fn push_kind(kinds: &mut Vec<OperatorKind>, code: u8) -> Result<(), AllocError>
    ensures { OnOk result (kinds.new.items ≡ kinds.old.items ++ option_to_list (kind_with code)) }
{
    if let Some(kind) = OperatorKind::with_code(code) {
        kinds.push(kind)?;
    }
    Ok(())
}

/// The operators of the machine, in the order of their codes.
pub(crate) fn operators(alloc: Global) -> Result<Vec<OperatorKind>, AllocError>
    ensures { IfOk result (λ kinds. kinds.items ≡ operators) }
{
    let mut kinds = Vec::new(alloc);
    'codes: for code in 0..CODES {
        push_kind(&mut kinds, code as u8)?;
    }
    Ok(kinds)
}

/// The operator of these that has this name.
fn named_among(name: &[u8], kinds: &[OperatorKind]) -> Option<OperatorKind>
    ensures { result ≡ named_among name.now kinds.now }
{
    'kinds: for kind in kinds {
        if kind.name().as_bytes() == name {
            return Some(*kind);
        }
    }
    None
}

/// The operator that has this name, where these are the operators of the machine.
#[tactic(auto, unfolding(crate::specs::Mnemonics::kind_named))]
pub(crate) fn kind_named(name: &[u8], kinds: &[OperatorKind]) -> Option<OperatorKind>
    requires { kinds.now ≡ operators }
    ensures { result ≡ kind_named name.now }
{
    named_among(name, kinds)
}
