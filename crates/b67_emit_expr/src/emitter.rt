//! The emitter of expressions.

use crate::naming::append_place;
use crate::placing::place_of;
use crate::values::{applied, called, filled, operand, subscripts};
use algol_tree::{Call, Expr, Variable};
use b67_emitter::{ExprEmitter, Names, aim, append_branch, append_plain};
use b67_ops::{BranchKind, PlainKind};
use b67_segment::Builder;
use std::alloc::{AllocError, Global};

/// Appends the code of expressions.
#[derive(Clone, Copy)]
pub struct Exprs {
    /// Where the exits of an expression are listed while its code is appended.
    pub alloc: Global,
}

impl ExprEmitter for Exprs {
    fn value(&self, e: &Expr, names: &Names, out: &mut Builder) -> Result<(), AllocError> {
        operand(e, names, out, &mut Vec::new(self.alloc))
    }

    fn call(&self, c: &Call, names: &Names, out: &mut Builder) -> Result<(), AllocError> {
        called(c, names, out, &mut Vec::new(self.alloc))
    }

    fn filled(&self, c: &Call, names: &Names, out: &mut Builder) -> Result<(), AllocError> {
        filled(c, names, out, &mut Vec::new(self.alloc))
    }

    fn name(&self, v: &Variable, names: &Names, out: &mut Builder) -> Result<(), AllocError> {
        if v.subs.items().is_empty() {
            append_place(&v.name, names, out)
        } else {
            subscripts(v, names, out, &mut Vec::new(self.alloc))?;
            append_plain(out, PlainKind::Indx)
        }
    }

    fn routine(&self, e: &Expr, names: &Names, out: &mut Builder) -> Result<(), AllocError> {
        let mut exits = Vec::new(self.alloc);
        match place_of(e) {
            None => applied(PlainKind::Retn, e, names, out, &mut exits),
            Some(v) => {
                let to_place = append_branch(out, BranchKind::Brtr)?;
                applied(PlainKind::Retn, e, names, out, &mut exits)?;
                aim(out, &[to_place]);
                self.name(v, names, out)?;
                append_plain(out, PlainKind::Retn)
            }
        }
    }
}
