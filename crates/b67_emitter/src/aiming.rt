//! Branches whose target is set when it is known.

ghost use Rattle.std.specs.Prelude.{◌≡◌, ◌≤◌, length, take, drop};
ghost use Rattle.b67_segment.specs.Operators.{size};
ghost use Rattle.b67_templates.specs.Emitting.{AreExits};
ghost use Rattle.b67_emitter.specs.Aiming.{Aimed};

use b67_segment::Builder;

/// Lets the branches at these places go to the place where the next operator will stand.
pub fn aim(out: &mut Builder, branches: &[u16])
    requires { AreExits out.old.operators branches.now 0 (size out.old.operators) }
    ensures { Aimed branches.now out.old out.new }
{
    let target = out.place();
    'branches: for branch in branches {
        out.patch(*branch, target);
    }
}

/// Aims the exits from this one on as [`aim`] does, and takes them off the list.
pub fn aim_exits(out: &mut Builder, exits: &mut Vec<u16>, first: usize)
    requires list { first ≤ length exits.old.items }
    requires branches { AreExits out.old.operators (drop first exits.old.items) 0 (size out.old.operators) }
    ensures aimed { Aimed (drop first exits.old.items) out.old out.new }
    ensures list { exits.new.items ≡ take first exits.old.items }
{
    aim(out, &exits[first..]);
    exits.truncate(first);
}
