ghost use Rattle.std.specs.Prelude.{◌≡◌, ◌≢◌, ℕ, Some, Ok, List, [], ◌∷◌, ◌++◌, slice_get};
ghost use Rattle.b67_ops.specs.declared.Operator.{Operator};
ghost use Rattle.b67_ops.specs.declared.Operator.TheVariants.{Branch};
ghost use Rattle.b67_ops.specs.declared.BranchKind.{BranchKind};
ghost use Rattle.b67_segment.specs.Operators.{Placed, StandsAmong, size, aimed_from};
ghost use Rattle.b67_segment.specs.Syllables.{Spells};
ghost use Rattle.b67_segment.specs.Fetching.{fetched, StandsIn};
ghost use Rattle.b67_segment.specs.declared.TheConstants.{MOST_SEGMENT_WORDS, MOST_SEGMENT_SYLLABLES};
ghost use Rattle.b67_segment.specs.declared.code.Segment.{Segment};
ghost use Rattle.b67_segment.specs.declared.code.Code.{Code};

/// The laws of building, as facts on lists of operators. What is appended stands at the end, and stays
/// there under every later call. A branch that is patched stands with its new target, and all else
/// stands as it did.
pub fn operators_stand()
    ensures appended { (ps : List Placed) (level : ℕ) (op : Operator)
        → let more = ps ++ record { level = level; operator = op } ∷ [] in
        StandsAmong more (size ps) level op (size more) }
    ensures kept { (ps more : List Placed) (at level next : ℕ) (op : Operator)
        → StandsAmong ps at level op next → StandsAmong (ps ++ more) at level op next }
    ensures aimed { (ps : List Placed) (at level old target next : ℕ) (kind : BranchKind)
        → StandsAmong ps at level (Branch kind old) next
        → StandsAmong (aimed_from 0 at target ps) at level (Branch kind target) next }
    ensures aside { (ps : List Placed) (at level branch target next : ℕ) (op : Operator)
        → at ≢ branch → StandsAmong ps at level op next
        → StandsAmong (aimed_from 0 branch target ps) at level op next }
{}

/// What stands among the operators of a segment is fetched there, wherever the segment stands in a code.
pub fn operators_are_fetched()
    ensures stands { (ps : List Placed) (code : Code) (segment : Segment)
        (number at level next : ℕ) (op : Operator)
        → slice_get code.segments number ≡ Some segment → Spells ps segment
        → StandsAmong ps at level op next
        → StandsIn code (record { segment = number; place = at }) level op next }
    ensures value { (ps : List Placed) (code : Code) (segment : Segment)
        (number at level next : ℕ) (op : Operator)
        → slice_get code.segments number ≡ Some segment → Spells ps segment
        → StandsAmong ps at level op next
        → fetched code (record { segment = number; place = at }) level ≡ Ok (op, next) }
{}

/// Law: the numbers of this crate, which segments are defined with: the most words by this project's profile, each of six syllables, as
/// docs/MACHINE.md has them.
pub fn numbers_are_told()
    ensures words { MOST_SEGMENT_WORDS ≡ 8192 }
    ensures syllables { MOST_SEGMENT_SYLLABLES ≡ 49152 }
{}
