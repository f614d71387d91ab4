//! Laws of the definitions: each function does nothing, and its contract is the law.

ghost use Rattle.std.specs.Prelude.{◌≡◌, cond, Bool, List, [], ◌∷◌, ◌++◌, Some};
ghost use Rattle.quality_bits.specs.Capsules.{capsule, continued, completed};
ghost use Rattle.quality_bits.specs.Pieces.{Piece, capsule_ending, under_way};
ghost use Rattle.quality_bits.specs.declared.kind.Kind.{Kind as TheKind};
ghost use Rattle.chip_core.specs.declared.check_form.CheckForm.{CheckForm as TheForm};

/// A capsule has only one body.
pub fn capsule_has_one_body()
    ensures { (kind : TheKind) (form : TheForm) (a b : List Bool) →
        capsule kind form a ≡ capsule kind form b → a ≡ b }
{}

/// The effect of another piece on a stream: the capsule that ends in it and the open capsule after
/// it follow from the open capsule before it, or from no bits if it starts a message.
pub fn one_more_piece()
    ensures under_way { (pieces : List Piece) (p : Piece) →
        under_way (pieces ++ p ∷ []) ≡
        continued (cond p.starts (Some []) (under_way pieces)) p.body }
    ensures capsule { (pieces : List Piece) (p : Piece) →
        capsule_ending (pieces ++ p ∷ []) ≡
        completed (cond p.starts (Some []) (under_way pieces)) p.body }
{}
