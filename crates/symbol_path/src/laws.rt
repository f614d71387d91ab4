//! Laws of the definitions. Each function does nothing, and its contract is a law, which the check
//! proves.

ghost use Rattle.std.specs.Prelude.{◌≡◌, ◌*◌, ◌<◌, ℕ, ℤ, List, Bool, length};
ghost use Rattle.symbol_path.specs.declared.kinds.Kind.{Kind};
ghost use Rattle.chip_core.specs.Agreement.{agreement};
ghost use Rattle.symbol_path.specs.SentOrder.{shape_of, size, address, place, sent, gathered};

/// A frame sends each of its repeated symbols exactly once: every repeated symbol is sent at
/// exactly one place.
pub fn order_is_a_permutation()
    ensures below { (kind : Kind) (i : ℕ) → i < size (shape_of kind) →
        address (shape_of kind) i < size (shape_of kind) }
    ensures once { (kind : Kind) (i j : ℕ) →
        i < size (shape_of kind) →
        j < size (shape_of kind) →
        address (shape_of kind) i ≡ address (shape_of kind) j →
        i ≡ j }
    ensures each { (kind : Kind) (a : ℕ) →
        a < size (shape_of kind) →
        (i : ℕ) × (i < size (shape_of kind)) × (address (shape_of kind) i ≡ a) }
{}

/// The score of gathered soft values against code symbols equals the score of the soft values
/// against the symbols that are sent for them.
pub fn gathering_keeps_agreement()
    ensures { (kind : Kind) (repeats : ℕ) (softs : List ℤ) (code : List Bool) →
        length softs ≡ size (shape_of kind) →
        length code * repeats ≡ size (shape_of kind) →
        agreement softs (sent (shape_of kind) repeats code)
        ≡ agreement (gathered (shape_of kind) repeats softs) code }
{}
