//! Laws of the rows. Each function does nothing, and its contract is a law, which the check proves.

ghost use Rattle.walsh.specs.Walsh.{AreOrthogonalRows};

/// Over 64 chips a row agrees with itself at every chip, and with another row at exactly half of
/// them.
pub fn rows_are_orthogonal()
    ensures { AreOrthogonalRows }
{}
