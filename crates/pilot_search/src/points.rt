//! The points of the codes as 16-bit numbers, unchanged and turned by a quarter of a circle.

ghost use Rattle.pilot_search.specs.Common.{IsUnit};
ghost use Rattle.std.specs.Prelude.{◌≡◌, length, map, IfOk};
ghost use Rattle.short_code.specs.ShortCode.{pilot_signs};
ghost use Rattle.pilot_search.specs.BySigns.{across};
ghost use Rattle.pilot_search.specs.Lanes.{both};

use chip_core::air::CODE_CHIPS;
use chip_core::{OutOfMemory, Sample};
use short_code::Codes;
use std::alloc::Global;
use std::marker::Model;

/// The points of all 32,768 chips, and the same points turned: for a chip with the signs c and d,
/// the point c + d j and the point -d + c j.
///
/// If i and q are I and Q of a sample, its product with the conjugate of the chip's point has the
/// real part i c + q d and the imaginary part q c - i d. The real part multiplies i and q by the
/// parts of the point, the imaginary part by those of the turned point. All values of this type
/// hold the same points, and contracts see the signs.
#[derive(Drop)]
pub(crate) struct Points {
    straight: Vec<Sample>,
    turned: Vec<Sample>,
}

impl Model for Points {
    ghost use Rattle.std.specs.Prelude.{◌≡◌, List, ℤ, map};
    ghost use Rattle.short_code.specs.ShortCode.{pilot_signs};
    ghost use Rattle.pilot_search.specs.BySigns.{across};
    ghost use Rattle.pilot_search.specs.Lanes.{both};

    ghost Value = { List (ℤ × ℤ) };

    ghost view = { λ points. map both points.straight.items };

    ghost invariant = { λ points. (map both points.straight.items ≡ pilot_signs) ×
        (map both points.turned.items ≡ map across pilot_signs) };
}

/// The point of a chip with these signs.
fn point(signs: (i8, i8)) -> Sample
    requires { IsUnit signs }
    ensures { both result ≡ signs }
{
    Sample {
        i: i16::from(signs.0),
        q: i16::from(signs.1),
    }
}

/// The same point, turned by a quarter of a circle.
fn turned_point(signs: (i8, i8)) -> Sample
    requires { IsUnit signs }
    ensures { both result ≡ across signs }
{
    Sample {
        i: -i16::from(signs.1),
        q: i16::from(signs.0),
    }
}

impl Points {
    /// Computes both tables from that of the codes.
    ///
    /// It allocates 131,072 bytes twice. Nothing else can fail.
    pub(crate) fn of(alloc: Global, codes: &Codes) -> Result<Points, OutOfMemory>
        ensures { IfOk result (λ points. points ≡ pilot_signs) }
    {
        let mut straight = Vec::with_capacity(alloc, CODE_CHIPS as usize)?;
        let mut turned = Vec::with_capacity(alloc, CODE_CHIPS as usize)?;
        for signs in codes.table() {
            straight.push(point(*signs))?;
            turned.push(turned_point(*signs))?;
        }
        Ok(Points { straight, turned })
    }

    /// The points of all chips, in order.
    pub(crate) fn straight(&self) -> &[Sample]
        ensures value { map both result.now ≡ pilot_signs }
        ensures len { length result.now ≡ 32768 }
    {
        &self.straight
    }

    /// The turned points of all chips, in order.
    pub(crate) fn turned(&self) -> &[Sample]
        ensures value { map both result.now ≡ map across pilot_signs }
        ensures len { length result.now ≡ 32768 }
    {
        &self.turned
    }
}
