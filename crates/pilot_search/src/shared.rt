//! The word that workers share, and their seats.

use crate::points::Points;
use crate::rule::BestRule;
use crate::view::View;
use atomic_table::{Seat, Table};
use std::alloc::Global;
use std::marker::Model;

/// The workers' shared state: the largest energy that any of them has published, in one word that
/// starts at 0 and only rises, and the points of the codes, which make correlations faster.
///
/// Contracts see which word it is.
#[derive(Drop)]
pub struct Shared {
    pub(crate) table: Table<(), View, (), BestRule, Global>,
    pub(crate) points: Points,
}

impl Model for Shared {
    ghost use Rattle.std.specs.Prelude.{◌≡◌};
    ghost use Rattle.atomic_table.specs.Seated.{TableId, table_id_coded};

    ghost Value = { TableId };

    ghost coded = { table_id_coded };

    ghost view = { λ s. s.table.shared.table_id };

    ghost invariant = { λ s. s.table.shared.table_id.words ≡ 1 };
}

/// A worker's permission to read and raise the shared word. It takes no memory.
///
/// Contracts see which word it is for, and what its worker knows about it: a floor that the word
/// has reached, and a ceiling that it never exceeds.
#[derive(Drop)]
pub struct BestSeat {
    pub(crate) seat: Seat<(), View>,
}

impl Model for BestSeat {
    ghost use Rattle.std.specs.Prelude.{◌≡◌, []};
    ghost use Rattle.pilot_search.specs.Knowledge.{Knowledge, knowledge_coded};

    ghost Value = { Knowledge };

    ghost coded = { knowledge_coded };

    ghost view = { λ s. record {
      word = s.seat.table_id;
      spent = s.seat.me.0.spent;
      fresh = s.seat.me.0.fresh;
      floor = s.seat.me.0.floor;
      ceiling = s.seat.me.0.ceiling;
    } };

    ghost invariant = { λ s. s.seat.me.1 ≡ [] };
}
