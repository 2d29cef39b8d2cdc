ghost use Rattle.std.specs.Prelude.{◌≡◌, None};
ghost use Rattle.hal_values.specs.declared.tables.Tables.{Tables};
ghost use Rattle.exec_model.specs.Moments.{Moment};
ghost use Rattle.exec_model.specs.Settles.{Settles};
ghost use Rattle.exec_model.specs.Settling.{next_change, settle};

/// A law of settling: it ends, in one moment alone, and no row can change then.
pub fn settling_ends()
    ensures ends { (tables : Tables) (m : Moment) → Settles tables m (settle tables m) }
    ensures one { (tables : Tables) (m new : Moment) → Settles tables m new → new ≡ settle tables m }
    ensures rests { (tables : Tables) (m : Moment) → next_change tables (settle tables m) ≡ None }
{}
