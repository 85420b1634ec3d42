//! A law of the worked examples.

ghost use Rattle.std.specs.Prelude.{◌≡◌};
ghost use Rattle.rows_sample.specs.Fresh.{fresh as example};
ghost use Rattle.vol_init.specs.declared.layout.Layout.{Layout};
ghost use Rattle.vol_init.specs.Layouts.{fresh};

/// The catalogue of a fresh volume of 1,024 blocks, with clusters of 4 blocks and 64 file numbers, is the one on which the
/// worked examples stand.
pub fn the_worked_volume_is_fresh()
    ensures { fresh (record { cluster = 4; files = 64; blocks = 1024 }) ≡ example }
{}
