//! A catalogue once nothing is open any more.

ghost use Rattle.std.specs.Prelude.{◌≡◌, IfOk, map, None, Option};
ghost use Rattle.plain_cat.specs.declared.cat.Open.{Open};
ghost use Rattle.log_check.specs.Checks.{shut};

use plain_cat::{Cat, Channels, NoMemory};
use std::alloc::Global;

/// As many channels, with nothing open.
pub(crate) fn closed(alloc: Global, channels: &Channels) -> Result<Channels, NoMemory>
    ensures { IfOk result (λ os. os ≡ map (λ (o : Option Open). None) channels.now) }
{
    let mut shut = Channels::new(alloc);
    for _held in channels.items() {
        shut.push(None)?;
    }
    Ok(shut)
}

/// The catalogue once nothing is open any more.
pub(crate) fn shut(alloc: Global, mut cat: Cat) -> Result<Cat, NoMemory>
    ensures { IfOk result (λ d. d ≡ shut cat) }
{
    cat.opens = closed(alloc, &cat.opens)?;
    Ok(cat)
}
