//! The call that compares two handles' maps.

ghost use Rattle.std.specs.Prelude.{IfOk, IfErr};
ghost use Rattle.ctrie_map.specs.Reading.{Compares, ComparesOf, RefusesComparing, RefusesComparingOf, core_reading};

use crate::errors::MapError;
use crate::handle::Handle;
use crate::map::Map;
use machine_core::{Core, Difference};

impl Map {
    /// The keys of which the two maps have different values, in ascending order, each with its value in the older and in the
    /// newer map. What both share is skipped: where one was copied from the other, the work goes by what was changed since,
    /// and not by what is there. It takes memory for what it compares. Else than for `NoHandle`, only memory is refused.
    pub fn diff(&self, older: Handle, newer: Handle) -> Result<Vec<Difference>, MapError>
        ensures differences { IfOk result (λ differences. Compares self.now older newer differences.items) }
        ensures refused { IfErr result (RefusesComparing self.now older newer) }
    {
        let (older, newer) = (self.name_of(older)?, self.name_of(newer)?);
        differences_in(&self.core, older.core, newer.core)
    }
}

/// The differences of two handles' maps.
fn differences_in(core: &Core, older: u16, newer: u16) -> Result<Vec<Difference>, MapError>
    ensures differences { IfOk result (λ differences. ComparesOf (core_reading core.now.state older (λ shown. shown)) (core_reading core.now.state newer (λ shown. shown)) differences.items) }
    ensures refused { IfErr result (RefusesComparingOf (core_reading core.now.state older (λ shown. shown)) (core_reading core.now.state newer (λ shown. shown))) }
{
    let _ = core.limits();
    Ok(core.differences(older, newer)?)
}
