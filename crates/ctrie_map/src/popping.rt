//! The call that takes any one key out, for work lists.

ghost use Rattle.std.specs.Prelude.{IfOk, IfErr, ◌≢◌, Err};
ghost use Rattle.ctrie_map.specs.declared.errors.MapError.TheVariants.{Full};
ghost use Rattle.ctrie_map.specs.Changes.{Changes, HasLife, IsAlone};
ghost use Rattle.ctrie_map.specs.Costs.{WorksUpTo, work_of_a_change};
ghost use Rattle.ctrie_map.specs.Popping.{RefusesPop};
ghost use Rattle.ctrie_map.specs.Reading.{IsOneOf, without};

use crate::errors::MapError;
use crate::handle::Handle;
use crate::map::Map;

impl Map {
    /// Takes a key out, whichever is found first: the key with the value that it had, or none exactly where no key has a
    /// value. It is refused as `remove` of such a key is; where no key has a value, as `remove` of key 0 is.
    pub fn pop(&mut self, handle: Handle) -> Result<Option<(u64, u64)>, MapError>
        ensures done { IfOk result (λ popped. HasLife self.old × Changes self.old handle (λ m. IsOneOf m popped) (without popped) self.new) }
        ensures refused { IfErr result (RefusesPop self.old handle self.new) }
        ensures goes_on { IsAlone self.old → result ≢ Err Full }
        ensures work { WorksUpTo work_of_a_change self.old self.new }
    {
        let first = self.first(handle)?;
        let (key, _) = first.unwrap_or((0, 0));
        let _ = self.remove(handle, key)?;
        Ok(first)
    }
}
