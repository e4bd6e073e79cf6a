//! Paths: the indirections from the root down; the last is the current one.

ghost use Rattle.std.specs.Prelude.{◌≡◌};
ghost use Rattle.trie_parts.specs.Beneath.machine_model.specs.Paths.{current, above, is_below_root, depth_of};

use nodes::Ref;

/// The last indirection.
pub fn current(path: &[Ref]) -> Ref
    ensures { result ≡ current path.now }
{
    path.last().copied().unwrap_or(Ref::default())
}

/// The path without the last indirection.
pub fn above(path: &[Ref]) -> &[Ref]
    ensures { result.now ≡ above path.now }
{
    &path[..path.len().saturating_sub(1)]
}

/// Whether the last indirection isn't the root.
pub fn is_below_root(path: &[Ref]) -> bool
    ensures { result ≡ is_below_root path.now }
{
    path.len() > 1
}

/// The depth of the last indirection: the root's is 0.
pub(crate) fn depth_of(path: &[Ref]) -> usize
    ensures { result ≡ depth_of path.now }
{
    path.len().saturating_sub(1)
}
