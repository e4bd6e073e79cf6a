//! A law of texts.

ghost use Rattle.scene_svg.specs.Laws.{IsHarmless};

/// A law: an escaped text begins and ends no element, and no value of an attribute.
pub fn is_harmless()
    ensures { IsHarmless }
{}
