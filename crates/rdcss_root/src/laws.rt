//! A law of what actions do to root words.

ghost use Rattle.rdcss_root.specs.Tables.{ActsOnTable};

/// A law: the root words of a machine after an action are those of the table.
pub fn acts_on_table()
    ensures { ActsOnTable }
{}
