//! What was packed comes back.

ghost use Rattle.trie_words.specs.Laws.{NamesComeBack, LinksComeBack, EntriesComeBack, PairsComeBack, HeadersComeBack, RootsComeBack, PinsComeBack};

/// A name is that of its number, whatever stands above its 28 bits.
pub fn names_come_back()
    ensures { NamesComeBack }
{}

/// An indirection is that of its word.
pub fn links_come_back()
    ensures { LinksComeBack }
{}

/// An entry is that of its half of a word.
pub fn entries_come_back()
    ensures { EntriesComeBack }
{}

/// Halves are those of their word.
pub fn pairs_come_back()
    ensures { PairsComeBack }
{}

/// A header is that of its word.
pub fn headers_come_back()
    ensures { HeadersComeBack }
{}

/// What a handle's word says is that of its word.
pub fn roots_come_back()
    ensures { RootsComeBack }
{}

/// What a seat's word says is that of its word.
pub fn pins_come_back()
    ensures { PinsComeBack }
{}
