//! The rules of RDFa 1.1 on finished trees: which triples the elements of a page give, and in which order they are
//! written.
//!
//! Definitions are in `specs/`. Each function here is a law about them, and does nothing when it is called.
#![tactic(auto)]

ghost use Rattle.rx_rdfa.specs.Common.{CopiesPatterns, LeadsAlong, NumbersOneToOne, Term, same_node, Bnode, Owner, same_bnode, CallsRead, FramesAreContexts, ReadingMakes, MadeRenames, TablesAreLists, WrittenDenotes};
ghost use Rattle.rx_rdfa.specs.Local.{ListsAreLocal};
ghost use Rattle.rx_rdfa.specs.Made.{MadeIsRaw};
ghost use Rattle.rx_rdfa.specs.Proper.{LiteralsAreProper};

/// The list of a tree's triples has those of its set, and no others.
pub fn made_is_raw()
    ensures { MadeIsRaw }
{}

/// The triples that are written of a tree denote the graph that RDFa's rules give it, with its blank nodes renamed one
/// to one.
pub fn written_denotes()
    ensures { WrittenDenotes }
{}

/// Under the model's names the set of the copied list is the patterned set of the list.
pub fn copying_follows_patterns()
    ensures { CopiesPatterns same_bnode }
{}

/// Under these names the test of what live copy triples lead to is that of the relation.
pub fn pairs_lead_along()
    ensures { LeadsAlong (same_node same_bnode) }
{}

/// Numbering renames these names one to one.
pub fn numbering_renames()
    ensures { NumbersOneToOne same_bnode }
{}

/// No literal that is written of a tree is typed xsd:string.
pub fn literals_are_proper()
    ensures { LiteralsAreProper }
{}

/// The lists of an owner have no entry from outside its element.
pub fn lists_are_local()
    ensures { ListsAreLocal }
{}

/// Reading a tree from left to right, with a frame for each open element and a slot for each value that is still to
/// come, makes the list of its triples.
pub fn reading_makes_the_list()
    ensures { ReadingMakes }
{}

/// The calls for a tree are its reading.
pub fn calls_read_the_tree()
    ensures { CallsRead }
{}

/// After any front of calls there is one frame for each open element, and the innermost hands on the context of its
/// children.
pub fn frames_are_contexts()
    ensures { FramesAreContexts }
{}

/// A table that grows by one item or touch at a time gives an owner's lists.
pub fn tables_are_lists()
    ensures { TablesAreLists Owner (Term Bnode) }
{}

/// Where blank nodes and owners have other names, each its own, the list of a tree and what its reading makes are the
/// model's list with these names.
pub fn made_renames()
    ensures { MadeRenames }
{}
