//! How a page is read from its first byte to its last: the tokens of a page nest one after another, and each byte list
//! has exactly one of these, a tree or one fault.
//!
//! The tables here are a means, as those of `rx_reader`: laws tie them to the grammar, and the code of the layers above
//! does what they say.
#![tactic(auto)]

ghost use Rattle.rx_grammar.specs.Laws.{NotBoth, OneFault, OneToken, OneTree, PageOrFault};
ghost use Rattle.rx_pages.specs.Fronts.{NothingUnfinished, ReadsWhatIsUnderway, UnfinishedFollowsFront};
ghost use Rattle.rx_pages.specs.Laws.{FaultsAreDecided, FaultsFollowFronts, FaultsStay, FindsEachFault, FindsOnlyFaults, FrontsClose, FrontsLead, FrontsStand, FrontsTell, OnePlace, PagesGoOn, ReadsEachPage, ReadsEachToken, ReadsOnlyPages, SpellsEachToken, UnfinishedGoesOn};

/// A byte list has at most one tree.
pub fn one_tree()
    ensures { OneTree }
{}

/// In one syntax and content at most one front of a list of characters spells a token, and it spells one token only.
pub fn one_token()
    ensures { OneToken }
{}

/// Characters that spell a token are read as it.
pub fn reads_each_token()
    ensures { ReadsEachToken }
{}

/// What is read as a token, inside of open elements, spells it.
pub fn spells_each_token()
    ensures { SpellsEachToken }
{}

/// Inside of open elements exactly the characters that begin a token, and aren't yet one, go on.
pub fn unfinished_goes_on()
    ensures { UnfinishedGoesOn }
{}

/// Behind whole tokens the last character has a fault exactly where it is refused, where it ends a token that doesn't
/// nest, or where it is the `>` of a `]]>` in text of XHTML.
pub fn faults_are_decided()
    ensures { FaultsAreDecided }
{}

/// Tokens that can stand at the front of a page lead to its open elements.
pub fn fronts_lead()
    ensures { FrontsLead }
{}

/// Spelled tokens that lead to open elements can stand at the front of a page.
pub fn fronts_stand()
    ensures { FrontsStand }
{}

/// A page goes on from each of its fronts: the whole tokens of the front are its first ones, and the others lead from
/// the front's open elements to the page's end.
pub fn pages_go_on()
    ensures { PagesGoOn }
{}

/// The reader of bytes reads each page to its end, and tells its tree.
pub fn reads_each_page()
    ensures { ReadsEachPage }
{}

/// The reader of bytes finds each fault of the grammar.
pub fn finds_each_fault()
    ensures { FindsEachFault }
{}

/// A byte list with a tree has no fault.
pub fn not_both()
    ensures { NotBoth }
{}

/// A byte list has one fault at most.
pub fn one_fault()
    ensures { OneFault }
{}

/// A byte list has a tree or a fault.
pub fn page_or_fault()
    ensures { PageOrFault }
{}

/// The reader of bytes reads pages alone to their ends, each to its tree.
pub fn reads_only_pages()
    ensures { ReadsOnlyPages }
{}

/// The reader of bytes finds faults of the grammar alone.
pub fn finds_only_faults()
    ensures { FindsOnlyFaults }
{}

/// A fault that a byte decides stays, whatever follows that byte: no page begins with the bytes through it.
pub fn faults_stay()
    ensures { FaultsStay }
{}

/// The front of a page, closed from the innermost open element on, is a page, but for the limits of tag and page.
pub fn fronts_close()
    ensures { FrontsClose }
{}

/// What the front of a page tells, it tells first when it is closed, and after that no more than ends, and the start of an
/// empty root where none has begun.
pub fn fronts_tell()
    ensures { FrontsTell }
{}

/// The front of a page has one line of open elements and one phase, whatever follows it.
pub fn one_place()
    ensures { OnePlace }
{}

/// The bytes before the token of a fault are the front of a page, so that they are a page once they are closed.
pub fn faults_follow_fronts()
    ensures { FaultsFollowFronts }
{}

/// Exactly the bytes that are underway are read without a fault: whole tokens at the front of a page, what begins one more,
/// and what begins a character. The open elements, the phase, and what is unfinished are those of the grammar.
pub fn reads_what_is_underway()
    ensures { ReadsWhatIsUnderway }
{}

/// Nothing is unfinished exactly behind the front of a page, with its open elements and its phase.
pub fn nothing_unfinished()
    ensures { NothingUnfinished }
{}

/// What stands before an unfinished token is the front of a page, with the same open elements and phase, whatever follows.
pub fn unfinished_follows_front()
    ensures { UnfinishedFollowsFront }
{}
