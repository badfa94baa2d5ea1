//! Microdata on finished pages: which elements are properties of an item, what a property's value is, which items are
//! visited, and the JSON that a page's items come to.
//!
//! Definitions are in `specs/`. Each function here is a law about them, and does nothing when it is called.
#![tactic(auto)]

ghost use Rattle.rx_microdata.specs.Laws.{PropertiesAre, PropertiesRise, ScopesList, ScopesTell};
ghost use Rattle.rx_microdata.specs.VisitLaws.{FaultsInRow, FirstFaultsAre, JsonIsWhole, VisitsAre};

/// The list of an item's properties has the elements that the standard's relation reaches, and no others.
pub fn properties_are()
    ensures { PropertiesAre }
{}

/// The properties of an item stand in tree order, each once.
pub fn properties_rise()
    ensures { PropertiesRise }
{}

/// A start reaches what is below it where the nearest item around that begins before the start.
pub fn scopes_tell()
    ensures { ScopesTell }
{}

/// The properties of an item are the elements with a name of which it is the nearest item around, and those that an
/// element of its itemref reaches: so elements that are no item, have no name and no id are no matter.
pub fn scopes_list()
    ensures { ScopesList }
{}

/// The list of visits has those of the relation, down to the first that is too deep.
pub fn visits_are()
    ensures { VisitsAre }
{}

/// The first fault is that of a visit before which none is faulty.
pub fn first_faults_are()
    ensures { FirstFaultsAre }
{}

/// The first fault of visits in a row is that of the first part, else that of the second, whose count goes on.
pub fn faults_in_row()
    ensures { FaultsInRow }
{}

/// Where no visit is faulty, more room for nesting changes nothing of the JSON.
pub fn json_is_whole()
    ensures { JsonIsWhole }
{}
