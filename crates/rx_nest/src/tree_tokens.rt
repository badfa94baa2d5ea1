//! What a token says of the tree.
ghost use Rattle.std.specs.Prelude.{◌≡◌};
ghost use Rattle.rx_nest.specs.TreeTokens as tree_token;

use crate::lines::{OpenElements, Refused, TagAction, TagEffect};
use rx_grammar::Fault;
use rx_scan::Token;
use rx_tags::{Stop, Tag};

/// What was heard: nothing yet, nothing of the tree, text of it, or a tag.
#[derive(Clone, Copy, Debug, PartialEq, Eq)]
pub(crate) enum TreeToken {
    More,
    Skipped,
    Text,
    Tag(TagEffect),
}

/// What a step does: an event without what it lends.
#[derive(Clone, Copy, Debug, PartialEq, Eq)]
pub(crate) enum EventKind {
    More,
    Begin,
    Text,
    Finish,
    Skipped,
}

/// What the last tag still tells: so many elements end, and then its own.
#[derive(Clone, Copy, Debug, PartialEq, Eq)]
pub(crate) struct PendingEvents {
    pub(crate) ends: usize,
    pub(crate) own: Option<TagAction>,
}

impl PendingEvents {
    /// Nothing is owed.
    pub(crate) const NONE: PendingEvents = PendingEvents { ends: 0, own: None };
}

impl OpenElements {
    /// Takes the token.
    pub(crate) fn take_token(&mut self, token: Token<'_>) -> Result<TreeToken, Stop>
        ensures { tree_token.TakesToken self.old token.entry result self.new }
    {
        match token {
            Token::More => Ok(TreeToken::More),
            Token::Skipped | Token::Doctype => Ok(TreeToken::Skipped),
            Token::Text(_) if self.says_text() => Ok(TreeToken::Text),
            Token::Text(_) => Ok(TreeToken::Skipped),
            Token::Start(tag) | Token::End(tag) => self.take_tag(&tag),
        }
    }

    fn take_tag(&mut self, tag: &Tag<'_>) -> Result<TreeToken, Stop>
        ensures { tree_token.TakesTagToken self.old tag.now result self.new }
    {
        match self.take(tag) {
            Ok(told) => Ok(TreeToken::Tag(told)),
            Err(Refused::Fault(kind)) => Err(Stop::Fault(Fault {
                kind,
                token: tag.token,
                at: tag.at,
            })),
            Err(Refused::NoMemory) => Err(Stop::NoMemory),
        }
    }
}

/// What is done first of a tag's own, and what is owed then.
pub(crate) fn first_own(own: TagAction) -> (EventKind, PendingEvents)
    ensures { result ≡ tree_token.first_own own }
{
    match own {
        TagAction::Nothing => (EventKind::Skipped, PendingEvents::NONE),
        TagAction::Begin => (EventKind::Begin, PendingEvents::NONE),
        TagAction::Finish => (EventKind::Finish, PendingEvents::NONE),
        TagAction::Alone => (
            EventKind::Begin,
            PendingEvents {
                ends: 0,
                own: Some(TagAction::Finish),
            },
        ),
    }
}

/// What is done next of what is owed, and what is owed then.
pub(crate) fn next_owed(owed: PendingEvents) -> Option<(EventKind, PendingEvents)>
    ensures { result ≡ tree_token.next_owed owed }
{
    if owed.ends > 0 {
        let left = PendingEvents {
            ends: owed.ends - 1,
            own: owed.own,
        };
        return Some((EventKind::Finish, left));
    }
    match owed.own {
        Some(own) => next_own(own),
        None => None,
    }
}

// A tag that is hidden tells nothing behind the elements that it ended.
fn next_own(own: TagAction) -> Option<(EventKind, PendingEvents)>
    ensures { result ≡ tree_token.own_next own }
{
    match own {
        TagAction::Nothing => None,
        TagAction::Begin => Some(first_own(TagAction::Begin)),
        TagAction::Finish => Some(first_own(TagAction::Finish)),
        TagAction::Alone => Some(first_own(TagAction::Alone)),
    }
}

/// What is done first of what was heard, and what is owed then.
pub(crate) fn first_of(what: TreeToken) -> (EventKind, PendingEvents)
    ensures { result ≡ tree_token.first_event what }
{
    match what {
        TreeToken::More => (EventKind::More, PendingEvents::NONE),
        TreeToken::Skipped => (EventKind::Skipped, PendingEvents::NONE),
        TreeToken::Text => (EventKind::Text, PendingEvents::NONE),
        TreeToken::Tag(told) if told.ends > 0 => (
            EventKind::Finish,
            PendingEvents {
                ends: told.ends - 1,
                own: Some(told.own),
            },
        ),
        TreeToken::Tag(told) => first_own(told.own),
    }
}
