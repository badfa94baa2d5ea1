//! The names in force at the open elements of a page that is checked.
ghost use Rattle.std.specs.Prelude.{◌≡◌, ◌∷◌, [], false, None};
ghost use Rattle.rx_rdfa.specs.Refusals.{is_relative};
ghost use Rattle.rx_tags.specs.Seen.{tag_seen};
ghost use Rattle.rx_rdfa.specs.Pages.{token_tag};
ghost use Rattle.rx_curie.specs.Given.{own_vocabulary};
ghost use Rattle.rx_nest.specs.Nests.{tag_shown};
ghost use Rattle.rx_nest.specs.Signs.{begun, finished};
ghost use Rattle.rx_nest.specs.Listening.{MayHear};
ghost use Rattle.rx_walk.specs.Accepting.{AcceptsOn, CheckHears, accepts_at};
ghost use Rattle.rx_walk.specs.Courses.{BelowLine};
ghost use Rattle.rx_walk.specs.Refused.{refused_at};
ghost use Rattle.rx_walk.specs.RefusalLaws.{refusal_laws};
ghost use Rattle.rx_walk.specs.Settings.{Setting, way_of};

use rx_curie::refusal_below;
use rx_names::{Attributes, Names};
use rx_nest::{Event, Fault, Listener, Stop, Tag};

/// What a check keeps of the open elements: neither what they say nor their text.
#[derive(Drop)]
pub(crate) struct CheckingListener {
    pub(crate) names: Names,
}

/// The fault for which the start tag is refused, which has these attributes and its declarations among the names.
pub(crate) fn fault_of(tag: &Tag<'_>, attributes: &Attributes<'_>, names: &Names) -> Option<Fault>
    requires { attributes.now ≡ token_tag (tag_seen tag.now) }
    ensures line { BelowLine names.now (token_tag (tag_seen tag.now)) (λ above. result ≡ refused_at names.now.context above (begun (tag_shown tag.now))) }
    ensures own { result ≡ None → is_relative (own_vocabulary (token_tag (tag_seen tag.now))) ≡ false }
{
    match refusal_below(attributes, &names.view()) {
        Some(kind) => Some(Fault {
            kind,
            token: tag.token,
            at: tag.at,
        }),
        None => None,
    }
}

impl CheckingListener {
    fn begin(&mut self, tag: &Tag<'_>) -> Result<(), Stop>
        ensures { CheckHears self.old (begun (tag_shown tag.now) ∷ []) result self.new }
    {
        let attributes = Attributes::of(tag);
        self.names.push_of(&attributes)?;
        match fault_of(tag, &attributes, &self.names) {
            Some(fault) => Err(Stop::Fault(fault)),
            None => Ok(()),
        }
    }

    fn finish(&mut self)
        requires { MayHear way_of accepts_at self.old (finished ∷ []) }
        ensures { AcceptsOn self.old (finished ∷ []) self.new }
    {
        self.names.pop();
    }
}

impl Listener for CheckingListener {
    ghost Setting = { Setting };

    ghost way = { way_of };

    ghost knows = { accepts_at };

    ghost idle = { λ _. Unit {0} };

    #[inline]
    fn hear(&mut self, event: Event<'_>) -> Result<(), Stop> {
        match event {
            Event::More | Event::Skipped => Ok(()),
            Event::Begin(tag) => self.begin(&tag),
            Event::Text(_text) => Ok(()),
            Event::Finish => {
                self.finish();
                Ok(())
            }
        }
    }

    ghost accepts = { λ setting scope signs accepts. accepts.accepted };

    ghost refuses = { λ setting. refusal_laws setting.context };
}
