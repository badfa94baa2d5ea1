//! The elements of a page as they are told: the names in force, and what the evaluator is told of them.
ghost use Rattle.std.specs.Prelude.{◌≡◌, ◌<◌, ◌+◌, ◌∷◌, [], false, map, OnOk, IfOk, IsOk};
ghost use Rattle.rx_rdfa.specs.Common.{chars, is_relative, Chars};
ghost use Rattle.rx_names.specs.Lines as lines;
ghost use Rattle.rx_nest.specs.Nests.{tag_shown};
ghost use Rattle.rx_nest.specs.Signs.{begun, said, finished};
ghost use Rattle.rx_walk.specs.Quiets.{IsIdle};
ghost use Rattle.rx_walk.specs.Courses.{CourseStands, runs_at, way_at, AreFacts, CourseMayHear, HearsOn};
ghost use Rattle.rx_curie.specs.Given.{own_vocabulary};
ghost use Rattle.rx_walk.specs.RefusalLaws.{refusal_laws};
ghost use Rattle.rx_walk.specs.Settings.{Setting};

use crate::origins::Origin;
use crate::scopes::fault_of;
use crate::stages::{PendingBase, Stage};
use rx_base::Sought;
use rx_curie::{Facts, IriMaker};
use rx_names::{Attributes, Context, Names};
use rx_nest::{Event, Listener, Stop, Tag};
use rx_terms::{Iri, NoMemory};
use std::alloc::Global;

/// What is known of a page's elements.
#[derive(Drop)]
pub(crate) struct RdfaListener {
    pub(crate) origin: Origin,
    pub(crate) names: Names,
    /// Makes the IRIs of all tags, so that those that come often are kept once.
    pub(crate) maker: IriMaker,
    /// What the last start tag said, unless that is kept elsewhere. All tags are read into this one value.
    pub(crate) facts: Facts,
    /// How many elements are open.
    pub(crate) count: u32,
    pub(crate) stage: Stage,
}

/// Reads what the start tag with these attributes says into these facts, where neither it nor an element around declares a
/// vocabulary without a scheme.
fn read_facts(
    facts: &mut Facts,
    maker: &mut IriMaker,
    attributes: &Attributes<'_>,
    names: &Names,
) -> Result<(), NoMemory>
    requires own { is_relative (own_vocabulary attributes.now) ≡ false }
    requires vocabulary { is_relative (lines.vocabulary_of names.now) ≡ false }
    ensures { OnOk result (AreFacts names.now attributes.now facts.new) }
{
    facts.read(maker, attributes, &names.view())
}

/// One element more, where a level is left for it.
fn one_more(count: u32, levels: u32) -> u32
    requires { count < levels }
    ensures { result ≡ count + 1 }
{
    count + 1
}

impl RdfaListener {
    /// Before the first element.
    pub(crate) fn new(
        alloc: Global,
        context: Context,
        address: Iri,
        levels: u32,
    ) -> Result<RdfaListener, NoMemory>
        ensures { IfOk result (λ course. CourseStands context address levels course []) }
    {
        let names = Names::new(alloc, context, levels)?;
        let maker = IriMaker::new(alloc)?;
        Ok(RdfaListener {
            origin: Origin {
                alloc,
                address,
                levels,
            },
            names,
            maker,
            facts: Facts::none(),
            count: 0,
            stage: Stage::Seeking(PendingBase {
                sought: Sought::FirstChild,
                queue: Vec::new(alloc),
            }),
        })
    }

    // It stands apart, so that texts and ends, which are told here too, need no room for what a tag says.
    #[inline(never)]
    fn begin(&mut self, tag: &Tag<'_>) -> Result<(), Stop>
        requires { CourseMayHear self.old (begun (tag_shown tag.now) ∷ []) }
        ensures { HearsOn self.old (begun (tag_shown tag.now) ∷ []) result self.new }
    {
        let attributes = Attributes::of(tag);
        self.names.push_of(&attributes)?;
        if let Some(fault) = fault_of(tag, &attributes, &self.names) {
            return Err(Stop::Fault(fault));
        }
        read_facts(&mut self.facts, &mut self.maker, &attributes, &self.names)?;
        self.stage
            .begin(&self.origin, self.count, tag, &mut self.facts)?;
        self.count = one_more(self.count, self.origin.levels);
        Ok(())
    }

    fn text(&mut self, text: &str) -> Result<(), Stop>
        requires { CourseMayHear self.old (map said (chars text.now)) }
        ensures hears { HearsOn self.old (map said (chars text.now)) result self.new }
        ensures quiet { IsIdle self.old.stage → IsOk result × IsIdle self.new.stage }
    {
        self.stage.text(&self.origin, text)?;
        Ok(())
    }

    fn finish(&mut self) -> Result<(), Stop>
        requires { CourseMayHear self.old (finished ∷ []) }
        ensures { HearsOn self.old (finished ∷ []) result self.new }
    {
        self.stage.finish(&self.origin, self.count)?;
        self.names.pop();
        self.count -= 1;
        Ok(())
    }
}

impl Listener for RdfaListener {
    ghost Setting = { Setting × Chars };

    ghost way = { way_at };

    ghost knows = { runs_at };

    ghost idle = { λ course. IsIdle course.stage };

    #[inline(always)]
    fn hear(&mut self, event: Event<'_>) -> Result<(), Stop> {
        match event {
            Event::More | Event::Skipped => Ok(()),
            Event::Begin(tag) => self.begin(&tag),
            Event::Text(text) => self.text(text),
            Event::Finish => self.finish(),
        }
    }

    ghost accepts = { λ made course signs runs. runs.accepted };

    ghost refuses = { λ made. refusal_laws made.0.context };
}
