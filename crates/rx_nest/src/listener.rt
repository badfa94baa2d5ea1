//! Who listens to a page's elements.
ghost use Rattle.std.specs.Prelude.{◌≡◌, List, true, None, IsOk};
ghost use Rattle.rx_nest.specs.Nests.{event_signs};
ghost use Rattle.rx_nest.specs.Signs.{Sign};
ghost use Rattle.rx_nest.specs.Ways.{Way, IsRefusal};
ghost use Rattle.rx_nest.specs.Listening.{MayHear, HearsMore, is_calm};

use crate::nests::Event;
use rx_tags::Stop;

/// Takes the elements of a page as they are read, and refuses start tags for what they mean, or none.
///
/// A contract sees for which signs of a page it stands, where it was made with a setting. Which start tags are refused, a
/// setting tells.
pub trait Listener {
    /// What it may be made with.
    ghost Setting: { Type 0 };

    /// How a page is read then, and which start tags are refused.
    ghost way: { Setting → Way };

    /// It was made with this setting, and stands for these signs.
    ghost knows: { Setting → Self → List Sign → Type 0 };

    /// It needs no memory for text.
    ghost idle: { Self → Type 0 };

    /// Takes what comes next in the page's tree. A fault is that of a start tag that is refused for what it means.
    fn hear(&mut self, event: Event<'_>) -> Result<(), Stop>
        requires { MayHear way knows self.old (event_signs event) }
        ensures hears { HearsMore way knows self.old (event_signs event.entry) result self.new }
        ensures quiet { is_calm event.entry ≡ true → idle self.old → IsOk result × idle self.new };

    /// None of the signs is refused for which it stands.
    ghost accepts: { (setting : Setting) (listener : Self) (signs : List Sign) → knows setting listener signs → (way setting).refused signs ≡ None };

    /// A setting refuses start tags one after another.
    ghost refuses: { (setting : Setting) → IsRefusal (way setting).refused };
}
