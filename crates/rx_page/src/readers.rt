//! What reads a page in pieces.
ghost use Rattle.std.specs.Prelude.{List, ℕ};
ghost use Rattle.rx_nest.specs.Ways.{IsRefusal, Way};
ghost use Rattle.rx_page.specs.Readers.{Feeds, Finishes, IsReadPage};

use rx_walk::Stop;

/// Reads a page's bytes in pieces, for what it gives at the page's end.
///
/// A contract sees which bytes lead to where it stands, where it was made with a setting. Which start tags are refused, a
/// setting tells.
pub trait PageReader {
    /// What it gives.
    type Given;

    /// What it may be made with.
    ghost Setting: { Type 0 };

    /// How a page is read then, and which start tags are refused.
    ghost way: { Setting → Way };

    /// It was made with this setting, and stands where these bytes lead.
    ghost stands: { Setting → Self → List ℕ → Type 0 };

    /// The bytes are a page that gives this.
    ghost gives: { Setting → List ℕ → Self.Given → Type 0 };

    /// Takes the whole piece.
    fn feed(&mut self, piece: &[u8]) -> Result<(), Stop>
        ensures { Feeds way stands self.old piece.now result self.new };

    /// The page's end, and what it gives.
    fn finish(self) -> Result<Self::Given, Stop>
        ensures { Finishes way stands gives self result };

    /// The bytes that it took have no fault.
    ghost shows: { (setting : Setting) (reader : Self) (bytes : List ℕ) → stands setting reader bytes → IsReadPage (way setting) bytes };

    /// A setting refuses start tags one after another.
    ghost refuses: { (setting : Setting) → IsRefusal (way setting).refused };
}
