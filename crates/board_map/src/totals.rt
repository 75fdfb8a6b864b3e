ghost use Rattle.std.specs.Prelude.{◌≡◌};
ghost use Rattle.toml.specs.View.{table_view};
ghost use Rattle.board_map.specs.Shape.{opening};

use crate::rows::Format;
use toml::Table;

/// What the tables up to one say of it: the format, whether the secret may still be taken, and the
/// sums so far.
#[derive(Clone, Copy, PartialEq, Eq, Debug)]
pub struct Totals {
    pub version: Format,
    pub secret_free: bool,
    pub threads: u32,
    pub steps: u32,
    pub rings: u32,
}

impl Totals {
    /// What is known before the first table.
    pub fn opening(_document: &Table) -> Totals
        ensures { result ≡ opening (table_view _document.now) }
    {
        Totals {
            version: Format::One,
            secret_free: false,
            threads: 0,
            steps: 0,
            rings: 0,
        }
    }
}
