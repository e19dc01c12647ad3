//! The words that say how the text of a circuit is made: they follow the two files of `rtl`.

ghost use Rattle.std.specs.Prelude.{◌≡◌, ◌∷◌, []};
ghost use Rattle.tta_inspect.specs.Marks.{marked, plain_module, with_feature, with_mark};

use crate::view::CircuitView;
use tta_header::Features;
use tta_rtl::Rom;

/// The module of a circuit with the words of the code in it, which only carries its code out.
pub fn plain_module() -> CircuitView
    ensures { result ≡ plain_module }
{
    CircuitView::Module {
        rom: Rom::Text,
        features: Features {
            faults: false,
            modules: false,
        },
    }
}

/// The module that does one thing more, if a word asks for that.
fn with_feature(features: Features, mark: &str) -> Option<Features>
    ensures { result ≡ with_feature features mark.now }
{
    if mark == "faults" && !features.faults {
        return Some(Features {
            faults: true,
            ..features
        });
    }
    if mark == "modules" && !features.modules {
        return Some(Features {
            modules: true,
            ..features
        });
    }
    None
}

/// The view with one word more behind its two files: what the module does comes before where its code is.
pub fn with_mark(view: CircuitView, mark: &str) -> Option<CircuitView>
    ensures { result ≡ with_mark view mark.now }
{
    let CircuitView::Module {
        rom: Rom::Text,
        features,
    } = view
    else {
        return None;
    };
    if mark == "rom=file" {
        return Some(CircuitView::Module {
            rom: Rom::File,
            features,
        });
    }
    if mark == "rom=words" && !features.faults && !features.modules {
        return Some(CircuitView::CodeFile);
    }
    let features = with_feature(features, mark)?;
    Some(CircuitView::Module {
        rom: Rom::Text,
        features,
    })
}

/// The view that one such word asks for.
pub fn marked_once(mark: &str) -> Option<CircuitView>
    ensures { result ≡ marked plain_module (mark.now ∷ []) }
{
    with_mark(plain_module(), mark)
}

/// The view that two of them ask for.
pub fn marked_twice(first: &str, second: &str) -> Option<CircuitView>
    ensures { result ≡ marked plain_module (first.now ∷ second.now ∷ []) }
{
    with_mark(marked_once(first)?, second)
}

/// The view that three of them ask for.
pub fn marked_thrice(first: &str, second: &str, third: &str) -> Option<CircuitView>
    ensures { result ≡ marked plain_module (first.now ∷ second.now ∷ third.now ∷ []) }
{
    with_mark(marked_twice(first, second)?, third)
}
