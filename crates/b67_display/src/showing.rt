// Displays that stay as they are below a level.
ghost use Rattle.std.specs.Prelude.{◌≡◌, ◌≤◌, ◌∷◌, [], take, length, true, None, Some, Ok};
ghost use Rattle.b67_control.specs.Display.{levels, place_at};
ghost use Rattle.b67_table.specs.Look.{look_seen};
ghost use Rattle.b67_table.specs.Chains.{place, linked};
ghost use Rattle.b67_display.specs.Shown.{IsShown, shown_at};

use crate::linked_frame;
use b67_control::Display;
use b67_store::Core;
use b67_word::Place;

// Tests that a display names this place at a level.
fn names(display: &Display, level: u8, place: Place) -> bool
    requires { level ≤ 31 }
    ensures { result ≡ true → place_at display.now level ≡ Some place }
{
    match display.get(level) {
        Some(named) => named.stack == place.stack && named.at == place.at,
        None => false,
    }
}

/// Tests that the display of a frame of this level, whose static link is given, names below that level what this display names there.
pub fn links_as<C: Core>(core: &C, display: &Display, link: Place, level: u8) -> bool
    requires low { 2 ≤ level }
    requires most { level ≤ 31 }
    requires size { length display.now ≡ levels }
    requires begins { take 2 display.now ≡ Some (place 0 0) ∷ None ∷ [] }
    ensures { result ≡ true → (top : Place) → look_seen (C.Core.stacks core.now) (linked top link level) ≡ Ok (shown_at display.now top level) }
{
    let mut link = link;
    let mut below = level - 1;
    'comparing: while below > 1 {
        if !names(display, below, link) {
            return false;
        }
        let mark = match linked_frame(core, link, below) {
            Ok(mark) => mark,
            Err(_) => return false,
        };
        link = Place {
            stack: mark.stack,
            at: mark.displacement,
        };
        below -= 1;
    }
    link.stack == 0
}

/// Names a frame at a level, and nothing above, in a display that names nothing above the level high.
pub fn show(display: &mut Display, top: Place, level: u8, high: u8)
    requires level { level ≤ 31 }
    requires high { high ≤ 31 }
    requires shown { IsShown high display.old }
    ensures { display.new ≡ shown_at display.old top level }
{
    let mut at = high;
    'above: while at > level {
        display.set(at, None);
        at -= 1;
    }
    display.set(level, Some(top));
}
