//! The console: moving forward and back in a schedule, with the cells of the source beside the words of the machine.
//!
//! It never goes back. One walk over the schedule says where each command is answered, and a second one, of the world of the source and the
//! machine side by side, answers the commands in the order of their positions; their texts are put into the order of the commands.
#![tactic(auto)]

ghost use Rattle.b67_console.specs.Laws.{ConsolesHaveOneText, MomentsAreOfOneHistory, TheSameIsShownAgain};

mod leading;
mod moment;
mod moving;
mod telling;
mod texts;

pub use b67_commands::{BadCommands, Command, MOST_COMMANDS, read_commands};
pub use texts::console;

/// Law: a schedule and commands have one text.
pub fn consoles_have_one_text()
    ensures { ConsolesHaveOneText }
{}

/// Law: after `GO a` the same commands show the same again, whatever commands were given before and between.
pub fn the_same_is_shown_again()
    ensures { TheSameIsShownAgain }
{}

/// Law: what is shown of the source and of the machine is of one history: where the code is faithful to the source, the image of a moment has the
/// output, the end and the able processes of its world, and its stacks are within their weights.
pub fn moments_are_of_one_history()
    ensures { MomentsAreOfOneHistory }
{}
