// The rows of cells that are given up.
ghost use Rattle.std.specs.Prelude.{◌≡◌, ◌≢◌, ◌+◌, ◌≤◌, ◌^◌, length};
ghost use Rattle.b67_control.specs.Control.{as_descriptor};
ghost use Rattle.b67_store.specs.Store.{words_of, row_words, closed_at};
ghost use Rattle.b67_linkage.specs.Closing.{rows_without_word, without_row, without_rows, without_array, without_arrays, cells_in_frame, AreShort};

use crate::words::close_row;
use b67_control::Descriptor;
use b67_store::{Core, MOST_COUNTED_WORDS};
use b67_word::{Place, Word};

// Closes the row that a word of a mother's row describes. The mother's own row is left to the caller, so that the words
// after this one can still be read.
fn close_daughter<C: Core>(core: &mut C, mother: u32, word: Word)
    requires { AreShort (C.Core.rows core.old) }
    ensures rows { closed_at (C.Core.rows core.new) mother ≡ closed_at (rows_without_word without_row (as_descriptor word) (C.Core.rows core.old)) mother }
    ensures mother { row_words (C.Core.rows core.new) mother ≡ row_words (C.Core.rows core.old) mother }
    ensures short { AreShort (C.Core.rows core.new) }
    ensures stacks { C.Core.stacks core.new ≡ C.Core.stacks core.old }
{
    let Some(d) = Descriptor::unpack(word) else {
        return;
    };
    if d.copy {
        return;
    }
    if d.address == mother {
        return;
    }
    close_row(core, d.address);
}

// Closes the rows of the descriptors in a mother's row, but for its own. The last is closed first, as it was opened last:
// a store that keeps what is open in the order of its places has least to move then.
fn close_daughters<C: Core>(core: &mut C, mother: u32)
    requires { AreShort (C.Core.rows core.old) }
    ensures rows { closed_at (C.Core.rows core.new) mother ≡ closed_at (without_rows (row_words (C.Core.rows core.old) mother) (C.Core.rows core.old)) mother }
    ensures short { AreShort (C.Core.rows core.new) }
    ensures stacks { C.Core.stacks core.new ≡ C.Core.stacks core.old }
{
    let mut at = row_length(core, mother);
    'words: while 0 < at {
        at -= 1;
        let Some(word) = core.read_row(mother, at) else {
            return;
        };
        close_daughter(core, mother, word);
    }
}

// The number of a row's words, 0 where it is not open.
fn row_length<C: Core>(core: &C, row: u32) -> u32
    requires { AreShort (C.Core.rows core.now) }
    ensures { result ≡ length (row_words (C.Core.rows core.now) row) }
{
    let mut at = 0u32;
    'counting: while at < MOST_COUNTED_WORDS {
        let Some(_) = core.read_row(row, at) else {
            return at;
        };
        at += 1;
    }
    at
}

// Closes the rows that a word in a cell describes.
fn close_cell<C: Core>(core: &mut C, word: Word)
    requires { AreShort (C.Core.rows core.old) }
    ensures rows { C.Core.rows core.new ≡ rows_without_word without_array (as_descriptor word) (C.Core.rows core.old) }
    ensures short { AreShort (C.Core.rows core.new) }
    ensures stacks { C.Core.stacks core.new ≡ C.Core.stacks core.old }
{
    let Some(d) = Descriptor::unpack(word) else {
        return;
    };
    if d.copy {
        return;
    }
    if d.mother {
        close_daughters(core, d.address);
    }
    close_row(core, d.address);
}

/// Closes the rows of the descriptors without the copy bit among the cells of a frame, in their order, where they are
/// open, and before a mother's row those of the descriptors in it.
pub fn close_arrays<C: Core>(core: &mut C, frame: Place, cells: u16)
    requires cells { frame.at + 2 + cells ≤ 2 ^ 16 }
    requires short { AreShort (C.Core.rows core.old) }
    ensures rows { C.Core.rows core.new ≡ without_arrays (cells_in_frame (words_of (C.Core.stacks core.old) frame.stack) frame.at cells) (C.Core.rows core.old) }
    ensures short { AreShort (C.Core.rows core.new) }
    ensures stacks { C.Core.stacks core.new ≡ C.Core.stacks core.old }
{
    let mut index = 0u16;
    'cells: while index < cells {
        let at = Place {
            stack: frame.stack,
            at: frame.at + 2 + index,
        };
        let Some(word) = core.read(at) else {
            return;
        };
        close_cell(core, word);
        index += 1;
    }
}
