//! What holds whatever is started.

ghost use Rattle.b67_going.specs.Laws.{ValidHaveNext};

/// Law: every valid image meets the condition of [`start`](crate::start) on the next process.
pub fn valid_images_have_a_next()
    ensures { ValidHaveNext }
{}
