// What holds whatever is called.
ghost use Rattle.b67_linkage.specs.Laws.{LiveAreLinked, ClosesAsTheTable};

/// Law: each live process of a valid image meets the condition of the calls, on the image's stacks and rows.
pub fn live_processes_are_linked()
    ensures { LiveAreLinked }
{}

/// Law: the rows that stay where cells are given up are those that the operator table's change leaves.
pub fn rows_close_as_the_table_has_it()
    ensures { ClosesAsTheTable }
{}
