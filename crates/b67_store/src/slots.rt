// Lists by number, in which nothing stands where nothing is open.
ghost use Rattle.std.specs.Prelude.{◌≡◌, option_copied};
ghost use Rattle.b67_store.specs.Store.{at_number};

/// What is open at a number.
#[inline(always)]
pub fn open_at<T>(slots: &Vec<Option<T>>, number: usize) -> Option<&T>
    ensures { option_copied result ≡ at_number slots.now.items number }
{
    slots.get(number)?.as_ref()
}
