// What a stretch of a private part is to its process.
ghost use Rattle.b67_private.specs.Laws.{OperatorsAreOwn, PartsOfValid, StretchesAreOwn};

/// Law: the next operator of a process is plain exactly where it is plain in the process's private part only, and then the
/// new image is the one before with the new part in its place.
pub fn operators_are_own()
    ensures { OperatorsAreOwn }
{}

/// Law: a stretch can begin with the private part of each process that lives in a valid image.
pub fn parts_of_valid_images()
    ensures { PartsOfValid }
{}

/// Law: so many plain operators of the private part of a process are as many of the process, in a valid image: the image after
/// them is the one before with the new part in its place, whose words are counted from the floor before them.
pub fn stretches_are_own()
    ensures { StretchesAreOwn }
{}
