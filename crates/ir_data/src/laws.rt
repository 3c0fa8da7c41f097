// What holds of all images: the function's contract is a law, and its body does nothing.
ghost use Rattle.ir_data.specs.Laws.{ImagesShowMemories};

/// An image has each number of the first memory in its place.
pub fn images_show_memories()
    ensures { ImagesShowMemories }
{}
