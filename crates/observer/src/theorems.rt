// That signs can be followed one after the other: without its proof the crate is not proved.
ghost use Rattle.observer.specs.Entry.{LeftTaken};

// A memory that was left after a sign is not turned away with the next.
pub fn left_taken()
    ensures { LeftTaken }
{}
