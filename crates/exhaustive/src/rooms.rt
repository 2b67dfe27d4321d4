// How much room `judge` is lent.

// The least room for so many states.
pub fn least_room(states: u16) -> usize {
    let states = usize::from(states);
    8 * states * states
}

// The first so many numbers, or all if there are not so many.
pub fn first_part(room: &mut [u16], length: usize) -> &mut [u16] {
    let end = length.min(room.len());
    &mut room[..end]
}
