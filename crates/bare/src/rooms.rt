// The room that an entry is lent, and the rows that it writes at the front.

// What stands at a place of a room that is lent; it is no event.
fn lent_number(place: usize) -> u16 {
    (1_000 + place % 1_024) as u16
}

pub fn fill(room: &mut [u16]) {
    for (place, number) in room.iter_mut().enumerate() {
        *number = lent_number(place);
    }
}

// Whether all from a place on is as it was filled.
pub fn is_unchanged(room: &[u16], first: usize) -> bool {
    room.iter()
        .enumerate()
        .skip(first)
        .all(|(place, number)| *number == lent_number(place))
}

// The rows of these lengths at the front of the room, one behind the other, if they are there and all behind them is as it was filled.
pub fn rows(room: &[u16], lengths: [u64; 4]) -> Option<[&[u16]; 4]> {
    let mut rows = [room; 4];
    let mut rest = room;
    for (row, length) in rows.iter_mut().zip(lengths) {
        let (first, behind) = rest.split_at_checked(usize::try_from(length).ok()?)?;
        *row = first;
        rest = behind;
    }
    let first = room.len().saturating_sub(rest.len());
    is_unchanged(room, first).then_some(rows)
}
