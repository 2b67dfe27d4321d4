// The functions of `timed` under their names in C, as a static library.
#![tactic(auto)]

#[unsafe(no_mangle)]
pub extern "C" fn timed_follow(
    states: u64,
    arrows: &[u16],
    events: &[u16],
    memory: &mut [u8],
    sign: u64,
) -> u64 {
    timed::timed_follow(states, arrows, events, memory, sign)
}

#[unsafe(no_mangle)]
pub extern "C" fn timed_signs(states: u64, arrows: &[u16], events: &[u16], signs: &[u8]) -> u64 {
    timed::timed_signs(states, arrows, events, signs)
}

#[unsafe(no_mangle)]
pub extern "C" fn timed_judge(
    states: u64,
    arrows: &[u16],
    events: &[u16],
    room: &mut [u16],
) -> u64 {
    timed::timed_judge(states, arrows, events, room)
}

#[unsafe(no_mangle)]
pub extern "C" fn timed_choose(
    states: u64,
    arrows: &[u16],
    events: &[u16],
    candidates: &[u16],
    prices: &[u64],
    marks: &mut [u8],
) -> u64 {
    timed::timed_choose(states, arrows, events, candidates, prices, marks)
}
