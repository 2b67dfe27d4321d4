// Signs as words of digits.
ghost use Rattle.std.specs.Prelude.{◌≡◌};
ghost use Rattle.command.specs.Signs.{sign_of};

use plant::Refusal;

// The sign that a word says, or why the word at this place says none: digits that say more than 255, or anything else than digits.
pub fn read_sign(word: &[u8], place: u64) -> Result<u8, Refusal>
    ensures { result ≡ sign_of place word.now }
{
    if word.is_empty() {
        return Err(Refusal::Text(place));
    }
    // What is past 255 stays so, whatever digits follow. A `fold` would be no plainer: its closure sees no bound on the number and no test of the digit.
    let mut value: u16 = 0;
    for b in word {
        if !b.is_ascii_digit() {
            return Err(Refusal::Text(place));
        }
        value = (10 * value + u16::from(*b - b'0')).min(256);
    }
    if value > 255 {
        return Err(Refusal::Memory(place));
    }
    Ok(value as u8)
}
