// Prices made at random.
use random::Random;

// Some cost nothing, and some the same; the first, which is a fault, is mostly dear, since it often does alone.
pub fn fill_prices(random: &mut Random, prices: &mut [u64]) {
    for (place, price) in prices.iter_mut().enumerate() {
        *price = u64::from(random.below(if place == 0 { 30 } else { 7 }));
    }
}
