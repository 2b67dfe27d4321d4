// How often each answer came.
use crate::refusals::Rule;
use observer::Word;
use std::fmt;

// How often an answer came that the runs determine, and how often one that they only bound.
#[derive(Clone, Copy)]
struct Count {
    settled: u64,
    one_sided: u64,
}

impl Count {
    const NONE: Count = Count {
        settled: 0,
        one_sided: 0,
    };

    fn add(&mut self, settled: bool) {
        let count = if settled {
            &mut self.settled
        } else {
            &mut self.one_sided
        };
        *count = count.saturating_add(1);
    }

    fn plus(self, other: Count) -> Count {
        Count {
            settled: self.settled.saturating_add(other.settled),
            one_sided: self.one_sided.saturating_add(other.one_sided),
        }
    }
}

// Numbers of events from this one on are counted together.
const MANY: usize = 8;

#[derive(Clone, Copy)]
pub struct Tally {
    bad: Count,
    good: Count,
    either: Count,
    neither: Count,
    outs: [Count; MANY],
    outs_beyond: Count,
    hidden: u64,
    // By the number of the rule; none has 0.
    turned: bare::Tally<5>,
    refused: bare::Tally<6>,
}

impl Tally {
    pub fn new() -> Tally {
        Tally {
            bad: Count::NONE,
            good: Count::NONE,
            either: Count::NONE,
            neither: Count::NONE,
            outs: [Count::NONE; MANY],
            outs_beyond: Count::NONE,
            hidden: 0,
            turned: bare::Tally::new(),
            refused: bare::Tally::new(),
        }
    }

    pub fn add_word(&mut self, word: Word, settled: bool) {
        match word {
            Word::Bad => self.bad.add(settled),
            Word::Good => self.good.add(settled),
            Word::Either => self.either.add(settled),
            Word::Neither => self.neither.add(settled),
        }
    }

    pub fn add_out(&mut self, number: u64, settled: bool) {
        let place = usize::try_from(number).unwrap_or(MANY);
        match self.outs.get_mut(place) {
            Some(count) => count.add(settled),
            None => self.outs_beyond.add(settled),
        }
    }

    pub fn add_hidden(&mut self) {
        self.hidden = self.hidden.saturating_add(1);
    }

    pub fn add_refusals(&mut self, turned: Option<Rule>, refused: Option<Rule>) {
        self.turned.add(turned.map(|rule| rule as u32));
        self.refused.add(refused.map(|rule| rule as u32));
    }

    fn words(&self) -> Count {
        self.bad
            .plus(self.good)
            .plus(self.either)
            .plus(self.neither)
    }

    // Whether at least half of the words were settled.
    pub fn is_mostly_settled(&self) -> bool {
        let words = self.words();
        words.settled >= words.one_sided
    }
}

// Two lines that begin with what is counted.
fn write_count<N: fmt::Display + Drop, W: fmt::Write>(
    f: &mut fmt::Formatter<W>,
    name: N,
    count: Count,
) -> fmt::Result {
    let Count { settled, one_sided } = count;
    writeln!(f, "{name}, settled: {settled}")?;
    writeln!(f, "{name}, one-sided: {one_sided}")
}

fn write_outs<W: fmt::Write>(f: &mut fmt::Formatter<W>, outs: &[Count]) -> fmt::Result {
    for (number, count) in outs.iter().enumerate() {
        write_count(f, format_args!("out in {number}"), *count)?;
    }
    Ok(())
}

fn write_refusals<const N: usize, W: fmt::Write>(
    f: &mut fmt::Formatter<W>,
    taken: &str,
    refused: &str,
    tally: &bare::Tally<N>,
) -> fmt::Result {
    let none = tally.none;
    writeln!(f, "damaged, {taken}: {none}")?;
    for (number, count) in tally.numbers.iter().enumerate().skip(1) {
        writeln!(f, "damaged, {refused} {number}: {count}")?;
    }
    Ok(())
}

impl fmt::Display for Tally {
    fn fmt<W: fmt::Write>(&self, f: &mut fmt::Formatter<W>) -> fmt::Result {
        write_count(f, "bad", self.bad)?;
        write_count(f, "good", self.good)?;
        write_count(f, "either", self.either)?;
        write_count(f, "neither", self.neither)?;
        write_count(f, "all words", self.words())?;
        write_outs(f, &self.outs)?;
        write_count(f, format_args!("out in {MANY} or more"), self.outs_beyond)?;
        let hidden = self.hidden;
        writeln!(f, "hidden, walked and gone round twice: {hidden}")?;
        write_refusals(f, "judge takes it", "judge turns it away by", &self.turned)?;
        write_refusals(f, "follow takes it", "follow refuses by", &self.refused)
    }
}
