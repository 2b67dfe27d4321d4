// Rows of events, by name and in the order of time.
ghost use Rattle.std.specs.Prelude.{◌≡◌, [], map, Some, string_bytes, slice_index_or};
ghost use Rattle.wording.specs.Rows.{row};

use std::fmt;

// The name of that number, nothing if there are not as many.
pub fn name_of(names: &[String], event: usize) -> &str
    ensures { result.now ≡ slice_index_or (map string_bytes names.now) event [] }
{
    names.get(event).map_or("", |name| name.as_str())
}

// Events with the latest first, and the names of all events.
#[derive(Clone, Copy)]
pub struct Row<'a> {
    pub names: &'a [String],
    pub events: &'a [u16],
}

impl fmt::Display for Row<'_> {
    ghost output = { λ x. Some (row (map string_bytes x.names.now) x.events.now) };

    fn fmt<W: fmt::Write>(&self, f: &mut fmt::Formatter<W>) -> fmt::Result {
        if self.events.is_empty() {
            return write!(f, " nothing");
        }
        for event in self.events.iter().rev() {
            let name = name_of(self.names, *event as usize);
            write!(f, " {name}")?;
        }
        Ok(())
    }
}
