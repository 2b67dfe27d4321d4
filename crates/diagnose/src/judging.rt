// Plants judged, a sentence for each.
use crate::worked;
use command::ROOM;
use diagnosability::judge;
use std::env::Args;
use wording::Sentence;

// One line for a plant, behind its label: its sentence on standard output, or why it is turned away on standard error; whether it was judged.
fn print_judged(rt: &HostRuntime, name: &str, label: &str) -> anyhow::Result<bool> {
    let Some(numbers) = worked::find(name) else {
        eprintln!(rt; "{name}: no such plant")?;
        return Ok(false);
    };
    let heap = rt.alloc();
    let names = worked::names(heap)?;
    let mut room = vec![in heap; 0u16; ROOM]?;
    match judge(numbers, room.as_mut_slice()) {
        Ok(verdict) => {
            let sentence = Sentence {
                names: names.as_slice(),
                verdict,
                room: room.as_slice(),
            };
            println!(rt; "{label}{sentence}")?;
            Ok(true)
        }
        Err(refusal) => {
            eprintln!(rt; "{label}{refusal}")?;
            Ok(false)
        }
    }
}

// Whether every plant was judged. Where there are more than one, each line begins with the plant's name.
pub(crate) fn judge_all(rt: &HostRuntime, names: Args) -> anyhow::Result<bool> {
    let many = names.len() > 1;
    let mut all_judged = true;
    for name in names {
        let label = if many {
            format!(in rt.alloc(); "{name}: ")?
        } else {
            String::new(rt.alloc())
        };
        all_judged &= print_judged(rt, name.as_str(), label.as_str())?;
    }
    Ok(all_judged)
}
