// The worked examples of docs/RULES.md, tried on the book: a line for each, its number and `same` or `differs`.
#![tactic(auto)]

mod books;
mod entries;
mod queues;
mod sessions;
mod start;

use std::io;

fn main(rt: HostRuntime) -> io::Result<()> {
    let examples = books::tried()
        .into_iter()
        .chain(queues::tried())
        .chain([sessions::tried()])
        .chain(entries::tried());
    for (number, same) in (1..16).zip(examples) {
        let verdict = if same { "same" } else { "differs" };
        println!(rt; "{number} {verdict}")?;
    }
    Ok(())
}
